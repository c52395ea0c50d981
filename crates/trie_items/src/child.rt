use bit_keys::Id;

/// A child of a node: the token that leads to it, and its ID.
#[derive(Clone, Copy, Debug, PartialEq, Eq)]
pub struct ChildId {
    pub index: u16,
    pub id: Id,
}
