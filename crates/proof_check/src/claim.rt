use crate::proof_node::ProofNode;
use bit_keys::Range;

/// A pair of a proof. Neither key nor value is copied for a check.
#[derive(Clone, Copy, Debug)]
pub struct Entry<'a> {
    pub key: &'a [u8],
    pub value: &'a [u8],
}

/// What a proof is checked as, whatever its form: entries that are to be all that a map has in a
/// range, and the paths of both ends of the range.
#[derive(Clone, Copy, Debug)]
pub struct Claim<'a> {
    /// The range up to where the entries tell.
    pub reached: &'a Range,
    pub entries: &'a [Entry<'a>],
    pub start: &'a [ProofNode],
    pub end: &'a [ProofNode],
}
