// Numbers and states of views.

/// A view by its number. Numbers are given from 1 on, and 0 is never given.
#[derive(Clone, Copy, Debug, PartialEq, Eq)]
pub struct ViewId {
    pub number: u64,
}

/// What has become of a view.
#[derive(Clone, Copy, Debug, PartialEq, Eq)]
pub enum ViewState {
    /// It may still be committed, once every view below it is.
    Live,
    /// It was committed.
    Committed,
    /// Another view or a direct batch was committed in its place.
    Invalid,
    /// It was closed, or a view on which it stands was, while it was live.
    Closed,
}
