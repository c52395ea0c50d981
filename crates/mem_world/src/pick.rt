// What a crash leaves.

/// Which image of its files a disk is to leave.
#[derive(Clone, Copy, Debug, PartialEq, Eq)]
pub enum Pick {
    /// The files as they read.
    Kept,
    /// The files as they were after their last successful syncs.
    Lost,
    /// The files at their greatest lengths. A byte that the crash rule leaves open is the lowest
    /// eight bits of this number plus the byte's place.
    Noise(u64),
}
