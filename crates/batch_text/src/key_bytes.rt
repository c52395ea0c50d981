// The bytes of a key, as a line gives them.
use smallvec::SmallVec;

/// The bytes of a key: up to 32 of them stand in place, so that an ordered map finds its keys beside one another.
pub type KeyBytes = SmallVec<u8, 32>;
