// Why a line is not understood.

/// Why a line is not understood: the first of these down to `Count`, then that of the leftmost word, and `Bounds` last.
#[derive(Clone, Copy, Debug, PartialEq, Eq)]
pub enum LineKind {
    /// It has more than 20,000,000 bytes.
    TooLong,
    /// Its first word is none of its input's.
    Word,
    /// It has another number of words than its first word asks for.
    Count,
    /// A word that stands for bytes is not hexadecimal.
    Hex,
    /// A key has more than 256 bytes, or a bound of a range more than 257.
    LongKey,
    /// A value has more than 262,144 bytes.
    LongValue,
    /// A word that stands for a number is no decimal number of at most 64 bits, or asks for less or more of a range
    /// than may be asked for.
    Number,
    /// A word that stands for the store or a view is neither `db` nor such a number.
    Place,
    /// A word that stands for a root is none: neither 64 hexadecimal digits nor, as its input has them, `empty`, `now`
    /// or `~` with such a number.
    Root,
    /// The end of a range is below its start.
    Bounds,
    /// There was no memory.
    NoMemory,
}
