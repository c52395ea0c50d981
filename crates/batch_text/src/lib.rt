//! Lines of text: what a line asks for, or why it is not understood, and a reader that gives the
//! lines of a source one after another. A key, a bound, a number or a root alone can be read of a word too.
//!
//! It stands on `mdb_base`, on `bit_keys` for IDs and ranges, and on the words of `text_model`. A `LineFault` says which line is not
//! understood, and why; a `ReaderFault` says why no line is given. Which lines an input may have is
//! its `InputKind`. Lines end at newlines, and bytes are not asked to be UTF-8.
#![tactic(auto)]

mod digits;
mod hex_words;
mod key_bytes;
mod line;
mod line_kind;
mod number_words;
mod range_words;
mod reader;
mod root_words;
mod words;

pub use hex_words::{KeyWord, read_key_word};
pub use key_bytes::KeyBytes;
pub use line::{InputKind, Line, LineFault, read_line};
pub use line_kind::LineKind;
pub use number_words::{PlaceWord, read_bytes_word, read_number_word, read_pairs_word};
pub use range_words::{BoundWord, RangeWord, read_bound_word};
pub use reader::{LineReader, ReaderFault};
pub use root_words::{RootWord, read_root_word};
