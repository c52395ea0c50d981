//! Numbers as bytes, the traits by which bytes come in and go out, with stand-ins in memory, a text
//! that is written to its end, and batches of changes with the bytes that spell them.
//!
//! It stands on `base_model`, `trie_model` and `batch_model`. `Failed` is the answer of a source or a sink whose count of
//! faults rose, `VarintFault` says why a number is not read, `BatchFault` why a change is not set, and `NoMemory` is the answer of a call
//! that found no memory and left its arguments as they were. What a source reads or a sink writes in the real world, no clause can say.
#![tactic(auto)]

mod batch;
mod change;
mod faults;
mod memory;
mod outside;
mod uvarint;
mod writing;

pub use batch::{Batch, BatchFault, KEY_LIMIT, VALUE_LIMIT};
pub use change::Change;
pub use faults::{LimitKind, NoMemory};
pub use memory::{MemSink, MemSource};
pub use outside::{Failed, Sink, Source};
pub use uvarint::{VarintFault, read_uvarint, uvarint_len, write_uvarint};
pub use writing::write_all;

#[cfg(test)]
mod tests;
