//! Words for batches: changes of a map, how they are spelled, and what they make of the map.
//!
//! It stands on `base_model` and `trie_model`, and holds no code: each function is empty, and its
//! contract is a law of the definitions in `specs/`. Nothing here fails, and nothing here takes memory.
#![tactic(auto)]

ghost use Rattle.batch_model.specs.Laws.{SpelledBatchesAreRead, ReadBatchesAreSpelled, SetChangesKeepBatches, SetChangesCountLast};

/// A batch that is spelled is read.
pub fn spelled_batches_are_read()
    ensures { SpelledBatchesAreRead }
{}

/// A batch that is read is spelled so, each byte of it.
pub fn read_batches_are_spelled()
    ensures { ReadBatchesAreSpelled }
{}

/// A change that is set leaves the keys in their order and the changes within the limits.
pub fn set_changes_keep_batches()
    ensures { SetChangesKeepBatches }
{}

/// A change that is set counts after all others, so of two on one key the later counts.
pub fn set_changes_count_last()
    ensures { SetChangesCountLast }
{}
