// The store, and what it tells of its keys.
ghost use Rattle.std.specs.Prelude.{◌≡◌, length, option_map};
ghost use Rattle.value_store.specs.Values.{keys_of, next_of, last_of};

use crate::index::Index;
use mdb_journal::Journal;
use std::marker::Model;

/// A finite map that a disk keeps. It belongs to the disk on which it was opened.
#[derive(Drop)]
pub struct ValueStore {
    pub(crate) journal: Journal,
    pub(crate) index: Index,
}

impl Model for ValueStore {
    ghost use Rattle.std.specs.Prelude.{◌≤◌};
    ghost use Rattle.std.specs.FinMap as map_of;
    ghost use Rattle.store_model.specs.Header.{first_gate};
    ghost use Rattle.value_store.specs.Values.{ValueState};
    ghost use Rattle.value_store.specs.Index.{AreInFile};

    ghost Value = { ValueState };

    ghost view = { λ s. record { journal = s.journal; index = map_of.entries s.index } };

    ghost invariant = { λ s. (first_gate ≤ s.journal.end) × AreInFile s.journal.end s.index };
}

impl ValueStore {
    /// Whether the disk failed in a call.
    pub fn failed(&self) -> bool
        ensures { result ≡ self.now.journal.failed }
    {
        self.journal.failed()
    }

    /// How many keys there are.
    pub fn len(&self) -> u64
        ensures { result ≡ length self.now.index }
    {
        self.index.len() as u64
    }

    /// The generation of the journal.
    pub fn generation(&self) -> u64
        ensures { result ≡ self.now.journal.generation }
    {
        self.journal.generation()
    }

    /// The least key at or above that one, or above it where `past`.
    pub fn next(&self, from: &[u8], past: bool) -> Option<&[u8]>
        ensures { option_map (λ key. key.now) result ≡ next_of (keys_of self.now) from.now past }
    {
        self.index.next(from, past)
    }

    /// The greatest key.
    pub fn last(&self) -> Option<&[u8]>
        ensures { option_map (λ key. key.now) result ≡ last_of (keys_of self.now) }
    {
        self.index.last()
    }
}
