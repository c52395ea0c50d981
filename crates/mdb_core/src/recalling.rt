// The maps that a store holds, and what changed between them.
ghost use Rattle.std.specs.Prelude.{◌≡◌, option_map, slice_get};
ghost use Rattle.std.specs.List.{list_any};
ghost use Rattle.trie_model.specs.Maps.{Map, root as root_of};
ghost use Rattle.proof_model.specs.Refusals.{same_bytes};
ghost use Rattle.history_model.specs.Held.{is_held, back as map_back};
ghost use Rattle.history_model.specs.Between.{changes_between};
ghost use Rattle.change_history.specs.Histories.{Remembers, roots};
ghost use Rattle.change_history.specs.ToldChanges.{Tells, TellsEnd};
ghost use Rattle.mdb_core.specs.Stores.{held_maps};

use crate::Db;
use bit_keys::{Id, Range};
use change_history::{HistoryFault, Taken};
use std::alloc::Global;

impl Db {
    /// Whether the store holds a map with this root. It takes no memory.
    pub fn held(&self, root: &Id) -> bool
        ensures roots { result ≡ list_any (same_bytes root.now) (roots self.now.history) }
        ensures maps { (m : Map) → Remembers self.now.width self.now.history m → result ≡ is_held self.now.width (held_maps self.now m) root.now }
    {
        self.history.held(root)
    }

    /// The root of the map so many commits back, where the store holds it. It takes no memory.
    pub fn back(&self, commits: u64) -> Option<Id>
        ensures roots { result ≡ slice_get (roots self.now.history) commits }
        ensures maps { (m : Map) → Remembers self.now.width self.now.history m → result ≡ option_map (root_of self.now.width) (map_back commits (held_maps self.now m)) }
    {
        self.history.back(commits)
    }

    /// What changed in a range from the map of one root to that of another, as far as a number of entries and of bytes
    /// allows, and one entry at least. The later root is looked up first, and then the former one from there back. Nothing
    /// is read.
    pub fn changes(
        &self,
        alloc: Global,
        from: &Id,
        to: &Id,
        range: &Range,
        pairs: u32,
        bytes: u32,
    ) -> Result<Taken, HistoryFault>
        ensures end { TellsEnd (list_any (same_bytes to.now) (roots self.now.history)) result }
        ensures maps { (m : Map) → Remembers self.now.width self.now.history m → Tells pairs bytes (changes_between self.now.width (held_maps self.now m) from.now to.now range.now) result }
    {
        self.history.changes(alloc, from, to, range, pairs, bytes)
    }
}
