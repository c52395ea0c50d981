// Which map a place names.
ghost use Rattle.std.specs.Prelude.{◌≡◌, true, Some, OnOk, IfOk, IfErr, IsErrOf};
ghost use Rattle.trie_model.specs.Maps.{Map};
ghost use Rattle.history_model.specs.Held.{with_root};
ghost use Rattle.change_history.specs.Histories.{Remembers};
ghost use Rattle.mdb_core.specs.Stores.{held_maps};
ghost use Rattle.mdb_core.specs.Places.{GetFails, MayRead, Speaks, map_at, names_map};
ghost use Rattle.mdb_core.specs.FoundMaps.{IsThere, IsUnnamed, map_found};

use crate::{At, Db, DbFault, ViewId};
use bit_keys::Id;
use change_history::HistoryFault;
use mdb_base::Batch;
use std::alloc::Global;

/// The map that a place was found to name.
#[derive(Debug, Drop)]
pub(crate) enum Found {
    /// The map of the store.
    Store,
    /// The map of a view, which is live.
    View(ViewId),
    /// A map before the present one: the batch leads back to it.
    Past(Batch),
    /// The map of no pairs.
    Empty,
}

impl Db {
    /// The map that a place names, or why nothing is read there.
    pub(crate) fn find(&self, alloc: Global, at: At) -> Result<Found, DbFault>
        ensures may { OnOk result (MayRead self.now at) }
        ensures fault { IfErr result (GetFails self.now at) }
        ensures not_disk { IsErrOf result DbFault.Disk → ⊥ }
        ensures there { IfOk result (IsThere self.now) }
        ensures found { IfOk result (λ found. (m : Map) → Speaks self.now m at → map_at self.now m at ≡ Some (map_found self.now m found)) }
    {
        if self.values.failed() {
            return Err(DbFault::Failed);
        }
        match at {
            At::Store => Ok(Found::Store),
            At::View(id) => match self.live(id) {
                Ok(()) => Ok(Found::View(id)),
                Err(fault) => Err(fault),
            },
            At::Root(id) => match self.named(alloc, id) {
                Ok(found) => Ok(found),
                Err(fault) => Err(fault),
            },
        }
    }

    /// The map that a root names. The present one takes no memory.
    fn named(&self, alloc: Global, id: Id) -> Result<Found, DbFault>
        ensures names { OnOk result (names_map self.now.history id ≡ true) }
        ensures fault { IfErr result (IsUnnamed (names_map self.now.history id)) }
        ensures there { IfOk result (IsThere self.now) }
        ensures named { IfOk result (λ found. (m : Map) → Remembers self.now.width self.now.history m → with_root self.now.width (held_maps self.now m) id ≡ Some (map_found self.now m found)) }
    {
        if id == self.root {
            return Ok(Found::Store);
        }
        match self.history.undo_to(alloc, &id) {
            Ok(undo) => Ok(Found::Past(undo)),
            Err(HistoryFault::NoEnd) => {
                if id == [0; 32] {
                    return Ok(Found::Empty);
                }
                Err(DbFault::NotHeld)
            }
            Err(_) => Err(DbFault::NoMemory),
        }
    }
}
