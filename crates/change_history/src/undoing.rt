// The way back to a map of a history.
ghost use Rattle.std.specs.Prelude.{◌≡◌, ◌≢◌, ◌≤◌, ℕ, List, length, map, IfOk, IfErr};
ghost use Rattle.std.specs.List.{list_any};
ghost use Rattle.trie_model.specs.Maps.{Map};
ghost use Rattle.range_model.specs.Ranges.{everything};
ghost use Rattle.batch_model.specs.Batch.{after_batch};
ghost use Rattle.proof_model.specs.Refusals.{same_bytes};
ghost use Rattle.history_model.specs.Held.{until_root};
ghost use Rattle.change_history.specs.Histories.{Recalls, held_by, roots, undo_of};
ghost use Rattle.change_history.specs.NetChanges.{nets_of, map_at};
ghost use Rattle.change_history.specs.ToldChanges.{TellsEnd, LeadsBack};

use crate::{History, HistoryFault, Net};
use bit_keys::{Id, Range};
use mdb_base::{Batch, NoMemory};
use std::alloc::Global;

/// The range of all keys.
fn whole() -> Range
    ensures { result ≡ everything }
{
    match Range::new(None, None) {
        Some(range) => range,
        None => unreachable!(),
    }
}

/// The batch that takes these changes back. A commit has no key and no value that is too long for a batch, so it is memory
/// that is missing where a change is not set.
fn undo(alloc: Global, nets: &[Net<'_>]) -> Result<Batch, NoMemory>
    ensures { IfOk result (λ batch. (m : Map) → after_batch m batch ≡ after_batch m (map undo_of (nets_of nets.now))) }
{
    let mut batch = Batch::new(alloc);
    for net in nets {
        let change = net.undo(alloc)?;
        match batch.set(change.key, change.value) {
            Ok(()) => {}
            Err(_) => return Err(NoMemory),
        }
    }
    Ok(batch)
}

impl History {
    /// The batch that leads from the present map to the one of a place.
    fn way_back(&self, alloc: Global, place: usize) -> Result<Batch, NoMemory>
        requires { place ≤ length self.now.ring }
        ensures { IfOk result (λ batch. (w : ℕ) (maps : List Map) → Recalls w self.now maps → after_batch (map_at (held_by self.now maps) 0) batch ≡ map_at (held_by self.now maps) place) }
    {
        let range = whole();
        let nets = self.sum(alloc, &range, place, 0)?;
        undo(alloc, &nets)
    }

    /// The batch that leads from the present map back to the latest one of this root.
    pub fn undo_to(&self, alloc: Global, root: &Id) -> Result<Batch, HistoryFault>
        ensures held { TellsEnd (list_any (same_bytes root.now) (roots self.now)) result }
        ensures start { IfErr result (λ fault. fault ≢ HistoryFault.NoStart) }
        ensures recalls { (w : ℕ) (maps : List Map) → Recalls w self.now maps → LeadsBack (held_by self.now maps) (until_root w (held_by self.now maps) root.now) result }
    {
        let Some(place) = self.find(root, 0) else {
            return Err(HistoryFault::NoEnd);
        };
        match self.way_back(alloc, place) {
            Ok(batch) => Ok(batch),
            Err(_) => Err(HistoryFault::NoMemory),
        }
    }
}
