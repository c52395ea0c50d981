// The changes between two maps of a history.
ghost use Rattle.std.specs.Prelude.{◌≡◌, ◌<◌, ◌≤◌, ◌+◌, ◌^◌, ℕ, List, length, map, IfOk};
ghost use Rattle.std.specs.List.{list_any};
ghost use Rattle.trie_model.specs.Maps.{Map};
ghost use Rattle.proof_model.specs.Refusals.{same_bytes};
ghost use Rattle.history_model.specs.Changes.{change_of};
ghost use Rattle.history_model.specs.Between.{changes_between};
ghost use Rattle.change_history.specs.Histories.{Recalls, held_by, roots, from_root};
ghost use Rattle.change_history.specs.NetChanges.{nets_of};
ghost use Rattle.change_history.specs.ToldChanges.{fits, IsTaken, AreListed, Tells, TellsEnd, TellsStart};

use crate::{History, HistoryFault, Net};
use bit_keys::{Id, Range};
use mdb_base::{Change, NoMemory};
use std::alloc::Global;

/// The first of some changes, and whether more follow.
#[derive(Debug, Drop)]
pub struct Taken {
    pub changes: Vec<Change>,
    pub cut: bool,
}

/// Whether a change is taken behind others, which have used some bytes: the first one in any case, and then while
/// there is room.
fn is_taken(others: usize, used: u128, size: u128, pairs: u32, bytes: u32) -> bool
    requires { used + size < 2 ^ 128 }
    ensures { result ≡ fits others used size pairs bytes }
{
    if others == 0 {
        return true;
    }
    others < pairs as usize && used + size <= bytes as u128
}

/// The first changes that a number of entries and of bytes allows, and one at least; and whether more follow.
fn take(alloc: Global, nets: &[Net<'_>], pairs: u32, bytes: u32) -> Result<Taken, NoMemory>
    ensures { IfOk result (IsTaken pairs bytes (map change_of (nets_of nets.now))) }
{
    let mut changes = Vec::new(alloc);
    let mut used = 0;
    for net in nets {
        let size = net.size();
        if !is_taken(changes.len(), used, size, pairs, bytes) {
            return Ok(Taken { changes, cut: true });
        }
        used += size;
        changes.push(net.change(alloc)?)?;
    }
    Ok(Taken {
        changes,
        cut: false,
    })
}

impl History {
    /// The first changes in a range from the map of one place to that of a later one.
    fn listed(
        &self,
        alloc: Global,
        range: &Range,
        former: usize,
        later: usize,
        pairs: u32,
        bytes: u32,
    ) -> Result<Taken, NoMemory>
        requires order { later ≤ former }
        requires within { former ≤ length self.now.ring }
        ensures { IfOk result (AreListed self.now range.now former later pairs bytes) }
    {
        let nets = self.sum(alloc, range, former, later)?;
        take(alloc, &nets, pairs, bytes)
    }

    /// What changed in a range from the map of one root to that of another: the keys that the two maps differ at, in
    /// their order, as far as a number of entries and of bytes allows, and one entry at least. The later root is looked
    /// up first, and then the former one from there back.
    pub fn changes(
        &self,
        alloc: Global,
        from: &Id,
        to: &Id,
        range: &Range,
        pairs: u32,
        bytes: u32,
    ) -> Result<Taken, HistoryFault>
        ensures held { TellsEnd (list_any (same_bytes to.now) (roots self.now)) result }
        ensures start { TellsStart (list_any (same_bytes from.now) (from_root to.now (roots self.now))) result }
        ensures recalls { (w : ℕ) (maps : List Map) → Recalls w self.now maps → Tells pairs bytes (changes_between w (held_by self.now maps) from.now to.now range.now) result }
    {
        let Some(later) = self.find(to, 0) else {
            return Err(HistoryFault::NoEnd);
        };
        let Some(former) = self.find(from, later) else {
            return Err(HistoryFault::NoStart);
        };
        match self.listed(alloc, range, former, later, pairs, bytes) {
            Ok(taken) => Ok(taken),
            Err(_) => Err(HistoryFault::NoMemory),
        }
    }
}
