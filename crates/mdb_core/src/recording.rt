// What a commit changes, as a history keeps it.
ghost use Rattle.std.specs.Prelude.{◌≡◌, ◌⊎◌, ◌<◌, ◌≤◌, ◌^◌, ◌∷◌, ◌++◌, ℕ, false, option_map, MatchOption, OnOk, IfOk, IfErr, IfSome, IsErrOf};
ghost use Rattle.std.specs.List.{sum_by};
ghost use Rattle.base_model.specs.Faults.{Rose};
ghost use Rattle.disk_model.specs.Words.{TellsContents};
ghost use Rattle.trie_model.specs.Maps.{Map, root as root_of};
ghost use Rattle.batch_model.specs.Batch.{after_batch};
ghost use Rattle.history_model.specs.Changes.{same_value, deltas as deltas_of, delta_weight, weight};
ghost use Rattle.change_history.specs.Histories.{held_by, recalled, Remembers};
ghost use Rattle.mdb_journal.specs.Opening.{Untouched};
ghost use Rattle.value_store.specs.Values.{Keeps, broken};
ghost use Rattle.mdb_core.specs.Alterations.{altered};

use crate::DbFault;
use crate::fault::told;
use bit_keys::Id;
use change_history::{Delta, History};
use disk_world::Disk;
use mdb_base::{Batch, Change, NoMemory};
use std::alloc::Global;
use value_store::ValueStore;

/// Whether a change leaves the value of its key as it was before.
fn is_idle(change: &Change, before: &Option<Vec<u8>>) -> bool
    ensures { result ≡ same_value (option_map (λ v. v.items) before.now) change.now.value }
{
    match (before, &change.value) {
        (Some(before), Some(after)) => before.as_slice().cmp(after.as_slice()).is_eq(),
        (None, None) => true,
        _ => false,
    }
}

/// Adds what a change makes of a key that had this value before, if it changes it. Answers how much that weighs.
fn add(
    alloc: Global,
    deltas: &mut Vec<Delta>,
    change: &Change,
    before: Option<Vec<u8>>,
) -> Result<u128, NoMemory>
    ensures added { OnOk result (deltas.new.items ≡ deltas.old.items ++ altered (option_map (λ v. v.items) before) change.now) }
    ensures weight { IfOk result (λ n. n ≡ sum_by delta_weight (altered (option_map (λ v. v.items) before) change.now)) }
    ensures small { IfOk result (λ n. n < 2 ^ 65) }
{
    if is_idle(change, &before) {
        return Ok(0);
    }
    let Change { key, value } = change.copy(alloc)?;
    let delta = Delta {
        key,
        before,
        after: value,
    };
    let weight = delta.weight();
    deltas.push(delta)?;
    Ok(weight)
}

/// The keys that a batch changes, with their values before it, which are read, and after it. None where they weigh more
/// than a limit: no more is read then, so that a commit which is not kept takes little more memory than that limit.
pub(crate) fn read_deltas<D: Disk>(
    alloc: Global,
    disk: &mut D,
    values: &mut ValueStore,
    batch: &Batch,
    limit: u64,
) -> Result<Option<Vec<Delta>>, DbFault>
    requires { values.old.journal.failed ≡ false }
    ensures deltas { TellsContents D.words.tells → (m : Map) → Keeps values.old m (D.words.seen disk.old) → IfOk result (λ made. MatchOption made
        (limit < weight m (after_batch m batch.now))
        (λ ds. ds.items ≡ deltas_of m (after_batch m batch.now))) }
    ensures light { IfOk result (λ made. IfSome made (λ ds. sum_by delta_weight ds.items ≤ limit)) }
    ensures fault { IfErr result (λ fault. (fault ≡ DbFault.Disk) ⊎ (fault ≡ DbFault.NoMemory)) }
    ensures fails { IsErrOf result DbFault.Disk → values.new ≡ broken values.old }
    ensures stays { (IsErrOf result DbFault.Disk → ⊥) → values.new ≡ values.old }
    ensures untouched { Untouched (D.words.seen disk.old) (D.words.seen disk.new) (D.words.moments disk.old) (D.words.moments disk.new) }
    ensures later { D.words.faults disk.old ≤ D.words.faults disk.new }
    ensures disk { IsErrOf result DbFault.Disk → Rose (D.words.faults disk.old) (D.words.faults disk.new) }
{
    let mut deltas = Vec::new(alloc);
    let mut weight = 0;
    for change in batch.changes() {
        let before = match values.get(alloc, disk, &change.key) {
            Ok(before) => before,
            Err(fault) => return Err(told(fault)),
        };
        let Ok(added) = add(alloc, &mut deltas, change, before) else {
            return Err(DbFault::NoMemory);
        };
        weight += added;
        if weight > limit as u128 {
            return Ok(None);
        }
    }
    Ok(Some(deltas))
}

/// Adds a commit to a history: what it changed, and the root that it led to. Where it is too heavy, it and the commits
/// before it are let go. It takes no memory.
pub(crate) fn record_commit(history: &mut History, deltas: Option<Vec<Delta>>, root: Id)
    ensures root { history.new.root ≡ root }
    ensures limits { (history.new.commits ≡ history.old.commits) × (history.new.weight ≡ history.old.weight) }
    ensures remembers { (w : ℕ) (m former : Map) → Remembers w history.old former
        → MatchOption deltas (history.old.weight < weight former m) (λ ds. ds.items ≡ deltas_of former m)
        → root ≡ root_of w m
        → Remembers w history.new m × (recalled history.new m ≡ held_by history.old (m ∷ recalled history.old former)) }
{
    match deltas {
        Some(deltas) => history.push(deltas, root),
        None => history.restart(root),
    }
}
