// The changes of a proof, read field by field from the left.
ghost use Rattle.std.specs.Prelude.{◌≡◌, ◌≤◌, length, IfOk};
ghost use Rattle.trie_model.specs.Maps.{limits};
ghost use Rattle.proof_model.specs.Wire.{listed_at, counted_at};
ghost use Rattle.proof_model.specs.ChangeWire.{change_at};
ghost use Rattle.proof_check.specs.ReaderAnswers.{Gives};

use crate::fields::{copied, maybe_of, number_of, sized_of};
use crate::sized_field::SizedField;
use crate::wire_fault::WireFault;
use mdb_base::Change;
use std::alloc::Global;

/// The number of changes, and the changes.
#[tactic(auto, unfolding(proof_model::specs::Wire::counted_at))]
pub(crate) fn changes_of(
    alloc: Global,
    bytes: &[u8],
    at: usize,
) -> Result<(Vec<Change>, usize), WireFault>
    requires { at ≤ length bytes.now }
    ensures exact { Gives (λ x. (x.0.items, x.1)) result (counted_at (change_at limits) bytes.now at) }
    ensures inside { IfOk result (λ x. x.1 ≤ length bytes.now) }
{
    let (count, at) = number_of(bytes, at)?;
    listed_of(alloc, bytes, at, count)
}

// The count may be any number, so no room is made for so many.
fn listed_of(
    alloc: Global,
    bytes: &[u8],
    at: usize,
    count: u64,
) -> Result<(Vec<Change>, usize), WireFault>
    requires { at ≤ length bytes.now }
    ensures exact { Gives (λ x. (x.0.items, x.1)) result (listed_at (change_at limits) count bytes.now at) }
    ensures inside { IfOk result (λ x. x.1 ≤ length bytes.now) }
{
    let mut changes = Vec::new(alloc);
    let mut next = at;
    for _ in 0..count {
        let (change, after) = change_of(alloc, bytes, next)?;
        changes.push(change)?;
        next = after;
    }
    Ok((changes, next))
}

#[tactic(auto, unfolding(proof_model::specs::ChangeWire::change_at))]
fn change_of(alloc: Global, bytes: &[u8], at: usize) -> Result<(Change, usize), WireFault>
    requires { at ≤ length bytes.now }
    ensures exact { Gives (λ x. (x.0, x.1)) result (change_at limits bytes.now at) }
    ensures inside { IfOk result (λ x. x.1 ≤ length bytes.now) }
{
    let (key, at) = sized_of(bytes, at, SizedField::Key)?;
    let (value, at) = maybe_of(bytes, at, SizedField::Value)?;
    let change = Change {
        key: Vec::from_slice(alloc, key)?,
        value: copied(alloc, value)?,
    };
    Ok((change, at))
}
