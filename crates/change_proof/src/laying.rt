ghost use Rattle.std.specs.Prelude.{◌≡◌, ◌++◌, map, None, IfOk, OnOk};
ghost use Rattle.std.specs.Option.{option_copied};
ghost use Rattle.batch_model.specs.Batch.{AreRising};
ghost use Rattle.history_model.specs.Changes.{same_value as same_value_of};
ghost use Rattle.proof_model.specs.Refusals.{first_place};
ghost use Rattle.proof_model.specs.SoundProofs.{AreSorted};
ghost use Rattle.proof_check.specs.Claims.{pair_of};
ghost use Rattle.change_proof.specs.LaidChanges.{laid, is_idle_in, put_of, below, from as from_key, past, value_in_front};

use bit_keys::NoMemory;
use mdb_base::Change;
use proof_check::{Entry, Pair};
use std::alloc::Global;

/// The pairs from a key on.
fn from<'a>(pairs: &'a [Pair], key: &[u8]) -> &'a [Pair]
    ensures { result.now ≡ from_key key.now pairs.now }
{
    for (i, pair) in pairs.iter().enumerate() {
        if !pair.key.as_slice().cmp(key).is_lt() {
            return &pairs[i..];
        }
    }
    &[]
}

/// Of pairs from a key on, those behind it.
fn behind<'a>(pairs: &'a [Pair], key: &[u8]) -> &'a [Pair]
    ensures { result.now ≡ past key.now pairs.now }
{
    match pairs {
        [first, rest @ ..] if first.key.as_slice() == key => rest,
        _ => pairs,
    }
}

/// Of pairs from a key on, the value at it.
fn value_at<'a>(pairs: &'a [Pair], key: &[u8]) -> Option<&'a [u8]>
    ensures { option_copied result ≡ value_in_front key.now pairs.now }
{
    let Some(first) = pairs.first() else {
        return None;
    };
    if first.key.as_slice() == key {
        return Some(&first.value);
    }
    None
}

fn same_value(a: Option<&[u8]>, b: Option<&[u8]>) -> bool
    ensures { result ≡ same_value_of (option_copied a.entry) (option_copied b.entry) }
{
    match (a, b) {
        (Some(a), Some(b)) => a == b,
        (None, None) => true,
        _ => false,
    }
}

/// Whether pairs from the key of a change on have already what it makes of them.
fn is_idle(pairs: &[Pair], change: &Change) -> bool
    ensures { result ≡ same_value_of (value_in_front change.now.key pairs.now) change.now.value }
{
    same_value(value_at(pairs, &change.key), change.value.as_deref())
}

/// The first change that changes nothing.
pub(crate) fn first_idle(local: &[Pair], changes: &[Change]) -> Option<usize>
    requires pairs { AreSorted local.now }
    requires changes { AreRising None changes.now }
    ensures { result ≡ first_place (is_idle_in local.now) 0 changes.now }
{
    let mut rest = local;
    for (i, change) in changes.iter().enumerate() {
        rest = from(rest, &change.key);
        if is_idle(rest, change) {
            return Some(i);
        }
    }
    None
}

fn push_pairs<'a>(pairs: &'a [Pair], laid: &mut Vec<Entry<'a>>) -> Result<(), NoMemory>
    ensures { OnOk result (map pair_of laid.new.items ≡ map pair_of laid.old.items ++ pairs.now) }
{
    for pair in pairs {
        laid.push(Entry {
            key: &pair.key,
            value: &pair.value,
        })?;
    }
    Ok(())
}

fn push_put<'a>(change: &'a Change, laid: &mut Vec<Entry<'a>>) -> Result<(), NoMemory>
    ensures { OnOk result (map pair_of laid.new.items ≡ map pair_of laid.old.items ++ put_of change.now) }
{
    if let Some(value) = &change.value {
        laid.push(Entry {
            key: &change.key,
            value,
        })?;
    }
    Ok(())
}

/// Adds the pairs in front of a key, and returns those from it on.
fn push_below<'a>(
    pairs: &'a [Pair],
    key: &[u8],
    laid: &mut Vec<Entry<'a>>,
) -> Result<&'a [Pair], NoMemory>
    ensures pushed { OnOk result (map pair_of laid.new.items ≡ map pair_of laid.old.items ++ below key.now pairs.now) }
    ensures rest { IfOk result (λ r. r.now ≡ from_key key.now pairs.now) }
{
    let rest = from(pairs, key);
    push_pairs(&pairs[..pairs.len() - rest.len()], laid)?;
    Ok(rest)
}

/// The pairs once the changes are made, in the order of their keys. No key and no value is copied.
pub(crate) fn lay<'a>(
    alloc: Global,
    local: &'a [Pair],
    changes: &'a [Change],
) -> Result<Vec<Entry<'a>>, NoMemory>
    requires pairs { AreSorted local.now }
    requires changes { AreRising None changes.now }
    ensures { IfOk result (λ es. map pair_of es.items ≡ laid local.now changes.now) }
{
    let mut made = Vec::new(alloc);
    let mut rest = local;
    for change in changes {
        rest = behind(push_below(rest, &change.key, &mut made)?, &change.key);
        push_put(change, &mut made)?;
    }
    push_pairs(rest, &mut made)?;
    Ok(made)
}
