// A key, and what it gets, as a batch holds it.
ghost use Rattle.std.specs.Prelude.{◌≡◌, ◌<◌, ◌^◌, ◌++◌, length, take, option_map, IfOk, OnOk};
ghost use Rattle.trie_model.specs.Maps.{limits};
ghost use Rattle.batch_model.specs.Sized.{sized_form};
ghost use Rattle.batch_model.specs.Batch.{IsChange, value_form, change_form};

use crate::NoMemory;
use crate::uvarint::{uvarint_len, write_uvarint};
use std::alloc::Global;
use std::marker::Model;

/// A key, and the value that it gets. `None` deletes the key.
#[derive(Debug, Drop)]
pub struct Change {
    pub key: Vec<u8>,
    pub value: Option<Vec<u8>>,
}

impl Model for Change {
    ghost use Rattle.std.specs.Prelude.{option_map};
    ghost use Rattle.batch_model.specs.Batch.{Change as KeyedValue};

    ghost Value = { KeyedValue };

    ghost view = { λ c. record { key = c.key.items; value = option_map (λ v. v.items) c.value } };
}

impl Change {
    /// An equal change.
    pub fn copy(&self, alloc: Global) -> Result<Change, NoMemory>
        ensures { IfOk result (λ c. c ≡ self.now) }
    {
        let value = copy_value(alloc, &self.value)?;
        Ok(Change {
            key: Vec::from_slice(alloc, &self.key)?,
            value,
        })
    }
}

fn copy_value(alloc: Global, value: &Option<Vec<u8>>) -> Result<Option<Vec<u8>>, NoMemory>
    ensures { IfOk result (λ v. option_map (λ x. x.items) v ≡ option_map (λ x. x.items) value.now) }
{
    match value {
        Some(bytes) => Ok(Some(Vec::from_slice(alloc, bytes)?)),
        None => Ok(None),
    }
}

/// Copies of these changes.
pub(crate) fn copies(alloc: Global, changes: &[Change]) -> Result<Vec<Change>, NoMemory>
    ensures { IfOk result (λ made. made.items ≡ changes.now) }
{
    let mut made = Vec::with_capacity(alloc, changes.len())?;
    for change in changes {
        made.push(change.copy(alloc)?)?;
    }
    Ok(made)
}

/// How many bytes a change takes as it is spelled.
pub(crate) fn change_len(change: &Change) -> u64
    requires { IsChange limits change.now }
    ensures exact { result ≡ length (change_form change.now) }
    ensures small { result < 2 ^ 32 }
{
    let value = match &change.value {
        Some(value) => sized_len(value),
        None => 0,
    };
    sized_len(&change.key) + 1 + value
}

/// How many bytes a string takes behind its length.
fn sized_len(bytes: &[u8]) -> u64
    requires { length bytes.now < 2 ^ 30 }
    ensures exact { result ≡ length (sized_form bytes.now) }
    ensures small { result < 2 ^ 31 }
{
    uvarint_len(bytes.len() as u64) + bytes.len() as u64
}

/// Appends the spelling of a change. Where memory runs out, a part of it stands behind what was
/// there.
pub(crate) fn push_change(out: &mut Vec<u8>, change: &Change) -> Result<(), NoMemory>
    ensures ok { OnOk result (out.new.items ≡ out.old.items ++ change_form change.now) }
    ensures front { take (length out.old.items) out.new.items ≡ out.old.items }
{
    push_sized(out, &change.key)?;
    push_value(out, &change.value)
}

fn push_value(out: &mut Vec<u8>, value: &Option<Vec<u8>>) -> Result<(), NoMemory>
    ensures ok { OnOk result (out.new.items ≡ out.old.items ++ value_form (option_map (λ v. v.items) value.now)) }
    ensures front { take (length out.old.items) out.new.items ≡ out.old.items }
{
    match value {
        Some(bytes) => {
            out.push(1)?;
            push_sized(out, bytes)
        }
        None => {
            out.push(0)?;
            Ok(())
        }
    }
}

fn push_sized(out: &mut Vec<u8>, bytes: &[u8]) -> Result<(), NoMemory>
    ensures ok { OnOk result (out.new.items ≡ out.old.items ++ sized_form bytes.now) }
    ensures front { take (length out.old.items) out.new.items ≡ out.old.items }
{
    write_uvarint(out, bytes.len() as u64)?;
    out.extend_from_slice(bytes)?;
    Ok(())
}
