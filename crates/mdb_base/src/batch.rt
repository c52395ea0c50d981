// A batch: changes in the order of their keys, one for a key.
ghost use Rattle.std.specs.Prelude.{◌≡◌, ◌+◌, ◌-◌, ◌<◌, ◌≤◌, ◌^◌, None, [], ◌++◌, length, take, option_map, MatchOption, IsTrue, IfOk, IfErr, OnOk, OnErr};
ghost use Rattle.trie_model.specs.Maps.{limits};
ghost use Rattle.batch_model.specs.Batch.{IsChange, IsBatch, AreRising, set_change, batch_form};
ghost use Rattle.mdb_base.specs.Batches.{change_of, length_fault, IsPlaceOf, IsGapFor};

use crate::NoMemory;
use crate::change::{Change, change_len, copies, push_change};
use crate::uvarint::{uvarint_len, write_uvarint};
use std::alloc::Global;
use std::marker::Model;
use thiserror::Error;

/// The longest key, in bytes.
pub const KEY_LIMIT: usize = 256;

/// The longest value, in bytes.
pub const VALUE_LIMIT: usize = 262_144;

/// The most bytes that the changes of a batch take as they are spelled. No memory holds more.
const MOST_BYTES: u64 = i64::MAX as u64;

/// Why a change is not set. The batch is as it was.
#[derive(Clone, Copy, Debug, PartialEq, Eq, Error)]
pub enum BatchFault {
    /// The key has so many bytes, which is more than `KEY_LIMIT`.
    #[error("a key of {0} bytes, which is more than 256")]
    LongKey(usize),
    /// The value has so many bytes, which is more than `VALUE_LIMIT`.
    #[error("a value of {0} bytes, which is more than 262,144")]
    LongValue(usize),
    /// There was no memory, or the changes would take 2^63 bytes or more, which no memory holds.
    #[error("out of memory")]
    NoMemory,
}

/// Changes in the order of their keys, one for a key, each within the limits.
#[derive(Debug, Drop)]
pub struct Batch {
    changes: Vec<Change>,
    /// How many bytes the changes take as they are spelled.
    bytes: u64,
}

impl Model for Batch {
    ghost use Rattle.std.specs.Prelude.{List};
    ghost use Rattle.batch_model.specs.Batch.{Change as KeyedValue};
    ghost use Rattle.mdb_base.specs.HeldChanges.{AreHeld};

    ghost Value = { List KeyedValue };

    ghost view = { λ b. b.changes.items };

    ghost invariant = { λ b. AreHeld b.changes.items b.bytes };
}

impl Batch {
    /// A batch of no change.
    pub fn new(alloc: Global) -> Batch
        ensures { result ≡ [] }
    {
        Batch {
            changes: Vec::new(alloc),
            bytes: 0,
        }
    }

    /// Sets the change of a key, in the place of the one that is there. At an error the batch is as
    /// it was.
    pub fn set(&mut self, key: Vec<u8>, value: Option<Vec<u8>>) -> Result<(), BatchFault>
        ensures ok { OnOk result (self.new ≡ set_change self.old (change_of key.items (option_map (λ v. v.items) value))) }
        ensures err { OnErr result (self.new ≡ self.old) }
        ensures fault { MatchOption (length_fault key.items (option_map (λ v. v.items) value)) (IfErr result (λ fault. fault ≡ BatchFault.NoMemory)) (λ fault. result ≡ Err fault) }
    {
        let change = Change { key, value };
        if let Some(fault) = fault_of(&change) {
            return Err(fault);
        }
        match self.put(change) {
            Ok(()) => Ok(()),
            Err(_) => Err(BatchFault::NoMemory),
        }
    }

    // Sets a change that is within the limits.
    fn put(&mut self, change: Change) -> Result<(), NoMemory>
        requires { IsChange limits change }
        ensures ok { OnOk result (self.new ≡ set_change self.old change) }
        ensures err { OnErr result (self.new ≡ self.old) }
    {
        let added = change_len(&change);
        match place_of(&self.changes, &change.key) {
            Ok(at) => {
                let bytes = sum_of(self.bytes - change_len(&self.changes[at]), added)?;
                self.changes[at] = change;
                self.bytes = bytes;
            }
            Err(at) => {
                let bytes = sum_of(self.bytes, added)?;
                self.changes.insert(at, change)?;
                self.bytes = bytes;
            }
        }
        Ok(())
    }

    /// The changes, in the order of their keys.
    pub fn changes(&self) -> &[Change]
        ensures all { result.now ≡ self.now }
        ensures batch { IsBatch limits self.now }
    {
        self.changes.as_slice()
    }

    /// How many bytes the batch takes as it is spelled.
    pub fn payload_len(&self) -> u64
        ensures { result ≡ length (batch_form self.now) }
    {
        uvarint_len(self.changes.len() as u64) + self.bytes
    }

    /// Appends the spelling of the batch.
    pub fn write(&self, out: &mut Vec<u8>) -> Result<(), NoMemory>
        ensures ok { OnOk result (out.new.items ≡ out.old.items ++ batch_form self.now) }
        ensures err { OnErr result (out.new.items ≡ out.old.items) }
    {
        let start = out.len();
        let written = push_changes(out, &self.changes);
        if written.is_err() {
            out.truncate(start);
        }
        written
    }

    /// An equal batch.
    pub fn copy(&self, alloc: Global) -> Result<Batch, NoMemory>
        ensures { IfOk result (λ batch. batch ≡ self.now) }
    {
        Ok(Batch {
            changes: copies(alloc, &self.changes)?,
            bytes: self.bytes,
        })
    }
}

/// Why a change is not within the limits.
fn fault_of(change: &Change) -> Option<BatchFault>
    ensures fault { result ≡ length_fault change.now.key change.now.value }
    ensures within { result ≡ None → IsChange limits change.now }
{
    if change.key.len() > KEY_LIMIT {
        return Some(BatchFault::LongKey(change.key.len()));
    }
    match &change.value {
        Some(value) if value.len() > VALUE_LIMIT => Some(BatchFault::LongValue(value.len())),
        _ => None,
    }
}

/// Where the change of a key stands, or else where it belongs.
fn place_of(changes: &[Change], key: &[u8]) -> Result<usize, usize>
    requires { AreRising None changes.now }
    ensures found { IfOk result (IsPlaceOf changes.now key.now) }
    ensures absent { IfErr result (IsGapFor changes.now key.now) }
{
    if is_above_all(changes, key) {
        return Err(changes.len());
    }
    changes.binary_search_by(|change| change.key.as_slice().cmp(key))
}

fn is_above_all(changes: &[Change], key: &[u8]) -> bool
    requires { AreRising None changes.now }
    ensures { IsTrue result → IsGapFor changes.now key.now (length changes.now) }
{
    match changes.last() {
        Some(last) => last.key.as_slice().cmp(key).is_lt(),
        None => true,
    }
}

/// So many bytes and so many more.
fn sum_of(bytes: u64, added: u64) -> Result<u64, NoMemory>
    requires few { bytes < 2 ^ 63 }
    requires small { added < 2 ^ 32 }
    ensures sum { IfOk result (λ sum. sum ≡ bytes + added) }
    ensures few { IfOk result (λ sum. sum < 2 ^ 63) }
{
    let sum = bytes + added;
    if sum > MOST_BYTES {
        Err(NoMemory)
    } else {
        Ok(sum)
    }
}

// Where memory runs out, a part of the spelling stands behind what was there.
fn push_changes(out: &mut Vec<u8>, changes: &[Change]) -> Result<(), NoMemory>
    ensures ok { OnOk result (out.new.items ≡ out.old.items ++ batch_form changes.now) }
    ensures front { take (length out.old.items) out.new.items ≡ out.old.items }
{
    write_uvarint(out, changes.len() as u64)?;
    for change in changes {
        push_change(out, change)?;
    }
    Ok(())
}
