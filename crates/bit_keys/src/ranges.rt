ghost use Rattle.std.specs.Prelude.{◌≡◌, ◌≤◌, ◌<◌, ◌^◌, ◌↔◌, length, option_map, IfOk, IfSome, SomeIff, IsTrue};
ghost use Rattle.std.specs.Option.{option_copied};
ghost use Rattle.base_model.specs.Bytes.{AreBytes};
ghost use Rattle.trie_model.specs.Maps.{limits};
ghost use Rattle.trie_model.specs.Bits.{bits_of_bytes, packed};
ghost use Rattle.range_model.specs.Ranges.{IsRange, are_in_order, holds as lies_in, is_from, is_up_to, is_below, is_above, all_below, all_up_to, ends_below};
ghost use Rattle.bit_keys.specs.Ranges.{range_of, IsShort};

use crate::key::Key;
use crate::memory::NoMemory;
use std::alloc::Global;
use std::marker::Model;

/// The longest bound of a range, in bytes: one more than the longest key has.
const BOUND_LIMIT: usize = 257;

/// A range of keys. Both ends are in it, and an end that is not there bounds nothing.
#[derive(Debug, Drop)]
pub struct Range {
    /// The bounds as keys, so that slots are compared with them as they stand.
    start: Option<Key>,
    end: Option<Key>,
}

impl Model for Range {
    ghost use Rattle.std.specs.Prelude.{option_map};
    ghost use Rattle.trie_model.specs.Bits.{packed};
    ghost use Rattle.range_model.specs.Ranges.{Range as Bounds};
    ghost use Rattle.bit_keys.specs.Ranges.{AreKept};

    ghost Value = { Bounds };

    ghost view = { λ r. record { start = option_map packed r.start; end = option_map packed r.end } };

    ghost invariant = { λ r. AreKept r.start r.end };
}

/// Whether a bound is within the limit.
fn is_short(bound: &Option<Vec<u8>>) -> bool
    ensures { IsTrue result ↔ IsShort (option_map (λ v. v.items) bound.now) }
{
    match bound {
        Some(bytes) => bytes.len() <= BOUND_LIMIT,
        None => true,
    }
}

/// Whether an end is not below its start.
fn is_in_order(start: &Option<Vec<u8>>, end: &Option<Vec<u8>>) -> bool
    ensures { result ≡ are_in_order (option_map (λ v. v.items) start.now) (option_map (λ v. v.items) end.now) }
{
    match (start, end) {
        (Some(start), Some(end)) => start.as_slice().cmp(end.as_slice()).is_le(),
        _ => true,
    }
}

/// A bound as a key.
fn bound_key(bound: Option<Vec<u8>>) -> Option<Key>
    requires { IsShort (option_map (λ v. v.items) bound) }
    ensures key { result ≡ option_map bits_of_bytes (option_map (λ v. v.items) bound) }
    ensures bytes { IfSome (option_map (λ v. v.items) bound) AreBytes }
{
    match bound {
        Some(bytes) => Some(Key::from_vec(bytes)),
        None => None,
    }
}

fn copy_bound(alloc: Global, bound: &Option<Key>) -> Result<Option<Key>, NoMemory>
    ensures { IfOk result (λ b. b ≡ bound.now) }
{
    match bound {
        Some(key) => Ok(Some(key.copy(alloc)?)),
        None => Ok(None),
    }
}

impl Range {
    /// The range with these bounds, unless one has more than 257 bytes or the end is below the start.
    pub fn new(start: Option<Vec<u8>>, end: Option<Vec<u8>>) -> Option<Range>
        ensures { SomeIff result (IsRange limits (range_of (option_map (λ v. v.items) start) (option_map (λ v. v.items) end))) (range_of (option_map (λ v. v.items) start) (option_map (λ v. v.items) end)) }
    {
        if !is_short(&start) || !is_short(&end) || !is_in_order(&start, &end) {
            return None;
        }
        Some(Range {
            start: bound_key(start),
            end: bound_key(end),
        })
    }

    /// An equal range.
    pub fn copy(&self, alloc: Global) -> Result<Range, NoMemory>
        ensures { IfOk result (λ r. r ≡ self.now) }
    {
        Ok(Range {
            start: copy_bound(alloc, &self.start)?,
            end: copy_bound(alloc, &self.end)?,
        })
    }

    /// The start, where there is one.
    pub fn start(&self) -> Option<&[u8]>
        ensures value { option_copied result ≡ self.now.start }
        ensures range { IsRange limits self.now }
    {
        match &self.start {
            Some(key) => Some(key.bytes()),
            None => None,
        }
    }

    /// The end, where there is one.
    pub fn end(&self) -> Option<&[u8]>
        ensures value { option_copied result ≡ self.now.end }
        ensures range { IsRange limits self.now }
    {
        match &self.end {
            Some(key) => Some(key.bytes()),
            None => None,
        }
    }

    fn is_from_start(&self, key: &[u8]) -> bool
        ensures { result ≡ is_from self.now.start key.now }
    {
        match &self.start {
            Some(start) => start.bytes().cmp(key).is_le(),
            None => true,
        }
    }

    fn is_up_to_end(&self, key: &[u8]) -> bool
        ensures { result ≡ is_up_to self.now.end key.now }
    {
        match &self.end {
            Some(end) => key.cmp(end.bytes()).is_le(),
            None => true,
        }
    }

    /// Whether a key lies in the range.
    pub fn holds(&self, key: &[u8]) -> bool
        ensures { result ≡ lies_in self.now key.now }
    {
        self.is_from_start(key) && self.is_up_to_end(key)
    }

    /// Whether a key lies below the start.
    pub(crate) fn starts_above(&self, key: &Key) -> bool
        ensures { result ≡ is_below self.now.start key.now }
    {
        match &self.start {
            Some(start) => key.compare(start).is_lt(),
            None => false,
        }
    }

    /// Whether a key lies above the end.
    pub(crate) fn ends_below(&self, key: &Key) -> bool
        ensures { result ≡ is_above self.now.end key.now }
    {
        match &self.end {
            Some(end) => end.compare(key).is_lt(),
            None => false,
        }
    }

    /// Whether all keys lie below the start that a slot begins.
    pub(crate) fn starts_above_all(&self, slot: &Key) -> bool
        ensures { result ≡ all_below self.now.start slot.now }
    {
        match &self.start {
            Some(start) => stays_below(slot, start),
            None => false,
        }
    }

    /// Whether no key lies above the end that a slot begins.
    pub(crate) fn ends_at_or_above_all(&self, slot: &Key) -> bool
        ensures { result ≡ all_up_to self.now.end slot.now }
    {
        match &self.end {
            Some(end) => stays_below(slot, end),
            None => true,
        }
    }
}

/// Whether all keys are below `key` that a slot begins.
fn stays_below(slot: &Key, key: &Key) -> bool
    ensures { result ≡ ends_below slot.now key.now }
{
    !slot.is_prefix(key) && slot.compare(key).is_lt()
}
