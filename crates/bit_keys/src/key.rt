ghost use Rattle.std.specs.Prelude.{◌≡◌, ◌+◌, ◌*◌, ◌/◌, ◌%◌, ◌^◌, ℕ, ◌<◌, ◌≤◌, length, take, IfOk, nat_eq, IsTrue, ◌↔◌, SomeIff, ◌==◌, slice_index, drop, ◌∷◌, [], ◌++◌, refl};
ghost use Rattle.std.proofs.Common.{ap};
ghost use Rattle.std.specs.Cmp.{partial_equiv_from_equiv};
ghost use Rattle.std.specs.Hash as fed;
ghost use Rattle.std.specs.Ordering.{as_partial_cmp};
ghost use Rattle.trie_model.proofs.Prefixes.{same_key-is};
ghost use Rattle.bit_keys.specs.Order.{same_key_equiv, same_key_ties, key_cmp_total, key_po};
ghost use Rattle.std.specs.List.{common_prefix_len};
ghost use Rattle.base_model.specs.Bytes.{AreBytes};
ghost use Rattle.trie_model.specs.Bits.{bits_of, bits_of_bytes, packed, common_prefix, is_prefix, key_cmp, same_key, whole_tokens, token_at};
ghost use Rattle.bit_keys.specs.Branch.{width_of, factor_of};
ghost use Rattle.bit_keys.specs.Keys.{IsFilledUp};

use crate::branch::Branch;
use crate::memory::NoMemory;
use smallvec::SmallVec;
use std::alloc::Global;
use std::cmp::Ordering;
use std::hash::{Hash, Hasher};
use std::marker::Model;

/// The bytes of a key, in the key itself where there are few, so that most keys take no allocation.
type KeyBytes = SmallVec<u8, 32>;

/// A list of bits, the highest bit of its first byte in front.
#[derive(Debug, Drop)]
pub struct Key {
    bits: u64,
    /// The bits in as many bytes as they need, the last one filled up with zeros.
    bytes: KeyBytes,
}

impl Model for Key {
    ghost use Rattle.std.specs.Prelude.{◌≡◌, Bool, List, take, length, ◌*◌, ◌≤◌};
    ghost use Rattle.trie_model.specs.Bits.{bits_of_bytes, packed};

    ghost Value = { List Bool };

    ghost view = { λ k. take k.bits (bits_of_bytes k.bytes.items) };

    ghost invariant = { λ k. (k.bits ≤ 8 * length k.bytes.items) × (k.bytes.items ≡ packed (take k.bits (bits_of_bytes k.bytes.items))) };
}

/// How many bytes are equal at the front of both.
fn equal_bytes(a: &[u8], b: &[u8]) -> usize
    ensures { result ≡ common_prefix_len nat_eq a.now b.now }
{
    let mut equal = 0;
    while equal < a.len() && equal < b.len() && a[equal] == b[equal] {
        equal += 1;
    }
    equal
}

/// Whether the bytes are as many as the bits need, with zeros behind the bits.
fn is_filled_up(bits: u64, bytes: &[u8]) -> bool
    ensures { IsTrue result ↔ IsFilledUp bits bytes.now }
{
    if bytes.len() as u64 != bits.div_ceil(8) {
        return false;
    }
    let rest = bits % 8;
    rest == 0 || bytes[(bits / 8) as usize] % (1 << (8 - rest)) == 0
}

impl Key {
    /// The key of whole bytes.
    pub fn from_bytes(alloc: Global, bytes: &[u8]) -> Result<Key, NoMemory>
        ensures { IfOk result (λ k. k ≡ bits_of_bytes bytes.now) }
    {
        let Some(bits) = (bytes.len() as u64).checked_mul(8) else {
            return Err(NoMemory);
        };
        let bytes = SmallVec::from_slice(alloc, bytes)?;
        Ok(Key { bits, bytes })
    }

    /// The key of whole bytes, which are few enough that a `u64` counts their bits.
    pub(crate) fn from_vec(bytes: Vec<u8>) -> Key
        requires { length bytes.items < 2 ^ 32 }
        ensures key { result ≡ bits_of_bytes bytes.items }
        ensures bytes { AreBytes bytes.items }
    {
        let bits = 8 * bytes.len() as u64;
        Key {
            bits,
            bytes: SmallVec::from_vec(bytes),
        }
    }

    /// The key of so many bits of these bytes, which are to be as many as the bits need and have
    /// zeros behind them.
    pub fn from_parts(alloc: Global, bits: u64, bytes: &[u8]) -> Result<Option<Key>, NoMemory>
        ensures { IfOk result (λ made. SomeIff made (IsFilledUp bits bytes.now) (take bits (bits_of_bytes bytes.now))) }
    {
        if !is_filled_up(bits, bytes) {
            return Ok(None);
        }
        let bytes = SmallVec::from_slice(alloc, bytes)?;
        Ok(Some(Key { bits, bytes }))
    }

    /// An equal key.
    pub fn copy(&self, alloc: Global) -> Result<Key, NoMemory>
        ensures { IfOk result (λ k. k ≡ self.now) }
    {
        let bytes = SmallVec::from_slice(alloc, self.bytes.as_slice())?;
        Ok(Key {
            bits: self.bits,
            bytes,
        })
    }

    /// How many bits the key has.
    pub fn bits(&self) -> u64
        ensures { result ≡ length self.now }
    {
        self.bits
    }

    /// Whether the key is one of whole bytes.
    pub fn whole_bytes(&self) -> bool
        ensures { result ≡ (length self.now % 8 == 0) }
    {
        self.bits % 8 == 0
    }

    /// The bits in as many bytes as they need, the last one filled up with zeros.
    pub fn bytes(&self) -> &[u8]
        ensures { result.now ≡ packed self.now }
    {
        self.bytes.as_slice()
    }

    /// The number that token `i` stands for, where tokens are counted from 0.
    pub fn token(&self, branch: Branch, i: u64) -> u16
        requires { width_of branch * (i + 1) ≤ length self.now }
        ensures { result ≡ token_at (width_of branch) (width_of branch * i) self.now }
    {
        // That the key has these bits says that their number fits.
        let _bits = self.bits;
        let width = u64::from(branch.width());
        let at = width * i;
        // A width divides eight, so a token lies in one byte.
        let byte = self.bytes.as_slice()[(at / 8) as usize];
        u16::from(byte >> (8 - width - at % 8)) % branch.factor()
    }

    /// How many bits the longest common prefix has.
    fn shared(&self, other: &Key) -> u64
        ensures { result ≡ length (common_prefix self.now other.now) }
    {
        let most = self.bits.min(other.bits);
        let (own, others) = (self.bytes.as_slice(), other.bytes.as_slice());
        let equal = equal_bytes(own, others);
        if equal >= own.len() || equal >= others.len() {
            return most;
        }
        let differing = own[equal] ^ others[equal];
        most.min(8 * equal as u64 + u64::from(differing.leading_zeros()))
    }

    /// How many bits the longest common run of whole tokens has.
    pub fn common(&self, other: &Key, branch: Branch) -> u64
        ensures { result ≡ length (whole_tokens (width_of branch) (common_prefix self.now other.now)) }
    {
        let shared = self.shared(other);
        shared - shared % u64::from(branch.width())
    }

    /// Whether this key begins `of`, as it does where both are one.
    pub fn is_prefix(&self, of: &Key) -> bool
        ensures { result ≡ is_prefix self.now of.now }
    {
        self.shared(of) == self.bits
    }

    /// The order of keys: lexicographic, a prefix first.
    pub fn compare(&self, other: &Key) -> Ordering
        ensures { result ≡ key_cmp self.now other.now }
    {
        self.bytes
            .cmp(&other.bytes)
            .then(self.bits.cmp(&other.bits))
    }

    /// A byte of the key, and zero behind the last one.
    fn byte(&self, i: usize) -> u8
        ensures { result ≡ slice_index (packed self.now) i }
    {
        let bytes = self.bytes.as_slice();
        if i < bytes.len() { bytes[i] } else { 0 }
    }

    /// The key followed by a token.
    pub fn slot(&self, alloc: Global, branch: Branch, token: u16) -> Result<Key, NoMemory>
        requires { token < factor_of branch }
        ensures { IfOk result (λ k. k ≡ self.now ++ bits_of (width_of branch) token) }
    {
        let width = u64::from(branch.width());
        let Some(bits) = self.bits.checked_add(width) else {
            return Err(NoMemory);
        };
        let whole = (self.bits / 8) as usize;
        let used = self.bits % 8;
        // The token's bits in two bytes, behind those that the first of them holds.
        let placed = token << (16 - used - width);
        let mut bytes = SmallVec::with_capacity(alloc, bits.div_ceil(8) as usize)?;
        bytes.extend_from_slice(&self.bytes.as_slice()[..whole])?;
        bytes.push(self.byte(whole) + (placed / 256) as u8)?;
        if used + width > 8 {
            bytes.push((placed % 256) as u8)?;
        }
        Ok(Key { bits, bytes })
    }

    /// The first `bits` bits.
    pub fn first(&self, alloc: Global, bits: u64) -> Result<Key, NoMemory>
        requires { bits ≤ length self.now }
        ensures { IfOk result (λ k. k ≡ take bits self.now) }
    {
        let whole = (bits / 8) as usize;
        let mut bytes = SmallVec::with_capacity(alloc, bits.div_ceil(8) as usize)?;
        bytes.extend_from_slice(&self.bytes.as_slice()[..whole])?;
        if bits % 8 > 0 {
            let unit = 1 << (8 - bits % 8);
            bytes.push(self.bytes.as_slice()[whole] / unit * unit)?;
        }
        Ok(Key { bits, bytes })
    }

    /// The eight bits from `at` on, with zeros behind the key's last bit.
    fn window(&self, at: u64) -> u8
        requires { at < length self.now }
        ensures { result ∷ [] ≡ packed (take 8 (drop at self.now)) }
    {
        let _bits = self.bits;
        let first = (at / 8) as usize;
        let pair = u16::from(self.byte(first)) * 256 + u16::from(self.byte(first + 1));
        ((pair >> (8 - at % 8)) % 256) as u8
    }

    /// The key without its first `bits` bits.
    pub fn after(&self, alloc: Global, bits: u64) -> Result<Key, NoMemory>
        requires { bits ≤ length self.now }
        ensures { IfOk result (λ k. k ≡ drop bits self.now) }
    {
        let rest = self.bits - bits;
        let count = rest.div_ceil(8);
        let mut bytes = SmallVec::with_capacity(alloc, count as usize)?;
        for i in 0..count {
            bytes.push(self.window(bits + 8 * i))?;
        }
        Ok(Key { bits: rest, bytes })
    }
}

impl PartialEq for Key {
    ghost eq = { same_key };

    ghost laws = { partial_equiv_from_equiv same_key_equiv };

    fn eq(&self, other: &Key) -> bool {
        self.bits == other.bits && self.bytes == other.bytes
    }
}

impl Eq for Key {
    ghost laws = { same_key_equiv };
}

impl PartialOrd for Key {
    ghost partial_cmp = { as_partial_cmp key_cmp };

    ghost laws = { key_po };

    fn partial_cmp(&self, other: &Key) -> Option<Ordering> {
        Some(self.compare(other))
    }
}

impl Ord for Key {
    ghost cmp = { key_cmp };

    ghost total = { key_cmp_total };

    ghost matches_partial_cmp = { λ x y. refl };

    ghost matches_eq = { same_key_ties };

    fn cmp(&self, other: &Key) -> Ordering {
        self.compare(other)
    }
}

impl Hash for Key {
    ghost hash_input = { λ k. fed.u64 (length k) ++ fed.slice fed.u8 (packed k) };

    ghost respects_eq = { λ x y e. ap (λ k. fed.u64 (length k) ++ fed.slice fed.u8 (packed k)) (same_key-is x y e) };

    fn hash<H: Hasher>(&self, state: &mut H) {
        self.bits.hash(state);
        self.bytes.hash(state);
    }
}
