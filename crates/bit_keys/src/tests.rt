mod ranges;

use crate::branch::Branch;
use crate::key::Key;
use crate::memory::NoMemory;
use std::alloc::Global;
use std::cmp::Ordering;
use std::test::Fail;

/// One key in bytes that are not filled up, and its bits.
#[derive(Clone, Copy, Drop)]
struct Plain {
    bytes: [u8; 6],
    bits: u64,
}

impl Plain {
    fn bit(&self, at: u64) -> bool {
        match self.bytes.get((at / 8) as usize) {
            Some(byte) => (*byte >> (7 - at % 8)) % 2 == 1,
            None => false,
        }
    }

    /// Bit by bit, how many bits the two share.
    fn shared(&self, other: &Plain) -> u64 {
        for at in 0..self.bits.min(other.bits) {
            if self.bit(at) != other.bit(at) {
                return at;
            }
        }
        self.bits.min(other.bits)
    }

    fn compare(&self, other: &Plain) -> Ordering {
        let shared = self.shared(other);
        if shared == self.bits || shared == other.bits {
            return self.bits.cmp(&other.bits);
        }
        self.bit(shared).cmp(&other.bit(shared))
    }

    fn key(&self, alloc: Global) -> Result<Key, NoMemory> {
        let whole = Key::from_bytes(alloc, &self.bytes)?;
        whole.first(alloc, self.bits.min(whole.bits()))
    }
}

/// The next number of a linear congruential generator, with Knuth's constants.
fn next(state: &mut u64) -> u64 {
    *state = state
        .wrapping_mul(6364136223846793005)
        .wrapping_add(1442695040888963407);
    *state >> 33
}

/// Two keys that differ in one bit at most, and in their lengths.
fn pair(state: &mut u64) -> (Plain, Plain) {
    let mut bytes = [0; 6];
    for byte in bytes.iter_mut() {
        *byte = (next(state) % 256) as u8;
    }
    let bits = next(state) % 49;
    let first = Plain { bytes, bits };
    let place = next(state) % 64;
    if place < 48 {
        bytes[(place / 8) as usize] ^= 128 >> (place % 8);
    }
    let bits = if next(state) % 4 == 0 {
        bits
    } else {
        next(state) % 49
    };
    (first, Plain { bytes, bits })
}

fn whole_tokens(shared: u64, branch: Branch) -> u64 {
    match branch {
        Branch::B2 => shared,
        Branch::B4 => shared / 2 * 2,
        Branch::B16 => shared / 4 * 4,
        Branch::B256 => shared / 8 * 8,
    }
}

#[test]
fn keys_by_bytes_are_keys_by_bits(rt: HostRuntime) -> Result<(), Fail> {
    let mut state = 7;
    for branch in [Branch::B2, Branch::B4, Branch::B16, Branch::B256] {
        for _ in 0..2000 {
            let (first, second) = pair(&mut state);
            let one = first.key(rt.alloc())?;
            let two = second.key(rt.alloc())?;
            let shared = first.shared(&second);
            assert_eq!(rt; one.common(&two, branch), whole_tokens(shared, branch));
            assert_eq!(rt; one.is_prefix(&two), shared == first.bits);
            assert_eq!(rt; two.is_prefix(&one), shared == second.bits);
            assert!(rt; one.compare(&two) == first.compare(&second));
            assert!(rt; (one == two) == (first.compare(&second) == Ordering::Equal));
        }
    }
    Ok(())
}

#[test]
fn tokens_count_from_the_highest_bit_at_their_factor(rt: HostRuntime) -> Result<(), Fail> {
    let key = Key::from_bytes(rt.alloc(), &[0x1b, 0xe4])?;
    for (i, want) in [
        (0, 0),
        (1, 1),
        (2, 2),
        (3, 3),
        (4, 3),
        (5, 2),
        (6, 1),
        (7, 0),
    ] {
        assert!(rt; 2 * (i + 1) <= key.bits());
        assert_eq!(rt; key.token(Branch::B4, i), want);
    }
    for (i, want) in [(0, 0x1), (1, 0xb), (2, 0xe), (3, 0x4)] {
        assert!(rt; 4 * (i + 1) <= key.bits());
        assert_eq!(rt; key.token(Branch::B16, i), want);
    }
    assert!(rt; Branch::from_factor(16) == Some(Branch::B16));
    assert!(rt; Branch::from_factor(8).is_none());
    Ok(())
}

// The bytes of the key 12 34 behind so many of its bits.
fn cut(alloc: Global, bits: u64) -> Result<Vec<u8>, NoMemory> {
    let key = Key::from_bytes(alloc, &[0x12, 0x34])?;
    let rest = key.after(alloc, bits.min(key.bits()))?;
    Ok(Vec::from_slice(alloc, rest.bytes())?)
}

// The bytes of a key of parts with a token behind it, where the parts make a key.
fn slot(
    alloc: Global,
    bits: u64,
    bytes: &[u8],
    branch: Branch,
    token: u16,
) -> Result<Vec<u8>, NoMemory> {
    let Some(key) = Key::from_parts(alloc, bits, bytes)? else {
        return Ok(Vec::new(alloc));
    };
    let longer = key.slot(alloc, branch, token % branch.factor())?;
    Ok(Vec::from_slice(alloc, longer.bytes())?)
}

// Whether the parts make a key, which is then one with its own copy and has these bytes.
fn makes_a_key(alloc: Global, bits: u64, bytes: &[u8]) -> Result<bool, NoMemory> {
    match Key::from_parts(alloc, bits, bytes)? {
        Some(key) => Ok(key.copy(alloc)? == key && key.bytes() == bytes),
        None => Ok(false),
    }
}

#[test]
fn keys_are_cut_lengthened_and_made_of_parts(rt: HostRuntime) -> Result<(), Fail> {
    let alloc = rt.alloc();
    for (bits, want) in [
        (0, [0x12, 0x34].as_slice()),
        (4, [0x23, 0x40].as_slice()),
        (5, [0x46, 0x80].as_slice()),
        (8, [0x34].as_slice()),
        (16, [].as_slice()),
    ] {
        assert_eq!(rt; cut(alloc, bits)?.as_slice(), want);
    }
    let longer = slot(alloc, 16, &[0x12, 0x34], Branch::B4, 2)?;
    assert_eq!(rt; longer.as_slice(), [0x12, 0x34, 0x80].as_slice());
    let longer = slot(alloc, 11, &[0x46, 0x80], Branch::B256, 0xff)?;
    assert_eq!(rt; longer.as_slice(), [0x46, 0x9f, 0xe0].as_slice());
    for (bits, bytes, made) in [
        (11, [0x46, 0x80].as_slice(), true),
        (320, [0x46; 40].as_slice(), true),
        (11, [0x46, 0x90].as_slice(), false),
        (11, [0x46, 0x80, 0].as_slice(), false),
        (17, [0x46, 0x80].as_slice(), false),
    ] {
        assert!(rt;
            makes_a_key(alloc, bits, bytes)? == made,
            "{bits} bits of {bytes:?}"
        );
    }
    Ok(())
}
