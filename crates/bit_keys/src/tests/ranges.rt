use crate::key::Key;
use crate::memory::NoMemory;
use crate::places::Place;
use crate::placing::{key_place, place};
use crate::ranges::Range;
use std::alloc::Global;
use std::test::Fail;

/// A bound of a test: none, or bytes.
type Bound = Option<&'static [u8]>;

const FROM_12: Bound = Some(&[0x12]);

const TO_1F: Bound = Some(&[0x1f]);

fn owned(alloc: Global, bound: Bound) -> Result<Option<Vec<u8>>, NoMemory> {
    match bound {
        Some(bytes) => Ok(Some(Vec::from_slice(alloc, bytes)?)),
        None => Ok(None),
    }
}

fn range(alloc: Global, start: Bound, end: Bound) -> Result<Option<Range>, NoMemory> {
    Ok(Range::new(owned(alloc, start)?, owned(alloc, end)?))
}

// Whether there is a range of so many bytes on each side.
fn is_made(alloc: Global, start: usize, end: usize) -> Result<bool, NoMemory> {
    let low = vec![in alloc; 0x20; start]?;
    let high = vec![in alloc; 0x30; end]?;
    Ok(Range::new(Some(low), Some(high)).is_some())
}

// Whether the range has these bounds, and its copy too, and holds the key as it should.
fn is_right(
    alloc: Global,
    start: Bound,
    end: Bound,
    key: &[u8],
    held: bool,
) -> Result<bool, NoMemory> {
    let Some(range) = range(alloc, start, end)? else {
        return Ok(false);
    };
    let copy = range.copy(alloc)?;
    Ok(range.start() == start && copy.end() == end && copy.holds(key) == held)
}

#[test]
fn a_range_holds_what_lies_between_its_ends(rt: HostRuntime) -> Result<(), Fail> {
    let alloc = rt.alloc();
    for (start, end, made) in [
        (257, 257, true),
        (258, 1, false),
        (1, 258, false),
        (0, 0, true),
    ] {
        assert!(rt;
            is_made(alloc, start, end)? == made,
            "{start} to {end} bytes"
        );
    }
    assert!(rt;
        range(alloc, TO_1F, FROM_12)?.is_none(),
        "an end below its start"
    );
    assert!(rt;
        range(alloc, Some(&[0x12, 0]), FROM_12)?.is_none(),
        "a prefix of its start"
    );
    for (start, end, key, held) in [
        (FROM_12, TO_1F, [0x12].as_slice(), true),
        (FROM_12, TO_1F, [0x1f].as_slice(), true),
        (FROM_12, TO_1F, [0x12, 0x00].as_slice(), true),
        (FROM_12, TO_1F, [0x1f, 0x00].as_slice(), false),
        (FROM_12, TO_1F, [0x11, 0xff].as_slice(), false),
        (FROM_12, TO_1F, [].as_slice(), false),
        (FROM_12, FROM_12, [0x12].as_slice(), true),
        (FROM_12, FROM_12, [0x12, 0x00].as_slice(), false),
        (None, FROM_12, [].as_slice(), true),
        (FROM_12, None, [0xff, 0xff].as_slice(), true),
        (None, None, [].as_slice(), true),
    ] {
        assert!(rt;
            is_right(alloc, start, end, key, held)?,
            "{start:?} to {end:?}, {key:?}"
        );
    }
    Ok(())
}

// The first bits of two bytes.
fn front(alloc: Global, bits: u64, bytes: [u8; 2]) -> Result<Key, NoMemory> {
    let whole = Key::from_bytes(alloc, &bytes)?;
    whole.first(alloc, bits.min(whole.bits()))
}

// Where the slot of these bits lies, and the key of the same bits.
fn places(
    alloc: Global,
    start: Bound,
    end: Bound,
    bits: u64,
    bytes: [u8; 2],
) -> Result<Option<(Place, Place)>, NoMemory> {
    let Some(range) = range(alloc, start, end)? else {
        return Ok(None);
    };
    let key = front(alloc, bits, bytes)?;
    Ok(Some((place(&key, &range), key_place(&key, &range))))
}

#[test]
fn slots_and_keys_lie_beside_a_range_or_in_it(rt: HostRuntime) -> Result<(), Fail> {
    let alloc = rt.alloc();
    let (before, inside, after) = (Place::Before, Place::Inside, Place::After);
    for (start, end, bits, bytes, slot, key) in [
        (FROM_12, TO_1F, 4, [0x00, 0], before, before),
        (FROM_12, TO_1F, 4, [0x10, 0], Place::Straddles, before),
        (FROM_12, TO_1F, 4, [0x20, 0], after, after),
        (FROM_12, TO_1F, 8, [0x11, 0], before, before),
        (FROM_12, TO_1F, 8, [0x12, 0], inside, inside),
        (FROM_12, TO_1F, 12, [0x12, 0], inside, inside),
        (FROM_12, TO_1F, 7, [0x12, 0], Place::Straddles, before),
        (FROM_12, TO_1F, 7, [0x14, 0], inside, inside),
        (FROM_12, TO_1F, 8, [0x1f, 0], Place::Straddles, inside),
        (FROM_12, TO_1F, 12, [0x1f, 0], after, after),
        (FROM_12, TO_1F, 0, [0, 0], Place::Straddles, before),
        (FROM_12, FROM_12, 8, [0x12, 0], Place::Straddles, inside),
        (None, TO_1F, 4, [0x00, 0], inside, inside),
        (None, TO_1F, 4, [0x10, 0], Place::Straddles, inside),
        (FROM_12, None, 4, [0xf0, 0], inside, inside),
        (FROM_12, None, 0, [0, 0], Place::Straddles, before),
        (None, None, 0, [0, 0], inside, inside),
    ] {
        let told = places(alloc, start, end, bits, bytes)?;
        assert_eq!(rt;
            told,
            Some((slot, key)),
            "{bits} bits of {bytes:?} by {start:?} to {end:?}"
        );
    }
    Ok(())
}
