use super::*;
use bit_keys::Branch;
use disk_world::Disk;
use mdb_base::Batch;
use mem_world::{FlatDisk, MemDisk, Pick};
use std::alloc::Global;
use std::process::Abort;
use std::test::Fail;

/// Changes of a batch, as a test writes them.
type Changes<'a> = &'a [(&'a [u8], Option<&'a [u8]>)];

/// A store of one commit, which puts 76 at 6b, with 16 children a node.
const WORKED: [u8; 37] = [
    0x01, 0x4d, 0x44, 0x42, 0x56, 0x41, 0x4c, 0x53, 0x01, 0x04, 0, 0, 0, 0, 0, 0, 0, 0, 0, 0, 0, 0,
    0, 0x01, 0x01, 0x01, 0, 0, 0, 0x06, 0x01, 0x01, 0x6b, 0x01, 0x01, 0x76, 0x00,
];

fn batch_of(alloc: Global, changes: Changes<'_>) -> Result<Batch, Fail> {
    let mut batch = Batch::new(alloc);
    for (key, value) in changes {
        let value = match value {
            Some(bytes) => Some(Vec::from_slice(alloc, bytes)?),
            None => None,
        };
        batch.set(Vec::from_slice(alloc, key)?, value)?;
    }
    Ok(batch)
}

/// The pairs of a store, a line for each, in the order of the keys.
fn lines<D: Disk>(alloc: Global, disk: &mut D, store: &mut ValueStore) -> Result<Vec<u8>, Fail> {
    let mut out = Vec::new(alloc);
    let mut from = Vec::new(alloc);
    for count in 0..store.len() {
        let Some(key) = store.next(&from, count > 0) else {
            return Err(Fail::new("a key is missing"));
        };
        let key = Vec::from_slice(alloc, key)?;
        let Some(value) = store.get(alloc, disk, &key)? else {
            return Err(Fail::new("a value is missing"));
        };
        out.extend_from_slice(&key)?;
        out.push(b'=')?;
        out.extend_from_slice(&value)?;
        out.push(b'\n')?;
        from = key;
    }
    Ok(out)
}

/// The lines of the store that a disk opens as.
fn opened<D: Disk>(alloc: Global, disk: &mut D) -> Result<Vec<u8>, Fail> {
    let mut store = ValueStore::open(alloc, disk, Branch::B16)?;
    lines(alloc, disk, &mut store)
}

#[test]
fn a_write_makes_the_worked_file(rt: HostRuntime) -> Result<(), Fail> {
    let alloc = rt.alloc();
    let mut disk = MemDisk::new(alloc);
    let mut store = ValueStore::open(alloc, &mut disk, Branch::B16)?;
    let empty = (store.len(), store.generation(), store.last());
    assert_eq!(rt; empty, (0, 1, None));
    let batch = batch_of(alloc, &[(b"k", Some(b"v"))])?;
    store.write(alloc, &mut disk, &batch)?;
    let mut bytes = [0u8; 37];
    disk.read(0, 0, &mut bytes)?;
    assert_eq!(rt; (disk.len(0), bytes), (Ok(37), WORKED));
    Ok(())
}

/// A disk on which a store puts 1 at a and at b, and its store.
fn committed(alloc: Global) -> Result<(MemDisk, ValueStore), Fail> {
    let mut disk = MemDisk::new(alloc);
    let mut store = ValueStore::open(alloc, &mut disk, Branch::B16)?;
    let batch = batch_of(alloc, &[(b"a", Some(b"1")), (b"b", Some(b"1"))])?;
    store.write(alloc, &mut disk, &batch)?;
    Ok((disk, store))
}

/// Lets the call behind so many calls fail, alone or with all that follow.
fn stop(alloc: Global, disk: &mut MemDisk, calls: u64, alone: bool) -> Result<(), Fail> {
    if alone {
        disk.failing(vec![in alloc; calls]?);
    } else {
        disk.fuse(calls);
    }
    Ok(())
}

/// That after each of eighteen picks of a crash the store has one of these two texts of lines.
fn assert_left(
    rt: &impl Abort,
    alloc: Global,
    disk: &MemDisk,
    one: &[u8],
    other: &[u8],
) -> Result<(), Fail> {
    for noise in 0..18u64 {
        let pick = match noise {
            16 => Pick::Kept,
            17 => Pick::Lost,
            _ => Pick::Noise(noise),
        };
        let mut after = disk.crash(pick)?;
        let left = opened(alloc, &mut after)?;
        let left = left.as_slice();
        assert!(rt; left == one || left == other, "{left:?}");
    }
    Ok(())
}

const BEFORE: &[u8] = b"a=1\nb=1\n";

const AFTER: &[u8] = b"b=2\nc=3\n";

/// The changes from one to the other, with one of a key that is not there.
const CHANGES: Changes<'static> = &[
    (b"a", None),
    (b"b", Some(b"2")),
    (b"c", Some(b"3")),
    (b"d", None),
];

#[test]
fn a_write_leaves_the_map_after_it(rt: HostRuntime) -> Result<(), Fail> {
    let alloc = rt.alloc();
    let (mut disk, mut store) = committed(alloc)?;
    let batch = batch_of(alloc, CHANGES)?;
    store.write(alloc, &mut disk, &batch)?;
    let read = lines(alloc, &mut disk, &mut store)?;
    assert_eq!(rt; read.as_slice(), AFTER);
    assert_left(&rt, alloc, &disk, AFTER, AFTER)
}

#[test]
fn a_write_that_is_stopped_leaves_the_map_before_it_or_after_it(
    rt: HostRuntime,
) -> Result<(), Fail> {
    let alloc = rt.alloc();
    let batch = batch_of(alloc, CHANGES)?;
    for step in 0..8u64 {
        let (mut disk, mut store) = committed(alloc)?;
        stop(alloc, &mut disk, step % 4, step >= 4)?;
        let written = store.write(alloc, &mut disk, &batch);
        let got = store.get(alloc, &mut disk, b"c");
        let again = store.write(alloc, &mut disk, &batch);
        assert_eq!(rt; written, Err(ValueFault::Disk), "step {step}");
        assert_eq!(rt;
            (got, again),
            (Err(ValueFault::Failed), Err(ValueFault::Failed))
        );
        assert_left(&rt, alloc, &disk, BEFORE, AFTER)?;
    }
    Ok(())
}

/// Opens the store of a disk of which a call fails, and says whether the disk failed.
fn is_stopped(alloc: Global, disk: &mut MemDisk) -> Result<bool, Fail> {
    match ValueStore::open(alloc, disk, Branch::B16) {
        Ok(_) => Ok(false),
        Err(ValueFault::Disk) => Ok(true),
        Err(fault) => Err(fault.into()),
    }
}

#[test]
fn an_opening_that_is_stopped_leaves_the_map(rt: HostRuntime) -> Result<(), Fail> {
    let alloc = rt.alloc();
    for (fresh, alone) in [(true, false), (true, true), (false, false), (false, true)] {
        let mut stopped = true;
        for calls in 0..24u64 {
            let (mut disk, _) = committed(alloc)?;
            if fresh {
                disk = MemDisk::new(alloc);
            }
            stop(alloc, &mut disk, calls, alone)?;
            let fails = is_stopped(alloc, &mut disk)?;
            assert!(rt; stopped || !fails, "call {calls}");
            stopped = fails;
            let want = if fresh { b"".as_slice() } else { BEFORE };
            assert_left(&rt, alloc, &disk, want, want)?;
        }
        assert!(rt; !stopped, "it was never opened");
    }
    Ok(())
}

/// A batch of 127 values of 262,144 bytes, and one of `rest` bytes.
fn large_batch(alloc: Global, rest: usize) -> Result<Batch, Fail> {
    let mut batch = Batch::new(alloc);
    for key in 0..128u8 {
        let count = if key < 127 { 262_144 } else { rest };
        batch.set(vec![in alloc; key]?, Some(vec![in alloc; key; count]?))?;
    }
    Ok(batch)
}

#[test]
fn the_largest_payload_is_written_and_read_back(rt: HostRuntime) -> Result<(), Fail> {
    let alloc = rt.alloc();
    let mut disk = FlatDisk::new(alloc);
    let mut store = ValueStore::open(alloc, &mut disk, Branch::B16)?;
    // Two bytes for the number of changes, six for each but the value, and the values.
    let above = large_batch(alloc, 261_375)?;
    let large = store.write(alloc, &mut disk, &above);
    assert_eq!(rt; large, Err(ValueFault::TooLarge(33_554_433)));
    let within = large_batch(alloc, 261_374)?;
    store.write(alloc, &mut disk, &within)?;
    let mut store = ValueStore::open(alloc, &mut disk, Branch::B16)?;
    for (key, count) in [(0u8, 262_144), (1, 262_144), (126, 262_144), (127, 261_374)] {
        let want = vec![in alloc; key; count]?;
        let value = store.get(alloc, &mut disk, &[key])?;
        assert!(rt; value == Some(want), "at {key}");
    }
    Ok(())
}

/// A batch that puts nothing at 100,000 keys of four bytes.
fn many(alloc: Global, from: u32) -> Result<Batch, Fail> {
    let mut batch = Batch::new(alloc);
    for number in from..from.saturating_add(100_000) {
        let key = Vec::from_slice(alloc, &number.to_be_bytes())?;
        batch.set(key, Some(Vec::new(alloc)))?;
    }
    Ok(batch)
}

#[test]
fn a_store_of_a_million_pairs_is_full(rt: HostRuntime) -> Result<(), Fail> {
    let alloc = rt.alloc();
    let mut disk = FlatDisk::new(alloc);
    let mut store = ValueStore::open(alloc, &mut disk, Branch::B16)?;
    for round in 0..10u32 {
        let batch = many(alloc, round * 100_000)?;
        store.write(alloc, &mut disk, &batch)?;
    }
    let last = 1_000_000u32.to_be_bytes();
    let mut more = Batch::new(alloc);
    more.set(Vec::from_slice(alloc, &last)?, Some(Vec::new(alloc)))?;
    assert_eq!(rt; store.admits(&more), Err(ValueFault::Full));
    assert_eq!(rt; store.write(alloc, &mut disk, &more), Err(ValueFault::Full));
    // One more, and one fewer.
    more.set(vec![in alloc; 0; 4]?, None)?;
    assert_eq!(rt; store.admits(&more), Ok(()));
    store.write(alloc, &mut disk, &more)?;
    let store = ValueStore::open(alloc, &mut disk, Branch::B16)?;
    assert_eq!(rt; store.len(), 1_000_000);
    let ends = (store.next(b"", false), store.last());
    assert_eq!(rt;
        ends,
        (Some([0, 0, 0, 1].as_slice()), Some(last.as_slice()))
    );
    Ok(())
}
