ghost use Rattle.std.specs.Prelude.{◌≡◌, ◌<◌};

use crate::{
    At, Config, Db, DbFault, DbSource, Digests, HistoryFault, KeyBytes, Spot, Taken, ViewId,
    ViewState,
};
use bit_keys::{Branch, Id, Range};
use disk_world::Disk;
use mdb_base::{Batch, BatchFault, NoMemory};
use mem_world::{FlatDisk, MemDisk, Pick};
use node_codec::Child;
use sha2::{Digest, Sha256};
use std::alloc::Global;
use std::marker::Brand;
use std::process::Abort;
use std::sync::ledger::{Blank, Ledger};
use std::test::Fail;
use trie_items::{NodeSource, SourceFault, Steps, value_digest};

/// A store of one commit, which puts 76 at 6b, with 16 children a node.
const WORKED: [u8; 37] = [
    0x01, 0x4d, 0x44, 0x42, 0x56, 0x41, 0x4c, 0x53, 0x01, 0x04, 0, 0, 0, 0, 0, 0, 0, 0, 0, 0, 0, 0,
    0, 0x01, 0x01, 0x01, 0, 0, 0, 0x06, 0x01, 0x01, 0x6b, 0x01, 0x01, 0x76, 0x00,
];

/// The root of a map of no pair.
const EMPTY: Id = [0; 32];

/// The root of a map of one pair: the hash of its one node.
fn root_of_one(key: u8, value: u8) -> Id {
    Sha256::digest(&[0, 1, 1, value, 8, key])
}

/// The root of a map of two pairs at 16 children a node: two children at the four bits that the keys share.
fn root_of_two(first: (u8, u8), second: (u8, u8)) -> Id {
    let mut hasher = Sha256::new();
    hasher.update(&[2, first.0 & 0x0f]);
    hasher.update(&root_of_one(first.0, first.1));
    hasher.update(&[second.0 & 0x0f]);
    hasher.update(&root_of_one(second.0, second.1));
    hasher.update(&[0, 4, first.0 & 0xf0]);
    hasher.finalize()
}

/// Pairs of a map, keys and values of a byte.
type Pairs = &'static [(u8, u8)];

/// Keys of a byte with what they get; None deletes.
type Changes<'a> = &'a [(u8, Option<u8>)];

const K: Pairs = &[(0x6b, 0x76)];

const KL: Pairs = &[(0x6b, 0x76), (0x6c, 0x77)];

/// The root of a map of at most two pairs.
fn root_of(pairs: Pairs) -> Id {
    match (pairs.first(), pairs.get(1)) {
        (Some(one), None) => root_of_one(one.0, one.1),
        (Some(first), Some(second)) => root_of_two(*first, *second),
        _ => EMPTY,
    }
}

/// What a call on a store of 16 children a node answers whose map has these pairs.
fn rooted(want: Result<Pairs, DbFault>) -> Result<Id, DbFault> {
    match want {
        Ok(pairs) => Ok(root_of(pairs)),
        Err(fault) => Err(fault),
    }
}

fn opened<D: Disk>(alloc: Global, disk: &mut D, branch: Branch) -> Result<Db, DbFault> {
    let config = Config {
        cache: 1024,
        commits: 16,
        weight: 1_048_576,
    };
    Db::open(alloc, disk, branch, config)
}

fn owned(alloc: Global, bytes: &[u8]) -> Result<Vec<u8>, BatchFault> {
    Vec::from_slice(alloc, bytes).map_err(|_| BatchFault::NoMemory)
}

fn batch_of(alloc: Global, changes: Changes<'_>) -> Result<Batch, BatchFault> {
    let mut batch = Batch::new(alloc);
    for (key, value) in changes {
        let value = match value {
            Some(byte) => Some(owned(alloc, &[*byte])?),
            None => None,
        };
        batch.set(owned(alloc, &[*key])?, value)?;
    }
    Ok(batch)
}

fn counted<D: Disk, L: Ledger>(
    alloc: Global,
    disk: &mut D,
    db: &mut Db,
    batch: Batch,
    blank: Blank,
) -> Result<(ViewId, Id), DbFault>
    requires name { blank.name ≡ L.name }
    requires parts { blank.parts ≡ L.parts }
    requires some { 0 < blank.parts }
{
    let mut steps = Steps::<L>::new(blank);
    db.apply(alloc, disk, batch, &mut steps)
}

/// Applies a batch, for a test that counts no hashes.
fn applied<D: Disk>(
    alloc: Global,
    disk: &mut D,
    db: &mut Db,
    batch: Batch,
) -> Result<(ViewId, Id), DbFault> {
    counted::<D, Brand>(alloc, disk, db, batch, Blank::new(1))
}

/// That a commit of a batch has this number and this map, or this fault.
fn assert_applied<D: Disk>(
    rt: &impl Abort,
    alloc: Global,
    disk: &mut D,
    db: &mut Db,
    batch: Batch,
    want: Result<(u64, Pairs), DbFault>,
) {
    let want = match want {
        Ok((number, pairs)) => Ok((ViewId { number }, root_of(pairs))),
        Err(fault) => Err(fault),
    };
    let found = applied(alloc, disk, db, batch);
    assert_eq!(rt; found, want);
}

/// The same of a batch of these changes.
fn assert_put<D: Disk>(
    rt: &impl Abort,
    alloc: Global,
    disk: &mut D,
    db: &mut Db,
    changes: Changes<'_>,
    want: Result<(u64, Pairs), DbFault>,
) -> Result<(), Fail> {
    let batch = batch_of(alloc, changes)?;
    assert_applied(rt, alloc, disk, db, batch, want);
    Ok(())
}

const PUT_K: Changes<'static> = &[(0x6b, Some(0x76))];

const PUT_L: Changes<'static> = &[(0x6c, Some(0x77))];

/// Whether the store has this value at the key.
fn has<D: Disk>(
    alloc: Global,
    disk: &mut D,
    db: &mut Db,
    key: u8,
    want: Option<u8>,
) -> Result<bool, DbFault> {
    match db.get(alloc, disk, At::Store, &[key]) {
        Ok(Some(value)) => Ok(want.is_some_and(|byte| value.as_slice() == [byte].as_slice())),
        Ok(None) => Ok(want.is_none()),
        Err(fault) => Err(fault),
    }
}

/// That the first file of the disk is the worked one.
fn assert_worked<D: Disk>(rt: &impl Abort, disk: &mut D) {
    let mut bytes = [0u8; 37];
    let told = (disk.len(0), disk.read(0, 0, &mut bytes));
    assert_eq!(rt; told, (Ok(37), Ok(())));
    assert_eq!(rt; bytes, WORKED);
}

/// That a store tells this map and this generation.
fn assert_store(rt: &impl Abort, db: &Db, pairs: Pairs, generation: u64) {
    let told = (db.root(), db.len(), db.generation());
    assert_eq!(rt; told, (root_of(pairs), pairs.len() as u64, generation));
}

/// That the store of the worked file is there when the disk is opened again.
fn assert_reopened<D: Disk>(rt: &impl Abort, alloc: Global, disk: &mut D) -> Result<(), Fail> {
    let mut db = opened(alloc, disk, Branch::B16)?;
    assert_store(rt, &db, K, 1);
    assert_eq!(rt; (db.branch(), db.damage()), (Branch::B16, None));
    let first = has(alloc, disk, &mut db, 0x6b, Some(0x76));
    let second = has(alloc, disk, &mut db, 0x6c, None);
    assert_eq!(rt; (first, second), (Ok(true), Ok(true)));
    Ok(())
}

/// That a commit makes the worked file, and is there when the store is opened again.
fn assert_commit<D: Disk>(rt: &impl Abort, alloc: Global, disk: &mut D) -> Result<(), Fail> {
    let mut db = opened(alloc, disk, Branch::B16)?;
    assert_store(rt, &db, &[], 1);
    assert_put(rt, alloc, disk, &mut db, PUT_K, Ok((1, K)))?;
    assert_worked(rt, disk);
    assert_eq!(rt; db.close(disk), Ok(()));
    assert_reopened(rt, alloc, disk)
}

#[test]
fn a_commit_makes_the_worked_file_and_its_root(rt: HostRuntime) -> Result<(), Fail> {
    let alloc = rt.alloc();
    assert_commit(&rt, alloc, &mut MemDisk::new(alloc))?;
    assert_commit(&rt, alloc, &mut FlatDisk::new(alloc))
}

/// What is committed, and the map after it.
const COMMITS: &[(Changes<'static>, Pairs)] = &[
    (&[], &[]),
    (PUT_K, K),
    (&[], K),
    (&[(0x78, None)], K),
    (PUT_L, KL),
    (&[(0x6c, None), (0x6b, None)], &[]),
];

#[test]
fn numbers_count_from_one_at_each_opening(rt: HostRuntime) -> Result<(), Fail> {
    let alloc = rt.alloc();
    let mut disk = MemDisk::new(alloc);
    for _ in 0..2 {
        let mut db = opened(alloc, &mut disk, Branch::B16)?;
        let mut number = 0u64;
        for (changes, pairs) in COMMITS {
            number = number.saturating_add(1);
            assert_put(&rt, alloc, &mut disk, &mut db, changes, Ok((number, pairs)))?;
            assert_store(&rt, &db, pairs, 1);
        }
    }
    Ok(())
}

/// A byte of the worked file, what it is changed to, and the map or why there is none.
const FILES: &[(usize, u8, Result<Pairs, DbFault>)] = &[
    (0, 0x01, Ok(K)),
    (24, 0x00, Ok(&[])),
    (35, 0x77, Ok(&[(0x6b, 0x77)])),
    (7, 0x54, Err(DbFault::NotAStore(0))),
    (9, 0x01, Err(DbFault::BranchDiffers { kept: 2, asked: 16 })),
    (15, 0x01, Err(DbFault::Damaged { file: 0, at: 15 })),
    (25, 0x03, Err(DbFault::Damaged { file: 0, at: 24 })),
    (30, 0x02, Err(DbFault::Damaged { file: 0, at: 24 })),
];

/// The root of the store of a disk whose first file has these bytes.
fn root_in(alloc: Global, bytes: &[u8]) -> Result<Id, DbFault> {
    let mut disk = MemDisk::new(alloc);
    if disk.write_at(0, 0, bytes).is_err() {
        return Err(DbFault::Disk);
    }
    let db = opened(alloc, &mut disk, Branch::B16)?;
    Ok(db.root())
}

#[test]
fn files_are_opened_or_refused_by_their_bytes(rt: HostRuntime) {
    let alloc = rt.alloc();
    for (place, byte, want) in FILES {
        let mut bytes = WORKED;
        if let Some(slot) = bytes.get_mut(*place) {
            *slot = *byte;
        }
        let found = root_in(alloc, &bytes);
        assert_eq!(rt; found, rooted(*want), "{byte} at {place}");
    }
}

/// Maps with their values at 6b and at 6c.
const MAPS: &[(Pairs, Option<u8>, Option<u8>)] = &[
    (&[], None, None),
    (K, Some(0x76), None),
    (KL, Some(0x76), Some(0x77)),
];

/// Which of three maps the disk stands for, by all that a store tells of it: the empty one, {6b: 76} or
/// {6b: 76, 6c: 77}.
fn found_map<D: Disk>(alloc: Global, disk: &mut D) -> Result<Option<u64>, DbFault> {
    let mut db = opened(alloc, disk, Branch::B16)?;
    let mut found = None;
    for (pairs, first, second) in MAPS {
        let len = pairs.len() as u64;
        let same = has(alloc, disk, &mut db, 0x6b, *first)?
            && has(alloc, disk, &mut db, 0x6c, *second)?
            && db.root() == root_of(pairs)
            && db.len() == len;
        if same {
            found = Some(len);
        }
    }
    Ok(found)
}

/// Makes the two commits, and tells how many were acknowledged. A store whose disk failed stays failed.
fn two_commits(
    rt: &impl Abort,
    alloc: Global,
    disk: &mut MemDisk,
    mut db: Db,
) -> Result<u64, Fail> {
    let mut done = 0u64;
    let mut want = DbFault::Disk;
    for (changes, pairs) in [(PUT_K, K), (PUT_L, KL)] {
        let batch = batch_of(alloc, changes)?;
        match applied(alloc, disk, &mut db, batch) {
            Ok(made) => {
                done = done.saturating_add(1);
                assert_eq!(rt; made, (ViewId { number: done }, root_of(pairs)));
            }
            Err(fault) => {
                let got = has(alloc, disk, &mut db, 0x6b, None);
                assert_eq!(rt; (fault, got), (want, Err(DbFault::Failed)));
                want = DbFault::Failed;
            }
        }
    }
    let closed = db.close(disk).is_ok();
    assert_eq!(rt; closed, done == 2);
    Ok(done)
}

/// Lets the call behind so many calls fail, alone or with all that follow.
fn stop(alloc: Global, disk: &mut MemDisk, calls: u64, alone: bool) -> Result<(), Fail> {
    if alone {
        disk.failing(vec![in alloc; calls]?);
    } else {
        disk.fuse(calls);
    }
    Ok(())
}

/// That after each of eighteen picks of a crash the disk stands for the map of so many commits, or of one more.
fn assert_left(
    rt: &impl Abort,
    alloc: Global,
    disk: &MemDisk,
    done: u64,
    call: u64,
) -> Result<(), Fail> {
    for noise in 0..18u64 {
        let pick = match noise {
            16 => Pick::Kept,
            17 => Pick::Lost,
            _ => Pick::Noise(noise),
        };
        let mut crashed = disk.crash(pick)?;
        let found = found_map(alloc, &mut crashed)?;
        let before = found == Some(done);
        let after = found == Some(done.saturating_add(1));
        assert!(rt; before || after, "{done} done, at call {call}, {pick:?}");
    }
    Ok(())
}

#[test]
fn a_store_that_is_stopped_is_the_map_before_or_after(rt: HostRuntime) -> Result<(), Fail> {
    let alloc = rt.alloc();
    for call in 0..9u64 {
        for alone in [false, true] {
            let mut disk = MemDisk::new(alloc);
            let db = opened(alloc, &mut disk, Branch::B16)?;
            stop(alloc, &mut disk, call, alone)?;
            let done = two_commits(&rt, alloc, &mut disk, db)?;
            assert_left(&rt, alloc, &disk, done, call)?;
        }
    }
    Ok(())
}

/// 129 changes of 262,150 bytes, and their number in two bytes.
fn large_batch(alloc: Global) -> Result<Batch, Fail> {
    let mut batch = Batch::new(alloc);
    for key in 0..129u8 {
        batch.set(vec![in alloc; key]?, Some(vec![in alloc; 0; 262_144]?))?;
    }
    Ok(batch)
}

#[test]
fn a_payload_that_is_too_large_is_told_and_changes_nothing(rt: HostRuntime) -> Result<(), Fail> {
    let alloc = rt.alloc();
    let mut disk = MemDisk::new(alloc);
    let mut db = opened(alloc, &mut disk, Branch::B16)?;
    let large = large_batch(alloc)?;
    let again = large.copy(alloc)?;
    let want = Err(DbFault::TooLarge(33_817_352));
    assert_applied(&rt, alloc, &mut disk, &mut db, large, want);
    assert_put(&rt, alloc, &mut disk, &mut db, PUT_K, Ok((1, K)))?;
    // A store that failed is told first.
    disk.fuse(0);
    assert_put(&rt, alloc, &mut disk, &mut db, &[], Err(DbFault::Disk))?;
    assert_applied(&rt, alloc, &mut disk, &mut db, again, Err(DbFault::Failed));
    Ok(())
}

fn put_digest(alloc: Global, digests: &mut Digests, key: u8, value: u8) -> Result<(), NoMemory> {
    digests.put(KeyBytes::from_slice(alloc, &[key])?, value_digest(&[value]))
}

fn remove_digest(alloc: Global, digests: &mut Digests, key: u8) -> Result<(), NoMemory> {
    digests.remove(&KeyBytes::from_slice(alloc, &[key])?);
    Ok(())
}

fn assert_digests(rt: &impl Abort, alloc: Global, digests: &Digests, pairs: Pairs) {
    let root = digests.root(alloc, Branch::B16);
    assert_eq!(rt; root, Ok(root_of(pairs)));
}

#[test]
fn digests_follow_what_is_put_and_removed(rt: HostRuntime) -> Result<(), Fail> {
    let alloc = rt.alloc();
    let mut digests = Digests::new(alloc);
    assert_digests(&rt, alloc, &digests, &[]);
    put_digest(alloc, &mut digests, 0x6c, 0x77)?;
    put_digest(alloc, &mut digests, 0x6b, 0x78)?;
    put_digest(alloc, &mut digests, 0x6b, 0x76)?;
    assert_digests(&rt, alloc, &digests, KL);
    let mut copy = digests.copy(alloc)?;
    remove_digest(alloc, &mut digests, 0x6c)?;
    remove_digest(alloc, &mut digests, 0x78)?;
    assert_digests(&rt, alloc, &digests, K);
    let batch = batch_of(alloc, &[(0x6b, None), (0x6c, Some(0x76))])?;
    copy.lay(alloc, &batch)?;
    assert_digests(&rt, alloc, &copy, &[(0x6c, 0x76)]);
    Ok(())
}

fn proposed<D: Disk, L: Ledger>(
    alloc: Global,
    disk: &mut D,
    db: &mut Db,
    parent: Option<ViewId>,
    batch: Batch,
    blank: Blank,
) -> Result<ViewId, DbFault>
    requires name { blank.name ≡ L.name }
    requires parts { blank.parts ≡ L.parts }
    requires some { 0 < blank.parts }
{
    let mut steps = Steps::<L>::new(blank);
    db.view(alloc, disk, parent, batch, &mut steps)
}

/// Makes a view, for a test that counts no hashes, and tells its root.
fn made<D: Disk>(
    alloc: Global,
    disk: &mut D,
    db: &mut Db,
    parent: Option<u64>,
    batch: Batch,
) -> Result<Id, DbFault> {
    let parent = parent.map(|number| ViewId { number });
    let id = proposed::<D, Brand>(alloc, disk, db, parent, batch, Blank::new(1))?;
    db.root_of(id)
}

fn one_byte(value: Option<Vec<u8>>) -> Option<u8> {
    value.and_then(|bytes| bytes.first().copied())
}

/// That a view of these changes has this map, or this fault.
fn assert_made<D: Disk>(
    rt: &impl Abort,
    alloc: Global,
    disk: &mut D,
    db: &mut Db,
    parent: Option<u64>,
    changes: Changes<'_>,
    want: Result<Pairs, DbFault>,
) -> Result<(), Fail> {
    let batch = batch_of(alloc, changes)?;
    let found = made(alloc, disk, db, parent, batch);
    assert_eq!(rt; found, rooted(want), "on {parent:?}");
    Ok(())
}

/// That a map has this byte at the key, or this fault.
fn assert_got<D: Disk>(
    rt: &impl Abort,
    alloc: Global,
    disk: &mut D,
    db: &mut Db,
    at: At,
    key: u8,
    want: Result<Option<u8>, DbFault>,
) {
    let found = db.get(alloc, disk, at, &[key]);
    assert_eq!(rt; found.map(one_byte), want, "{key} in {at:?}");
}

/// That a view is committed to this map, or not, with this fault.
fn assert_taken<D: Disk>(
    rt: &impl Abort,
    alloc: Global,
    disk: &mut D,
    db: &mut Db,
    number: u64,
    want: Result<Pairs, DbFault>,
) {
    let want = rooted(want);
    let found = db.commit(alloc, disk, ViewId { number });
    assert_eq!(rt; found, want, "view {number}");
    if let Ok(root) = want {
        assert_eq!(rt; db.root(), root, "view {number}");
    }
}

/// That a value that is put at a key at once makes this map.
fn assert_direct<D: Disk>(
    rt: &impl Abort,
    alloc: Global,
    disk: &mut D,
    db: &mut Db,
    changes: Changes<'_>,
    pairs: Pairs,
) -> Result<(), Fail> {
    let batch = batch_of(alloc, changes)?;
    let (_, after) = applied(alloc, disk, db, batch)?;
    assert_eq!(rt; after, root_of(pairs));
    Ok(())
}

/// A call on views, by their numbers.
#[derive(Clone, Copy)]
enum Step {
    /// A view that puts a value at a key, on a view or on the store, and its map.
    Make(Option<u64>, u8, u8, Result<Pairs, DbFault>),
    Close(u64, Result<(), DbFault>),
    Take(u64, Result<Pairs, DbFault>),
    /// A value that is put at a key at once, and the map after it.
    Apply(u8, u8, Pairs),
    State(u64, Option<ViewState>),
    /// The value at a key of a view.
    Get(u64, u8, Result<Option<u8>, DbFault>),
    Root(u64, Result<Pairs, DbFault>),
}

fn assert_step<D: Disk>(
    rt: &impl Abort,
    alloc: Global,
    disk: &mut D,
    db: &mut Db,
    step: Step,
) -> Result<(), Fail> {
    match step {
        Step::Make(parent, key, value, want) => {
            assert_made(rt, alloc, disk, db, parent, &[(key, Some(value))], want)?;
        }
        Step::Close(number, want) => {
            let found = db.close_view(ViewId { number });
            assert_eq!(rt; found, want, "view {number}");
        }
        Step::Take(number, want) => assert_taken(rt, alloc, disk, db, number, want),
        Step::Apply(key, value, pairs) => {
            assert_direct(rt, alloc, disk, db, &[(key, Some(value))], pairs)?;
        }
        Step::State(number, want) => {
            let found = db.state(ViewId { number });
            assert_eq!(rt; found, want, "view {number}");
        }
        Step::Get(number, key, want) => {
            assert_got(rt, alloc, disk, db, At::View(ViewId { number }), key, want);
        }
        Step::Root(number, want) => {
            let found = db.root_of(ViewId { number });
            assert_eq!(rt; found, rooted(want), "view {number}");
        }
    }
    Ok(())
}

const INVALID: DbFault = DbFault::NotLive(ViewState::Invalid);

const CLOSED: DbFault = DbFault::NotLive(ViewState::Closed);

const A: Pairs = &[(0x0a, 0x61)];

const B: Pairs = &[(0x0b, 0x62)];

const AC: Pairs = &[(0x0a, 0x61), (0x0c, 0x63)];

const AD: Pairs = &[(0x0a, 0x61), (0x0c, 0x64)];

const SIBLINGS: &[Step] = &[
    Step::Make(None, 0x0a, 0x61, Ok(A)),
    Step::Make(None, 0x0b, 0x62, Ok(B)),
    Step::Make(Some(1), 0x0c, 0x63, Ok(AC)),
    Step::Get(3, 0x0a, Ok(Some(0x61))),
    Step::Get(3, 0x0c, Ok(Some(0x63))),
    Step::Get(3, 0x0b, Ok(None)),
    Step::Take(3, Err(DbFault::NotParent)),
    Step::Take(1, Ok(A)),
    Step::State(1, Some(ViewState::Committed)),
    Step::State(2, Some(ViewState::Invalid)),
    Step::State(3, Some(ViewState::Live)),
    Step::State(4, None),
    Step::Get(2, 0x0b, Err(INVALID)),
    Step::Root(2, Err(INVALID)),
    Step::Root(3, Ok(AC)),
    Step::Take(2, Err(INVALID)),
    Step::Take(3, Ok(AC)),
    Step::Make(Some(2), 0x0d, 0x65, Err(INVALID)),
    Step::Take(4, Err(DbFault::Unknown)),
];

const OVERLAID: &[Step] = &[
    Step::Make(None, 0x0a, 0x61, Ok(A)),
    Step::Make(Some(1), 0x0c, 0x63, Ok(AC)),
    Step::Make(Some(2), 0x0c, 0x64, Ok(AD)),
    Step::Get(3, 0x0c, Ok(Some(0x64))),
    Step::Get(2, 0x0c, Ok(Some(0x63))),
    Step::Get(1, 0x0c, Ok(None)),
    Step::Close(2, Ok(())),
    Step::State(1, Some(ViewState::Live)),
    Step::State(3, Some(ViewState::Closed)),
    Step::Get(3, 0x0c, Err(CLOSED)),
    Step::Close(3, Err(CLOSED)),
    Step::Take(1, Ok(A)),
    Step::Close(9, Err(DbFault::Unknown)),
    Step::Root(0, Err(DbFault::Unknown)),
];

const DIRECT: &[Step] = &[
    Step::Make(None, 0x0b, 0x62, Ok(B)),
    Step::Apply(0x0a, 0x61, A),
    Step::State(1, Some(ViewState::Invalid)),
    Step::State(2, Some(ViewState::Committed)),
    Step::Make(
        Some(2),
        0x0c,
        0x63,
        Err(DbFault::NotLive(ViewState::Committed)),
    ),
    Step::Make(None, 0x0c, 0x63, Ok(AC)),
    Step::Get(3, 0x0a, Ok(Some(0x61))),
    Step::Take(3, Ok(AC)),
];

/// Does the steps on a store of no pair, which is there with the same root when it is opened again.
fn assert_steps(rt: &impl Abort, alloc: Global, steps: &[Step]) -> Result<(), Fail> {
    let mut disk = MemDisk::new(alloc);
    let mut db = opened(alloc, &mut disk, Branch::B16)?;
    for step in steps {
        assert_step(rt, alloc, &mut disk, &mut db, *step)?;
    }
    let again = opened(alloc, &mut disk, Branch::B16)?;
    assert_eq!(rt; again.root(), db.root());
    Ok(())
}

#[test]
fn views_are_made_read_closed_and_committed(rt: HostRuntime) -> Result<(), Fail> {
    let alloc = rt.alloc();
    for steps in [SIBLINGS, OVERLAID, DIRECT] {
        assert_steps(&rt, alloc, steps)?;
    }
    Ok(())
}

#[test]
fn a_view_may_be_so_far_from_the_store_and_no_farther(rt: HostRuntime) -> Result<(), Fail> {
    let alloc = rt.alloc();
    let mut disk = MemDisk::new(alloc);
    let mut db = opened(alloc, &mut disk, Branch::B16)?;
    let mut parent = None;
    for number in 1..65u64 {
        assert_made(&rt, alloc, &mut disk, &mut db, parent, PUT_K, Ok(K))?;
        parent = Some(number);
    }
    let want = Err(DbFault::TooDeep);
    assert_made(&rt, alloc, &mut disk, &mut db, parent, &[], want)?;
    assert_eq!(rt; db.state(ViewId { number: 65 }), None);
    Ok(())
}

/// What a source tells of a map: the bits of the key of its root node, the nodes below that one by the pairs of
/// which each has one, and the pairs.
type Told = (Option<u64>, Pairs, Pairs);

fn assert_below(rt: &impl Abort, children: &[Child], below: Pairs) {
    assert_eq!(rt; children.len(), below.len());
    for (child, pair) in children.iter().zip(below) {
        assert_eq!(rt; child.id, root_of_one(pair.0, pair.1));
    }
}

fn assert_nodes<N: NodeSource>(
    rt: &impl Abort,
    alloc: Global,
    source: &mut N,
    bits: Option<u64>,
    below: Pairs,
) -> Result<(), Fail> {
    let Some(key) = source.root_key(alloc)? else {
        assert_eq!(rt; bits, None);
        return Ok(());
    };
    assert_eq!(rt; Some(key.bits()), bits);
    let Some(node) = source.node(alloc, &key)? else {
        return Err(Fail::new("no root node"));
    };
    assert_below(rt, &node.children, below);
    Ok(())
}

fn assert_next<N: NodeSource>(
    rt: &impl Abort,
    alloc: Global,
    source: &mut N,
    last: Option<u8>,
    want: Option<u8>,
) -> Result<(), Fail> {
    let next = source.next(alloc, last.as_slice(), last.is_some())?;
    assert_eq!(rt; one_byte(next), want);
    Ok(())
}

fn assert_pairs<N: NodeSource>(
    rt: &impl Abort,
    alloc: Global,
    source: &mut N,
    pairs: Pairs,
) -> Result<(), Fail> {
    let mut last = None;
    for (key, value) in pairs {
        assert_next(rt, alloc, source, last, Some(*key))?;
        let found = source.value(alloc, &[*key])?;
        assert_eq!(rt; one_byte(found), Some(*value));
        last = Some(*key);
    }
    assert_next(rt, alloc, source, last, None)
}

fn assert_told<D: Disk>(
    rt: &impl Abort,
    alloc: Global,
    disk: &mut D,
    db: &mut Db,
    at: At,
    want: Told,
) -> Result<(), Fail> {
    let (bits, below, pairs) = want;
    let spot = db.source(alloc, disk, at)?;
    let mut source = DbSource {
        db: &mut *db,
        disk: &mut *disk,
        spot: &spot,
    };
    assert_nodes(rt, alloc, &mut source, bits, below)?;
    assert_pairs(rt, alloc, &mut source, pairs)
}

/// Puts at keys, for a test that counts no hashes.
fn put<D: Disk>(
    alloc: Global,
    disk: &mut D,
    db: &mut Db,
    changes: Changes<'_>,
) -> Result<(), Fail> {
    let batch = batch_of(alloc, changes)?;
    applied(alloc, disk, db, batch)?;
    Ok(())
}

/// A store of {6b: 76}, and on it the view 2, which puts 77 at 6c.
fn with_view<D: Disk>(alloc: Global, disk: &mut D) -> Result<Db, Fail> {
    let mut db = opened(alloc, disk, Branch::B16)?;
    put(alloc, disk, &mut db, PUT_K)?;
    let batch = batch_of(alloc, PUT_L)?;
    made(alloc, disk, &mut db, None, batch)?;
    Ok(db)
}

/// Which map a row of a table speaks of: that of the store, of a view, or the one of these pairs.
#[derive(Clone, Copy)]
enum Place {
    Store,
    View(u64),
    Map(Pairs),
}

fn at(place: Place) -> At {
    match place {
        Place::Store => At::Store,
        Place::View(number) => At::View(ViewId { number }),
        Place::Map(pairs) => At::Root(root_of(pairs)),
    }
}

const ONE: Told = (Some(8), &[], K);

const BOTH: Told = (Some(4), KL, KL);

const NONE: Told = (None, &[], &[]);

/// What is told where the view is live, and after its commit.
const LIVE: &[(Place, Told)] = &[
    (Place::Store, ONE),
    (Place::Map(K), ONE),
    (Place::View(2), BOTH),
    (Place::Map(&[]), NONE),
];

const COMMITTED: &[(Place, Told)] = &[
    (Place::Store, BOTH),
    (Place::Map(KL), BOTH),
    (Place::Map(K), ONE),
    (Place::Map(&[]), NONE),
];

#[test]
fn a_source_tells_the_map_of_its_place(rt: HostRuntime) -> Result<(), Fail> {
    let alloc = rt.alloc();
    let mut disk = MemDisk::new(alloc);
    let mut db = with_view(alloc, &mut disk)?;
    for (place, want) in LIVE {
        assert_told(&rt, alloc, &mut disk, &mut db, at(*place), *want)?;
    }
    db.commit(alloc, &mut disk, ViewId { number: 2 })?;
    for (place, want) in COMMITTED {
        assert_told(&rt, alloc, &mut disk, &mut db, at(*place), *want)?;
    }
    Ok(())
}

/// What a commit changes, and the map before it where that is held.
const HEAVY: &[(Changes<'static>, Option<Pairs>)] = &[
    (PUT_K, Some(&[])),
    (&[(0x6b, None), (0x6c, Some(0x78))], None),
    (PUT_K, Some(&[(0x6c, 0x78)])),
];

/// Where commits may weigh three bytes, one of four lets the maps before it go, and the next one goes on from there.
fn assert_let_go(rt: &impl Abort, alloc: Global) -> Result<(), Fail> {
    let mut disk = MemDisk::new(alloc);
    let config = Config {
        cache: 1024,
        commits: 16,
        weight: 3,
    };
    let mut db = Db::open(alloc, &mut disk, Branch::B16, config)?;
    for (changes, before) in HEAVY {
        put(alloc, &mut disk, &mut db, changes)?;
        let before = match before {
            Some(pairs) => Some(root_of(pairs)),
            None => None,
        };
        assert_eq!(rt; (db.back(1), db.back(2)), (before, None));
    }
    Ok(())
}

/// The maps so many commits back, and their values at 6b and at 6c.
const PAST: &[(Pairs, Option<u8>, Option<u8>)] = &[
    (&[(0x6c, 0x78)], None, Some(0x78)),
    (KL, Some(0x76), Some(0x77)),
    (K, Some(0x76), None),
    (&[], None, None),
];

fn assert_held(rt: &impl Abort, db: &Db, root: &Id, commits: u64) {
    let told = (db.back(commits), db.held(root));
    assert_eq!(rt; told, (Some(*root), true), "{commits} back");
}

/// A store with a commit behind the one of the view.
fn with_past<D: Disk>(alloc: Global, disk: &mut D) -> Result<Db, Fail> {
    let mut db = with_view(alloc, disk)?;
    db.commit(alloc, disk, ViewId { number: 2 })?;
    put(alloc, disk, &mut db, &[(0x6b, None), (0x6c, Some(0x78))])?;
    Ok(db)
}

#[test]
fn past_maps_are_held_and_told_apart(rt: HostRuntime) -> Result<(), Fail> {
    let alloc = rt.alloc();
    let mut disk = MemDisk::new(alloc);
    let mut db = with_past(alloc, &mut disk)?;
    let mut commits = 0u64;
    for (pairs, first, second) in PAST {
        let root = root_of(pairs);
        assert_held(&rt, &db, &root, commits);
        let at = At::Root(root);
        assert_got(&rt, alloc, &mut disk, &mut db, at, 0x6b, Ok(*first));
        assert_got(&rt, alloc, &mut disk, &mut db, at, 0x6c, Ok(*second));
        commits = commits.saturating_add(1);
    }
    assert_eq!(rt; db.back(commits), None);
    assert!(rt; !db.held(&root_of_one(0x6b, 0x77)));
    assert_let_go(&rt, alloc)
}

const L: &[u8] = b"l";

const W: &[u8] = b"w";

/// That one change is told, and all of it, which puts 77 at 6c.
fn assert_told_change(rt: &impl Abort, taken: &Taken) {
    assert_eq!(rt; (taken.cut, taken.changes.len()), (false, 1));
    for change in &taken.changes {
        let told = (change.key.as_slice(), change.value.as_deref());
        assert_eq!(rt; told, (L, Some(W)));
    }
}

#[test]
fn changes_are_told_from_a_held_map_to_a_later_one(rt: HostRuntime) -> Result<(), Fail> {
    let alloc = rt.alloc();
    let mut disk = MemDisk::new(alloc);
    let mut db = with_view(alloc, &mut disk)?;
    db.commit(alloc, &mut disk, ViewId { number: 2 })?;
    let (former, now) = (root_of(K), root_of(KL));
    let Some(range) = Range::new(None, None) else {
        return Err(NoMemory.into());
    };
    let taken = db.changes(alloc, &former, &now, &range, 9, 99)?;
    assert_told_change(&rt, &taken);
    let back = db.changes(alloc, &now, &former, &range, 9, 99).err();
    assert_eq!(rt; back, Some(HistoryFault::NoStart));
    Ok(())
}

fn assert_refused<D: Disk>(
    rt: &impl Abort,
    alloc: Global,
    disk: &mut D,
    db: &mut Db,
    at: At,
    want: DbFault,
) {
    let refused = db.source(alloc, disk, at).err();
    assert_eq!(rt; refused, Some(want));
}

/// That a source of a store whose disk fails tells that.
fn assert_failed<D: Disk>(rt: &impl Abort, alloc: Global, disk: &mut D, db: &mut Db) {
    let mut source = DbSource {
        db,
        disk,
        spot: &Spot::Store,
    };
    assert_eq!(rt; source.value(alloc, b"k"), Err(SourceFault::Failed));
}

const REFUSED: &[(Place, DbFault)] = &[
    (Place::Map(KL), DbFault::NotHeld),
    (Place::View(9), DbFault::Unknown),
];

#[test]
fn a_place_that_names_no_map_is_refused(rt: HostRuntime) -> Result<(), Fail> {
    let alloc = rt.alloc();
    let mut disk = MemDisk::new(alloc);
    let mut db = with_view(alloc, &mut disk)?;
    for (place, want) in REFUSED {
        let at = at(*place);
        assert_refused(&rt, alloc, &mut disk, &mut db, at, *want);
        assert_got(&rt, alloc, &mut disk, &mut db, at, 0x6b, Err(*want));
    }
    disk.fuse(0);
    assert_failed(&rt, alloc, &mut disk, &mut db);
    let want = DbFault::Failed;
    assert_refused(&rt, alloc, &mut disk, &mut db, At::Store, want);
    Ok(())
}
