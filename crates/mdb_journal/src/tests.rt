use crate::{Journal, JournalFault, Record};
use bit_keys::Branch;
use disk_world::{Disk, Failed};
use mem_world::{MemDisk, Pick};
use std::alloc::Global;
use std::process::Abort;
use std::test::Fail;

/// A store of one commit, which puts 76 at 6b, with 16 children a node.
const WORKED: [u8; 37] = [
    0x01, 0x4d, 0x44, 0x42, 0x56, 0x41, 0x4c, 0x53, 0x01, 0x04, 0, 0, 0, 0, 0, 0, 0, 0, 0, 0, 0, 0,
    0, 0x01, 0x01, 0x01, 0, 0, 0, 0x06, 0x01, 0x01, 0x6b, 0x01, 0x01, 0x76, 0x00,
];

/// Room for the payload of that commit.
const ROOM: [u8; 12] = [0, 0, 0, 0, 0, 1, 1, 0x6b, 1, 1, 0x76, 9];

/// The active file, its generation, and where its records end.
type Found = (u8, u64, u64);

fn found<D: Disk>(disk: &mut D, branch: Branch) -> Result<Found, JournalFault> {
    let journal = Journal::open(disk, branch)?;
    Ok((journal.active(), journal.generation(), journal.end()))
}

fn commit<D: Disk>(disk: &mut D, journal: &mut Journal) -> Result<u64, JournalFault> {
    let mut room = ROOM;
    journal.append(disk, 1, &mut room)
}

/// A disk with these two files.
fn holding(alloc: Global, first: &[u8], second: &[u8]) -> Result<MemDisk, Failed> {
    let mut disk = MemDisk::new(alloc);
    disk.write_at(0, 0, first)?;
    disk.write_at(1, 0, second)?;
    disk.sync(0)?;
    disk.sync(1)?;
    Ok(disk)
}

/// A disk with a journal of so many commits.
fn committed(alloc: Global, commits: u8) -> Result<(MemDisk, Journal), JournalFault> {
    let mut disk = MemDisk::new(alloc);
    let mut journal = Journal::open(&mut disk, Branch::B16)?;
    for _ in 0..commits {
        commit(&mut disk, &mut journal)?;
    }
    Ok((disk, journal))
}

#[test]
fn a_commit_makes_the_worked_file(rt: HostRuntime) -> Result<(), Fail> {
    let mut disk = MemDisk::new(rt.alloc());
    let Ok(mut journal) = Journal::open(&mut disk, Branch::B16) else {
        assert!(rt; false, "it is not opened");
        return Ok(());
    };
    assert_eq!(rt; commit(&mut disk, &mut journal), Ok(30));
    let mut bytes = [0u8; 37];
    assert_eq!(rt; disk.len(0), Ok(37));
    assert_eq!(rt; disk.read(0, 0, &mut bytes), Ok(()));
    assert_eq!(rt; bytes, WORKED);
    assert_eq!(rt; disk.len(1), Ok(0));
    let record = Record {
        kind: 1,
        place: 30,
        length: 6,
        next: 36,
    };
    assert_eq!(rt;
        journal.record(&mut disk, journal.first()),
        Ok(Some(record))
    );
    assert_eq!(rt; journal.record(&mut disk, 36), Ok(None));
    let mut payload = [0u8; 6];
    if journal.end() >= 36 {
        assert_eq!(rt; journal.read(&mut disk, 30, &mut payload), Ok(()));
    }
    assert_eq!(rt; payload, [1, 1, 0x6b, 1, 1, 0x76]);
    Ok(())
}

/// The worked file, cut to a length or filled up with zeros, and with other bytes at some places.
fn changed(alloc: Global, length: usize, edits: &[(usize, u8)]) -> Result<Vec<u8>, Fail> {
    let mut bytes = Vec::new(alloc);
    bytes.extend_from_slice(&WORKED)?;
    bytes.resize(length, 0)?;
    for (place, byte) in edits {
        if let Some(slot) = bytes.get_mut(*place) {
            *slot = *byte;
        }
    }
    Ok(bytes)
}

#[test]
fn files_are_opened_or_refused_by_their_bytes(rt: HostRuntime) -> Result<(), Fail> {
    let damaged = |at| Err(JournalFault::Damaged { file: 0, at });
    let whole = Ok((0, 1, 36));
    let fresh = Ok((0, 1, 24));
    let rows: [(usize, &[(usize, u8)], Result<Found, JournalFault>); 22] = [
        (37, &[], whole),
        // What stands behind a gate that is not open doesn't count, not even an open gate.
        (50, &[(37, 1), (38, 1), (49, 1)], whole),
        (50, &[(36, 2), (37, 1), (43, 1)], whole),
        (37, &[(24, 0)], fresh),
        (37, &[(24, 2)], fresh),
        // Closed headers.
        (0, &[], fresh),
        (24, &[], fresh),
        (37, &[(0, 0), (1, 9)], fresh),
        (37, &[(0, 2)], fresh),
        // Wrong ones.
        (37, &[(7, 0x54)], Err(JournalFault::NotAStore(0))),
        (37, &[(8, 2), (9, 3)], Err(JournalFault::NotAStore(0))),
        (37, &[(9, 3)], damaged(9)),
        (37, &[(10, 1), (15, 1)], damaged(10)),
        (37, &[(15, 1), (23, 0)], damaged(15)),
        (37, &[(23, 0)], damaged(16)),
        (
            37,
            &[(9, 1)],
            Err(JournalFault::BranchDiffers { kept: 2, asked: 16 }),
        ),
        // Records: of a third kind, past the end, with no gate behind, clean with a payload, and clean.
        (37, &[(25, 3)], damaged(24)),
        (37, &[(29, 7)], damaged(24)),
        (36, &[], damaged(24)),
        (25, &[], damaged(24)),
        (37, &[(25, 2)], damaged(24)),
        (32, &[(25, 2), (29, 0), (30, 0)], Ok((0, 1, 30))),
    ];
    for (length, edits, want) in rows {
        let bytes = changed(rt.alloc(), length, edits)?;
        let Ok(mut disk) = holding(rt.alloc(), &bytes, &[]) else {
            assert!(rt; false, "the disk failed");
            return Ok(());
        };
        assert_eq!(rt;
            found(&mut disk, Branch::B16),
            want,
            "{length} bytes, {edits:?}"
        );
    }
    let pairs: [(u8, u8, Result<Found, JournalFault>); 3] = [
        (1, 2, Ok((1, 2, 36))),
        (2, 1, Ok((0, 2, 36))),
        (2, 2, Ok((0, 2, 36))),
    ];
    for (first, second, want) in pairs {
        let first = changed(rt.alloc(), 37, &[(23, first)])?;
        let second = changed(rt.alloc(), 37, &[(23, second)])?;
        let Ok(mut disk) = holding(rt.alloc(), &first, &second) else {
            assert!(rt; false, "the disk failed");
            return Ok(());
        };
        assert_eq!(rt; found(&mut disk, Branch::B16), want);
    }
    Ok(())
}

/// Where the records end after each of the first two picks of a crash, and that they end at one of
/// two places after sixteen more.
fn assert_left(
    rt: &impl Abort,
    disk: &MemDisk,
    ends: (u64, u64),
    either: [u64; 2],
) -> Result<(), Fail> {
    let mut kept = disk.crash(Pick::Kept)?;
    assert_eq!(rt; found(&mut kept, Branch::B16), Ok((0, 1, ends.0)));
    let mut lost = disk.crash(Pick::Lost)?;
    assert_eq!(rt; found(&mut lost, Branch::B16), Ok((0, 1, ends.1)));
    for noise in 0..16u64 {
        let mut after = disk.crash(Pick::Noise(noise))?;
        match found(&mut after, Branch::B16) {
            Ok((0, 1, end)) => assert!(rt; end == either[0] || end == either[1], "{end}"),
            _ => assert!(rt; false, "noise {noise}"),
        }
    }
    Ok(())
}

#[test]
fn an_append_that_is_stopped_leaves_the_records_before_it_or_with_it(
    rt: HostRuntime,
) -> Result<(), Fail> {
    // How many calls are done, or which one fails alone; where the records end in a crash.
    let rows: [(Option<u64>, Option<u64>, u64, u64); 9] = [
        (Some(0), None, 36, 36),
        (Some(1), None, 36, 36),
        (Some(2), None, 36, 36),
        (Some(3), None, 48, 36),
        (None, None, 48, 48),
        (None, Some(0), 36, 36),
        (None, Some(1), 36, 36),
        (None, Some(2), 36, 36),
        (None, Some(3), 48, 36),
    ];
    for (fuse, fails, kept, lost) in rows {
        let Ok((mut disk, mut journal)) = committed(rt.alloc(), 1) else {
            assert!(rt; false, "the disk failed");
            return Ok(());
        };
        if let Some(calls) = fuse {
            disk.fuse(calls);
        }
        if let Some(call) = fails {
            let mut failing = Vec::new(rt.alloc());
            failing.push(call)?;
            disk.failing(failing);
        }
        let stopped = fuse.is_some() || fails.is_some();
        let want = if stopped {
            Err(JournalFault::Disk)
        } else {
            Ok(42)
        };
        assert_eq!(rt; commit(&mut disk, &mut journal), want, "{fuse:?} {fails:?}");
        assert_left(&rt, &disk, (kept, lost), [36, 48])?;
        if stopped {
            assert_eq!(rt; commit(&mut disk, &mut journal), Err(JournalFault::Failed));
            assert_eq!(rt; journal.record(&mut disk, 24), Err(JournalFault::Failed));
        }
    }
    Ok(())
}

#[test]
fn an_opening_that_is_stopped_leaves_the_records(rt: HostRuntime) -> Result<(), Fail> {
    for commits in [0u8, 2] {
        let end = 24 + 12 * u64::from(commits);
        for calls in 0..24u64 {
            let Ok((mut disk, _)) = committed(rt.alloc(), commits) else {
                assert!(rt; false, "the disk failed");
                return Ok(());
            };
            if commits == 0 {
                disk = MemDisk::new(rt.alloc());
            }
            disk.fuse(calls);
            match found(&mut disk, Branch::B16) {
                Ok(now) => assert_eq!(rt; now, (0, 1, end)),
                Err(fault) => assert_eq!(rt; fault, JournalFault::Disk),
            }
            assert_left(&rt, &disk, (end, end), [end, end])?;
        }
    }
    Ok(())
}
