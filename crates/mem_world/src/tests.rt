use super::*;
use disk_world::{Disk, Failed};
use std::alloc::Global;
use std::process::Abort;
use std::test::Fail;

mod ruled;

use ruled::{Deed, Small, Step, clean, left};

/// One of twelve calls, of which the even ones are on file 0.
fn choose(turn: u8, choice: u32) -> Step {
    let (at, byte, length) = match turn {
        0 => (3, 40, 1),
        1 => (6, 41, 5),
        2 => (1, 42, 2),
        _ => (4, 43, 3),
    };
    Step {
        file: (choice % 2) as u8,
        deed: match choice / 2 % 3 {
            0 => Deed::Write(at, byte),
            1 => Deed::Cut(length),
            _ => Deed::Sync,
        },
        fails: choice / 6 % 2 == 1,
        turn,
    }
}

// Through the bound, since crates above know a disk by this alone.
fn make<D: Disk>(disk: &mut D, step: Step) -> Result<(), Failed> {
    let file = step.file.min(4);
    match step.deed {
        Deed::Write(at, byte) => disk.write_at(file, at, &[byte; 2]),
        Deed::Cut(length) => disk.cut(file, length),
        Deed::Sync => disk.sync(file),
    }
}

fn whole<D: Disk>(disk: &mut D, file: u8) -> Result<Small, Failed> {
    let file = file.min(4);
    let len = disk.len(file)?;
    let mut bytes = [0u8; 8];
    let count = len.min(8) as usize;
    disk.read(file, 0, &mut bytes[..count])?;
    Ok(Small { bytes, len })
}

/// The files 0 and 1 as at the start, and synced.
fn start<D: Disk>(disk: &mut D) -> Result<(), Failed> {
    disk.write_at(0, 0, &[1, 2, 3, 4])?;
    disk.write_at(1, 0, &[1, 2, 3, 4])?;
    disk.sync(0)?;
    disk.sync(1)
}

/// Makes four calls on a disk, and compares each crash with what the rule leaves.
fn crashes_as_ruled(rt: &impl Abort, alloc: Global, steps: [Step; 4]) -> Result<(), Fail> {
    let mut disk = MemDisk::new(alloc);
    assert_eq!(rt; start(&mut disk), Ok(()));
    let mut failing = Vec::new(alloc);
    for step in steps {
        if step.fails {
            failing.push(u64::from(step.turn))?;
        }
    }
    disk.failing(failing);
    for step in steps {
        assert_eq!(rt; make(&mut disk, step).is_err(), step.fails);
    }
    for pick in [Pick::Kept, Pick::Lost, Pick::Noise((1 << 63) + 250)] {
        let mut after = disk.crash(pick)?;
        for file in 0..2u8 {
            let want = clean(left(&steps, file, pick));
            assert_eq!(rt;
                whole(&mut after, file),
                Ok(want),
                "file {file} after {pick:?}"
            );
        }
    }
    Ok(())
}

// The two files are alike, so the first call is on file 0.
#[test]
fn each_crash_after_four_calls_leaves_what_the_rule_says(rt: HostRuntime) -> Result<(), Fail> {
    for code in 0..10368u32 {
        let steps = [
            choose(0, code % 6 * 2),
            choose(1, code / 6 % 12),
            choose(2, code / 72 % 12),
            choose(3, code / 864),
        ];
        crashes_as_ruled(&rt, rt.alloc(), steps)?;
    }
    Ok(())
}

#[derive(Clone, Copy)]
enum Ask<'a> {
    Read(u64, usize),
    Write(u64, &'a [u8]),
    Cut(u64),
    Sync,
}

fn answer<D: Disk>(disk: &mut D, ask: Ask) -> Result<(), Failed> {
    match ask {
        Ask::Read(at, count) => {
            let mut bytes = [0u8; 8];
            disk.read(3, at, &mut bytes[..count.min(8)])
        }
        Ask::Write(at, bytes) => disk.write_at(3, at, bytes),
        Ask::Cut(length) => disk.cut(3, length),
        Ask::Sync => disk.sync(3),
    }
}

/// What a call on a disk answers, and what its file is then.
fn answers_at_the_edges<D: Disk>(rt: &impl Abort, disk: &mut D) {
    let far = (1 << 63) - 1;
    let rows: [(Ask, bool, &[u8]); 11] = [
        (Ask::Read(0, 0), true, &[]),
        (Ask::Read(1, 0), false, &[]),
        (Ask::Read(0, 1), false, &[]),
        (Ask::Write(3, &[]), true, &[0, 0, 0]),
        (Ask::Write(5, &[7, 8]), true, &[0, 0, 0, 0, 0, 7, 8]),
        (Ask::Write(1, &[9]), true, &[0, 9, 0, 0, 0, 7, 8]),
        (Ask::Write(far, &[1]), false, &[0, 9, 0, 0, 0, 7, 8]),
        (Ask::Write(far + 1, &[]), false, &[0, 9, 0, 0, 0, 7, 8]),
        (Ask::Cut(9), true, &[0, 9, 0, 0, 0, 7, 8]),
        (Ask::Cut(2), true, &[0, 9]),
        (Ask::Sync, true, &[0, 9]),
    ];
    for (turn, (ask, goes_well, bytes)) in rows.into_iter().enumerate() {
        assert_eq!(rt; answer(disk, ask).is_ok(), goes_well, "call {turn}");
        let len = disk.len(3).unwrap_or(99).min(8) as usize;
        let mut read = [0u8; 8];
        assert_eq!(rt; disk.read(3, 0, &mut read[..len]), Ok(()), "call {turn}");
        assert_eq!(rt; &read[..len], bytes, "call {turn}");
    }
}

#[test]
fn a_disk_answers_at_the_edges_of_a_file(rt: HostRuntime) {
    answers_at_the_edges(&rt, &mut MemDisk::new(rt.alloc()));
    answers_at_the_edges(&rt, &mut FlatDisk::new(rt.alloc()));
}

#[test]
fn all_calls_fail_after_the_fuse(rt: HostRuntime) -> Result<(), Fail> {
    let steps = [choose(0, 0), choose(1, 2), choose(2, 0), choose(3, 4)];
    for calls in 0..6u64 {
        let mut disk = MemDisk::new(rt.alloc());
        assert_eq!(rt; start(&mut disk), Ok(()));
        disk.fuse(calls);
        for step in steps {
            assert_eq!(rt;
                make(&mut disk, step).is_err(),
                calls <= u64::from(step.turn),
                "{calls}"
            );
        }
        // Another disk is synced as the first one reads, and fails no call.
        let mut other = disk.crash(Pick::Kept)?.crash(Pick::Lost)?;
        let made = calls.min(4) as usize;
        let want = clean(left(&steps[..made], 0, Pick::Kept));
        assert_eq!(rt; whole(&mut other, 0), Ok(want), "{calls}");
    }
    Ok(())
}
