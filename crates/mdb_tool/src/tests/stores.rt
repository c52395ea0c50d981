//! Runs on a store, one after another on one disk.
use super::words;
use crate::program::run;
use crate::status::Status;
use disk_world::{Disk, Failed};
use mdb_base::{MemSink, MemSource};
use mem_world::{MemDisk, Pick};
use proof_check::{Refusal, VerifyFault};
use std::alloc::Global;
use std::process::Abort;
use std::test::Fail;

/// A run: its words, its input, how it ends and what it prints.
type Turn = (&'static [&'static str], &'static [u8], Status, &'static str);

const APPLY: &[&str] = &["D", "apply", "16"];

const GET: &[&str] = &["D", "get", "16", "6b"];

const GET_OTHER: &[&str] = &["D", "get", "16", "6c"];

/// The line of the first commit where it leaves {6b: 76}: its root is the hash of 00 01 01 76 08 6b.
const ONE: &str = "commit 1 1e06a9a1d455f9698b60b63f9d11dbed46ae35a85b0d74fa5b05423b34217822\n";

/// The line of the first commit where it leaves {6b: 76, 6c: no bytes}: the root is the hash of 02, 0b and
/// the hash of 00 01 01 76 08 6b, 0c and the hash of 00 01 00 08 6c, 00 04 60.
const BOTH: &str = "commit 1 1f10a64dbd65fd86048da9fd5ee78053222f9abaa61f1239672c9db0dd561a62\n";

/// The line of the first commit where it leaves no pair.
const EMPTY: &str = "commit 1 0000000000000000000000000000000000000000000000000000000000000000\n";

/// The lines of three commits: the root of the second is the hash of 00 01 01 77 08 6b, and the third has
/// no change.
const THREE: &str = "commit 1 1e06a9a1d455f9698b60b63f9d11dbed46ae35a85b0d74fa5b05423b34217822\n\
                     commit 2 aae8e93fb49eac2ee7ed9b522c3aad291cecf3d448b2270cf43ce75a89ff223f\n\
                     commit 3 aae8e93fb49eac2ee7ed9b522c3aad291cecf3d448b2270cf43ce75a89ff223f\n";

/// The file of a store of {6b: 76} at factor 16, but for the gate behind its record.
const WORKED: [u8; 36] = [
    0x01, 0x4d, 0x44, 0x42, 0x56, 0x41, 0x4c, 0x53, 0x01, 0x04, 0, 0, 0, 0, 0, 0, 0, 0, 0, 0, 0, 0,
    0, 0x01, 0x01, 0x01, 0, 0, 0, 0x06, 0x01, 0x01, 0x6b, 0x01, 0x01, 0x76,
];

// That runs on one disk end so and print this.
fn assert_turns(
    rt: &impl Abort,
    alloc: Global,
    disk: &mut MemDisk,
    turns: &[Turn],
) -> Result<(), Fail> {
    for (given, text, status, printed) in turns {
        let mut input = MemSource::new(Vec::from_slice(alloc, *text)?, 3, Vec::new(alloc));
        let mut out = MemSink::new(alloc, Vec::new(alloc));
        let ended = run(alloc, &words(alloc, *given)?, &mut input, &mut out, disk);
        assert_eq!(rt; ended, *status, "of {given:?} on {text:?}");
        assert_eq!(rt; out.bytes(), printed.as_bytes(), "of {given:?} on {text:?}");
    }
    Ok(())
}

// A disk whose file 0 has these bytes, and of which a crash leaves them.
fn holding(alloc: Global, bytes: &[u8]) -> Result<MemDisk, Failed> {
    let mut disk = MemDisk::new(alloc);
    disk.write_at(0, 0, bytes)?;
    disk.sync(0)?;
    Ok(disk)
}

#[test]
fn a_commit_is_there_for_later_runs(rt: HostRuntime) -> Result<(), Fail> {
    let alloc = rt.alloc();
    let rows: [&[Turn]; 4] = [
        // A store that nobody has written is empty, and what is pending at the end is committed.
        &[
            (GET, b"x", Status::Done, "none\n"),
            (APPLY, b"put 6b 76\n", Status::Done, ONE),
            (GET, b"", Status::Done, "value 76\n"),
            (GET_OTHER, b"", Status::Done, "none\n"),
        ],
        // A value of no bytes is a dash, and numbers count from 1 in each run.
        &[
            (APPLY, b"put 6c -\nput 6b 76", Status::Done, BOTH),
            (GET_OTHER, b"", Status::Done, "value -\n"),
            (APPLY, b"del 6c\n", Status::Done, ONE),
            (GET_OTHER, b"", Status::Done, "none\n"),
        ],
        // Commits of one run.
        &[
            (
                APPLY,
                b"put 6b 76\ncommit\nput 6b 77\ncommit\n# none\ncommit\n",
                Status::Done,
                THREE,
            ),
            (GET, b"", Status::Done, "value 77\n"),
        ],
        // Nothing is pending, so nothing is committed but by a line.
        &[
            (APPLY, b"", Status::Done, ""),
            (APPLY, b"# none\n\n", Status::Done, ""),
            (APPLY, b"commit\n", Status::Done, EMPTY),
            (APPLY, b"put 6b 76\ndel 6b\ncommit", Status::Done, EMPTY),
        ],
    ];
    for turns in rows {
        assert_turns(&rt, alloc, &mut MemDisk::new(alloc), turns)?;
    }
    Ok(())
}

// A proof of the store is one for who has the root alone. Of the other maps the empty one has a name.
#[test]
fn what_a_store_proves_is_accepted(rt: HostRuntime) -> Result<(), Fail> {
    let alloc = rt.alloc();
    let held = "1e06a9a1d455f9698b60b63f9d11dbed46ae35a85b0d74fa5b05423b34217822";
    let zeros = "0000000000000000000000000000000000000000000000000000000000000000";
    let other = "aae8e93fb49eac2ee7ed9b522c3aad291cecf3d448b2270cf43ce75a89ff223f";
    let mut disk = MemDisk::new(alloc);
    assert_turns(
        &rt,
        alloc,
        &mut disk,
        &[(APPLY, b"put 6b 76\n", Status::Done, ONE)],
    )?;
    let there = "proof 010401017601086b01017600\n";
    let none = "proof 01040000\n";
    let rows: [(&str, &str, Status, &str); 9] = [
        ("now", "6b", Status::Done, there),
        ("~0", "6B", Status::Done, there),
        (held, "6b", Status::Done, there),
        ("now", "6c", Status::Done, "proof 01040001086b01017600\n"),
        ("now", "-", Status::Done, "proof 01040001086b01017600\n"),
        ("empty", "6b", Status::Done, none),
        (zeros, "6b", Status::Done, none),
        ("~1", "6b", Status::NotHeld, ""),
        (other, "6b", Status::NotHeld, ""),
    ];
    for (root, key, status, printed) in rows {
        let mut input = MemSource::new(Vec::new(alloc), 3, Vec::new(alloc));
        let mut out = MemSink::new(alloc, Vec::new(alloc));
        let given = words(alloc, &["D", "prove", "16", root, key])?;
        let ended = run(alloc, &given, &mut input, &mut out, &mut disk);
        assert_eq!(rt; ended, status, "of {root} {key}");
        assert_eq!(rt; out.bytes(), printed.as_bytes(), "of {root} {key}");
    }
    let lines: &'static [u8] =
        b"point 1e06a9a1d455f9698b60b63f9d11dbed46ae35a85b0d74fa5b05423b34217822 6b 010401017601086b01017600\n\
        point 1e06a9a1d455f9698b60b63f9d11dbed46ae35a85b0d74fa5b05423b34217822 6c 01040001086b01017600\n";
    assert_turns(
        &rt,
        alloc,
        &mut disk,
        &[(&["-", "verify", "16"], lines, Status::Done, "ok 1\nok 0\n")],
    )
}

// Changes are checked against the map that the store of the run has, and it keeps that. No change leads {6b: 76} to
// itself; a put of what is there is idle; and a store with another factor is not opened, but where a line asks for it.
#[test]
fn changes_are_checked_against_the_store(rt: HostRuntime) -> Result<(), Fail> {
    const VERIFY: &[&str] = &["D", "verify", "16"];
    const OTHER: &[&str] = &["D", "verify", "256"];
    let none = b"point empty - 01040000\n\
        changes 1e06a9a1d455f9698b60b63f9d11dbed46ae35a85b0d74fa5b05423b34217822 * * 010200000000\n";
    let idle =
        b"changes 1e06a9a1d455f9698b60b63f9d11dbed46ae35a85b0d74fa5b05423b34217822 * * 01020001016b0101760000\n";
    let refused = Status::VerifyRefused {
        line: 1,
        cause: Refusal::Verify(VerifyFault::Idle(0)),
    };
    let differs = Status::BranchDiffers {
        kept: 16,
        asked: 256,
    };
    let turns: &[Turn] = &[
        (APPLY, b"put 6b 76\n", Status::Done, ONE),
        (VERIFY, none, Status::Done, "ok 0\nok 0\n"),
        (VERIFY, idle, refused, ""),
        (OTHER, b"point empty - 01040000\n", Status::Done, "ok 0\n"),
        (OTHER, none, differs, "ok 0\n"),
        (GET, b"", Status::Done, "value 76\n"),
    ];
    let alloc = rt.alloc();
    assert_turns(&rt, alloc, &mut MemDisk::new(alloc), turns)
}

/// The proof of the range from 0a to 0a of {0a: 61, 0b: 62}: the pair, and twice the path of 0a, which has the node
/// with both keys below it, with the hashes of 00 01 01 61 08 0a and of 00 01 01 62 08 0b, and the node of 0a.
const FROM_0A_TO_0A: &str = "range 01010001010a0161\
                             02040000020a00d38df253fa5cbfd74aa88e547efbbfaa1ccd15bbf741cb6b2629e460732170\
                             0b9d40dbe52f0ba969c65b4736bc11aada91c0d503f1d1c4d1af62ecfcb393c1e4080a01016100\
                             02040000020a00d38df253fa5cbfd74aa88e547efbbfaa1ccd15bbf741cb6b2629e460732170\
                             0b9d40dbe52f0ba969c65b4736bc11aada91c0d503f1d1c4d1af62ecfcb393c1e4080a01016100\n";

// Its root is the hash of 02, 0a and the one hash, 0b and the other, 00 04 00. A range of a map without pairs, as one
// without bounds, has no paths.
#[test]
fn ranges_of_a_store_are_proved(rt: HostRuntime) -> Result<(), Fail> {
    let alloc = rt.alloc();
    let turns: &[Turn] = &[
        (
            APPLY,
            b"put 0a 61\nput 0b 62\n",
            Status::Done,
            "commit 1 64653653211cedc5bb2d1cac77a3abfdc2ab40c9da2fa9a986d1db8642b9fb6c\n",
        ),
        (
            &["D", "range", "16", "now", "0a", "0a", "10", "1000"],
            b"",
            Status::Done,
            FROM_0A_TO_0A,
        ),
        (
            &["D", "range", "16", "~0", "*", "*", "10", "1000"],
            b"",
            Status::Done,
            "range 01010002010a0161010b01620000\n",
        ),
        (
            &["D", "range", "16", "empty", "*", "*", "1", "1"],
            b"",
            Status::Done,
            "range 010100000000\n",
        ),
        (
            &["D", "range", "16", "~1", "*", "*", "1", "1"],
            b"",
            Status::NotHeld,
            "",
        ),
        (APPLY, b"range now 0b 0a 1 1\n", Status::BadLine(1), ""),
    ];
    assert_turns(&rt, alloc, &mut MemDisk::new(alloc), turns)
}

// What is committed before the line stays, and what is pending is dropped.
#[test]
fn a_bad_line_ends_a_script(rt: HostRuntime) -> Result<(), Fail> {
    let alloc = rt.alloc();
    let turns: &[Turn] = &[
        (
            APPLY,
            b"put 6b 76\ncommit\nput 6c 77\ncomit\nput 6d 78\n",
            Status::BadLine(4),
            ONE,
        ),
        (GET, b"", Status::Done, "value 76\n"),
        (GET_OTHER, b"", Status::Done, "none\n"),
    ];
    assert_turns(&rt, alloc, &mut MemDisk::new(alloc), turns)
}

// The file is changed at one place, and behind its record comes the gate or nothing.
#[test]
fn files_that_are_no_such_store_are_told(rt: HostRuntime) -> Result<(), Fail> {
    let alloc = rt.alloc();
    let rows: [(usize, u8, &[u8], &[Turn]); 6] = [
        (
            23,
            0x01,
            &[0],
            &[
                (GET, b"", Status::Done, "value 76\n"),
                (
                    &["D", "get", "2", "6b"],
                    b"",
                    Status::BranchDiffers { kept: 16, asked: 2 },
                    "",
                ),
                (
                    &["D", "apply", "256"],
                    b"put 6b 77\n",
                    Status::BranchDiffers {
                        kept: 16,
                        asked: 256,
                    },
                    "",
                ),
                (GET, b"", Status::Done, "value 76\n"),
            ],
        ),
        (
            7,
            0x54,
            &[0],
            &[
                (GET, b"", Status::NotAStore(0), ""),
                (APPLY, b"x", Status::NotAStore(0), ""),
            ],
        ),
        (
            9,
            0x03,
            &[0],
            &[(APPLY, b"x", Status::Damaged { file: 0, at: 9 }, "")],
        ),
        (
            23,
            0x00,
            &[0],
            &[(GET, b"", Status::Damaged { file: 0, at: 16 }, "")],
        ),
        // No gate follows the record; the payload is no batch.
        (
            23,
            0x01,
            &[],
            &[(GET, b"", Status::Damaged { file: 0, at: 24 }, "")],
        ),
        (
            33,
            0x02,
            &[0],
            &[(APPLY, b"x", Status::Damaged { file: 0, at: 24 }, "")],
        ),
    ];
    for (place, byte, behind, turns) in rows {
        let mut bytes = Vec::from_slice(alloc, &WORKED)?;
        if place < bytes.len() {
            bytes[place] = byte;
        }
        bytes.extend_from_slice(behind)?;
        let Ok(mut disk) = holding(alloc, bytes.as_slice()) else {
            assert!(rt; false, "the disk failed");
            return Ok(());
        };
        assert_turns(&rt, alloc, &mut disk, turns)?;
    }
    Ok(())
}

/// Two commits, of which the second changes the value. In pieces of ten bytes they are read by five calls.
const CHANGED: &[u8] = b"put 6b 76\ncommit\nput 6b 77\ncommit\n";

/// The lines of both.
const TWO: &str = "commit 1 1e06a9a1d455f9698b60b63f9d11dbed46ae35a85b0d74fa5b05423b34217822\n\
                   commit 2 aae8e93fb49eac2ee7ed9b522c3aad291cecf3d448b2270cf43ce75a89ff223f\n";

// Runs them, with reads and writes of which some fail: how that ends, and what it prints.
fn changed(
    alloc: Global,
    disk: &mut MemDisk,
    reads: Vec<u64>,
    writes: Vec<u64>,
) -> Result<(Status, MemSink), Fail> {
    let mut input = MemSource::new(Vec::from_slice(alloc, CHANGED)?, 10, reads);
    let mut out = MemSink::new(alloc, writes);
    let ended = run(alloc, &words(alloc, APPLY)?, &mut input, &mut out, disk);
    Ok((ended, out))
}

// How many of them were told.
fn told(out: &MemSink) -> Result<u64, Fail> {
    if out.bytes().is_empty() {
        Ok(0)
    } else if out.bytes() == ONE.as_bytes() {
        Ok(1)
    } else if out.bytes() == TWO.as_bytes() {
        Ok(2)
    } else {
        Err(Fail::new("other lines were printed"))
    }
}

// How many of them a run of `get` finds.
fn found(rt: &impl Abort, alloc: Global, disk: &mut MemDisk) -> Result<u64, Fail> {
    let mut out = MemSink::new(alloc, Vec::new(alloc));
    let mut input = MemSource::new(Vec::new(alloc), 1, Vec::new(alloc));
    let ended = run(alloc, &words(alloc, GET)?, &mut input, &mut out, disk);
    assert_eq!(rt; ended, Status::Done);
    if out.bytes() == b"none\n".as_slice() {
        Ok(0)
    } else if out.bytes() == b"value 76\n".as_slice() {
        Ok(1)
    } else if out.bytes() == b"value 77\n".as_slice() {
        Ok(2)
    } else {
        Err(Fail::new("another value was found"))
    }
}

// Whatever call of the disk fails, alone or with all after it, it is told; and a crash leaves each commit that was
// told, and at most one more.
#[test]
fn a_disk_that_fails_is_told(rt: HostRuntime) -> Result<(), Fail> {
    let alloc = rt.alloc();
    for calls in 0..32u64 {
        for alone in [false, true] {
            let mut disk = MemDisk::new(alloc);
            if alone {
                disk.failing(Vec::from_slice(alloc, &[calls])?);
            } else {
                disk.fuse(calls);
            }
            let (ended, out) = changed(alloc, &mut disk, Vec::new(alloc), Vec::new(alloc))?;
            let count = told(&out)?;
            assert!(rt; count == 2 || calls < 31, "none of {calls} calls is enough");
            let want = if count == 2 {
                Status::Done
            } else {
                Status::Disk
            };
            assert_eq!(rt; ended, want, "at {calls}, alone {alone}");
            for noise in 0..18u64 {
                let pick = match noise {
                    16 => Pick::Kept,
                    17 => Pick::Lost,
                    _ => Pick::Noise(noise),
                };
                let left = found(&rt, alloc, &mut disk.crash(pick)?)?;
                assert!(rt;
                    left == count || left == count.saturating_add(1),
                    "at {calls}, alone {alone}, {pick:?}"
                );
            }
        }
    }
    Ok(())
}

// A failed read ends the script before its next line, and what is pending then is dropped. A failed write ends it
// behind a commit, which stays.
#[test]
fn a_read_or_a_write_that_fails_ends_a_script(rt: HostRuntime) -> Result<(), Fail> {
    let alloc = rt.alloc();
    // The call that fails, the end, how many commits were told by then, and how many are kept.
    let reads = [
        (0u64, Status::Read, 0u64, 0u64),
        (1, Status::Read, 0, 0),
        (2, Status::Read, 1, 1),
        (3, Status::Read, 1, 1),
        (4, Status::Read, 2, 2),
        (5, Status::Done, 2, 2),
    ];
    for (call, want, count, kept) in reads {
        let mut disk = MemDisk::new(alloc);
        let failing = Vec::from_slice(alloc, &[call])?;
        let (ended, out) = changed(alloc, &mut disk, failing, Vec::new(alloc))?;
        assert_eq!(rt; (ended, told(&out)?), (want, count), "read {call}");
        assert_eq!(rt; found(&rt, alloc, &mut disk)?, kept, "read {call}");
    }
    let writes = [
        (0u64, Status::Write, 0u64, 1u64),
        (1, Status::Write, 1, 2),
        (2, Status::Done, 2, 2),
    ];
    for (call, want, count, kept) in writes {
        let mut disk = MemDisk::new(alloc);
        let failing = Vec::from_slice(alloc, &[call])?;
        let (ended, out) = changed(alloc, &mut disk, Vec::new(alloc), failing)?;
        assert_eq!(rt; (ended, told(&out)?), (want, count), "write {call}");
        assert_eq!(rt; found(&rt, alloc, &mut disk)?, kept, "write {call}");
    }
    Ok(())
}
