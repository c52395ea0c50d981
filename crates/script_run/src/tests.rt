// Scripts on disks in memory. Each root is the SHA-256 of a string that is written beside it, where 6b:76 stands
// for the hash of the string 00 01 01 76 08 6b of a node without children, which has the value 76 at the key 6b.
ghost use Rattle.std.specs.Prelude.{◌≡◌, false, IfOk};
ghost use Rattle.mdb_core.specs.Stores.{is_failed};

use crate::{SessionEnd, session};
use bit_keys::Branch;
use disk_world::Disk;
use mdb_base::{MemSink, MemSource};
use mdb_core::{Config, Db, DbFault};
use mem_world::{FlatDisk, MemDisk, Pick};
use std::alloc::Global;
use std::process::Abort;
use std::test::Fail;

/// The root of no pair.
const NONE: &str = "0000000000000000000000000000000000000000000000000000000000000000";

/// Of 61 at 0a: 0a:61.
const A: &str = "00d38df253fa5cbfd74aa88e547efbbfaa1ccd15bbf741cb6b2629e460732170";

/// Of 62 at 0b: 0b:62.
const B: &str = "9d40dbe52f0ba969c65b4736bc11aada91c0d503f1d1c4d1af62ecfcb393c1e4";

/// Of both: 02 0a 0a:61 0b 0b:62 00 04 00.
const A_AND_B: &str = "64653653211cedc5bb2d1cac77a3abfdc2ab40c9da2fa9a986d1db8642b9fb6c";

/// Of 61 at 0a and 63 at 0c: 02 0a 0a:61 0c 0c:63 00 04 00.
const A_AND_C: &str = "f3d40cd15d2d2b6bca9b3e6b437158edb7657c01a93d3cd81bf14992bfe41544";

/// Of no bytes at 0b: 00 01 00 08 0b.
const EMPTY_AT_B: &str = "17b393dcfb6de4bd892ede4c131cbbaadbb4ed47ec3c4e4ec426a4b9f1b1b8e1";

/// And 61 at 0a: 02 0a 0a:61 0b, the root before, 00 04 00.
const A_AND_EMPTY: &str = "e9baa0c9b3cea6bdc23f0d5137cb97abf595cd5e7e3238e82bfd2c4e8bf7d308";

/// Of 76 at 6b: 6b:76.
const ONE: &str = "1e06a9a1d455f9698b60b63f9d11dbed46ae35a85b0d74fa5b05423b34217822";

/// And 77 at 6c: 02 0b 6b:76 0c 6c:77 00 04 60.
const TWO: &str = "8546ed8acf063120637b7f98a63dfd6b89a5af0df32a1869577fa9689ba9a8ac";

/// And 78 at 6d: 03 0b 6b:76 0c 6c:77 0d 6d:78 00 04 60.
const THREE: &str = "42acf3c187778a2c831474922f06041057bee9d2cf643deaa87b2d9d08c9bae1";

fn opened<D: Disk>(alloc: Global, disk: &mut D) -> Result<Db, DbFault>
    ensures { IfOk result (λ db. is_failed db ≡ false) }
{
    let config = Config {
        cache: 1024,
        commits: 16,
        weight: 1_048_576,
    };
    Db::open(alloc, disk, Branch::B16, config)
}

/// Opens the store of the disk, and runs a script on it.
fn ran<D: Disk>(
    alloc: Global,
    disk: &mut D,
    input: &mut MemSource,
    out: &mut MemSink,
) -> Result<SessionEnd, DbFault> {
    match opened(alloc, disk) {
        Ok(mut db) => Ok(session(alloc, &mut db, input, out, disk)),
        Err(fault) => Err(fault),
    }
}

fn source(alloc: Global, text: &[u8], piece: usize) -> Result<MemSource, Fail> {
    failing_source(alloc, text, piece, Vec::new(alloc))
}

fn failing_source(
    alloc: Global,
    text: &[u8],
    piece: usize,
    failing: Vec<u64>,
) -> Result<MemSource, Fail> {
    let bytes = Vec::from_slice(alloc, text)?;
    Ok(MemSource::new(bytes, piece.max(1), failing))
}

/// The lines of commits that are numbered from 1.
fn lines(alloc: Global, roots: &[&str]) -> Result<String, Fail> {
    let mut text = String::new(alloc);
    let mut number = 0u64;
    for root in roots {
        number = number.saturating_add(1);
        text.push_str(&format!(in alloc; "commit {number} {root}\n")?)?;
    }
    Ok(text)
}

/// Lines, each of some words and a root.
fn lines_of(alloc: Global, rows: &[(&str, &str)]) -> Result<String, Fail> {
    let mut text = String::new(alloc);
    for (words, root) in rows {
        text.push_str(words)?;
        text.push_str(root)?;
        text.push_str("\n")?;
    }
    Ok(text)
}

/// That the disk has a store with this root: an empty batch on it is told so.
fn assert_root<D: Disk>(
    rt: &impl Abort,
    alloc: Global,
    disk: &mut D,
    root: &str,
) -> Result<(), Fail> {
    let mut input = source(alloc, b"commit", 100)?;
    let mut out = MemSink::new(alloc, Vec::new(alloc));
    assert_eq!(rt; ran(alloc, disk, &mut input, &mut out)?, SessionEnd::Done);
    assert_eq!(rt; out.bytes(), lines(alloc, &[root])?.as_bytes());
    Ok(())
}

/// That a script, read in pieces of this size by reads of which some fail, ends so, prints the lines of these roots,
/// and leaves the last one.
fn assert_ends<D: Disk>(
    rt: &impl Abort,
    alloc: Global,
    disk: &mut D,
    text: &[u8],
    reads: (usize, Vec<u64>),
    want: (SessionEnd, &[&str], &str),
) -> Result<(), Fail> {
    let (piece, failing) = reads;
    let mut input = failing_source(alloc, text, piece, failing)?;
    let mut out = MemSink::new(alloc, Vec::new(alloc));
    let end = ran(alloc, disk, &mut input, &mut out)?;
    assert_eq!(rt; end, want.0, "of {text:?} by {piece}");
    assert_eq!(rt;
        out.bytes(),
        lines(alloc, want.1)?.as_bytes(),
        "of {text:?} by {piece}"
    );
    assert_root(rt, alloc, disk, want.2)
}

#[test]
fn commits_are_printed_and_kept_up_to_a_bad_line(rt: HostRuntime) -> Result<(), Fail> {
    let alloc = rt.alloc();
    let rows: [(&[u8], SessionEnd, &[&str], &str); 13] = [
        (b"", SessionEnd::Done, &[], NONE),
        (b"# a\n\n \t\n", SessionEnd::Done, &[], NONE),
        (b"commit", SessionEnd::Done, &[NONE], NONE),
        // What is pending at the end is committed, and no empty batch is.
        (b"put 6b 76", SessionEnd::Done, &[ONE], ONE),
        (b"put 6b 76\n", SessionEnd::Done, &[ONE], ONE),
        (b"put 6b 76\ncommit\n", SessionEnd::Done, &[ONE], ONE),
        // A later change on a key takes the place of an earlier one, and the map stays from batch to batch.
        (
            b"put 6b 77\ndel 6b\nput 6b 76\ncommit\ncommit\n",
            SessionEnd::Done,
            &[ONE, ONE],
            ONE,
        ),
        (
            b"put 6b 76\ncommit\nput 6c 77",
            SessionEnd::Done,
            &[ONE, TWO],
            TWO,
        ),
        (
            b"put 6d 78\nput 6b 76\nput 6c 77\ncommit\ndel 6d\ncommit\ndel 6c\ndel 6e\n",
            SessionEnd::Done,
            &[THREE, TWO, ONE],
            ONE,
        ),
        (
            b"put 6b 76\ncommit\ndel 6b\n",
            SessionEnd::Done,
            &[ONE, NONE],
            NONE,
        ),
        // What is pending before a bad line is dropped.
        (b"put 6b 76\ncomit\n", SessionEnd::BadLine(2), &[], NONE),
        (
            b"# a\nput 6b 76\n\tcommit \nput 6c 77\ncommit 2\ncommit\n",
            SessionEnd::BadLine(5),
            &[ONE],
            ONE,
        ),
        (b"root\n", SessionEnd::BadLine(1), &[], NONE),
    ];
    for (text, end, printed, root) in rows {
        for piece in [1usize, 7, 65536] {
            let want = (end, printed, root);
            let reads = (piece, Vec::new(alloc));
            assert_ends(&rt, alloc, &mut MemDisk::new(alloc), text, reads, want)?;
        }
        let want = (end, printed, root);
        let reads = (100, Vec::new(alloc));
        assert_ends(&rt, alloc, &mut FlatDisk::new(alloc), text, reads, want)?;
    }
    Ok(())
}

/// That a script is done, and prints these lines.
fn assert_printed(
    rt: &impl Abort,
    alloc: Global,
    text: &[u8],
    rows: &[(&str, &str)],
) -> Result<(), Fail> {
    let mut disk = MemDisk::new(alloc);
    let mut input = source(alloc, text, 7)?;
    let mut out = MemSink::new(alloc, Vec::new(alloc));
    let end = ran(alloc, &mut disk, &mut input, &mut out)?;
    assert_eq!(rt; end, SessionEnd::Done, "of {text:?}");
    assert_eq!(rt;
        out.bytes(),
        lines_of(alloc, rows)?.as_bytes(),
        "of {text:?}"
    );
    Ok(())
}

#[test]
fn views_are_told_and_taken_in_their_order(rt: HostRuntime) -> Result<(), Fail> {
    let alloc = rt.alloc();
    let rows: [(&[u8], &[(&str, &str)]); 5] = [
        // Of two views on the store one is committed, and the view that stands on it lives on.
        (
            b"put 0a 61\nview db\nput 0b 62\nview db\nput 0c 63\nview 1\ntake 1\nstate 2\nstate 3\ntake 2\ntake 3\nroot db\n",
            &[
                ("view 1 ", A),
                ("view 2 ", B),
                ("view 3 ", A_AND_C),
                ("taken 1 ", A),
                ("state 2 Invalid", ""),
                ("state 3 Live", ""),
                ("refused not live Invalid", ""),
                ("taken 3 ", A_AND_C),
                ("root ", A_AND_C),
            ],
        ),
        // A view is committed after its parent, and not before.
        (
            b"put 0a 61\nview db\nput 0b 62\nview 1\ntake 2\ntake 1\ntake 2\ntake 9\n",
            &[
                ("view 1 ", A),
                ("view 2 ", A_AND_B),
                ("refused not parent", ""),
                ("taken 1 ", A),
                ("taken 2 ", A_AND_B),
                ("refused unknown", ""),
            ],
        ),
        // A closed view takes those with it that stand on it.
        (
            b"view db\nview 1\nclose 1\nclose 1\nstate 2\ntake 2\n",
            &[
                ("view 1 ", NONE),
                ("view 2 ", NONE),
                ("closed 1", ""),
                ("refused not live Closed", ""),
                ("state 2 Closed", ""),
                ("refused not live Closed", ""),
            ],
        ),
        // A direct batch has a number like a view, and ends the views beside it.
        (
            b"put 0a 61\nview db\ncommit\nstate 1\nstate 2\nstate 3\nstate 0\n",
            &[
                ("view 1 ", A),
                ("commit 2 ", NONE),
                ("state 1 Invalid", ""),
                ("state 2 Committed", ""),
                ("refused unknown", ""),
                ("refused unknown", ""),
            ],
        ),
        // What is pending at the end is committed, and no view is.
        (
            b"put 0a 61\nview db\nput 0b 62\n",
            &[("view 1 ", A), ("commit 2 ", B)],
        ),
    ];
    for (text, want) in rows {
        assert_printed(&rt, alloc, text, want)?;
    }
    Ok(())
}

#[test]
fn lines_that_are_refused_say_why(rt: HostRuntime) -> Result<(), Fail> {
    let alloc = rt.alloc();
    let rows: [(&[u8], &[(&str, &str)]); 5] = [
        (
            b"view 1\ntake 1\nclose 1\nstate 1\nget 1 0a\nroot 1\n",
            &[("refused unknown", ""); 6],
        ),
        (
            b"commit\nview 1\ntake 1\nclose 1\nget 1 0a\nroot 1\n",
            &[
                ("commit 1 ", NONE),
                ("refused not live Committed", ""),
                ("refused not live Committed", ""),
                ("refused not live Committed", ""),
                ("refused not live Committed", ""),
                ("refused not live Committed", ""),
            ],
        ),
        (
            b"view db\ncommit\nview 1\ntake 1\nclose 1\nget 1 0a\nroot 1\n",
            &[
                ("view 1 ", NONE),
                ("commit 2 ", NONE),
                ("refused not live Invalid", ""),
                ("refused not live Invalid", ""),
                ("refused not live Invalid", ""),
                ("refused not live Invalid", ""),
                ("refused not live Invalid", ""),
            ],
        ),
        // A view that is refused takes what is pending with it, and a take does not.
        (
            b"put 0a 61\nview 5\ncommit\n",
            &[("refused unknown", ""), ("commit 1 ", NONE)],
        ),
        (
            b"put 0a 61\ntake 5\ncommit\n",
            &[("refused unknown", ""), ("commit 1 ", A)],
        ),
    ];
    for (text, want) in rows {
        assert_printed(&rt, alloc, text, want)?;
    }
    Ok(())
}

#[test]
fn the_store_and_its_views_are_read(rt: HostRuntime) -> Result<(), Fail> {
    let alloc = rt.alloc();
    let rows: [(&[u8], &[(&str, &str)]); 5] = [
        // What is pending is not read.
        (
            b"put 0a 61\nget db 0a\nroot db\n",
            &[("none", ""), ("root ", NONE), ("commit 1 ", A)],
        ),
        (
            b"put 0a 61\nview db\nput 0b 62\nview 1\nget 2 0a\nget 2 0b\nget 1 0b\nget db 0a\nroot 1\nroot 2\n",
            &[
                ("view 1 ", A),
                ("view 2 ", A_AND_B),
                ("value 61", ""),
                ("value 62", ""),
                ("none", ""),
                ("none", ""),
                ("root ", A),
                ("root ", A_AND_B),
            ],
        ),
        (
            b"put 0a 61\nput 0b -\ncommit\ndel 0a\nview db\nget 2 0a\nget 2 0b\nget db 0a\nclose 2\ndel 0b\ncommit\nroot db\n",
            &[
                ("commit 1 ", A_AND_EMPTY),
                ("view 2 ", EMPTY_AT_B),
                ("none", ""),
                ("value -", ""),
                ("value 61", ""),
                ("closed 2", ""),
                ("commit 3 ", A),
                ("root ", A),
            ],
        ),
        // A proof of a range without bounds has the pairs, and no node.
        (
            b"put 0a 61\nput 0b 62\nrange now * * 9 99\ncommit\nrange ~0 * * 9 99\nrange ~1 * * 9 99\nrange ~2 * * 9 99\n",
            &[
                ("range 010100000000", ""),
                ("commit 1 ", A_AND_B),
                ("range 01010002010a0161010b01620000", ""),
                ("range 010100000000", ""),
                ("refused not held", ""),
            ],
        ),
        // What changed is told forward, and not from a later map to one before it.
        (
            b"put 0a 61\ncommit\nput 0b 62\ncommit\nchanges ~1 now * * 9 99\nchanges now ~1 * * 9 99\nchanges ~1 ~1 * * 9 99\n",
            &[
                ("commit 1 ", A),
                ("commit 2 ", A_AND_B),
                ("changes 01020001010b0101620000", ""),
                ("refused not held", ""),
                ("changes 010200000000", ""),
            ],
        ),
    ];
    for (text, want) in rows {
        assert_printed(&rt, alloc, text, want)?;
    }
    Ok(())
}

// The store is behind views of which each stands on the one before it.
#[test]
fn a_view_is_at_most_64_from_the_store(rt: HostRuntime) -> Result<(), Fail> {
    let alloc = rt.alloc();
    let mut text = String::from_str(alloc, "view db\n")?;
    let mut want = format!(in alloc; "view 1 {NONE}\n")?;
    for number in 1..65u64 {
        text.push_str(&format!(in alloc; "view {number}\n")?)?;
        if number < 64 {
            let next = number.saturating_add(1);
            want.push_str(&format!(in alloc; "view {next} {NONE}\n")?)?;
        }
    }
    text.push_str("take 1\nview 64\n")?;
    want.push_str("refused too deep\n")?;
    want.push_str(&format!(in alloc; "taken 1 {NONE}\nview 65 {NONE}\n")?)?;
    let mut disk = MemDisk::new(alloc);
    let mut input = source(alloc, text.as_bytes(), 100)?;
    let mut out = MemSink::new(alloc, Vec::new(alloc));
    let end = ran(alloc, &mut disk, &mut input, &mut out)?;
    assert_eq!(rt; end, SessionEnd::Done);
    assert_eq!(rt; out.bytes(), want.as_bytes());
    Ok(())
}

/// Two commits, and a change that is pending at the end. In pieces of ten bytes it is read by six calls.
const TEXT: &[u8] = b"put 6b 76\ncommit\nput 6c 77\ncommit\nput 6d 78\n";

// Nothing that is pending is committed then, and commits before are kept.
#[test]
fn a_failed_read_ends_a_script_before_its_next_line(rt: HostRuntime) -> Result<(), Fail> {
    let alloc = rt.alloc();
    // The read that fails, and the roots that were printed by then.
    let rows: [(u64, SessionEnd, &[&str], &str); 7] = [
        (0, SessionEnd::Read, &[], NONE),
        (1, SessionEnd::Read, &[], NONE),
        (2, SessionEnd::Read, &[ONE], ONE),
        (3, SessionEnd::Read, &[ONE], ONE),
        (4, SessionEnd::Read, &[ONE, TWO], TWO),
        (5, SessionEnd::Read, &[ONE, TWO], TWO),
        (6, SessionEnd::Done, &[ONE, TWO, THREE], THREE),
    ];
    for (call, end, printed, root) in rows {
        let reads = (10, Vec::from_slice(alloc, &[call])?);
        let want = (end, printed, root);
        assert_ends(&rt, alloc, &mut MemDisk::new(alloc), TEXT, reads, want)?;
    }
    Ok(())
}

// The batch whose line could not be written is committed, and the next one isn't.
#[test]
fn a_failed_write_ends_a_script_after_its_commit(rt: HostRuntime) -> Result<(), Fail> {
    let alloc = rt.alloc();
    let rows: [(u64, SessionEnd, &[&str], &str); 4] = [
        (0, SessionEnd::Write, &[], ONE),
        (1, SessionEnd::Write, &[ONE], TWO),
        (2, SessionEnd::Write, &[ONE, TWO], THREE),
        (3, SessionEnd::Done, &[ONE, TWO, THREE], THREE),
    ];
    for (call, end, printed, root) in rows {
        let mut disk = MemDisk::new(alloc);
        let mut input = source(alloc, TEXT, 10)?;
        let mut out = MemSink::new(alloc, Vec::from_slice(alloc, &[call])?);
        assert_eq!(rt;
            ran(alloc, &mut disk, &mut input, &mut out)?,
            end,
            "at {call}"
        );
        assert_eq!(rt; out.bytes(), lines(alloc, printed)?.as_bytes(), "at {call}");
        assert_root(&rt, alloc, &mut disk, root)?;
    }
    Ok(())
}

/// Two views that are committed, and a change that is pending at the end.
const VIEWS: &[u8] = b"put 6b 76\nview db\nput 6c 77\nview 1\ntake 1\ntake 2\nput 6d 78\n";

/// What a script prints, and how many of its lines tell of views that are made.
#[derive(Drop)]
struct Wanted {
    text: &'static [u8],
    lines: String,
    made: u64,
}

fn wanted_of(alloc: Global, views: bool) -> Result<Wanted, Fail> {
    if !views {
        let lines = lines(alloc, &[ONE, TWO, THREE])?;
        return Ok(Wanted {
            text: TEXT,
            lines,
            made: 0,
        });
    }
    let rows = [
        ("view 1 ", ONE),
        ("view 2 ", TWO),
        ("taken 1 ", ONE),
        ("taken 2 ", TWO),
        ("commit 3 ", THREE),
    ];
    let lines = lines_of(alloc, &rows)?;
    Ok(Wanted {
        text: VIEWS,
        lines,
        made: 2,
    })
}

/// How many of the script's commits were printed.
fn printed(rt: &impl Abort, wanted: &Wanted, out: &MemSink) -> u64 {
    let bytes = out.bytes();
    assert!(rt; wanted.lines.as_bytes().starts_with(bytes));
    let mut count = 0u64;
    for byte in bytes {
        if *byte == b'\n' {
            count = count.saturating_add(1);
        }
    }
    count.saturating_sub(wanted.made)
}

/// The root that an image of the disk has, as the line that tells it.
fn root_line(alloc: Global, disk: &MemDisk, pick: Pick) -> Result<MemSink, Fail> {
    let mut crashed = disk.crash(pick)?;
    let mut input = source(alloc, b"commit", 100)?;
    let mut out = MemSink::new(alloc, Vec::new(alloc));
    ran(alloc, &mut crashed, &mut input, &mut out)?;
    Ok(out)
}

// The first calls are those of the opening, which the disk of the script has behind it.
fn assert_crashes(
    rt: &impl Abort,
    alloc: Global,
    wanted: &Wanted,
    alone: bool,
) -> Result<(), Fail> {
    for call in 0..14u64 {
        let mut disk = MemDisk::new(alloc);
        let mut db = opened(alloc, &mut disk)?;
        if alone {
            disk.failing(Vec::from_slice(alloc, &[call])?);
        } else {
            disk.fuse(call);
        }
        let mut input = source(alloc, wanted.text, 10)?;
        let mut out = MemSink::new(alloc, Vec::new(alloc));
        let end = session(alloc, &mut db, &mut input, &mut out, &mut disk);
        let count = printed(rt, wanted, &out);
        let done = end == SessionEnd::Done && count == 3;
        assert!(rt;
            done || (end == SessionEnd::Disk && count < 3),
            "{end:?} at {call}"
        );
        for noise in 0..10u64 {
            let pick = match noise {
                8 => Pick::Kept,
                9 => Pick::Lost,
                _ => Pick::Noise(noise),
            };
            let found = root_line(alloc, &disk, pick)?;
            let mut number = 0u64;
            let mut is_kept = false;
            for root in [NONE, ONE, TWO, THREE] {
                let line = lines(alloc, &[root])?;
                let may_be = number == count || number == count.saturating_add(1);
                is_kept = is_kept || (may_be && found.bytes() == line.as_bytes());
                number = number.saturating_add(1);
            }
            assert!(rt; is_kept, "{count} printed, at call {call}, {pick:?}");
        }
    }
    Ok(())
}

#[test]
fn a_crash_leaves_each_commit_that_was_printed(rt: HostRuntime) -> Result<(), Fail> {
    let alloc = rt.alloc();
    for views in [false, true] {
        let wanted = wanted_of(alloc, views)?;
        for alone in [false, true] {
            assert_crashes(&rt, alloc, &wanted, alone)?;
        }
    }
    Ok(())
}
