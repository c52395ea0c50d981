// Lines of proofs. Each root is the SHA-256 of a string that is written beside it.
use crate::{VerifyEnd, cause_text, verify};
use bit_keys::Branch;
use disk_world::Disk;
use mdb_base::{MemSink, MemSource, NoMemory};
use mem_world::MemDisk;
use std::alloc::Global;
use std::process::Abort;
use std::test::Fail;
use store_opening::open_store;

/// Of 76 at 6b: 00 01 01 76 08 6b.
const ONE: &str = "1e06a9a1d455f9698b60b63f9d11dbed46ae35a85b0d74fa5b05423b34217822";

/// Of 61 at 0a: 00 01 01 61 08 0a.
const OTHER: &str = "00d38df253fa5cbfd74aa88e547efbbfaa1ccd15bbf741cb6b2629e460732170";

/// Of 61 at 0a and 62 at 0b: 02 0a, the ID above, 0b, the ID of 62 at 0b, 00 04 00.
const BOTH: &str = "64653653211cedc5bb2d1cac77a3abfdc2ab40c9da2fa9a986d1db8642b9fb6c";

/// The nodes of that map on the way to 0a. The ID of 62 at 0b is the hash of 00 01 01 62 08 0b.
const PATH: &str =
    "02040000020a00d38df253fa5cbfd74aa88e547efbbfaa1ccd15bbf741cb6b2629e4607321700b9d40dbe52f0ba969c65b4736bc11aada91c0d503f1d1c4d1af62ecfcb393c1e4080a01016100";

/// How a run ended, in words.
fn words_of(alloc: Global, end: &VerifyEnd) -> Result<String, NoMemory> {
    let text = match end {
        VerifyEnd::Done => String::from_str(alloc, "done")?,
        VerifyEnd::BadLine(number) => {
            let number = *number;
            format!(in alloc; "line {number}")?
        }
        VerifyEnd::Refused { line, cause } => {
            let line = *line;
            let why = cause_text(alloc, cause)?;
            format!(in alloc; "line {line} refused, {why}")?
        }
        VerifyEnd::Store(fault) => format!(in alloc; "{fault}")?,
        VerifyEnd::Limit => String::from_str(alloc, "limit")?,
        VerifyEnd::Read => String::from_str(alloc, "read")?,
        VerifyEnd::Write => String::from_str(alloc, "write")?,
        VerifyEnd::NoMemory => String::from_str(alloc, "memory")?,
    };
    Ok(text)
}

/// A text with a root in the place of each `@`, `%` and `$`, and the path in that of each `^`.
fn filled(alloc: Global, text: &str) -> Result<String, Fail> {
    let mut out = String::new(alloc);
    for c in text.chars() {
        match c {
            '@' => out.push_str(ONE)?,
            '%' => out.push_str(OTHER)?,
            '$' => out.push_str(BOTH)?,
            '^' => out.push_str(PATH)?,
            c => out.push(c)?,
        }
    }
    Ok(out)
}

fn source(alloc: Global, text: &str, failing: &[u64]) -> Result<MemSource, Fail> {
    let text = filled(alloc, text)?;
    let bytes = Vec::from_slice(alloc, text.as_bytes())?;
    let failing = Vec::from_slice(alloc, failing)?;
    Ok(MemSource::new(bytes, 7, failing))
}

// That the lines end so, and print this, beside such a disk.
fn assert_on<D: Disk>(
    rt: &impl Abort,
    alloc: Global,
    disk: &mut D,
    text: &str,
    want: &str,
    printed: &str,
) -> Result<(), Fail> {
    let mut input = source(alloc, text, &[])?;
    let mut out = MemSink::new(alloc, Vec::new(alloc));
    let end = verify(alloc, Branch::B16, &mut input, &mut out, disk);
    assert_eq!(rt; words_of(alloc, &end)?, filled(alloc, want)?, "of {text}");
    assert_eq!(rt; out.bytes(), printed.as_bytes(), "printed of {text}");
    Ok(())
}

// So beside a disk without files.
fn assert_run(
    rt: &impl Abort,
    alloc: Global,
    text: &str,
    want: &str,
    printed: &str,
) -> Result<(), Fail> {
    assert_on(rt, alloc, &mut MemDisk::new(alloc), text, want, printed)
}

#[test]
fn each_line_is_checked_until_one_does_not_pass(rt: HostRuntime) -> Result<(), Fail> {
    let alloc = rt.alloc();
    // The lines, how they end, and what they print.
    let rows: [(&str, &str, &str); 13] = [
        ("", "done", ""),
        ("# no proof\n\n", "done", ""),
        ("point @ 6b 010401017601086b01017600\n", "done", "ok 1\n"),
        ("point @ 6c 01040001086b01017600", "done", "ok 0\n"),
        ("point empty 6b 01040000\n", "done", "ok 0\n"),
        (
            "point @ 6b 010401017602086b01017600086b01017600\n",
            "line 1 refused, path order 1",
            "",
        ),
        (
            "point @ 6c 01040001086b01017600\n\npoint % 6b 010401017601086b01017600\n",
            "line 3 refused, root differs @ %",
            "ok 0\n",
        ),
        ("point @ 6b 010402\n", "line 1 refused, bytes at 2", ""),
        ("point @ 6b -\n", "line 1 refused, bytes at 0", ""),
        (
            "point @ 6b 010401017601086b0101760000\n",
            "line 1 refused, bytes at 12",
            "",
        ),
        (
            "point empty - 01040000\nput 6b 76\npoint @ 6b 010402\n",
            "line 2",
            "ok 0\n",
        ),
        ("point now 6b 01040000\n", "line 1", ""),
        ("point @ 6b\n", "line 1", ""),
    ];
    for (text, want, printed) in rows {
        assert_run(&rt, alloc, text, want, printed)?;
    }
    Ok(())
}

#[test]
fn lines_of_ranges_are_checked_too(rt: HostRuntime) -> Result<(), Fail> {
    let alloc = rt.alloc();
    let rows: [(&str, &str, &str); 6] = [
        (
            "range $ * * 01010002010a0161010b01620000\nrange $ 0a 0a 01010001010a0161^^\nrange $ 0a01 0a02 01010000^^\nrange $ * * 01010101010a016100^\n",
            "done",
            "ok 2\nok 1\nok 0\nok 1\n",
        ),
        (
            "range $ * * 01010002010b0162010a01610000\n",
            "line 1 refused, unsorted 1",
            "",
        ),
        (
            "point empty - 01040000\nrange $ 0b * 01010101010a01610000\n",
            "line 2 refused, outside 0",
            "ok 0\n",
        ),
        (
            "range $ * * 01010001010a01610000\n",
            "line 1 refused, root differs % $",
            "",
        ),
        ("range $ * * 010102\n", "line 1 refused, bytes at 2", ""),
        ("range empty 0b 0a 010100000000\n", "line 1", ""),
    ];
    for (text, want, printed) in rows {
        assert_run(&rt, alloc, text, want, printed)?;
    }
    Ok(())
}

#[test]
fn changes_are_checked_against_the_map_of_the_store(rt: HostRuntime) -> Result<(), Fail> {
    let alloc = rt.alloc();
    // A put of 76 at 6b, which leads the empty map to that of one pair; a deletion where nothing is; no change.
    let rows: [(&str, &str, &str); 7] = [
        (
            "changes @ * * 01020001016b0101760000\npoint @ 6b 010401017601086b01017600\nchanges @ 6b 6b 01020001016b01017601086b0101760001086b01017600\n",
            "done",
            "ok 1\nok 1\nok 1\n",
        ),
        (
            "changes empty * * 010200000000\nchanges empty * * 01020001016b000000\n",
            "line 2 refused, idle 0",
            "ok 0\n",
        ),
        (
            "changes % * * 01020001016b0101760000\n",
            "line 1 refused, root differs @ %",
            "",
        ),
        (
            "changes @ 6c * 01020001016b0101760000\n",
            "line 1 refused, outside 0",
            "",
        ),
        (
            "changes @ * * 01010001016b0101760000\n",
            "line 1 refused, bytes at 1",
            "",
        ),
        ("changes empty 0b 0a 010200000000\n", "line 1", ""),
        ("changes now * * 010200000000\n", "line 1", ""),
    ];
    for (text, want, printed) in rows {
        assert_run(&rt, alloc, text, want, printed)?;
    }
    Ok(())
}

#[test]
fn a_store_is_opened_at_the_first_line_of_changes(rt: HostRuntime) -> Result<(), Fail> {
    let alloc = rt.alloc();
    let plain = "point empty - 01040000\n";
    let asking = "point empty - 01040000\nchanges empty * * 010200000000\npoint empty - 01040000\n";
    let refused = "point empty 6b 010402\nchanges empty * * 010200000000\n";
    // A store with another factor is no hindrance to lines that ask for none.
    let mut other = MemDisk::new(alloc);
    open_store(alloc, Branch::B256, &mut other)?.close(&mut other)?;
    assert_on(&rt, alloc, &mut other, plain, "done", "ok 0\n")?;
    assert_on(
        &rt,
        alloc,
        &mut other,
        refused,
        "line 1 refused, bytes at 2",
        "",
    )?;
    assert_on(
        &rt,
        alloc,
        &mut other,
        asking,
        "the branch factor is 256 and not 16",
        "ok 0\n",
    )
}

#[test]
fn a_failed_read_or_write_is_told(rt: HostRuntime) -> Result<(), Fail> {
    let alloc = rt.alloc();
    let text = "point empty - 01040000\npoint empty - 01040000\n";
    // The read and the write that fail, how the run ends, and what it printed by then.
    let rows: [(&[u64], &[u64], &str, &str); 4] = [
        (&[0], &[], "read", ""),
        (&[5], &[], "read", "ok 0\n"),
        (&[], &[0], "write", ""),
        (&[], &[1], "write", "ok 0\n"),
    ];
    for (reads, writes, want, printed) in rows {
        let mut input = source(alloc, text, reads)?;
        let mut out = MemSink::new(alloc, Vec::from_slice(alloc, writes)?);
        let mut disk = MemDisk::new(alloc);
        let end = verify(alloc, Branch::B16, &mut input, &mut out, &mut disk);
        assert_eq!(rt;
            words_of(alloc, &end)?.as_str(),
            want,
            "read {reads:?}, write {writes:?}"
        );
        assert_eq!(rt;
            out.bytes(),
            printed.as_bytes(),
            "printed of {reads:?}, {writes:?}"
        );
    }
    Ok(())
}
