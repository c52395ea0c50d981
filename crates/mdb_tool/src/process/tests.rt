use super::*;
use crate::tests::{dead_disk, source, words};
use mdb_base::MemSink;
use std::test::Fail;

// The line of the root of {6b: 76}.
const ONE_ROOT: &[u8] = b"root 1e06a9a1d455f9698b60b63f9d11dbed46ae35a85b0d74fa5b05423b34217822\n";

/// No stream is a terminal.
const NONE: Terminals = Terminals {
    input: false,
    errors: false,
};

const ROOT: &[&str] = &["-", "root", "16"];

/// How a process ended: its number, and what its two outputs took.
#[derive(Drop)]
struct Ended {
    code: ExitCode,
    out: Vec<u8>,
    err: Vec<u8>,
}

// Carries out words over an input of this text, where the first read, the first write to the output or the
// first write to the error output fails.
fn carried(
    alloc: Global,
    words: Result<Vec<String>, Status>,
    text: &[u8],
    failing: [&[u64]; 3],
) -> Result<Ended, Fail> {
    let mut input = source(alloc, text, 4, failing[0])?;
    let mut out = MemSink::new(alloc, Vec::from_slice(alloc, failing[1])?);
    let mut err = MemSink::new(alloc, Vec::from_slice(alloc, failing[2])?);
    let mut disk = dead_disk(alloc);
    let code = carry_out(
        alloc, NONE, words, &mut input, &mut out, &mut disk, &mut err,
    );
    Ok(Ended {
        code,
        out: Vec::from_slice(alloc, out.bytes())?,
        err: Vec::from_slice(alloc, err.bytes())?,
    })
}

#[test]
fn the_process_ends_with_its_number(rt: HostRuntime) -> Result<(), Fail> {
    let alloc = rt.alloc();
    let rows: [(&[&str], &[u8], [&[u64]; 3], u8, &[u8], &[u8]); 11] = [
        (ROOT, b"put 6b 76\n", [&[], &[], &[]], 0, ONE_ROOT, b""),
        (
            ROOT,
            b"\nx\n",
            [&[], &[], &[]],
            3,
            b"",
            b"mdb: line 2 is not understood\n",
        ),
        (
            ROOT,
            b"put 6b 76\n",
            [&[0], &[], &[]],
            20,
            b"",
            b"mdb: reading failed\n",
        ),
        (
            ROOT,
            b"put 6b 76\n",
            [&[], &[0], &[]],
            21,
            b"",
            b"mdb: writing failed\n",
        ),
        // Where the line can't be told, the number still does.
        (ROOT, b"put 6b 76\n", [&[0], &[], &[0]], 20, b"", b""),
        (ROOT, b"put 6b 76\n", [&[], &[0], &[0]], 21, b"", b""),
        // A single word may ask for a text, and then nothing is read.
        (
            &["--version"],
            b"x\n",
            [&[0], &[], &[]],
            0,
            b"mdb 0.1.0\n",
            b"",
        ),
        (
            &["--help"],
            b"x\n",
            [&[0], &[], &[]],
            0,
            HELP.as_bytes(),
            b"",
        ),
        (
            &["--help"],
            b"x\n",
            [&[], &[0], &[]],
            21,
            b"",
            b"mdb: writing failed\n",
        ),
        (
            &["--Help"],
            b"x\n",
            [&[], &[], &[]],
            2,
            b"",
            b"mdb: word 2 is not understood\n",
        ),
        (
            &["--help", "root"],
            b"x\n",
            [&[], &[], &[]],
            2,
            b"",
            b"mdb: word 3 is not understood\n",
        ),
    ];
    for (given, text, failing, number, printed, told) in rows {
        let ended = carried(alloc, Ok(words(alloc, given)?), text, failing)?;
        assert_eq!(rt; ended.code, ExitCode::from(number), "of {given:?}");
        assert_eq!(rt; ended.out.as_slice(), printed, "of {given:?}");
        assert_eq!(rt; ended.err.as_slice(), told, "of {given:?}");
    }
    Ok(())
}

#[test]
fn words_that_were_not_read_have_their_status(rt: HostRuntime) -> Result<(), Fail> {
    let rows: [(Status, u8, &[u8]); 2] = [
        (Status::BadWords(1), 2, b"mdb: word 1 is not understood\n"),
        (Status::NoMemory, 30, b"mdb: no memory\n"),
    ];
    for (status, number, told) in rows {
        let ended = carried(rt.alloc(), Err(status), b"put 6b 76\n", [&[], &[], &[]])?;
        assert_eq!(rt; ended.code, ExitCode::from(number));
        assert!(rt; ended.out.is_empty());
        assert_eq!(rt; ended.err.as_slice(), told);
    }
    Ok(())
}

/// Both streams are terminals.
const BOTH: Terminals = Terminals {
    input: true,
    errors: true,
};

/// Standard error alone is one.
const ERRORS: Terminals = Terminals {
    input: false,
    errors: true,
};

/// Standard input alone is one.
const INPUT: Terminals = Terminals {
    input: true,
    errors: false,
};

const WAITS: &str =
    "mdb: lines are read from the terminal; Ctrl-D at the beginning of a line ends them\n";

#[test]
fn a_terminal_is_told_more(rt: HostRuntime) -> Result<(), Fail> {
    let rows: [(Terminals, &[&str], &[u8], &str); 14] = [
        (
            INPUT,
            &["-", "root", "8"],
            b"x",
            "mdb: word 3 is not understood\n",
        ),
        (
            ERRORS,
            &["-", "root", "8"],
            b"x",
            "mdb: word 3 is not understood\nFACTOR is 2, 4, 16 or 256\n",
        ),
        (
            BOTH,
            &["-", "root", "8"],
            b"x",
            "mdb: word 3 is not understood\nFACTOR is 2, 4, 16 or 256\n",
        ),
        (
            ERRORS,
            &[],
            b"x",
            "mdb: word 1 is not understood\nusage: mdb FOLDER COMMAND FACTOR ARGUMENTS..; mdb --help tells more\n",
        ),
        (
            ERRORS,
            &["root", "16"],
            b"x",
            "mdb: word 2 is not understood\nFOLDER comes first, - where no store is used\n",
        ),
        (
            ERRORS,
            &["-", "Root", "16"],
            b"x",
            "mdb: word 2 is not understood\nno command of this name; mdb --help lists them\n",
        ),
        (
            ERRORS,
            &["D", "prove", "16", "now", "6"],
            b"x",
            "mdb: word 5 is not understood\nKEY is two hexadecimal digits for each byte, or - for no bytes; at most 256 bytes\n",
        ),
        (
            ERRORS,
            &["D", "get", "16", "6b", "6b"],
            b"x",
            "mdb: word 5 is not understood\nno argument follows here; mdb --help lists those of each command\n",
        ),
        (
            ERRORS,
            &["D", "get", "16", "6b"],
            b"x",
            "mdb: disk failed\nD has to be a folder that is there, in which you may write, with room on its disk\n",
        ),
        // What would order the terminal about is not shown.
        (
            ERRORS,
            &["\u{1b}c", "get", "16", "6b"],
            b"x",
            "mdb: disk failed\nFOLDER has to be a folder that is there, in which you may write, with room on its disk\n",
        ),
        // A line of changes asks for a store, and `-` is none.
        (
            ERRORS,
            &["-", "verify", "16"],
            b"changes empty * * 01\n",
            "mdb: disk failed\nFOLDER is the folder of a store here; one of the name - is ./-\n",
        ),
        (
            ERRORS,
            ROOT,
            b"x",
            "mdb: line 1 is not understood\na line is put KEY VALUE, del KEY or # a comment; docs/guide.md has The lines of root\n",
        ),
        (ERRORS, ROOT, b"put 6b 76\n", ""),
        (INPUT, ROOT, b"put 6b 76\n", ""),
    ];
    for (terminals, given, text, told) in rows {
        assert_eq!(rt;
            told_on(rt.alloc(), terminals, given, text)?.as_slice(),
            told.as_bytes(),
            "of {given:?}"
        );
    }
    Ok(())
}

#[test]
fn a_terminal_is_greeted_where_lines_are_read(rt: HostRuntime) -> Result<(), Fail> {
    let rows: [(&[&str], bool); 5] = [
        (ROOT, true),
        (&["-", "verify", "16"], true),
        (&["--version"], false),
        (&["-", "root", "8"], false),
        (&["D", "get", "16", "6b"], false),
    ];
    for (given, is_greeted) in rows {
        let told = told_on(rt.alloc(), BOTH, given, b"")?;
        assert_eq!(rt;
            told.starts_with(WAITS.as_bytes()),
            is_greeted,
            "of {given:?}"
        );
    }
    Ok(())
}

// What the error output takes where these streams are terminals.
fn told_on(
    alloc: Global,
    terminals: Terminals,
    given: &[&str],
    text: &[u8],
) -> Result<Vec<u8>, Fail> {
    let mut input = source(alloc, text, 4, &[])?;
    let mut out = MemSink::new(alloc, Vec::new(alloc));
    let mut err = MemSink::new(alloc, Vec::new(alloc));
    let mut disk = dead_disk(alloc);
    let _ = carry_out(
        alloc,
        terminals,
        Ok(words(alloc, given)?),
        &mut input,
        &mut out,
        &mut disk,
        &mut err,
    );
    Ok(Vec::from_slice(alloc, err.bytes())?)
}
