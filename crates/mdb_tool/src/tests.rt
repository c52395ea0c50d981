use crate::program::run;
use crate::status::{Status, status_line, status_number};
use mdb_base::{LimitKind, MemSink, MemSource};
use mem_world::MemDisk;
use proof_check::{Refusal, VerifyFault};
use std::alloc::Global;
use std::process::Abort;
use std::test::Fail;

mod stores;

pub(crate) fn words(alloc: Global, all: &[&str]) -> Result<Vec<String>, Fail> {
    let mut words = Vec::new(alloc);
    for word in all {
        words.push(String::from_str(alloc, word)?)?;
    }
    Ok(words)
}

pub(crate) fn source(
    alloc: Global,
    text: &[u8],
    piece: usize,
    failing: &[u64],
) -> Result<MemSource, Fail> {
    Ok(MemSource::new(
        Vec::from_slice(alloc, text)?,
        piece.max(1),
        Vec::from_slice(alloc, failing)?,
    ))
}

/// A disk of which each call fails.
pub(crate) fn dead_disk(alloc: Global) -> MemDisk {
    let mut disk = MemDisk::new(alloc);
    disk.fuse(0);
    disk
}

// That a run on these words and this text, read in pieces of this size, ends so and prints this.
fn assert_ends(
    rt: &impl Abort,
    alloc: Global,
    given: &[&str],
    text: &[u8],
    piece: usize,
    want: (Status, &str),
) -> Result<(), Fail> {
    let mut input = source(alloc, text, piece, &[])?;
    let mut out = MemSink::new(alloc, Vec::new(alloc));
    let mut disk = dead_disk(alloc);
    let status = run(
        alloc,
        &words(alloc, given)?,
        &mut input,
        &mut out,
        &mut disk,
    );
    assert_eq!(rt; status, want.0, "of {given:?} on {text:?} by {piece}");
    assert_eq!(rt;
        out.bytes(),
        want.1.as_bytes(),
        "of {given:?} on {text:?} by {piece}"
    );
    Ok(())
}

// Each root is the SHA-256 of a string that is written beside it, where 12:61 stands for the hash of the
// string 00 01 01 61 08 12 of a node without children, which has the value 61 at the key 12.
#[test]
fn roots_are_the_hashes_of_their_strings(rt: HostRuntime) -> Result<(), Fail> {
    let rows: [(&str, &[u8], &str); 16] = [
        // No node.
        (
            "16",
            b"",
            "root 0000000000000000000000000000000000000000000000000000000000000000\n",
        ),
        // 00 01 01 76 08 6b, whatever stands between the lines and however often a key is put.
        (
            "16",
            b"\tput  6B 76 \r\n",
            "root 1e06a9a1d455f9698b60b63f9d11dbed46ae35a85b0d74fa5b05423b34217822\n",
        ),
        (
            "16",
            b"# put 6b 75\n\n \t\nput 6b 75\nput 6c 75\ndel 6c\ndel 6d\nput 6b 76",
            "root 1e06a9a1d455f9698b60b63f9d11dbed46ae35a85b0d74fa5b05423b34217822\n",
        ),
        // 00 01 00 08 6b, and 00 01 01 76 00.
        (
            "16",
            b"put 6b -\n",
            "root 1bb361bc61f1cf3009340dee033bf87b140cf860541e20513011f9aac80ddebf\n",
        ),
        (
            "16",
            b"put - 76\n",
            "root 2a94d316e2af8e19e3adb22ccd187bd37ad716f7983b51295319e314061f722f\n",
        ),
        // 02 00 12:61 01 13:62 00 07 12, and so at each factor.
        (
            "2",
            b"put 13 62\nput 12 61\n",
            "root acc5c6d72a3d8ac3ac1a16dd3667b15055b35b893321489eaac8adff58031b54\n",
        ),
        (
            "4",
            b"put 13 62\nput 12 61\n",
            "root 1bc75ce327984d091ab375d6d9e2e25d25a7b0becc89652c1c7cdaca83bcd5e9\n",
        ),
        (
            "16",
            b"put 13 62\nput 12 61\n",
            "root f3729db89d13675a5fd13d80825f394471ca3f1783f2c8c7777956c40cea1ae0\n",
        ),
        (
            "256",
            b"put 13 62\nput 12 61\n",
            "root 5b69b5eef0271e41c28edd9f6d9fbcdada1bbfb610d3323790bd46ce2d2b753b\n",
        ),
        // 02 00 00:61 c8 01 c8:61 00 00, with an index of two bytes.
        (
            "256",
            b"put 00 61\nput c8 61\n",
            "root f6ffcc3077a52be8325c08327b6c0a50742ac2731add07e7d145bb3fbd4c1670\n",
        ),
        // 00 01 1f, the 31 bytes of the value, 08 6b.
        (
            "16",
            b"put 6b 61616161616161616161616161616161616161616161616161616161616161\n",
            "root 24ac369e1674af9145c971b6472de9967b8679cf1826aab19da5fb68308ae7d7\n",
        ),
        // 00 01 20, the SHA-256 of the 32 bytes of the value, 08 6b, and the same of 33 bytes.
        (
            "16",
            b"put 6b 6161616161616161616161616161616161616161616161616161616161616161\n",
            "root e8b69081edad2604551eeca24deccb08991ed70a8b3bed1c7ec16a46dab1c62d\n",
        ),
        (
            "16",
            b"put 6b 616161616161616161616161616161616161616161616161616161616161616161\n",
            "root 109b107d4917215f6b7f30662c3f8f4da55cf194c0158b57fc670f4629ee47f6\n",
        ),
        // 01 00 00:61 01 00 00, the empty value at the empty key.
        (
            "16",
            b"put - -\nput 00 61\n",
            "root 4314c91362fd84088e5db5f6c8e7a5e7e3c70fc76cfcf500332df65e316870fd\n",
        ),
        // 02 01 12:61 02 20:63 00 00, where 13 was put and deleted.
        (
            "16",
            b"put 12 61\nput 13 62\nput 20 63\ndel 13\n",
            "root 84e4ac466983e43ba42af7b268761a3e6af114507c7b86d21c7968b9ab97f566\n",
        ),
        // No node again.
        (
            "256",
            b"put 6b 76\ndel 6b",
            "root 0000000000000000000000000000000000000000000000000000000000000000\n",
        ),
    ];
    for (factor, text, printed) in rows {
        for piece in [1usize, 7, 65536] {
            assert_ends(
                &rt,
                rt.alloc(),
                &["-", "root", factor],
                text,
                piece,
                (Status::Done, printed),
            )?;
        }
    }
    Ok(())
}

#[test]
fn what_is_not_understood_is_told_by_its_place(rt: HostRuntime) -> Result<(), Fail> {
    let root: &[&str] = &["-", "root", "16"];
    let verify: &[&str] = &["-", "verify", "16"];
    let rows: [(&[&str], &[u8], Status); 39] = [
        // Words come first.
        (&[], b"x", Status::BadWords(1)),
        (&["-"], b"x", Status::BadWords(2)),
        (&["-", "Root", "16"], b"x", Status::BadWords(2)),
        (&["-", "root"], b"x", Status::BadWords(3)),
        (&["-", "root", "8"], b"x", Status::BadWords(3)),
        (&["-", "root", "016"], b"x", Status::BadWords(3)),
        (&["-", "root", "8", "16"], b"x", Status::BadWords(3)),
        (&["-", "root", "16", "16"], b"x", Status::BadWords(4)),
        // A store has a folder, `apply` no words of its own, and `get` just a key.
        (&["-", "apply", "16"], b"x", Status::BadWords(1)),
        (&["-", "get", "8"], b"x", Status::BadWords(1)),
        (&["D", "apply"], b"x", Status::BadWords(3)),
        (&["D", "apply", "8", "6b"], b"x", Status::BadWords(3)),
        (&["D", "apply", "16", "6b"], b"x", Status::BadWords(4)),
        (&["D", "get", "16"], b"x", Status::BadWords(4)),
        (&["D", "get", "16", "6"], b"x", Status::BadWords(4)),
        (&["D", "get", "16", "0x6b"], b"x", Status::BadWords(4)),
        (&["D", "get", "16", "zz", "6b"], b"x", Status::BadWords(4)),
        (&["D", "get", "16", "6b", "6b"], b"x", Status::BadWords(5)),
        // `prove` has a root and a key, and `verify` no words of its own.
        (
            &["-", "prove", "16", "now", "6b"],
            b"x",
            Status::BadWords(1),
        ),
        (&["D", "prove", "16"], b"x", Status::BadWords(4)),
        (&["D", "prove", "16", "Now", "6"], b"x", Status::BadWords(4)),
        (
            &["D", "prove", "16", "~01", "6b"],
            b"x",
            Status::BadWords(4),
        ),
        (&["D", "prove", "16", "~1"], b"x", Status::BadWords(5)),
        (
            &["D", "prove", "16", "empty", "6"],
            b"x",
            Status::BadWords(5),
        ),
        (
            &["D", "prove", "16", "now", "-", "6b"],
            b"x",
            Status::BadWords(6),
        ),
        // `range` has a root, two bounds of which the end is not below the start, and two counts.
        (
            &["-", "range", "16", "now", "*", "*", "1", "1"],
            b"x",
            Status::BadWords(1),
        ),
        (
            &["D", "range", "16", "now", "0b", "0a", "1", "1"],
            b"x",
            Status::BadWords(6),
        ),
        (
            &["D", "range", "16", "now", "0a", "*", "4097", "1"],
            b"x",
            Status::BadWords(7),
        ),
        (
            &["D", "range", "16", "now", "*", "0a", "1", "0"],
            b"x",
            Status::BadWords(8),
        ),
        (
            &["D", "range", "16", "now", "*", "*", "1", "1", "1"],
            b"x",
            Status::BadWords(9),
        ),
        (&["-", "verify", "16", "now"], b"x", Status::BadWords(4)),
        // Then lines.
        (verify, b"# a\npoint now - 01\n", Status::BadLine(2)),
        (verify, b"put 6b 76\n", Status::BadLine(1)),
        (root, b"x", Status::BadLine(1)),
        (root, b"# a\n\nput 6b 76\nx\ny\n", Status::BadLine(4)),
        (root, b"put 6b 76\r", Status::BadLine(1)),
        (root, b"put 6b 76\n # a\n", Status::BadLine(2)),
        (root, b"put 6b 7\n", Status::BadLine(1)),
        (root, b"del 6b 76\n", Status::BadLine(1)),
    ];
    for (given, text, want) in rows {
        assert_ends(&rt, rt.alloc(), given, text, 2, (want, ""))?;
    }
    Ok(())
}

// A key of 257 bytes in line 3, and one of 256.
#[test]
fn a_key_past_its_limit_is_told_by_its_line(rt: HostRuntime) -> Result<(), Fail> {
    let alloc = rt.alloc();
    let zeros = "root 0000000000000000000000000000000000000000000000000000000000000000\n";
    for (bytes, want) in [
        (257usize, (Status::BadLine(3), "")),
        (256, (Status::Done, zeros)),
    ] {
        let mut text = Vec::from_slice(alloc, b"del 6b\n\ndel ")?;
        for _ in 0..bytes {
            text.extend_from_slice(b"6b")?;
        }
        assert_ends(&rt, alloc, &["-", "root", "16"], text.as_slice(), 100, want)?;
    }
    Ok(())
}

// A key of 257 bytes as a word, and one of 256, which a store is asked for.
#[test]
fn a_key_past_its_limit_is_told_by_its_word(rt: HostRuntime) -> Result<(), Fail> {
    let alloc = rt.alloc();
    for (bytes, want) in [(257usize, Status::BadWords(4)), (256, Status::Disk)] {
        let mut key = String::new(alloc);
        for _ in 0..bytes {
            key.push_str("6b")?;
        }
        assert_ends(
            &rt,
            alloc,
            &["D", "get", "16", key.as_str()],
            b"",
            1,
            (want, ""),
        )?;
    }
    Ok(())
}

// The text takes six reads, and one tells that it ends; the line is one write.
#[test]
fn a_read_or_a_write_that_fails_ends_the_run(rt: HostRuntime) -> Result<(), Fail> {
    let alloc = rt.alloc();
    let given = words(alloc, &["-", "root", "16"])?;
    let mut disk = dead_disk(alloc);
    for call in 0..8u64 {
        let mut input = source(alloc, b"# put 12 61\nput 6b 76\n", 4, &[call])?;
        let mut out = MemSink::new(alloc, Vec::from_slice(alloc, &[0u64])?);
        let status = run(alloc, &given, &mut input, &mut out, &mut disk);
        let want = if call < 7 {
            Status::Read
        } else {
            Status::Write
        };
        assert_eq!(rt; status, want, "at {call}");
        assert!(rt; out.bytes().is_empty(), "at {call}");
    }
    // The line is known to be wrong before the read that would fail.
    let mut input = source(alloc, b"x\nput 6b 76\n", 2, &[1])?;
    let mut out = MemSink::new(alloc, Vec::new(alloc));
    assert_eq!(rt;
        run(alloc, &given, &mut input, &mut out, &mut disk),
        Status::BadLine(1)
    );
    Ok(())
}

#[test]
fn each_status_has_its_line_and_its_number(rt: HostRuntime) -> Result<(), Fail> {
    let rows = [
        (Status::Done, "mdb: done", 0),
        (Status::BadWords(3), "mdb: word 3 is not understood", 2),
        (Status::BadLine(10), "mdb: line 10 is not understood", 3),
        (Status::Limit(LimitKind::Input), "mdb: limit input", 10),
        (Status::Limit(LimitKind::Pairs), "mdb: limit pairs", 10),
        (Status::Limit(LimitKind::Batch), "mdb: limit batch", 10),
        (Status::Limit(LimitKind::Answers), "mdb: limit answers", 10),
        (Status::Read, "mdb: reading failed", 20),
        (Status::Write, "mdb: writing failed", 21),
        (Status::NoMemory, "mdb: no memory", 30),
    ];
    for (status, line, number) in rows {
        assert_eq!(rt; status_line(rt.alloc(), &status)?.as_str(), line);
        assert_eq!(rt; status_number(&status), number, "for {line}");
    }
    Ok(())
}

#[test]
fn each_status_of_a_store_has_its_line_and_its_number(rt: HostRuntime) -> Result<(), Fail> {
    let rows = [
        (Status::NotAStore(1), "mdb: file 1 is no store", 4),
        (
            Status::BranchDiffers {
                kept: 16,
                asked: 256,
            },
            "mdb: the store has factor 16, asked was 256",
            4,
        ),
        (
            Status::Damaged { file: 0, at: 24 },
            "mdb: file 0 is damaged at 24",
            4,
        ),
        (
            Status::VerifyRefused {
                line: 3,
                cause: Refusal::Verify(VerifyFault::PathOrder(1)),
            },
            "mdb: line 3 refused, path order 1",
            5,
        ),
        (Status::NotHeld, "mdb: root not held", 6),
        (Status::Disk, "mdb: disk failed", 22),
    ];
    for (status, line, number) in rows {
        assert_eq!(rt; status_line(rt.alloc(), &status)?.as_str(), line);
        assert_eq!(rt; status_number(&status), number, "for {line}");
    }
    Ok(())
}
