use super::damage::{Form, assert_damage_read_alike};
use super::point_bytes::pieces;
use crate::{RangeProof, WireFault, WireKind};
use bit_keys::Branch;
use mdb_base::VarintFault;
use std::alloc::Global;
use std::process::Abort;
use std::test::Fail;

// SHA-256 of 00 01 01 61 08 0a.
const ID_0A: [u8; 32] = [
    0x00, 0xd3, 0x8d, 0xf2, 0x53, 0xfa, 0x5c, 0xbf, 0xd7, 0x4a, 0xa8, 0x8e, 0x54, 0x7e, 0xfb, 0xbf,
    0xaa, 0x1c, 0xcd, 0x15, 0xbb, 0xf7, 0x41, 0xcb, 0x6b, 0x26, 0x29, 0xe4, 0x60, 0x73, 0x21, 0x70,
];
// SHA-256 of 00 01 01 62 08 0b.
const ID_0B: [u8; 32] = [
    0x9d, 0x40, 0xdb, 0xe5, 0x2f, 0x0b, 0xa9, 0x69, 0xc6, 0x5b, 0x47, 0x36, 0xbc, 0x11, 0xaa, 0xda,
    0x91, 0xc0, 0xd5, 0x03, 0xf1, 0xd1, 0xc4, 0xd1, 0xaf, 0x62, 0xec, 0xfc, 0xb3, 0x93, 0xc1, 0xe4,
];

// The bytes of range proofs of the map {0a: 61, 0b: 62}, with tokens of four bits.
#[derive(Drop)]
struct RangeBytes {
    /// Of all keys.
    whole: Vec<u8>,
    /// Of 0a alone.
    one: Vec<u8>,
    /// Of 0a 01 to 0a 02.
    gap: Vec<u8>,
    /// Of all keys, the first of which is listed.
    cut: Vec<u8>,
}

fn worked_ranges(alloc: Global) -> Result<RangeBytes, Fail> {
    let fork = pieces(alloc, &[&[2, 4, 0, 0, 2, 10], &ID_0A, &[11], &ID_0B])?;
    let path = pieces(alloc, &[&fork, &[8, 0x0a, 1, 1, 0x61, 0]])?;
    let whole = [1, 1, 0, 2, 1, 0x0a, 1, 0x61, 1, 0x0b, 1, 0x62, 0, 0];
    let one = [1, 1, 0, 1, 1, 0x0a, 1, 0x61];
    let cut = [1, 1, 1, 1, 1, 0x0a, 1, 0x61, 0];
    Ok(RangeBytes {
        whole: pieces(alloc, &[&whole])?,
        one: pieces(alloc, &[&one, &path, &path])?,
        gap: pieces(alloc, &[&[1, 1, 0, 0], &path, &path])?,
        cut: pieces(alloc, &[&cut, &path])?,
    })
}

/// Keys of one byte with values of one byte.
type Listed<'a> = &'a [(u8, u8)];

fn assert_lists(
    rt: &impl Abort,
    alloc: Global,
    proof: &RangeProof,
    want: Listed<'_>,
) -> Result<(), Fail> {
    let entries = proof.entries(alloc)?;
    assert_eq!(rt; entries.len(), want.len());
    for (entry, (key, value)) in entries.iter().zip(want) {
        assert_eq!(rt; entry.key, [*key].as_slice());
        assert_eq!(rt; entry.value, [*value].as_slice());
    }
    Ok(())
}

fn assert_written(
    rt: &impl Abort,
    alloc: Global,
    proof: &RangeProof,
    bytes: &[u8],
) -> Result<(), Fail> {
    let mut out = pieces(alloc, &[&[0xaa]])?;
    proof.encode(&mut out)?;
    assert_eq!(rt; out, pieces(alloc, &[&[0xaa], bytes])?);
    Ok(())
}

#[test]
fn worked_ranges_are_read_as_they_stand_and_written_so(rt: HostRuntime) -> Result<(), Fail> {
    let alloc = rt.alloc();
    let proofs = worked_ranges(alloc)?;
    let (first, second) = ((0x0a, 0x61), (0x0b, 0x62));
    let rows: [(&[u8], bool, Listed<'_>, usize, usize); 4] = [
        (&proofs.whole, false, &[first, second], 0, 0),
        (&proofs.one, false, &[first], 2, 2),
        (&proofs.gap, false, &[], 2, 2),
        (&proofs.cut, true, &[first], 0, 2),
    ];
    for (bytes, cut, listed, start, end) in rows {
        let proof = RangeProof::decode(alloc, bytes, Branch::B16).map_err(
            |_| "the bytes are a proof",
        )?;
        assert_eq!(rt; proof.cut, cut);
        assert_lists(&rt, alloc, &proof, listed)?;
        assert_eq!(rt; (proof.start.len(), proof.end.len()), (start, end));
        assert_written(&rt, alloc, &proof, bytes)?;
    }
    Ok(())
}

#[test]
fn cut_and_flipped_ranges_are_read_as_the_plain_reader_reads_them(
    rt: HostRuntime,
) -> Result<(), Fail> {
    let alloc = rt.alloc();
    let proofs = worked_ranges(alloc)?;
    for bytes in [&proofs.whole, &proofs.one, &proofs.gap, &proofs.cut] {
        assert_damage_read_alike(&rt, alloc, Form::Range, bytes, Branch::B16)?;
    }
    Ok(())
}

#[test]
fn ranges_outside_the_grammar_are_refused_at_their_first_such_field(
    rt: HostRuntime,
) -> Result<(), Fail> {
    let alloc = rt.alloc();
    let rows: [(&[u8], usize, WireKind); 11] = [
        (&[1, 4, 2], 1, WireKind::Kind),
        (&[1, 1, 2], 2, WireKind::Flag),
        (&[1, 1, 0, 0x80], 3, WireKind::Varint(VarintFault::Short)),
        // The key has 257 bytes, and then 256, of which none follows.
        (&[1, 1, 0, 1, 0x81, 2], 4, WireKind::LongKey),
        (&[1, 1, 0, 1, 0x80, 2], 6, WireKind::Short),
        // The value has 262,145 bytes, and then 262,144, of which none follows.
        (&[1, 1, 0, 1, 0, 0x81, 0x80, 0x10], 5, WireKind::LongValue),
        (&[1, 1, 0, 1, 0, 0x80, 0x80, 0x10], 8, WireKind::Short),
        // The second pair has no value.
        (
            &[1, 1, 1, 2, 0, 0, 1, 0x0a],
            8,
            WireKind::Varint(VarintFault::Short),
        ),
        // A path is missing, and then a node of the second one is wrong.
        (&[1, 1, 0, 0, 0], 5, WireKind::Varint(VarintFault::Short)),
        (&[1, 1, 0, 0, 0, 1, 3, 0], 6, WireKind::Tokens),
        (&[1, 1, 0, 0, 0, 0, 0], 6, WireKind::Trailing),
    ];
    for (bytes, at, kind) in rows {
        match RangeProof::decode(alloc, bytes, Branch::B16) {
            Ok(_) => assert!(rt; false, "{bytes:?} is read"),
            Err(fault) => assert_eq!(rt; fault, WireFault { at, kind }, "for {bytes:?}"),
        }
    }
    Ok(())
}
