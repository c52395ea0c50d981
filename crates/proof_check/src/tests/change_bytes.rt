use super::damage::{Form, assert_damage_read_alike};
use super::point_bytes::pieces;
use crate::{ChangeProof, RangeProof, WireFault, WireKind};
use bit_keys::Branch;
use mdb_base::VarintFault;
use std::alloc::Global;
use std::process::Abort;
use std::test::Fail;

// Changes: 0b gets 63, 0a is deleted. What a reader says does not depend on the order of keys.
const BOTH: [u8; 14] = [1, 2, 1, 2, 1, 0x0b, 1, 1, 0x63, 1, 0x0a, 0, 0, 0];

// A path of one node, with no value and no child.
const NODE: [u8; 5] = [1, 4, 0x10, 0, 0];

/// Keys of one byte, each with a value of one byte or none.
type Listed<'a> = &'a [(u8, Option<u8>)];

fn assert_lists(rt: &impl Abort, proof: &ChangeProof, want: Listed<'_>) {
    assert_eq!(rt; proof.changes.len(), want.len());
    for (change, (key, value)) in proof.changes.iter().zip(want) {
        assert_eq!(rt; change.key.as_slice(), [*key].as_slice());
        match (change.value.as_deref(), value) {
            (Some(have), Some(value)) => assert_eq!(rt; have, [*value].as_slice()),
            (have, value) => assert_eq!(rt; have.is_some(), value.is_some()),
        }
    }
}

fn assert_written(
    rt: &impl Abort,
    alloc: Global,
    proof: &ChangeProof,
    bytes: &[u8],
) -> Result<(), Fail> {
    let mut out = pieces(alloc, &[&[0xaa]])?;
    proof.encode(&mut out)?;
    assert_eq!(rt; out, pieces(alloc, &[&[0xaa], bytes])?);
    Ok(())
}

#[test]
fn changes_are_read_as_they_stand_and_written_so(rt: HostRuntime) -> Result<(), Fail> {
    let alloc = rt.alloc();
    let with_paths = pieces(alloc, &[&[1, 2, 0, 0], &NODE, &NODE])?;
    let put = [1, 2, 0, 1, 1, 0x0b, 1, 1, 0x63, 0, 0];
    let rows: [(&[u8], bool, Listed<'_>, usize); 4] = [
        (&[1, 2, 0, 0, 0, 0], false, &[], 0),
        (&put, false, &[(0x0b, Some(0x63))], 0),
        (&BOTH, true, &[(0x0b, Some(0x63)), (0x0a, None)], 0),
        (&with_paths, false, &[], 1),
    ];
    for (bytes, cut, listed, nodes) in rows {
        let proof = ChangeProof::decode(alloc, bytes, Branch::B16).map_err(
            |_| "the bytes are a proof",
        )?;
        assert_eq!(rt; proof.cut, cut);
        assert_lists(&rt, &proof, listed);
        assert_eq!(rt; (proof.start.len(), proof.end.len()), (nodes, nodes));
        assert_written(&rt, alloc, &proof, bytes)?;
    }
    Ok(())
}

#[test]
fn cut_and_flipped_changes_are_read_as_the_plain_reader_reads_them(
    rt: HostRuntime,
) -> Result<(), Fail> {
    let alloc = rt.alloc();
    let with_paths = pieces(alloc, &[&[1, 2, 0, 0], &NODE, &NODE])?;
    for bytes in [BOTH.as_slice(), &with_paths] {
        assert_damage_read_alike(&rt, alloc, Form::Change, bytes, Branch::B16)?;
    }
    Ok(())
}

#[test]
fn changes_outside_the_grammar_are_refused_at_their_first_such_field(
    rt: HostRuntime,
) -> Result<(), Fail> {
    let alloc = rt.alloc();
    let rows: [(&[u8], usize, WireKind); 7] = [
        (&[1, 1, 0, 0, 0, 0], 1, WireKind::Kind),
        (&[1, 2, 2], 2, WireKind::Flag),
        // The key has 257 bytes.
        (&[1, 2, 0, 1, 0x81, 2], 4, WireKind::LongKey),
        // It is neither a deletion nor a put.
        (&[1, 2, 0, 1, 1, 0x0a, 2], 6, WireKind::Flag),
        // The value has 262,145 bytes.
        (
            &[1, 2, 0, 1, 0, 1, 0x81, 0x80, 0x10],
            6,
            WireKind::LongValue,
        ),
        (&[1, 2, 0, 0, 0], 5, WireKind::Varint(VarintFault::Short)),
        (&[1, 2, 0, 0, 0, 0, 0], 6, WireKind::Trailing),
    ];
    for (bytes, at, kind) in rows {
        match ChangeProof::decode(alloc, bytes, Branch::B16) {
            Ok(_) => assert!(rt; false, "{bytes:?} is read"),
            Err(fault) => assert_eq!(rt; fault, WireFault { at, kind }, "for {bytes:?}"),
        }
    }
    Ok(())
}

#[test]
fn a_reader_of_one_form_answers_the_kind_of_another(rt: HostRuntime) -> Result<(), Fail> {
    let alloc = rt.alloc();
    let kind = WireFault {
        at: 1,
        kind: WireKind::Kind,
    };
    let as_range = RangeProof::decode(alloc, &BOTH, Branch::B16);
    assert_eq!(rt; as_range.map(|_| ()), Err(kind));
    Ok(())
}
