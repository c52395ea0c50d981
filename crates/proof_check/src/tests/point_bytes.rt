use super::damage::{Form, assert_damage_read_alike};
use crate::{PointProof, WireFault, WireKind};
use bit_keys::Branch;
use mdb_base::VarintFault;
use node_codec::Digest;
use std::alloc::Global;
use std::process::Abort;
use std::test::Fail;
use trie_items::ChildId;

// SHA-256 of 00 01 01 61 08 12.
const ID_12: [u8; 32] = [
    0xca, 0x2d, 0x9c, 0x85, 0xce, 0x10, 0xe9, 0xd1, 0x9a, 0x8c, 0xdf, 0xef, 0xff, 0xb7, 0x7c, 0x71,
    0x0a, 0xbd, 0xf9, 0xbc, 0x96, 0x50, 0xc7, 0x82, 0x07, 0xf4, 0xd8, 0x35, 0x38, 0xdc, 0x28, 0x70,
];
// SHA-256 of 00 01 01 62 08 13.
const ID_13: [u8; 32] = [
    0x01, 0xa8, 0xd1, 0xe9, 0xaa, 0xc3, 0x07, 0x33, 0xfb, 0x78, 0x72, 0x51, 0x5b, 0x15, 0x94, 0x99,
    0x95, 0x82, 0x35, 0x41, 0xc5, 0xc5, 0x18, 0x5a, 0x4e, 0x6f, 0x03, 0x2b, 0x98, 0x58, 0xdf, 0xe6,
];
// SHA-256 of 00 01 01 61 10 12 34.
const ID_12_34: [u8; 32] = [
    0x29, 0xc7, 0x5d, 0xb5, 0xd8, 0xb4, 0x12, 0xe2, 0x49, 0xe3, 0x19, 0x92, 0x6a, 0x53, 0x69, 0x09,
    0x2d, 0x63, 0x02, 0x4b, 0xa7, 0x07, 0x89, 0x60, 0x52, 0x9d, 0x8d, 0x3d, 0x2e, 0x30, 0x75, 0x97,
];
// SHA-256 of 00 01 01 62 08 50.
const ID_50: [u8; 32] = [
    0xa4, 0x1c, 0xbc, 0xa3, 0x71, 0xe8, 0xe7, 0x55, 0xf1, 0x37, 0x83, 0x3b, 0x1d, 0xaf, 0xcc, 0x29,
    0xa1, 0x81, 0x05, 0x22, 0x86, 0x3d, 0xee, 0x8e, 0xef, 0x66, 0x90, 0x86, 0xf1, 0x2e, 0xad, 0x24,
];
// SHA-256 of 00 01 01 78 10 61 07.
const ID_61_07: [u8; 32] = [
    0x5f, 0xbc, 0x0b, 0xd0, 0x2d, 0x6d, 0x3e, 0xdc, 0xa3, 0x21, 0xbd, 0x01, 0xd0, 0x61, 0xf8, 0x00,
    0x84, 0xd3, 0x00, 0xa0, 0xf7, 0x55, 0x1c, 0x59, 0x10, 0x24, 0xde, 0xbd, 0xed, 0x24, 0x69, 0x38,
];
// SHA-256 of 00 01 01 79 10 61 c8.
const ID_61_C8: [u8; 32] = [
    0x54, 0xe1, 0xce, 0xff, 0x08, 0xf4, 0xf2, 0x96, 0x22, 0x35, 0x38, 0x78, 0x12, 0x41, 0xaf, 0x3e,
    0xff, 0xff, 0x50, 0xdc, 0xeb, 0xea, 0x5d, 0xd5, 0x27, 0x7a, 0xe5, 0x45, 0xcc, 0x24, 0xc8, 0xad,
];

/// What the last node of a path has.
type LastNode<'a> = (u64, &'a [u8], Option<&'a [u8]>, &'a [ChildId]);

pub(super) fn pieces(alloc: Global, pieces: &[&[u8]]) -> Result<Vec<u8>, Fail> {
    let mut bytes = Vec::new(alloc);
    for piece in pieces {
        bytes.extend_from_slice(piece)?;
    }
    Ok(bytes)
}

// The bytes of point proofs.
#[derive(Drop)]
struct PointBytes {
    /// Of 6b in the map {6b: 76}.
    there: Vec<u8>,
    /// Of 6c in the same map.
    absent: Vec<u8>,
    /// Of 14 in {12: 61, 13: 62}, with tokens of four bits, and of one bit.
    fork: Vec<u8>,
    halves: Vec<u8>,
    /// Of 12 ff in {12 34: 61, 50: 62}.
    child: Vec<u8>,
    /// Of 61 in {61 07: 78, 61 c8: 79}, with tokens of eight bits.
    wide: Vec<u8>,
}

fn worked_points(alloc: Global) -> Result<PointBytes, Fail> {
    let absent = [1, 4, 0, 1, 8, 0x6b, 1, 1, 0x76, 0];
    let fork = [1, 4, 0, 1, 4, 0x10, 0, 2, 2];
    let halves = [1, 4, 0, 1, 7, 0x12, 0, 2, 0];
    let child = [1, 4, 0, 2, 0, 0, 2, 1];
    let last = [0x10, 0x12, 0x34, 1, 1, 0x61, 0];
    let wide = [1, 4, 0, 1, 8, 0x61, 0, 2, 7];
    Ok(PointBytes {
        there: pieces(alloc, &[&[1, 4, 1, 1, 0x76], &absent[3..]])?,
        absent: pieces(alloc, &[&absent])?,
        fork: pieces(alloc, &[&fork, &ID_12, &[3], &ID_13])?,
        halves: pieces(alloc, &[&halves, &ID_12, &[1], &ID_13])?,
        child: pieces(alloc, &[&child, &ID_12_34, &[5], &ID_50, &last])?,
        wide: pieces(alloc, &[&wide, &ID_61_07, &[0xc8, 1], &ID_61_C8])?,
    })
}

fn assert_last_node(rt: &impl Abort, proof: &PointProof, want: LastNode<'_>) -> Result<(), Fail> {
    let node = proof.path.last().ok_or("the path has a node")?;
    let (bits, key, digest, children) = want;
    assert_eq!(rt; node.key.bits(), bits);
    assert_eq!(rt; node.key.bytes(), key);
    assert_eq!(rt; node.digest.as_ref().map(Digest::bytes), digest);
    assert_eq!(rt; node.children.as_slice(), children);
    Ok(())
}

fn child(index: u16, id: [u8; 32]) -> ChildId {
    ChildId { index, id }
}

fn assert_written(
    rt: &impl Abort,
    alloc: Global,
    proof: &PointProof,
    bytes: &[u8],
) -> Result<(), Fail> {
    let mut out = pieces(alloc, &[&[0xaa]])?;
    proof.encode(&mut out)?;
    assert_eq!(rt; out, pieces(alloc, &[&[0xaa], bytes])?);
    Ok(())
}

#[test]
fn worked_proofs_are_read_as_they_stand_and_written_so(rt: HostRuntime) -> Result<(), Fail> {
    let alloc = rt.alloc();
    let proofs = worked_points(alloc)?;
    let fork = [child(2, ID_12), child(3, ID_13)];
    let halves = [child(0, ID_12), child(1, ID_13)];
    let wide = [child(7, ID_61_07), child(200, ID_61_C8)];
    let leaf: LastNode<'_> = (8, &[0x6b], Some(&[0x76]), &[]);
    let long: LastNode<'_> = (16, &[0x12, 0x34], Some(&[0x61]), &[]);
    let rows: [(&[u8], Branch, Option<&[u8]>, usize, LastNode<'_>); 6] = [
        (&proofs.there, Branch::B16, Some(&[0x76]), 1, leaf),
        (&proofs.absent, Branch::B16, None, 1, leaf),
        (
            &proofs.fork,
            Branch::B16,
            None,
            1,
            (4, &[0x10], None, &fork),
        ),
        (
            &proofs.halves,
            Branch::B2,
            None,
            1,
            (7, &[0x12], None, &halves),
        ),
        (&proofs.child, Branch::B16, None, 2, long),
        (
            &proofs.wide,
            Branch::B256,
            None,
            1,
            (8, &[0x61], None, &wide),
        ),
    ];
    for (bytes, branch, value, nodes, last) in rows {
        let proof = PointProof::decode(alloc, bytes, branch).map_err(|_| "the bytes are a proof")?;
        assert_eq!(rt; proof.value.as_deref(), value);
        assert_eq!(rt; proof.path.len(), nodes);
        assert_last_node(&rt, &proof, last)?;
        assert_written(&rt, alloc, &proof, bytes)?;
    }
    Ok(())
}

#[test]
fn cut_and_flipped_proofs_are_read_as_the_plain_reader_reads_them(
    rt: HostRuntime,
) -> Result<(), Fail> {
    let alloc = rt.alloc();
    let proofs = worked_points(alloc)?;
    let rows: [(&[u8], Branch); 6] = [
        (&proofs.there, Branch::B16),
        (&proofs.absent, Branch::B16),
        (&proofs.fork, Branch::B16),
        (&proofs.halves, Branch::B2),
        (&proofs.child, Branch::B16),
        (&proofs.wide, Branch::B256),
    ];
    for (bytes, branch) in rows {
        assert_damage_read_alike(&rt, alloc, Form::Point, bytes, branch)?;
    }
    Ok(())
}

#[test]
fn bytes_outside_the_grammar_are_refused_at_their_first_such_field(
    rt: HostRuntime,
) -> Result<(), Fail> {
    let alloc = rt.alloc();
    let id = [0x5a; 32];
    let same = pieces(alloc, &[&[1, 4, 0, 1, 0, 0, 2, 3], &id, &[3]])?;
    let long = VarintFault::Long;
    let huge = [
        1, 4, 0, 0xff, 0xff, 0xff, 0xff, 0xff, 0xff, 0xff, 0xff, 0xff, 2,
    ];
    let rows: [(&[u8], usize, WireKind); 17] = [
        (&[], 0, WireKind::Short),
        (&[2, 4], 0, WireKind::Version),
        (&[1, 1], 1, WireKind::Kind),
        (&[1, 4, 2], 2, WireKind::Flag),
        // The value has 262,145 bytes, and then 262,144, of which none follows.
        (&[1, 4, 1, 0x81, 0x80, 0x10], 3, WireKind::LongValue),
        (&[1, 4, 1, 0x80, 0x80, 0x10], 6, WireKind::Short),
        (
            &[1, 4, 0, 0x81, 0],
            3,
            WireKind::Varint(VarintFault::NotShortest),
        ),
        (&[1, 4, 0, 0x81], 3, WireKind::Varint(VarintFault::Short)),
        (&huge, 3, WireKind::Varint(long)),
        // The key has 2,049 bits, which are no whole tokens either; then 2,047; then 2,048.
        (&[1, 4, 0, 1, 0x81, 0x10], 4, WireKind::LongKey),
        (&[1, 4, 0, 1, 0xff, 0x0f], 4, WireKind::Tokens),
        (&[1, 4, 0, 1, 0x80, 0x10], 6, WireKind::Short),
        (&[1, 4, 0, 1, 4, 0x15], 5, WireKind::Padding),
        (&[1, 4, 0, 1, 0, 1, 33], 6, WireKind::LongDigest),
        (&[1, 4, 0, 1, 0, 0, 1, 16], 7, WireKind::Index),
        (&same, 40, WireKind::Order),
        (&[1, 4, 0, 0, 0], 4, WireKind::Trailing),
    ];
    for (bytes, at, kind) in rows {
        match PointProof::decode(alloc, bytes, Branch::B16) {
            Ok(_) => assert!(rt; false, "{bytes:?} is read"),
            Err(fault) => assert_eq!(rt; fault, WireFault { at, kind }, "for {bytes:?}"),
        }
    }
    Ok(())
}
