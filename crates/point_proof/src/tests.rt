// Proofs of keys in small maps, made and checked. Bytes and roots are written out, with hashes that
// another program made of the bytes named beside them.
ghost use Rattle.std.specs.Prelude.{◌≡◌, ◌<◌};

use crate::{prove, verify};
use bit_keys::{Branch, Id};
use mdb_base::KEY_LIMIT;
use node_table::TableSource;
use proof_check::{PointProof, VerifyFault};
use std::alloc::Global;
use std::marker::Brand;
use std::process::Abort;
use std::sync::ledger::{Blank, Ledger};
use std::test::Fail;
use trie_items::Steps;

// SHA-256 of 00 01 01 61 08 12.
const ID_12: Id = [
    0xca, 0x2d, 0x9c, 0x85, 0xce, 0x10, 0xe9, 0xd1, 0x9a, 0x8c, 0xdf, 0xef, 0xff, 0xb7, 0x7c, 0x71,
    0x0a, 0xbd, 0xf9, 0xbc, 0x96, 0x50, 0xc7, 0x82, 0x07, 0xf4, 0xd8, 0x35, 0x38, 0xdc, 0x28, 0x70,
];
// SHA-256 of 00 01 01 62 08 13.
const ID_13: Id = [
    0x01, 0xa8, 0xd1, 0xe9, 0xaa, 0xc3, 0x07, 0x33, 0xfb, 0x78, 0x72, 0x51, 0x5b, 0x15, 0x94, 0x99,
    0x95, 0x82, 0x35, 0x41, 0xc5, 0xc5, 0x18, 0x5a, 0x4e, 0x6f, 0x03, 0x2b, 0x98, 0x58, 0xdf, 0xe6,
];
// SHA-256 of 00 01 01 61 10 12 34.
const ID_12_34: Id = [
    0x29, 0xc7, 0x5d, 0xb5, 0xd8, 0xb4, 0x12, 0xe2, 0x49, 0xe3, 0x19, 0x92, 0x6a, 0x53, 0x69, 0x09,
    0x2d, 0x63, 0x02, 0x4b, 0xa7, 0x07, 0x89, 0x60, 0x52, 0x9d, 0x8d, 0x3d, 0x2e, 0x30, 0x75, 0x97,
];
// SHA-256 of 00 01 01 62 08 50.
const ID_50: Id = [
    0xa4, 0x1c, 0xbc, 0xa3, 0x71, 0xe8, 0xe7, 0x55, 0xf1, 0x37, 0x83, 0x3b, 0x1d, 0xaf, 0xcc, 0x29,
    0xa1, 0x81, 0x05, 0x22, 0x86, 0x3d, 0xee, 0x8e, 0xef, 0x66, 0x90, 0x86, 0xf1, 0x2e, 0xad, 0x24,
];

// The root of {6b: 76}: SHA-256 of 00 01 01 76 08 6b.
const ONE: Id = [
    0x1e, 0x06, 0xa9, 0xa1, 0xd4, 0x55, 0xf9, 0x69, 0x8b, 0x60, 0xb6, 0x3f, 0x9d, 0x11, 0xdb, 0xed,
    0x46, 0xae, 0x35, 0xa8, 0x5b, 0x0d, 0x74, 0xfa, 0x5b, 0x05, 0x42, 0x3b, 0x34, 0x21, 0x78, 0x22,
];
// The root of {12: 61, 13: 62}: SHA-256 of 02, 02, the first ID, 03, the second ID, 00 04 10.
const FORK: Id = [
    0xf3, 0x72, 0x9d, 0xb8, 0x9d, 0x13, 0x67, 0x5a, 0x5f, 0xd1, 0x3d, 0x80, 0x82, 0x5f, 0x39, 0x44,
    0x71, 0xca, 0x3f, 0x17, 0x83, 0xf2, 0xc8, 0xc7, 0x77, 0x79, 0x56, 0xc4, 0x0c, 0xea, 0x1a, 0xe0,
];
// The root of {12 34: 61, 50: 62}: SHA-256 of 02, 01, the third ID, 05, the fourth ID, 00 00.
const APART: Id = [
    0xfb, 0x0d, 0x60, 0x9b, 0x40, 0xee, 0xf0, 0xb9, 0x93, 0x58, 0xf9, 0x4e, 0xe4, 0xd7, 0xb2, 0x1e,
    0xa6, 0xdf, 0xbe, 0xf2, 0x6c, 0xf9, 0xa9, 0xfd, 0xb5, 0x4c, 0x88, 0x5e, 0xe1, 0x84, 0xf3, 0x28,
];

type Pairs<'a> = &'a [(&'a [u8], &'a [u8])];

fn joined(alloc: Global, pieces: &[&[u8]]) -> Result<Vec<u8>, Fail> {
    let mut bytes = Vec::new(alloc);
    for piece in pieces {
        bytes.extend_from_slice(piece)?;
    }
    Ok(bytes)
}

// The bytes of the proof of a key in the map of these pairs.
fn proved(alloc: Global, pairs: Pairs<'_>, key: &[u8]) -> Result<Vec<u8>, Fail> {
    let mut kept = Vec::new(alloc);
    for (key, value) in pairs {
        kept.push((Vec::from_slice(alloc, key)?, Vec::from_slice(alloc, value)?))?;
    }
    let source = TableSource::of_pairs(alloc, Branch::B16, kept)?;
    let mut source = source.ok_or("pairs out of order")?;
    if source.branch != Branch::B16 {
        return Err("another branch".into());
    }
    let mut bytes = Vec::new(alloc);
    prove(alloc, &mut source, Branch::B16, key)?.encode(&mut bytes)?;
    Ok(bytes)
}

// What is said of these bytes as a proof of a key.
fn verdict<L: Ledger>(
    alloc: Global,
    root: &Id,
    key: &[u8],
    bytes: &[u8],
    blank: Blank,
) -> Result<Result<(), VerifyFault>, Fail>
    requires name { blank.name ≡ L.name }
    requires parts { blank.parts ≡ L.parts }
    requires some { 0 < blank.parts }
{
    let proof = PointProof::decode(alloc, bytes, Branch::B16)?;
    if key.len() > KEY_LIMIT {
        return Err("a long key".into());
    }
    let mut steps = Steps::<L>::new(blank);
    Ok(verify(alloc, Branch::B16, root, key, &proof, &mut steps))
}

fn said(
    alloc: Global,
    root: &Id,
    key: &[u8],
    bytes: &[u8],
) -> Result<Result<(), VerifyFault>, Fail> {
    verdict::<Brand>(alloc, root, key, bytes, Blank::new(1))
}

// That a key has this proof, which is accepted against the root, and not against another.
fn assert_proof(
    rt: &impl Abort,
    alloc: Global,
    pairs: Pairs<'_>,
    key: &[u8],
    root: Id,
    want: &[&[u8]],
) -> Result<(), Fail> {
    let bytes = proved(alloc, pairs, key)?;
    assert_eq!(rt; bytes, joined(alloc, want)?, "of {key:?}");
    assert_eq!(rt; said(alloc, &root, key, &bytes)?, Ok(()), "of {key:?}");
    let other = [0xff; 32];
    let differs = VerifyFault::RootDiffers {
        have: root,
        want: other,
    };
    assert_eq!(rt;
        said(alloc, &other, key, &bytes)?,
        Err(differs),
        "of {key:?}"
    );
    Ok(())
}

#[test]
fn proofs_are_made_byte_for_byte_and_accepted_against_the_root(
    rt: HostRuntime,
) -> Result<(), Fail> {
    let alloc = rt.alloc();
    let one: [(&[u8], &[u8]); 1] = [(b"\x6b", b"v")];
    let fork: [(&[u8], &[u8]); 2] = [(b"\x12", b"a"), (b"\x13", b"b")];
    let apart: [(&[u8], &[u8]); 2] = [(b"\x12\x34", b"a"), (b"\x50", b"b")];
    let leaf = [1, 8, 0x6b, 1, 1, 0x76, 0];
    let last = [0x10, 0x12, 0x34, 1, 1, 0x61, 0];
    assert_proof(&rt, alloc, &[], b"\x6b", [0; 32], &[&[1, 4, 0, 0]])?;
    assert_proof(
        &rt,
        alloc,
        &one,
        b"\x6b",
        ONE,
        &[&[1, 4, 1, 1, 0x76], &leaf],
    )?;
    assert_proof(&rt, alloc, &one, b"\x6c", ONE, &[&[1, 4, 0], &leaf])?;
    let head = [1, 4, 0, 1, 4, 0x10, 0, 2, 2];
    assert_proof(
        &rt,
        alloc,
        &fork,
        b"\x14",
        FORK,
        &[&head, &ID_12, &[3], &ID_13],
    )?;
    let head = [1, 4, 0, 2, 0, 0, 2, 1];
    assert_proof(
        &rt,
        alloc,
        &apart,
        b"\x12\xff",
        APART,
        &[&head, &ID_12_34, &[5], &ID_50, &last],
    )?;
    Ok(())
}

// That the proof of 6b that shows this value has another root.
fn assert_another_root(rt: &impl Abort, alloc: Global, value: &[u8]) -> Result<(), Fail> {
    let leaf = [1, 8, 0x6b, 1, 1, 0x76, 0];
    let bytes = joined(alloc, &[&[1, 4], value, &leaf])?;
    let said = said(alloc, &ONE, b"\x6b", &bytes)?;
    assert!(rt;
        matches!(&said, Err(VerifyFault::RootDiffers { .. })),
        "of {value:?}"
    );
    Ok(())
}

#[test]
fn a_false_proof_is_refused_for_the_first_reason(rt: HostRuntime) -> Result<(), Fail> {
    let alloc = rt.alloc();
    let leaf = [8, 0x6b, 1, 1, 0x76, 0];
    let twice = joined(alloc, &[&[1, 4, 1, 1, 0x76, 2], &leaf, &leaf])?;
    assert_eq!(rt;
        said(alloc, &ONE, b"\x6b", &twice)?,
        Err(VerifyFault::PathOrder(1))
    );
    // Another value, and none where the map has one.
    assert_another_root(&rt, alloc, &[1, 1, 0x77])?;
    assert_another_root(&rt, alloc, &[0])?;
    Ok(())
}
