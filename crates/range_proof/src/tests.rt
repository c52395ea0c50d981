// Proofs of ranges of the map {0a: 61, 0b: 62}, made and checked. Bytes and roots are written out, with hashes
// that another program made of the bytes named beside them.
ghost use Rattle.std.specs.Prelude.{◌≡◌, ◌<◌, IfOk};
ghost use Rattle.trie_model.specs.Maps.{limits};
ghost use Rattle.range_model.specs.Ranges.{IsRange};

use crate::{prove, verify};
use bit_keys::{Branch, Id, Range};
use node_table::TableSource;
use proof_check::{RangeProof, VerifyFault};
use std::alloc::Global;
use std::marker::Brand;
use std::process::Abort;
use std::sync::ledger::{Blank, Ledger};
use std::test::Fail;
use trie_items::Steps;

// SHA-256 of 00 01 01 61 08 0a.
const ID_0A: Id = [
    0x00, 0xd3, 0x8d, 0xf2, 0x53, 0xfa, 0x5c, 0xbf, 0xd7, 0x4a, 0xa8, 0x8e, 0x54, 0x7e, 0xfb, 0xbf,
    0xaa, 0x1c, 0xcd, 0x15, 0xbb, 0xf7, 0x41, 0xcb, 0x6b, 0x26, 0x29, 0xe4, 0x60, 0x73, 0x21, 0x70,
];
// SHA-256 of 00 01 01 62 08 0b.
const ID_0B: Id = [
    0x9d, 0x40, 0xdb, 0xe5, 0x2f, 0x0b, 0xa9, 0x69, 0xc6, 0x5b, 0x47, 0x36, 0xbc, 0x11, 0xaa, 0xda,
    0x91, 0xc0, 0xd5, 0x03, 0xf1, 0xd1, 0xc4, 0xd1, 0xaf, 0x62, 0xec, 0xfc, 0xb3, 0x93, 0xc1, 0xe4,
];
// The root: SHA-256 of 02, 0a, the first ID, 0b, the second ID, 00 04 00.
const ROOT: Id = [
    0x64, 0x65, 0x36, 0x53, 0x21, 0x1c, 0xed, 0xc5, 0xbb, 0x2d, 0x1c, 0xac, 0x77, 0xa3, 0xab, 0xfd,
    0xc2, 0xab, 0x40, 0xc9, 0xda, 0x2f, 0xa9, 0xa9, 0x86, 0xd1, 0xdb, 0x86, 0x42, 0xb9, 0xfb, 0x6c,
];

type Bounds<'a> = (Option<&'a [u8]>, Option<&'a [u8]>);

fn joined(alloc: Global, pieces: &[&[u8]]) -> Result<Vec<u8>, Fail> {
    let mut bytes = Vec::new(alloc);
    for piece in pieces {
        bytes.extend_from_slice(piece)?;
    }
    Ok(bytes)
}

// The nodes on the way to 0a, and to keys that it begins.
fn path(alloc: Global) -> Result<Vec<u8>, Fail> {
    joined(
        alloc,
        &[
            &[2, 4, 0, 0, 2, 0x0a],
            &ID_0A,
            &[0x0b],
            &ID_0B,
            &[8, 0x0a, 1, 1, 0x61, 0],
        ],
    )
}

fn copied(alloc: Global, bound: Option<&[u8]>) -> Result<Option<Vec<u8>>, Fail> {
    match bound {
        Some(bytes) => Ok(Some(Vec::from_slice(alloc, bytes)?)),
        None => Ok(None),
    }
}

fn range_of(alloc: Global, bounds: Bounds<'_>) -> Result<Range, Fail>
    ensures { IfOk result (IsRange limits) }
{
    let start = copied(alloc, bounds.0)?;
    let end = copied(alloc, bounds.1)?;
    match Range::new(start, end) {
        Some(range) => Ok(range),
        None => Err("no range".into()),
    }
}

// The bytes of the proof of a range, where ten pairs and so many bytes are allowed.
fn proved(alloc: Global, bounds: Bounds<'_>, bytes: u32) -> Result<Vec<u8>, Fail> {
    let mut kept = Vec::new(alloc);
    for (key, value) in [(0x0a, b'a'), (0x0b, b'b')] {
        kept.push((
            Vec::from_slice(alloc, &[key])?,
            Vec::from_slice(alloc, &[value])?,
        ))?;
    }
    let source = TableSource::of_pairs(alloc, Branch::B16, kept)?;
    let mut source = source.ok_or("pairs out of order")?;
    if source.branch != Branch::B16 {
        return Err("another branch".into());
    }
    let range = range_of(alloc, bounds)?;
    let mut out = Vec::new(alloc);
    prove(alloc, &mut source, Branch::B16, &range, 10, bytes)?.encode(&mut out)?;
    Ok(out)
}

// What is said of these bytes as a proof of a range.
fn verdict<L: Ledger>(
    alloc: Global,
    root: &Id,
    bounds: Bounds<'_>,
    bytes: &[u8],
    blank: Blank,
) -> Result<Result<(), VerifyFault>, Fail>
    requires name { blank.name ≡ L.name }
    requires parts { blank.parts ≡ L.parts }
    requires some { 0 < blank.parts }
{
    let proof = RangeProof::decode(alloc, bytes, Branch::B16)?;
    let range = range_of(alloc, bounds)?;
    let mut steps = Steps::<L>::new(blank);
    Ok(verify(alloc, Branch::B16, root, &range, &proof, &mut steps))
}

fn said(
    alloc: Global,
    root: &Id,
    bounds: Bounds<'_>,
    bytes: &[u8],
) -> Result<Result<(), VerifyFault>, Fail> {
    verdict::<Brand>(alloc, root, bounds, bytes, Blank::new(1))
}

// That a range has this proof, which is accepted against the root, and not against another.
fn assert_proof(
    rt: &impl Abort,
    alloc: Global,
    bounds: Bounds<'_>,
    bytes: u32,
    want: &[&[u8]],
) -> Result<(), Fail> {
    let proof = proved(alloc, bounds, bytes)?;
    assert_eq!(rt; proof, joined(alloc, want)?, "of {bounds:?}");
    assert_eq!(rt;
        said(alloc, &ROOT, bounds, &proof)?,
        Ok(()),
        "of {bounds:?}"
    );
    let other = [0xff; 32];
    let differs = VerifyFault::RootDiffers {
        have: ROOT,
        want: other,
    };
    assert_eq!(rt;
        said(alloc, &other, bounds, &proof)?,
        Err(differs),
        "of {bounds:?}"
    );
    Ok(())
}

#[test]
fn proofs_are_made_byte_for_byte_and_accepted_against_the_root(
    rt: HostRuntime,
) -> Result<(), Fail> {
    let alloc = rt.alloc();
    let path = path(alloc)?;
    let both = [1, 1, 0, 2, 1, 0x0a, 1, 0x61, 1, 0x0b, 1, 0x62, 0, 0];
    assert_proof(&rt, alloc, (None, None), 100, &[&both])?;
    let only = (Some(b"\x0a".as_slice()), Some(b"\x0a".as_slice()));
    assert_proof(
        &rt,
        alloc,
        only,
        100,
        &[&[1, 1, 0, 1, 1, 0x0a, 1, 0x61], &path, &path],
    )?;
    let gap = (Some(b"\x0a\x01".as_slice()), Some(b"\x0a\x02".as_slice()));
    assert_proof(&rt, alloc, gap, 100, &[&[1, 1, 0, 0], &path, &path])?;
    // One byte is too few for a pair, and yet one is listed.
    assert_proof(
        &rt,
        alloc,
        (None, None),
        1,
        &[&[1, 1, 1, 1, 1, 0x0a, 1, 0x61, 0], &path],
    )?;
    Ok(())
}

#[test]
fn a_false_proof_is_refused_for_the_first_reason(rt: HostRuntime) -> Result<(), Fail> {
    let alloc = rt.alloc();
    let swapped = [1, 1, 0, 2, 1, 0x0b, 1, 0x62, 1, 0x0a, 1, 0x61, 0, 0];
    assert_eq!(rt;
        said(alloc, &ROOT, (None, None), &swapped)?,
        Err(VerifyFault::Unsorted(1))
    );
    // The pair up to which it says to tell was not asked for.
    let outside = [1, 1, 1, 1, 1, 0x0a, 1, 0x61, 0, 0];
    let behind = (Some(b"\x0b".as_slice()), None);
    assert_eq!(rt;
        said(alloc, &ROOT, behind, &outside)?,
        Err(VerifyFault::Outside(0))
    );
    let left_out = [1, 1, 0, 1, 1, 0x0a, 1, 0x61, 0, 0];
    let differs = VerifyFault::RootDiffers {
        have: ID_0A,
        want: ROOT,
    };
    assert_eq!(rt; said(alloc, &ROOT, (None, None), &left_out)?, Err(differs));
    Ok(())
}
