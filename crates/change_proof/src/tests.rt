// Proofs of changes from the map {0a: 61} to {0a: 61, 0b: 63}, made and checked. Bytes and roots are written out,
// with hashes that another program made of the bytes named beside them.
ghost use Rattle.std.specs.Prelude.{◌≡◌, ◌<◌, IfOk};
ghost use Rattle.trie_model.specs.Maps.{limits};
ghost use Rattle.range_model.specs.Ranges.{IsRange};

use crate::{prove, verify};
use bit_keys::{Branch, Id, Range};
use change_history::Taken;
use mdb_base::Change;
use node_table::TableSource;
use proof_check::{ChangeProof, VerifyFault};
use std::alloc::Global;
use std::marker::Brand;
use std::process::Abort;
use std::sync::ledger::{Blank, Ledger};
use std::test::Fail;
use trie_items::Steps;

// SHA-256 of 00 01 01 61 08 0a, which is the root of the former map.
const ID_0A: Id = [
    0x00, 0xd3, 0x8d, 0xf2, 0x53, 0xfa, 0x5c, 0xbf, 0xd7, 0x4a, 0xa8, 0x8e, 0x54, 0x7e, 0xfb, 0xbf,
    0xaa, 0x1c, 0xcd, 0x15, 0xbb, 0xf7, 0x41, 0xcb, 0x6b, 0x26, 0x29, 0xe4, 0x60, 0x73, 0x21, 0x70,
];
// SHA-256 of 00 01 01 63 08 0b.
const ID_0B: Id = [
    0x0e, 0xa5, 0x59, 0x98, 0x8c, 0xd1, 0x23, 0xb9, 0x00, 0x6b, 0x4e, 0x62, 0xbc, 0x8a, 0xee, 0xd4,
    0x20, 0x31, 0x4f, 0xdc, 0xe3, 0x12, 0x08, 0x57, 0x91, 0xb5, 0xba, 0x5a, 0x52, 0xed, 0x3b, 0xd7,
];
// The root of the later map: SHA-256 of 02, 0a, the first ID, 0b, the second ID, 00 04 00.
const ROOT: Id = [
    0x4a, 0xcb, 0x73, 0x87, 0xd9, 0xa0, 0x2f, 0xee, 0xa0, 0x21, 0x0d, 0x37, 0xa9, 0x75, 0xd0, 0x28,
    0xdb, 0x32, 0x9e, 0x55, 0x96, 0x8f, 0xbc, 0x7d, 0xea, 0x53, 0x51, 0x51, 0xe0, 0xa7, 0x28, 0x44,
];

type Bounds<'a> = (Option<&'a [u8]>, Option<&'a [u8]>);

/// Keys of one byte with values of one byte.
type Listed<'a> = &'a [(u8, u8)];

const FORMER: Listed<'static> = &[(0x0a, 0x61)];

const LATER: Listed<'static> = &[(0x0a, 0x61), (0x0b, 0x63)];

// The proof of the one change, for all keys.
const ONE: [u8; 11] = [1, 2, 0, 1, 1, 0x0b, 1, 1, 0x63, 0, 0];

fn joined(alloc: Global, pieces: &[&[u8]]) -> Result<Vec<u8>, Fail> {
    let mut bytes = Vec::new(alloc);
    for piece in pieces {
        bytes.extend_from_slice(piece)?;
    }
    Ok(bytes)
}

// The nodes of the later map on the way to 0b.
fn path(alloc: Global) -> Result<Vec<u8>, Fail> {
    joined(
        alloc,
        &[
            &[2, 4, 0, 0, 2, 0x0a],
            &ID_0A,
            &[0x0b],
            &ID_0B,
            &[8, 0x0b, 1, 1, 0x63, 0],
        ],
    )
}

fn copied(alloc: Global, bound: Option<&[u8]>) -> Result<Option<Vec<u8>>, Fail> {
    match bound {
        Some(bytes) => Ok(Some(Vec::from_slice(alloc, bytes)?)),
        None => Ok(None),
    }
}

fn range_of(alloc: Global, bounds: Bounds<'_>) -> Result<Range, Fail>
    ensures { IfOk result (IsRange limits) }
{
    let start = copied(alloc, bounds.0)?;
    let end = copied(alloc, bounds.1)?;
    match Range::new(start, end) {
        Some(range) => Ok(range),
        None => Err("no range".into()),
    }
}

fn source_of(alloc: Global, pairs: Listed<'_>) -> Result<TableSource, Fail> {
    let mut kept = Vec::new(alloc);
    for (key, value) in pairs {
        kept.push((
            Vec::from_slice(alloc, &[*key])?,
            Vec::from_slice(alloc, &[*value])?,
        ))?;
    }
    let source = TableSource::of_pairs(alloc, Branch::B16, kept)?;
    Ok(source.ok_or("pairs out of order")?)
}

// The bytes of the proof of a put of 63 at 0b, in a range.
fn proved(alloc: Global, bounds: Bounds<'_>, cut: bool) -> Result<Vec<u8>, Fail> {
    let mut source = source_of(alloc, LATER)?;
    if source.branch != Branch::B16 {
        return Err("another branch".into());
    }
    let range = range_of(alloc, bounds)?;
    let mut changes = Vec::new(alloc);
    changes.push(Change {
        key: Vec::from_slice(alloc, &[0x0b])?,
        value: Some(Vec::from_slice(alloc, &[0x63])?),
    })?;
    let taken = Taken { changes, cut };
    let mut out = Vec::new(alloc);
    prove(alloc, &mut source, Branch::B16, &range, taken)?.encode(&mut out)?;
    Ok(out)
}

// What is said of these bytes as a proof of changes in a range, by one who has these pairs.
fn verdict<L: Ledger>(
    alloc: Global,
    root: &Id,
    bounds: Bounds<'_>,
    local: Listed<'_>,
    bytes: &[u8],
    blank: Blank,
) -> Result<Result<(), VerifyFault>, Fail>
    requires name { blank.name ≡ L.name }
    requires parts { blank.parts ≡ L.parts }
    requires some { 0 < blank.parts }
{
    let proof = ChangeProof::decode(alloc, bytes, Branch::B16)?;
    let range = range_of(alloc, bounds)?;
    let mut source = source_of(alloc, local)?;
    let mut steps = Steps::<L>::new(blank);
    Ok(verify(
        alloc,
        Branch::B16,
        root,
        &range,
        &mut source,
        &proof,
        &mut steps,
    ))
}

fn said(
    alloc: Global,
    bounds: Bounds<'_>,
    local: Listed<'_>,
    bytes: &[u8],
) -> Result<Result<(), VerifyFault>, Fail> {
    verdict::<Brand>(alloc, &ROOT, bounds, local, bytes, Blank::new(1))
}

#[test]
fn proofs_are_made_byte_for_byte_and_accepted_by_one_who_has_the_former_map(
    rt: HostRuntime,
) -> Result<(), Fail> {
    let alloc = rt.alloc();
    let path = path(alloc)?;
    let all = (None, None);
    assert_eq!(rt; proved(alloc, all, false)?, joined(alloc, &[&ONE])?);
    assert_eq!(rt; said(alloc, all, FORMER, &ONE)?, Ok(()));
    // Of a list that is cut the last key has a path.
    let cut = joined(alloc, &[&[1, 2, 1, 1, 1, 0x0b, 1, 1, 0x63, 0], &path])?;
    assert_eq!(rt; proved(alloc, all, true)?, cut);
    assert_eq!(rt; said(alloc, all, FORMER, &cut)?, Ok(()));
    let from = (Some(b"\x0b".as_slice()), None);
    let bounded = joined(alloc, &[&[1, 2, 0, 1, 1, 0x0b, 1, 1, 0x63], &path, &[0]])?;
    assert_eq!(rt; proved(alloc, from, false)?, bounded);
    assert_eq!(rt; said(alloc, from, FORMER, &bounded)?, Ok(()));
    Ok(())
}

#[test]
fn a_false_proof_is_refused_for_the_first_reason(rt: HostRuntime) -> Result<(), Fail> {
    let alloc = rt.alloc();
    let all = (None, None);
    let missing = VerifyFault::RootDiffers {
        have: ID_0A,
        want: ROOT,
    };
    let rows: [(Bounds<'_>, Listed<'_>, &[u8], VerifyFault); 6] = [
        // It says that nothing changes.
        (all, FORMER, &[1, 2, 0, 0, 0, 0], missing),
        // The key has the value already.
        (all, LATER, &ONE, VerifyFault::Idle(0)),
        // A key is deleted that is not there.
        (
            all,
            FORMER,
            &[1, 2, 0, 1, 1, 0x0b, 0, 0, 0],
            VerifyFault::Idle(0),
        ),
        // A key is deleted that is there: no key is left.
        (
            all,
            FORMER,
            &[1, 2, 0, 1, 1, 0x0a, 0, 0, 0],
            VerifyFault::RootDiffers {
                have: [0; 32],
                want: ROOT,
            },
        ),
        // Two changes of one key.
        (
            all,
            FORMER,
            &[1, 2, 0, 2, 1, 0x0b, 0, 1, 0x0b, 0, 0, 0],
            VerifyFault::Unsorted(1),
        ),
        // A change that was not asked for.
        (
            (None, Some(b"\x0a".as_slice())),
            FORMER,
            &ONE,
            VerifyFault::Outside(0),
        ),
    ];
    for (bounds, local, bytes, fault) in rows {
        let told = said(alloc, bounds, local, bytes)?;
        assert_eq!(rt; told, Err(fault), "of {bytes:?}");
    }
    Ok(())
}
