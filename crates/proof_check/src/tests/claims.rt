ghost use Rattle.std.specs.Prelude.{◌≡◌, ◌<◌};
ghost use Rattle.proof_check.specs.Claims.{claim_of, IsCheckable};

use crate::{Claim, Entry, PointProof, VerifyFault, check};
use bit_keys::{Branch, Id, Range};
use sha2::{Digest as Hasher, Sha256};
use std::alloc::Global;
use std::marker::Brand;
use std::sync::ledger::{Blank, Ledger};
use std::test::Fail;
use trie_items::Steps;

// The hash of the node of a key of one byte that is its own value.
fn leaf(key: u8) -> Id {
    Sha256::digest(&[0, 1, 1, key, 8, key])
}

fn joined(alloc: Global, pieces: &[&[u8]]) -> Result<Vec<u8>, Fail> {
    let mut bytes = Vec::new(alloc);
    for piece in pieces {
        bytes.extend_from_slice(piece)?;
    }
    Ok(bytes)
}

// The nodes of {10: 10, 12: 12, 13: 13, 20: 20, 34: 34}, with tokens of four bits, as they stand in paths.
#[derive(Drop)]
struct Nodes {
    root: Id,
    /// What the root would be without 13.
    without: Id,
    top: Vec<u8>,
    /// The top node with the ID of another child.
    other_top: Vec<u8>,
    /// The node of the first token 1.
    fork: Vec<u8>,
}

fn top_of(alloc: Global, first: &Id) -> Result<Vec<u8>, Fail> {
    joined(
        alloc,
        &[&[3, 1], first, &[2], &leaf(0x20), &[3], &leaf(0x34)],
    )
}

fn worked_nodes(alloc: Global) -> Result<Nodes, Fail> {
    let two = joined(alloc, &[&[0], &leaf(0x10), &[2], &leaf(0x12)])?;
    let three = joined(alloc, &[&[3], &two, &[3], &leaf(0x13)])?;
    let id = Sha256::digest(&joined(alloc, &[&three, &[0, 4, 0x10]])?);
    let without = Sha256::digest(&joined(alloc, &[&[2], &two, &[0, 4, 0x10]])?);
    let top = top_of(alloc, &id)?;
    let other = top_of(alloc, &without)?;
    Ok(Nodes {
        root: Sha256::digest(&joined(alloc, &[&top, &[0, 0]])?),
        without: Sha256::digest(&joined(alloc, &[&other, &[0, 0]])?),
        top: joined(alloc, &[&[0, 0], &top])?,
        other_top: joined(alloc, &[&[0, 0], &other])?,
        fork: joined(alloc, &[&[4, 0x10, 0], &three])?,
    })
}

// The verdict on a claim, for a test that counts nothing.
fn verdict<L: Ledger>(
    alloc: Global,
    claim: &Claim,
    root: &Id,
    blank: Blank,
) -> Result<(), VerifyFault>
    requires name { blank.name ≡ L.name }
    requires parts { blank.parts ≡ L.parts }
    requires some { 0 < blank.parts }
    requires claim { IsCheckable 4 claim.now.reached.now (claim_of claim.now) }
{
    let mut steps = Steps::<L>::new(blank);
    check(alloc, Branch::B16, claim.reached, root, claim, &mut steps)
}

// Pairs of one byte, each its own value.
fn entries_of(alloc: Global, keys: &[u8]) -> Result<Vec<Entry<'_>>, Fail> {
    let mut entries = Vec::new(alloc);
    for at in 0..keys.len() {
        let byte = &keys[at..at + 1];
        entries.push(Entry {
            key: byte,
            value: byte,
        })?;
    }
    Ok(entries)
}

// The verdict on keys and paths of the range from 12 to 20.
fn checked(
    alloc: Global,
    root: &Id,
    keys: &[u8],
    start: &[u8],
    end: &[u8],
) -> Result<Result<(), VerifyFault>, Fail> {
    let entries = entries_of(alloc, keys)?;
    let start = PointProof::decode(alloc, start, Branch::B16)?;
    let end = PointProof::decode(alloc, end, Branch::B16)?;
    let first = Vec::from_slice(alloc, &[0x12])?;
    let last = Vec::from_slice(alloc, &[0x20])?;
    let Some(range) = Range::new(Some(first), Some(last)) else {
        return Ok(Err(VerifyFault::Failed));
    };
    let claim = Claim {
        reached: &range,
        entries: &entries,
        start: &start.path,
        end: &end.path,
    };
    Ok(verdict::<Brand>(alloc, &claim, root, Blank::new(1)))
}

#[test]
fn a_claim_is_accepted_or_its_first_fault_is_told(rt: HostRuntime) -> Result<(), Fail> {
    let alloc = rt.alloc();
    let nodes = worked_nodes(alloc)?;
    let want = nodes.root;
    let have = nodes.without;
    let first = [8, 0x12, 1, 1, 0x12, 0];
    let last = [8, 0x20, 1, 1, 0x20, 0];
    let start = joined(alloc, &[&[1, 4, 0, 3], &nodes.top, &nodes.fork, &first])?;
    let end = joined(alloc, &[&[1, 4, 0, 2], &nodes.top, &last])?;
    let doubled = joined(alloc, &[&[1, 4, 0, 2], &nodes.top, &nodes.top])?;
    let other = joined(alloc, &[&[1, 4, 0, 2], &nodes.other_top, &last])?;
    let rows: [(&[u8], &[u8], &[u8], Result<(), VerifyFault>); 8] = [
        (&[0x12, 0x13, 0x20], &start, &end, Ok(())),
        (&[0x12, 0x12], &doubled, &end, Err(VerifyFault::Unsorted(1))),
        (
            &[0x12, 0x20, 0x13],
            &start,
            &end,
            Err(VerifyFault::Unsorted(2)),
        ),
        (
            &[0x12, 0x20, 0x21],
            &doubled,
            &end,
            Err(VerifyFault::Outside(2)),
        ),
        (&[], &doubled, &other, Err(VerifyFault::PathOrder(1))),
        (&[], &start, &doubled, Err(VerifyFault::PathOrder(4))),
        (&[], &start, &other, Err(VerifyFault::PathsDiffer(3))),
        (
            &[0x12, 0x20],
            &start,
            &end,
            Err(VerifyFault::RootDiffers { have, want }),
        ),
    ];
    for (keys, start, end, told) in rows {
        let verdict = checked(alloc, &want, keys, start, end)?;
        assert_eq!(rt; verdict, told);
    }
    Ok(())
}
