use crate::{Child, Digest, Node, NodeFault, decode, encode};
use bit_keys::Branch;
use std::alloc::Global;
use std::process::Abort;
use std::test::Fail;

fn pieces(alloc: Global, pieces: &[&[u8]]) -> Result<Vec<u8>, Fail> {
    let mut bytes = Vec::new(alloc);
    for piece in pieces {
        bytes.extend_from_slice(piece)?;
    }
    Ok(bytes)
}

#[test]
fn bytes_outside_the_grammar_are_refused_at_their_first_such_field(
    rt: HostRuntime,
) -> Result<(), Fail> {
    let alloc = rt.alloc();
    let id = [0x5a; 32];
    let cut = pieces(alloc, &[&[0, 1, 2, 0], &id[..31]])?;
    let two = pieces(alloc, &[&[0, 2, 2, 0], &id, &[1, 2]])?;
    let lower = pieces(alloc, &[&[0, 2, 2, 0], &id, &[1, 1]])?;
    let flag = pieces(alloc, &[&[0, 1, 2, 0], &id, &[2]])?;
    let rows: [(&[u8], NodeFault); 16] = [
        (&[], NodeFault::Short(0)),
        (&[1, 1], NodeFault::Short(2)),
        (&cut, NodeFault::Short(4)),
        (&[2], NodeFault::BadFlag(0)),
        (&flag, NodeFault::BadFlag(36)),
        (&[0], NodeFault::BadVarint(1)),
        (&[0, 0x80, 0], NodeFault::BadVarint(1)),
        (&[1, 0x21], NodeFault::LongDigest(1)),
        (&[0, 1, 0x10], NodeFault::Index(2)),
        (&[0, 1, 2, 3], NodeFault::Rest(3)),
        // The number of bits is 2,052.
        (&[0, 1, 2, 0x84, 0x10], NodeFault::Rest(3)),
        // It is 2,048, the most that there may be, and no bits follow.
        (&[0, 1, 2, 0x80, 0x10], NodeFault::Short(5)),
        (&[0, 1, 2, 4, 0x15], NodeFault::Padding(4)),
        (&two, NodeFault::Order(37)),
        (&lower, NodeFault::Order(37)),
        (&[0, 0, 0], NodeFault::Trailing(2)),
    ];
    for (bytes, want) in rows {
        match decode(alloc, bytes, Branch::B16) {
            Ok(_) => assert!(rt; false, "{bytes:?} is read"),
            Err(fault) => assert_eq!(rt; fault, want, "for {bytes:?}"),
        }
    }
    assert!(rt; Digest::new(&[7; 33]).is_none());
    Ok(())
}

/// Of a child its index, the bits of its rest, and whether it has a value.
type ChildRow = (u16, u64, bool);

fn assert_children(
    rt: &impl Abort,
    children: &[Child],
    rows: &[ChildRow],
    id: &[u8; 32],
) -> Result<(), Fail> {
    assert_eq!(rt; children.len(), rows.len());
    for (child, (index, rest, has_value)) in children.iter().zip(rows) {
        assert_eq!(rt; child.index, *index);
        assert_eq!(rt; child.rest.bits(), *rest);
        assert_eq!(rt; child.id, *id);
        assert_eq!(rt; child.has_value, *has_value);
    }
    Ok(())
}

fn assert_written(rt: &impl Abort, alloc: Global, node: &Node, bytes: &[u8]) -> Result<(), Fail> {
    let mut out = pieces(alloc, &[&[0xaa]])?;
    encode(&node.copy(alloc)?, &mut out)?;
    let want = pieces(alloc, &[&[0xaa], bytes])?;
    assert_eq!(rt; out.as_slice(), want.as_slice());
    Ok(())
}

fn assert_no_prefix_is_read(
    rt: &impl Abort,
    alloc: Global,
    bytes: &[u8],
    branch: Branch,
) -> Result<(), Fail> {
    for end in 0..bytes.len() {
        let read = decode(alloc, &bytes[..end], branch).is_ok();
        assert!(rt; !read, "the first {end} bytes are a node");
    }
    Ok(())
}

#[test]
fn nodes_are_read_and_written_as_they_stand_and_no_prefix_is_one(
    rt: HostRuntime,
) -> Result<(), Fail> {
    let alloc = rt.alloc();
    let id = [0xc3; 32];
    let empty = pieces(alloc, &[&[0, 0]])?;
    let hash = pieces(alloc, &[&[1, 32], &id, &[0]])?;
    let fork = pieces(alloc, &[&[0, 2, 2, 0], &id, &[1, 3, 0], &id, &[1]])?;
    let odd = pieces(
        alloc,
        &[
            &[1, 2, 0x61, 0x62, 2, 0, 5, 0xa8],
            &id,
            &[0, 1, 3, 0xe0],
            &id,
            &[1],
        ],
    )?;
    let wide = pieces(
        alloc,
        &[
            &[1, 0, 2, 7, 16, 0x12, 0x34],
            &id,
            &[0, 0xc8, 1, 8, 0xff],
            &id,
            &[1],
        ],
    )?;
    let rows: [(&[u8], Branch, Option<&[u8]>, &[ChildRow]); 5] = [
        (&empty, Branch::B2, None, &[]),
        (&hash, Branch::B4, Some(&id), &[]),
        (&fork, Branch::B16, None, &[(2, 0, true), (3, 0, true)]),
        (
            &odd,
            Branch::B2,
            Some(b"ab"),
            &[(0, 5, false), (1, 3, true)],
        ),
        (
            &wide,
            Branch::B256,
            Some(&[]),
            &[(7, 16, false), (200, 8, true)],
        ),
    ];
    for (bytes, branch, digest, children) in rows {
        let node = decode(alloc, bytes, branch).map_err(|_| "the bytes are a node")?;
        assert_eq!(rt; node.digest.as_ref().map(Digest::bytes), digest);
        assert_children(&rt, &node.children, children, &id)?;
        assert_written(&rt, alloc, &node, bytes)?;
        assert_no_prefix_is_read(&rt, alloc, bytes, branch)?;
    }
    Ok(())
}
