// A map of three keys in memory, looked up. The nodes are those of the worked table of `trie_model`.
ghost use Rattle.std.specs.Prelude.{◌≡◌, ◌<◌};

use crate::sizes::{behind, sizes_of};
use crate::{NodeTable, TableSource};
use bit_keys::{Branch, Id, Key};
use map_root::Builder;
use mdb_base::NoMemory;
use node_codec::{Child, Node};
use std::alloc::Global;
use std::marker::Brand;
use std::process::Abort;
use std::sync::ledger::{Blank, Ledger};
use std::test::Fail;
use trie_items::{NodeSource, Steps, value_digest};

// The root of {6b: 76}: SHA-256 of 00 01 01 76 08 6b.
const ONE: Id = [
    0x1e, 0x06, 0xa9, 0xa1, 0xd4, 0x55, 0xf9, 0x69, 0x8b, 0x60, 0xb6, 0x3f, 0x9d, 0x11, 0xdb, 0xed,
    0x46, 0xae, 0x35, 0xa8, 0x5b, 0x0d, 0x74, 0xfa, 0x5b, 0x05, 0x42, 0x3b, 0x34, 0x21, 0x78, 0x22,
];

fn source_of(alloc: Global, pairs: &[(&[u8], &[u8])]) -> Result<Option<TableSource>, Fail> {
    let mut kept = Vec::new(alloc);
    for (key, value) in pairs {
        kept.push((Vec::from_slice(alloc, key)?, Vec::from_slice(alloc, value)?))?;
    }
    Ok(TableSource::of_pairs(alloc, Branch::B16, kept)?)
}

// The number of a node's children, and the first of their indices.
fn shape(node: Option<Node>) -> Option<(usize, Option<u16>)> {
    let node = node?;
    let first = match node.children.as_slice() {
        [] => None,
        [child, ..] => Some(child.index),
    };
    Some((node.children.len(), first))
}

fn assert_node(
    rt: &impl Abort,
    alloc: Global,
    source: &mut TableSource,
    bits: u64,
    byte: u8,
    want: Option<(usize, Option<u16>)>,
) -> Result<(), Fail> {
    let key = Key::from_bytes(alloc, &[byte])?.first(alloc, bits.min(8))?;
    assert!(rt;
        shape(source.node(alloc, &key)?) == want,
        "at {byte} {bits}"
    );
    let shown = source.shown(alloc, &key, None)?;
    assert!(rt;
        shown.map(|node| node.children.len()) == want.map(|(count, _first)| count),
        "shown at {byte} {bits}"
    );
    Ok(())
}

// The number of bits of the rest that is shown of the root node's child at a token.
fn rest_below_root(
    alloc: Global,
    source: &mut TableSource,
    token: u16,
) -> Result<Option<u64>, Fail> {
    let root = source.root_key(alloc)?.ok_or("no root")?;
    let node = source.shown(alloc, &root, Some(token))?.ok_or("no node")?;
    Ok(node.rest.map(|rest| rest.bits()))
}

#[test]
fn nodes_and_pairs_are_found_by_their_keys(rt: HostRuntime) -> Result<(), Fail> {
    let alloc = rt.alloc();
    let pairs: [(&[u8], &[u8]); 3] = [(b"\x12", b"a"), (b"\x13", b"b"), (b"\x20", b"c")];
    let mut source = source_of(alloc, &pairs)?.ok_or("out of order")?;
    let root = source.root_key(alloc)?.ok_or("no root")?;
    assert_eq!(rt; root.bits(), 0);
    for (bits, byte, want) in [
        (0, 0x00, Some((2, Some(1)))),
        (4, 0x10, Some((2, Some(2)))),
        (8, 0x12, Some((0, None))),
        (8, 0x20, Some((0, None))),
        (4, 0x20, None),
        (8, 0x14, None),
    ] {
        assert_node(&rt, alloc, &mut source, bits, byte, want)?;
    }
    for (token, want) in [(1, Some(0)), (2, Some(4)), (3, None)] {
        let rest = rest_below_root(alloc, &mut source, token)?;
        assert!(rt; rest == want, "below {token}");
    }
    let value = source.value(alloc, b"\x13")?.ok_or("no value")?;
    assert!(rt; value.as_slice() == b"b".as_slice());
    assert!(rt; source.value(alloc, b"\x14")?.is_none());
    let next = source.next(alloc, b"\x13", true)?.ok_or("no next key")?;
    assert!(rt; next.as_slice() == b"\x20".as_slice());
    assert!(rt; source.next(alloc, b"\x21", false)?.is_none());
    Ok(())
}

#[test]
fn pairs_out_of_order_make_no_source(rt: HostRuntime) -> Result<(), Fail> {
    let alloc = rt.alloc();
    let twice: [(&[u8], &[u8]); 2] = [(b"\x12", b"a"), (b"\x12", b"b")];
    assert!(rt; source_of(alloc, &twice)?.is_none());
    let long: [(&[u8], &[u8]); 1] = [(&[0; 257], b"")];
    assert!(rt; source_of(alloc, &long)?.is_none());
    let mut empty = source_of(alloc, &[])?.ok_or("no empty map")?;
    assert!(rt; empty.root_key(alloc)?.is_none());
    Ok(())
}

// A node of so many children, whose rests and IDs do not matter.
fn node_of(alloc: Global, count: u16) -> Result<Node, Fail> {
    let mut children = Vec::new(alloc);
    for index in 0..count {
        let rest = Key::from_bytes(alloc, &[])?;
        children.push(Child {
            index,
            rest,
            id: ONE,
            has_value: true,
        })?;
    }
    Ok(Node {
        digest: None,
        children,
    })
}

#[test]
fn a_node_takes_its_row_and_those_below_it(rt: HostRuntime) -> Result<(), Fail> {
    let alloc = rt.alloc();
    // A root of two children, the first of which has two as well.
    let mut rows = Vec::new(alloc);
    for (byte, children) in [(0, 2), (1, 2), (2, 0), (3, 0), (4, 0)] {
        let key = Key::from_bytes(alloc, &[byte])?;
        rows.push((key, node_of(alloc, children)?))?;
    }
    let sizes = sizes_of(alloc, rows.as_slice())?;
    assert_eq!(rt; sizes.as_slice(), [5, 3, 1, 1, 1].as_slice());
    assert_eq!(rt; behind(sizes.as_slice(), 1), 4);
    Ok(())
}

// The root and the table of {6b: 76}.
fn one_key_table<L: Ledger>(alloc: Global, blank: Blank) -> Result<(Id, NodeTable), NoMemory>
    requires name { blank.name ≡ L.name }
    requires parts { blank.parts ≡ L.parts }
    requires some { 0 < blank.parts }
{
    let mut steps = Steps::<L>::new(blank);
    let mut builder = Builder::new(alloc, Branch::B16);
    builder.add(b"\x6b", value_digest(b"v"))?;
    NodeTable::of_builder(alloc, builder, &mut steps)
}

#[test]
fn a_builder_gives_its_root_and_its_table(rt: HostRuntime) -> Result<(), Fail> {
    let alloc = rt.alloc();
    let (root, table) = one_key_table::<Brand>(alloc, Blank::new(1))?;
    assert_eq!(rt; root, ONE);
    let key = table.root_key().ok_or("no root")?;
    assert_eq!(rt; key.bytes(), b"\x6b".as_slice());
    assert!(rt; table.node(alloc, key)?.is_some());
    Ok(())
}
