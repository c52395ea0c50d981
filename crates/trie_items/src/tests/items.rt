ghost use Rattle.std.specs.Prelude.{◌≡◌, ◌<◌, length};

use crate::{Item, ItemFault, ItemList, Steps, value_digest};
use bit_keys::{Branch, Id, Key};
use mdb_base::NoMemory;
use std::alloc::Global;
use std::marker::Brand;
use std::sync::ledger::{Blank, Ledger};
use std::test::Fail;

// Puts the value of one byte at a key.
fn add_value(alloc: Global, list: &mut ItemList, key: &[u8], value: u8) -> Result<(), ItemFault>
    requires { list.old.width ≡ 4 }
    ensures { list.new.width ≡ 4 }
{
    let Ok(key) = Key::from_bytes(alloc, key) else {
        return Err(ItemFault::NoMemory);
    };
    let digest = value_digest(&[value]);
    list.push(Item::Val { key, digest })
}

// Puts a stub in the slot of a key's bits.
fn add_stub(alloc: Global, list: &mut ItemList, key: &[u8], id: Id) -> Result<(), ItemFault>
    requires width { list.old.width ≡ 4 }
    requires some { 0 < length key.now }
    ensures { list.new.width ≡ 4 }
{
    let Ok(slot) = Key::from_bytes(alloc, key) else {
        return Err(ItemFault::NoMemory);
    };
    list.push(Item::Stub { slot, id })
}

fn add(
    alloc: Global,
    list: &mut ItemList,
    key: &[u8],
    value: u8,
    stub: Option<Id>,
) -> Result<(), ItemFault>
    requires width { list.old.width ≡ 4 }
    requires some { 0 < length key.now }
    ensures { list.new.width ≡ 4 }
{
    match stub {
        Some(id) => add_stub(alloc, list, key, id),
        None => add_value(alloc, list, key, value),
    }
}

// The root, for a test that counts nothing.
fn uncounted<L: Ledger>(alloc: Global, list: &ItemList, blank: Blank) -> Result<Id, NoMemory>
    requires name { blank.name ≡ L.name }
    requires parts { blank.parts ≡ L.parts }
    requires some { 0 < blank.parts }
{
    let mut steps = Steps::<L>::new(blank);
    list.root(alloc, &mut steps)
}

fn root(alloc: Global, list: &ItemList) -> Result<Id, NoMemory> {
    uncounted::<Brand>(alloc, list, Blank::new(1))
}

// The hash of the node of 61 at 0a, whose string is 00 01 01 61 08 0a.
const LEAF_A: Id = [
    0x00, 0xd3, 0x8d, 0xf2, 0x53, 0xfa, 0x5c, 0xbf, 0xd7, 0x4a, 0xa8, 0x8e, 0x54, 0x7e, 0xfb, 0xbf,
    0xaa, 0x1c, 0xcd, 0x15, 0xbb, 0xf7, 0x41, 0xcb, 0x6b, 0x26, 0x29, 0xe4, 0x60, 0x73, 0x21, 0x70,
];

// That of 62 at 0b.
const LEAF_B: Id = [
    0x9d, 0x40, 0xdb, 0xe5, 0x2f, 0x0b, 0xa9, 0x69, 0xc6, 0x5b, 0x47, 0x36, 0xbc, 0x11, 0xaa, 0xda,
    0x91, 0xc0, 0xd5, 0x03, 0xf1, 0xd1, 0xc4, 0xd1, 0xaf, 0x62, 0xec, 0xfc, 0xb3, 0x93, 0xc1, 0xe4,
];

// The root of these two.
const BOTH: Id = [
    0x64, 0x65, 0x36, 0x53, 0x21, 0x1c, 0xed, 0xc5, 0xbb, 0x2d, 0x1c, 0xac, 0x77, 0xa3, 0xab, 0xfd,
    0xc2, 0xab, 0x40, 0xc9, 0xda, 0x2f, 0xa9, 0xa9, 0x86, 0xd1, 0xdb, 0x86, 0x42, 0xb9, 0xfb, 0x6c,
];

// The root of the first with 63 at 1c.
const APART: Id = [
    0xd6, 0x8e, 0x0f, 0x41, 0x0b, 0x0c, 0xd3, 0xab, 0x85, 0xf5, 0xcc, 0x17, 0x67, 0x9b, 0xe4, 0xf6,
    0xf3, 0x28, 0x2a, 0xd9, 0xb2, 0xad, 0xb5, 0x4e, 0xd0, 0x57, 0x45, 0x5e, 0x88, 0x09, 0x0c, 0x5d,
];

// The same where a stub stands for the first: a node of one child stands above it.
const DEEP: Id = [
    0xa6, 0xf0, 0xa3, 0x45, 0x8f, 0x7e, 0xdb, 0x93, 0xca, 0x62, 0x15, 0x33, 0x3c, 0x6d, 0x01, 0xd0,
    0xf3, 0x84, 0x05, 0xe9, 0x85, 0x1d, 0x0d, 0xaa, 0x12, 0x2a, 0x0f, 0x8f, 0xbe, 0xdb, 0xed, 0x46,
];

// The root of a stub alone, for the second.
const ALONE: Id = [
    0xe3, 0x59, 0x19, 0x3d, 0x1e, 0x26, 0x7a, 0x33, 0xfc, 0xf4, 0x8b, 0x51, 0x16, 0xca, 0xc8, 0x02,
    0xdd, 0x2d, 0x37, 0xcb, 0xfd, 0x64, 0x35, 0x10, 0x06, 0x87, 0x9b, 0x89, 0x68, 0x87, 0xce, 0x86,
];

#[test]
fn a_root_is_hashed_from_values_and_stubs(rt: HostRuntime) -> Result<(), Fail> {
    let alloc = rt.alloc();
    for (first, key, value, second, want) in [
        (None, 0x0b, 0x62, None, BOTH),
        (None, 0x0b, 0x62, Some(LEAF_B), BOTH),
        (Some(LEAF_A), 0x0b, 0x62, Some(LEAF_B), BOTH),
        (None, 0x1c, 0x63, None, APART),
        (Some(LEAF_A), 0x1c, 0x63, None, DEEP),
    ] {
        let mut list = ItemList::new(alloc, Branch::B16);
        add(alloc, &mut list, &[0x0a], 0x61, first)?;
        add(alloc, &mut list, &[key], value, second)?;
        assert_eq!(rt; root(alloc, &list)?, want);
    }
    let mut list = ItemList::new(alloc, Branch::B16);
    assert_eq!(rt; root(alloc, &list)?, [0; 32]);
    add_stub(alloc, &mut list, &[0x0b], LEAF_B)?;
    assert_eq!(rt; root(alloc, &list)?, ALONE);
    let again = add_value(alloc, &mut list, &[0x0b], 0x62);
    assert_eq!(rt; again, Err(ItemFault::Order));
    Ok(())
}
