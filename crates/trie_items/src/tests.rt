mod items;

ghost use Rattle.std.specs.Prelude.{◌≡◌, ◌<◌};

use crate::{ChildId, Digest, Steps, id_of, node_string, value_digest};
use bit_keys::{Id, Key};
use sha2::{Digest as Hasher, Sha256};
use std::alloc::Global;
use std::marker::Brand;
use std::process::Abort;
use std::sync::ledger::{Blank, Ledger};
use std::test::Fail;

// The ID, for a test that counts nothing.
fn uncounted_id<L: Ledger>(
    key: &Key,
    digest: Option<&Digest>,
    children: &[ChildId],
    blank: Blank,
) -> Id
    requires name { blank.name ≡ L.name }
    requires parts { blank.parts ≡ L.parts }
    requires some { 0 < blank.parts }
{
    let mut steps = Steps::<L>::new(blank);
    id_of(key, digest, children, &mut steps)
}

// The first bits of a key.
fn key_of(alloc: Global, bytes: &[u8], bits: u64) -> Result<Key, Fail> {
    let key = Key::from_bytes(alloc, bytes)?;
    if bits > key.bits() {
        return Err(Fail::new("the key is shorter"));
    }
    Ok(key.first(alloc, bits)?)
}

// That a node's string is the one given, behind what was there, and that its ID is the SHA-256 of it.
fn assert_hashed(
    rt: &impl Abort,
    alloc: Global,
    key: &Key,
    value: Option<&[u8]>,
    children: &[ChildId],
    want: &[u8],
) -> Result<(), Fail> {
    let digest = match value {
        Some(value) => Some(value_digest(value)),
        None => None,
    };
    let mut out = [0xaa].to_vec(alloc)?;
    node_string(key, digest.as_ref(), children, &mut out)?;
    let mut behind = [0xaa].to_vec(alloc)?;
    behind.extend_from_slice(want)?;
    assert_eq!(rt; out.as_slice(), behind.as_slice());
    let id = uncounted_id::<Brand>(key, digest.as_ref(), children, Blank::new(1));
    assert_eq!(rt; id, Sha256::digest(want), "for {want:?}");
    Ok(())
}

const FIRST: Id = *b"11111111111111111111111111111111";

const SECOND: Id = *b"22222222222222222222222222222222";

const LOW: [ChildId; 2] = [
    ChildId {
        index: 2,
        id: FIRST,
    },
    ChildId {
        index: 3,
        id: SECOND,
    },
];

const FAR: [ChildId; 2] = [
    ChildId {
        index: 0,
        id: FIRST,
    },
    ChildId {
        index: 200,
        id: SECOND,
    },
];

// No value, one of a byte, of none, of 31 bytes, and of 32, which is not taken literally; and two children at four
// bits, and at 128 bits with an index above 127.
#[test]
fn a_node_is_hashed_as_its_pieces_in_order(rt: HostRuntime) -> Result<(), Fail> {
    let alloc = rt.alloc();
    let rows: [(&[u8], u64, Option<&[u8]>, &[ChildId], &[u8]); 7] = [
        (b"", 0, None, &[], b"\x00\x00\x00"),
        (b"k", 8, Some(b"v"), &[], b"\x00\x01\x01v\x08k"),
        (b"k", 8, Some(b""), &[], b"\x00\x01\x00\x08k"),
        (
            b"k",
            8,
            Some(b"aaaaaaaaaaaaaaaaaaaaaaaaaaaaaaa"),
            &[],
            b"\x00\x01\x1faaaaaaaaaaaaaaaaaaaaaaaaaaaaaaa\x08k",
        ),
        (
            b"k",
            8,
            Some(b"aaaaaaaaaaaaaaaaaaaaaaaaaaaaaaaa"),
            &[],
            b"\x00\x01\x20;\xa3\xf5\xf4;\x92`&\x83\xc1\x9a\xeeb\xa2\x03B\xb0\x84\xddYq\xdd\xd38\x08\xd8\x1a2\x88y\xa5G\x08k",
        ),
        (
            b"\x12",
            4,
            None,
            &LOW,
            b"\x02\x0211111111111111111111111111111111\x0322222222222222222222222222222222\x00\x04\x10",
        ),
        (
            b"ZZZZZZZZZZZZZZZZ",
            128,
            Some(b"v"),
            &FAR,
            b"\x02\x0011111111111111111111111111111111\xc8\x0122222222222222222222222222222222\x01\x01v\x80\x01ZZZZZZZZZZZZZZZZ",
        ),
    ];
    for (bytes, bits, value, children, want) in rows {
        let key = key_of(alloc, bytes, bits)?;
        assert_hashed(&rt, alloc, &key, value, children, want)?;
    }
    Ok(())
}
