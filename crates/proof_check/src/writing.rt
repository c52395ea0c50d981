// How the parts of proofs are spelled. Where memory runs out, a part of the spelling stands behind
// what was there.
ghost use Rattle.std.specs.Prelude.{◌≡◌, ◌++◌, ◌∷◌, [], length, option_map, OnOk, OnErr};
ghost use Rattle.std.specs.List.{flat_map};
ghost use Rattle.std.specs.Option.{option_copied};
ghost use Rattle.base_model.specs.Bytes.{Grown};
ghost use Rattle.base_model.specs.Fields.{flag_form};
ghost use Rattle.batch_model.specs.Batch.{value_form, change_form};
ghost use Rattle.batch_model.specs.Sized.{sized_form};
ghost use Rattle.trie_model.specs.Hashing.{digest_form, key_form, child_form};
ghost use Rattle.proof_model.specs.Wire.{version, counted_form, node_form, path_form};
ghost use Rattle.proof_model.specs.RangeWire.{pair_form, pairs_form};
ghost use Rattle.trie_items.specs.Children.{children_of};

use crate::proof_node::ProofNode;
use crate::range::Pair;
use bit_keys::Key;
use mdb_base::{Change, NoMemory, write_uvarint};
use node_codec::Digest;
use trie_items::ChildId;

/// The first byte of each form.
pub(crate) const VERSION: u8 = 1;

/// The version and the kind.
pub(crate) fn write_head(kind: u8, out: &mut Vec<u8>) -> Result<(), NoMemory>
    ensures ok { OnOk result (out.new.items ≡ out.old.items ++ version ∷ kind ∷ []) }
    ensures err { OnErr result (Grown out.old.items out.new.items) }
{
    Ok(out.extend_from_slice(&[VERSION, kind])?)
}

/// A flag.
pub(crate) fn write_flag(flag: bool, out: &mut Vec<u8>) -> Result<(), NoMemory>
    ensures ok { OnOk result (out.new.items ≡ out.old.items ++ flag_form flag) }
    ensures err { OnErr result (out.new.items ≡ out.old.items) }
{
    Ok(out.push(u8::from(flag))?)
}

/// Bytes behind their length.
fn write_sized(bytes: &[u8], out: &mut Vec<u8>) -> Result<(), NoMemory>
    ensures ok { OnOk result (out.new.items ≡ out.old.items ++ sized_form bytes.now) }
    ensures err { OnErr result (Grown out.old.items out.new.items) }
{
    write_uvarint(out, bytes.len() as u64)?;
    Ok(out.extend_from_slice(bytes)?)
}

/// A flag, and where it is 1 bytes behind their length.
pub(crate) fn write_maybe(bytes: Option<&[u8]>, out: &mut Vec<u8>) -> Result<(), NoMemory>
    ensures ok { OnOk result (out.new.items ≡ out.old.items ++ value_form (option_copied bytes.entry)) }
    ensures err { OnErr result (Grown out.old.items out.new.items) }
{
    let Some(bytes) = bytes else {
        return Ok(out.push(0)?);
    };
    out.push(1)?;
    write_sized(bytes, out)
}

/// The number of pairs, and the pairs.
pub(crate) fn write_pairs(pairs: &[Pair], out: &mut Vec<u8>) -> Result<(), NoMemory>
    ensures ok { OnOk result (out.new.items ≡ out.old.items ++ pairs_form pairs.now) }
    ensures err { OnErr result (Grown out.old.items out.new.items) }
{
    write_uvarint(out, pairs.len() as u64)?;
    write_listed(pairs, out)
}

fn write_listed(pairs: &[Pair], out: &mut Vec<u8>) -> Result<(), NoMemory>
    ensures ok { OnOk result (out.new.items ≡ out.old.items ++ flat_map pair_form pairs.now) }
    ensures err { OnErr result (Grown out.old.items out.new.items) }
{
    for pair in pairs {
        write_pair(pair, out)?;
    }
    Ok(())
}

fn write_pair(pair: &Pair, out: &mut Vec<u8>) -> Result<(), NoMemory>
    ensures ok { OnOk result (out.new.items ≡ out.old.items ++ pair_form pair.now) }
    ensures err { OnErr result (Grown out.old.items out.new.items) }
{
    write_sized(&pair.key, out)?;
    write_sized(&pair.value, out)
}

/// The number of changes, and the changes.
pub(crate) fn write_changes(changes: &[Change], out: &mut Vec<u8>) -> Result<(), NoMemory>
    ensures ok { OnOk result (out.new.items ≡ out.old.items ++ counted_form change_form changes.now) }
    ensures err { OnErr result (Grown out.old.items out.new.items) }
{
    write_uvarint(out, changes.len() as u64)?;
    write_each(changes, out)
}

fn write_each(changes: &[Change], out: &mut Vec<u8>) -> Result<(), NoMemory>
    ensures ok { OnOk result (out.new.items ≡ out.old.items ++ flat_map change_form changes.now) }
    ensures err { OnErr result (Grown out.old.items out.new.items) }
{
    for change in changes {
        write_change(change, out)?;
    }
    Ok(())
}

fn write_change(change: &Change, out: &mut Vec<u8>) -> Result<(), NoMemory>
    ensures ok { OnOk result (out.new.items ≡ out.old.items ++ change_form change.now) }
    ensures err { OnErr result (Grown out.old.items out.new.items) }
{
    write_sized(&change.key, out)?;
    write_maybe(change.value.as_deref(), out)
}

/// A path: the number of its nodes, and the nodes.
pub(crate) fn write_path(nodes: &[ProofNode], out: &mut Vec<u8>) -> Result<(), NoMemory>
    ensures ok { OnOk result (out.new.items ≡ out.old.items ++ path_form nodes.now) }
    ensures err { OnErr result (Grown out.old.items out.new.items) }
{
    write_uvarint(out, nodes.len() as u64)?;
    write_nodes(nodes, out)
}

fn write_nodes(nodes: &[ProofNode], out: &mut Vec<u8>) -> Result<(), NoMemory>
    ensures ok { OnOk result (out.new.items ≡ out.old.items ++ flat_map node_form nodes.now) }
    ensures err { OnErr result (Grown out.old.items out.new.items) }
{
    for node in nodes {
        write_node(node, out)?;
    }
    Ok(())
}

fn write_node(node: &ProofNode, out: &mut Vec<u8>) -> Result<(), NoMemory>
    ensures ok { OnOk result (out.new.items ≡ out.old.items ++ node_form node.now) }
    ensures err { OnErr result (Grown out.old.items out.new.items) }
{
    write_key(&node.key, out)?;
    write_digest(node.digest.as_ref(), out)?;
    write_uvarint(out, node.children.len() as u64)?;
    write_children(&node.children, out)
}

fn write_key(key: &Key, out: &mut Vec<u8>) -> Result<(), NoMemory>
    ensures ok { OnOk result (out.new.items ≡ out.old.items ++ key_form key.now) }
    ensures err { OnErr result (Grown out.old.items out.new.items) }
{
    write_uvarint(out, key.bits())?;
    Ok(out.extend_from_slice(key.bytes())?)
}

fn write_digest(digest: Option<&Digest>, out: &mut Vec<u8>) -> Result<(), NoMemory>
    ensures ok { OnOk result (out.new.items ≡ out.old.items ++ digest_form (option_copied digest.entry)) }
    ensures err { OnErr result (Grown out.old.items out.new.items) }
{
    write_maybe(digest.map(Digest::bytes), out)
}

fn write_children(children: &[ChildId], out: &mut Vec<u8>) -> Result<(), NoMemory>
    ensures ok { OnOk result (out.new.items ≡ out.old.items ++ flat_map child_form (children_of children.now)) }
    ensures err { OnErr result (Grown out.old.items out.new.items) }
{
    for child in children {
        write_child(child, out)?;
    }
    Ok(())
}

fn write_child(child: &ChildId, out: &mut Vec<u8>) -> Result<(), NoMemory>
    ensures ok { OnOk result (out.new.items ≡ out.old.items ++ child_form (child.now.index, child.now.id)) }
    ensures err { OnErr result (Grown out.old.items out.new.items) }
{
    write_uvarint(out, u64::from(child.index))?;
    Ok(out.extend_from_slice(&child.id)?)
}
