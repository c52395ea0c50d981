ghost use Rattle.std.specs.Prelude.{◌≡◌, ◌+◌, ◌*◌, ◌<◌, ◌≤◌, ℕ, List, ◌++◌, length, OnOk, OnErr};
ghost use Rattle.std.specs.List.{flat_map};
ghost use Rattle.std.specs.Option.{option_copied};
ghost use Rattle.trie_model.specs.Hashing.{digest_form, key_form, child_form, hashed_string};
ghost use Rattle.trie_items.specs.Children.{children_of};
ghost use Rattle.base_model.specs.Bytes.{Grown};

use crate::child::ChildId;
use bit_keys::Key;
use mdb_base::{NoMemory, write_uvarint};
use node_codec::Digest;

fn write_child(child: &ChildId, out: &mut Vec<u8>) -> Result<(), NoMemory>
    ensures ok { OnOk result (out.new.items ≡ out.old.items ++ child_form (child.now.index, child.now.id)) }
    ensures err { OnErr result (Grown out.old.items out.new.items) }
{
    write_uvarint(out, child.index as u64)?;
    out.extend_from_slice(&child.id)?;
    Ok(())
}

fn write_children(children: &[ChildId], out: &mut Vec<u8>) -> Result<(), NoMemory>
    ensures ok { OnOk result (out.new.items ≡ out.old.items ++ flat_map child_form (children_of children.now)) }
    ensures err { OnErr result (Grown out.old.items out.new.items) }
{
    for child in children {
        write_child(child, out)?;
    }
    Ok(())
}

fn write_digest(digest: Option<&Digest>, out: &mut Vec<u8>) -> Result<(), NoMemory>
    ensures ok { OnOk result (out.new.items ≡ out.old.items ++ digest_form (option_copied digest.entry)) }
    ensures err { OnErr result (Grown out.old.items out.new.items) }
{
    let Some(digest) = digest else {
        return Ok(out.push(0)?);
    };
    let bytes = digest.bytes();
    out.push(1)?;
    write_uvarint(out, bytes.len() as u64)?;
    Ok(out.extend_from_slice(bytes)?)
}

fn write_key(key: &Key, out: &mut Vec<u8>) -> Result<(), NoMemory>
    ensures ok { OnOk result (out.new.items ≡ out.old.items ++ key_form key.now) }
    ensures err { OnErr result (Grown out.old.items out.new.items) }
{
    write_uvarint(out, key.bits())?;
    Ok(out.extend_from_slice(key.bytes())?)
}

fn write_node(
    key: &Key,
    digest: Option<&Digest>,
    children: &[ChildId],
    out: &mut Vec<u8>,
) -> Result<(), NoMemory>
    ensures ok { OnOk result (out.new.items ≡ out.old.items ++ hashed_string key.now (option_copied digest.entry) (children_of children.now)) }
    ensures err { OnErr result (Grown out.old.items out.new.items) }
{
    write_uvarint(out, children.len() as u64)?;
    write_children(children, out)?;
    write_digest(digest, out)?;
    write_key(key, out)?;
    Ok(())
}

/// Appends the string whose SHA-256 is the ID of the node that `id_of` names.
pub fn node_string(
    key: &Key,
    digest: Option<&Digest>,
    children: &[ChildId],
    out: &mut Vec<u8>,
) -> Result<(), NoMemory>
    ensures ok { OnOk result (out.new.items ≡ out.old.items ++ hashed_string key.now (option_copied digest.entry) (children_of children.now)) }
    ensures err { OnErr result (out.new.items ≡ out.old.items) }
{
    let before = out.len();
    let written = write_node(key, digest, children, out);
    if written.is_err() {
        out.truncate(before);
    }
    written
}
