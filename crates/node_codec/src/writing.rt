ghost use Rattle.std.specs.Prelude.{◌≡◌, ◌++◌, length, OnOk, OnErr};
ghost use Rattle.std.specs.List.{flat_map};
ghost use Rattle.std.specs.Option.{option_copied};
ghost use Rattle.trie_model.specs.Hashing.{digest_form, key_form};
ghost use Rattle.base_model.specs.Fields.{flag_form};
ghost use Rattle.trie_model.specs.StoredNode.{stored_child_form, stored_form};
ghost use Rattle.node_codec.specs.StoredNodes.{stored_child, stored_children};
ghost use Rattle.base_model.specs.Bytes.{Grown};

use crate::digest::Digest;
use crate::node::{Child, Node};
use bit_keys::Key;
use mdb_base::{NoMemory, write_uvarint};

/// Appends the stored form of a node.
pub fn encode(node: &Node, out: &mut Vec<u8>) -> Result<(), NoMemory>
    ensures ok { OnOk result (out.new.items ≡ out.old.items ++ stored_form node.now) }
    ensures err { OnErr result (out.new.items ≡ out.old.items) }
{
    let before = out.len();
    let written = write_node(node, out);
    if written.is_err() {
        out.truncate(before);
    }
    written
}

fn write_node(node: &Node, out: &mut Vec<u8>) -> Result<(), NoMemory>
    ensures ok { OnOk result (out.new.items ≡ out.old.items ++ stored_form node.now) }
    ensures err { OnErr result (Grown out.old.items out.new.items) }
{
    write_value(node.digest.as_ref(), out)?;
    write_uvarint(out, node.children.len() as u64)?;
    write_children(&node.children, out)
}

fn write_value(digest: Option<&Digest>, out: &mut Vec<u8>) -> Result<(), NoMemory>
    ensures ok { OnOk result (out.new.items ≡ out.old.items ++ digest_form (option_copied digest.entry)) }
    ensures err { OnErr result (Grown out.old.items out.new.items) }
{
    let Some(digest) = digest else {
        return write_flag(false, out);
    };
    let bytes = digest.bytes();
    write_flag(true, out)?;
    write_uvarint(out, bytes.len() as u64)?;
    Ok(out.extend_from_slice(bytes)?)
}

fn write_children(children: &[Child], out: &mut Vec<u8>) -> Result<(), NoMemory>
    ensures ok { OnOk result (out.new.items ≡ out.old.items ++ flat_map stored_child_form (stored_children children.now)) }
    ensures err { OnErr result (Grown out.old.items out.new.items) }
{
    for child in children {
        write_child(child, out)?;
    }
    Ok(())
}

fn write_child(child: &Child, out: &mut Vec<u8>) -> Result<(), NoMemory>
    ensures ok { OnOk result (out.new.items ≡ out.old.items ++ stored_child_form (stored_child child.now)) }
    ensures err { OnErr result (Grown out.old.items out.new.items) }
{
    write_uvarint(out, u64::from(child.index))?;
    write_rest(&child.rest, out)?;
    out.extend_from_slice(&child.id)?;
    write_flag(child.has_value, out)
}

fn write_rest(rest: &Key, out: &mut Vec<u8>) -> Result<(), NoMemory>
    ensures ok { OnOk result (out.new.items ≡ out.old.items ++ key_form rest.now) }
    ensures err { OnErr result (Grown out.old.items out.new.items) }
{
    write_uvarint(out, rest.bits())?;
    Ok(out.extend_from_slice(rest.bytes())?)
}

fn write_flag(flag: bool, out: &mut Vec<u8>) -> Result<(), NoMemory>
    ensures ok { OnOk result (out.new.items ≡ out.old.items ++ flag_form flag) }
    ensures err { OnErr result (out.new.items ≡ out.old.items) }
{
    Ok(out.push(u8::from(flag))?)
}
