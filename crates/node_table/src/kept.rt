// A node as the table keeps it.
ghost use Rattle.std.specs.Prelude.{◌≡◌, IfOk, length, option_map};
ghost use Rattle.node_codec.specs.StoredNodes.{stored_children};
ghost use Rattle.trie_items.specs.Shown.{child_at, child_named, rest_of, shown_of};
ghost use Rattle.node_table.specs.KeptNodes.{joined_all};

use crate::sizes::behind;
use bit_keys::Key;
use mdb_base::NoMemory;
use node_codec::{Child, Digest, Node};
use std::alloc::Global;
use std::marker::Model;
use trie_items::{ChildId, ShownNode};

/// What is kept of a child beside its index and its ID.
#[derive(Drop)]
pub(crate) struct Below {
    rest: Key,
    has_value: bool,
    /// Where its row may stand. No contract says that it does.
    row: u32,
}

/// A node whose children stand in two pieces. A path shows the first of them, which is copied at once.
#[derive(Drop)]
pub(crate) struct KeptNode {
    digest: Option<Digest>,
    ids: Vec<ChildId>,
    below: Vec<Below>,
}

impl Model for KeptNode {
    ghost use Rattle.std.specs.Prelude.{◌≡◌, length};
    ghost use Rattle.trie_model.specs.StoredNode.{StoredNode};
    ghost use Rattle.node_table.specs.KeptNodes.{joined_all};

    ghost Value = { StoredNode };

    ghost view = { λ n. record { digest = n.digest; children = joined_all n.ids.items n.below.items } };

    ghost invariant = { λ n. length n.ids.items ≡ length n.below.items };
}

fn copy_key(alloc: Global, key: &Key) -> Result<Key, NoMemory>
    ensures { IfOk result (λ k. k ≡ key.now) }
{
    key.copy(alloc).map_err(|_| NoMemory)
}

fn copy_digest(digest: &Option<Digest>) -> Option<Digest>
    ensures { result ≡ digest.now }
{
    match digest {
        Some(digest) => Some(digest.copy()),
        None => None,
    }
}

/// The two pieces of children, the first of which may have its row at that place.
fn parted(
    alloc: Global,
    children: Vec<Child>,
    first: u32,
    sizes: &[u32],
) -> Result<(Vec<ChildId>, Vec<Below>), NoMemory>
    ensures long { IfOk result (λ parts. length parts.0.items ≡ length parts.1.items) }
    ensures same { IfOk result (λ parts. joined_all parts.0.items parts.1.items ≡ stored_children children.items) }
{
    let mut ids = Vec::with_capacity(alloc, children.len())?;
    let mut below = Vec::with_capacity(alloc, children.len())?;
    let mut row = first;
    for child in children {
        let id = child.id;
        ids.push(ChildId {
            index: child.index,
            id,
        })?;
        below.push(Below {
            rest: child.rest,
            has_value: child.has_value,
            row,
        })?;
        row = behind(sizes, row);
    }
    Ok((ids, below))
}

/// The children of which these are the two pieces.
fn whole(alloc: Global, ids: &[ChildId], below: &[Below]) -> Result<Vec<Child>, NoMemory>
    requires { length ids.now ≡ length below.now }
    ensures { IfOk result (λ made. stored_children made.items ≡ joined_all ids.now below.now) }
{
    let mut made = Vec::with_capacity(alloc, ids.len())?;
    for (at, child) in ids.iter().enumerate() {
        let part = &below[at];
        made.push(Child {
            index: child.index,
            rest: copy_key(alloc, &part.rest)?,
            id: child.id,
            has_value: part.has_value,
        })?;
    }
    Ok(made)
}

/// The rest of the child at a token, and where its row may stand.
fn led_at(
    alloc: Global,
    ids: &[ChildId],
    below: &[Below],
    token: u16,
) -> Result<Option<(Key, u32)>, NoMemory>
    requires { length ids.now ≡ length below.now }
    ensures { IfOk result (λ led. option_map (λ led. led.0) led ≡ rest_of (child_at token (joined_all ids.now below.now))) }
{
    for (at, child) in ids.iter().enumerate() {
        if child.index == token {
            let part = &below[at];
            return Ok(Some((copy_key(alloc, &part.rest)?, part.row)));
        }
    }
    Ok(None)
}

/// The rest of the child at a token, where one is asked for, and where its row may stand.
fn led_by(
    alloc: Global,
    ids: &[ChildId],
    below: &[Below],
    token: Option<u16>,
) -> Result<Option<(Key, u32)>, NoMemory>
    requires { length ids.now ≡ length below.now }
    ensures { IfOk result (λ led. option_map (λ led. led.0) led ≡ rest_of (child_named token (joined_all ids.now below.now))) }
{
    match token {
        Some(token) => led_at(alloc, ids, below, token),
        None => Ok(None),
    }
}

/// Both in two pieces; the row is the first one where no child is there.
fn apart(led: Option<(Key, u32)>) -> (Option<Key>, u32)
    ensures { result.0 ≡ option_map (λ led. led.0) led }
{
    match led {
        Some((rest, row)) => (Some(rest), row),
        None => (None, 0),
    }
}

impl KeptNode {
    /// A node in its pieces, whose first child may have its row at that place. Each row of a child stands behind
    /// all that are below the child before it, by their numbers.
    pub(crate) fn of_node(
        alloc: Global,
        node: Node,
        first: u32,
        sizes: &[u32],
    ) -> Result<KeptNode, NoMemory>
        ensures { IfOk result (λ kept. kept ≡ node) }
    {
        let (ids, below) = parted(alloc, node.children, first, sizes)?;
        Ok(KeptNode {
            digest: node.digest,
            ids,
            below,
        })
    }

    /// The whole node.
    pub(crate) fn node(&self, alloc: Global) -> Result<Node, NoMemory>
        ensures { IfOk result (λ node. node ≡ self.now) }
    {
        Ok(Node {
            digest: copy_digest(&self.digest),
            children: whole(alloc, self.ids.as_slice(), self.below.as_slice())?,
        })
    }

    /// What a path shows of it, with the rest of the child at a token, where one is asked for. And where the row
    /// of that child may stand.
    pub(crate) fn shown(
        &self,
        alloc: Global,
        token: Option<u16>,
    ) -> Result<(ShownNode, u32), NoMemory>
        ensures { IfOk result (λ made. made.0 ≡ shown_of token self.now) }
    {
        let ids = self.ids.as_slice();
        let (rest, row) = apart(led_by(alloc, ids, self.below.as_slice(), token)?);
        let shown = ShownNode {
            digest: copy_digest(&self.digest),
            children: Vec::from_slice(alloc, ids)?,
            rest,
        };
        Ok((shown, row))
    }
}
