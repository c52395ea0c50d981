// How many rows a node takes with all that are below it, in the order of the keys.
use bit_keys::Key;
use mdb_base::NoMemory;
use node_codec::Node;
use std::alloc::Global;

/// The row behind those that the node at a row takes.
///
/// A node is followed by the nodes below it, child by child. No contract says so here: who takes a row compares its
/// key.
pub(crate) fn behind(sizes: &[u32], row: u32) -> u32 {
    match sizes.get(row as usize) {
        Some(size) => row.saturating_add(*size),
        None => row,
    }
}

/// The row behind a node of so many children, the first of which is at that row.
fn behind_children(sizes: &[u32], first: u32, children: usize) -> u32 {
    let mut row = first;
    for _ in 0..children {
        row = behind(sizes, row);
    }
    row
}

/// How many rows each node takes. They are counted from the last one on, and where there are more than a `u32`
/// counts, some are told wrong.
pub(crate) fn sizes_of(alloc: Global, rows: &[(Key, Node)]) -> Result<Vec<u32>, NoMemory> {
    let mut sizes = Vec::from_elem(alloc, 1u32, rows.len())?;
    for (at, (_key, node)) in rows.iter().enumerate().rev() {
        let row = u32::try_from(at).unwrap_or(u32::MAX);
        let first = row.saturating_add(1);
        let next = behind_children(sizes.as_slice(), first, node.children.len());
        if let Some(size) = sizes.get_mut(at) {
            *size = next.saturating_sub(row);
        }
    }
    Ok(sizes)
}
