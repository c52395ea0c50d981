// The store, and the calls that do not change it.
ghost use Rattle.std.specs.Prelude.{◌≡◌, None, true, false, length, OnOk, IfErr};
ghost use Rattle.bit_keys.specs.Branch.{width_of};
ghost use Rattle.mdb_core.specs.Stores.{is_failed};

use crate::{DbFault, Digests, ViewId};
use bit_keys::{Branch, Id};
use change_history::History;
use disk_world::Disk;
use node_table::NodeTable;
use std::marker::Model;
use value_store::ValueStore;
use view_stack::ViewStack;

/// How a store is kept. In this form of the store `cache` has no effect.
#[derive(Clone, Copy, Debug, PartialEq, Eq)]
pub struct Config {
    /// How many nodes are kept in memory, 1 to 65,536.
    pub cache: usize,
    /// How many commits back a map is held.
    pub commits: usize,
    /// How many bytes of changes are held, at most 268,435,456.
    pub weight: u64,
}

/// Which map a call speaks of.
#[derive(Clone, Copy, Debug, PartialEq, Eq)]
pub enum At {
    /// The map of the store.
    Store,
    /// The map of a live view.
    View(ViewId),
    /// The latest map with this root of those that the store holds. Where none of them has it, 32 zeros name the empty
    /// map.
    Root(Id),
}

/// A map on a disk, with its root, the latest commits, and the views on it. It belongs to the disk on which it was opened.
///
/// Its root is that of the map whose digests it holds, and the root of each live view that of the view's map.
#[derive(Drop)]
pub struct Db {
    pub(crate) values: ValueStore,
    pub(crate) digests: Digests,
    pub(crate) root: Id,
    pub(crate) branch: Branch,
    pub(crate) views: ViewStack,
    /// The root of each view when it was made, in the order of their numbers.
    pub(crate) roots: Vec<Id>,
    /// What the latest commits since the opening changed.
    pub(crate) history: History,
    /// The nodes of the map's trie, once they were asked for, until the next commit.
    pub(crate) nodes: Option<NodeTable>,
}

impl Model for Db {
    ghost use Rattle.bit_keys.specs.Branch.{width_of};
    ghost use Rattle.mdb_core.specs.Stores.{DbState, IsStore};

    ghost Value = { DbState };

    ghost view = { λ d. record { values = d.values; digests = d.digests; width = width_of d.branch; root = d.root; forest = d.views.forest; roots = d.roots.items; history = d.history } };

    ghost invariant = { λ d. IsStore (record { values = d.values; digests = d.digests; width = width_of d.branch; root = d.root; forest = d.views.forest; roots = d.roots.items; history = d.history }) d.nodes };
}

impl Db {
    /// The root of the map, 32 zeros where it is empty.
    pub fn root(&self) -> Id
        ensures { result ≡ self.now.root }
    {
        self.root
    }

    /// How many pairs there are.
    pub fn len(&self) -> u64
        ensures { result ≡ length self.now.values.index }
    {
        self.values.len()
    }

    /// The most children that a node of the trie may have.
    pub fn branch(&self) -> Branch
        ensures { width_of result ≡ self.now.width }
    {
        self.branch
    }

    /// The generation of the journal.
    pub fn generation(&self) -> u64
        ensures { result ≡ self.now.values.journal.generation }
    {
        self.values.generation()
    }

    /// The file and the place of bytes outside the format that a read met after the opening. In this
    /// form of the store no read after the opening can meet any.
    pub fn damage(&self) -> Option<(u8, u64)>
        ensures { result ≡ None }
    {
        None
    }

    /// Ends the use of the store. In this form it makes no disk call.
    pub fn close<D: Disk>(self, disk: &mut D) -> Result<(), DbFault>
        ensures ok { OnOk result (is_failed self ≡ false) }
        ensures err { IfErr result (λ fault. (fault ≡ DbFault.Failed) × (is_failed self ≡ true)) }
        ensures disk { disk.new ≡ disk.old }
    {
        let _ = disk;
        if self.values.failed() {
            return Err(DbFault::Failed);
        }
        Ok(())
    }
}
