// The changes that wait for their commit.
ghost use Rattle.std.specs.Prelude.{◌≡◌, [], length, ◌==◌, option_map, IfOk, OnOk, OnErr};
ghost use Rattle.batch_model.specs.Batch.{set_change};
ghost use Rattle.mdb_base.specs.Batches.{change_of};

use batch_text::KeyBytes;
use mdb_base::{Batch, NoMemory};
use std::alloc::Global;
use std::collections::BTreeMap;
use std::marker::Model;
use std::mem;

/// Changes that wait for their commit, one for a key. They lie in a tree: their keys come in any
/// order, and a batch would move all that stand above a new one.
#[derive(Drop)]
pub(crate) struct Pending {
    changes: BTreeMap<KeyBytes, Option<Vec<u8>>>,
}

impl Model for Pending {
    ghost use Rattle.std.specs.Prelude.{List, map};
    ghost use Rattle.batch_model.specs.Batch.{Change};
    ghost use Rattle.script_run.specs.PendingChange.{waiting};

    ghost Value = { List Change };

    ghost view = { λ p. map waiting p.changes.entries };
}

impl Pending {
    /// No change.
    pub(crate) fn new(alloc: Global) -> Pending
        ensures { result ≡ [] }
    {
        Pending {
            changes: BTreeMap::new(alloc),
        }
    }

    pub(crate) fn is_empty(&self) -> bool
        ensures { result ≡ (length self.now == 0) }
    {
        self.changes.is_empty()
    }

    /// Sets the change of a key, in the place of the one that is there.
    pub(crate) fn set(&mut self, key: KeyBytes, value: Option<Vec<u8>>) -> Result<(), NoMemory>
        ensures ok { OnOk result (self.new ≡ set_change self.old (change_of key.items (option_map (λ v. v.items) value))) }
        ensures err { OnErr result (self.new ≡ self.old) }
    {
        self.changes.insert(key, value)?;
        Ok(())
    }

    /// Takes all changes out, as a batch. Without memory for it they are lost.
    pub(crate) fn take(&mut self, alloc: Global) -> Result<Batch, NoMemory>
        ensures batch { IfOk result (λ batch. batch ≡ self.old) }
        ensures none { self.new ≡ [] }
    {
        mem::replace(self, Pending::new(alloc)).into_batch(alloc)
    }

    /// The batch of these changes.
    pub(crate) fn into_batch(self, alloc: Global) -> Result<Batch, NoMemory>
        ensures { IfOk result (λ batch. batch ≡ self) }
    {
        let Pending { changes } = self;
        let mut batch = Batch::new(alloc);
        for (key, value) in changes {
            add(&mut batch, key, value)?;
        }
        Ok(batch)
    }
}

// Sets a change in a batch. A line is within the limits of keys and values, so only memory can be
// wanting.
fn add(batch: &mut Batch, key: KeyBytes, value: Option<Vec<u8>>) -> Result<(), NoMemory>
    ensures { OnOk result (batch.new ≡ set_change batch.old (change_of key.items (option_map (λ v. v.items) value))) }
{
    let Ok(key) = key.into_vec() else {
        return Err(NoMemory);
    };
    match batch.set(key, value) {
        Ok(()) => Ok(()),
        Err(_) => Err(NoMemory),
    }
}
