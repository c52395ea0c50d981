// The key of the change before.
ghost use Rattle.std.specs.Prelude.{◌≡◌, None, Some, OnOk};
ghost use Rattle.batch_model.specs.Batch.{comes_after};

use mdb_base::NoMemory;
use std::alloc::Global;
use std::marker::Model;

/// The last key that was read, if there is one. The room for it is used again and again.
#[derive(Drop)]
pub(crate) struct LastKey {
    bytes: Vec<u8>,
    is_set: bool,
}

impl Model for LastKey {
    ghost use Rattle.std.specs.Prelude.{List, ℕ, Option, Some, None, if◌then◌else◌};

    ghost Value = { Option (List ℕ) };

    ghost view = { λ k. if k.is_set then Some k.bytes.items else None };
}

impl LastKey {
    pub(crate) fn new(alloc: Global) -> LastKey
        ensures { result ≡ None }
    {
        LastKey {
            bytes: Vec::new(alloc),
            is_set: false,
        }
    }

    /// Forgets the key.
    pub(crate) fn clear(&mut self)
        ensures { self.new ≡ None }
    {
        self.is_set = false;
    }

    pub(crate) fn set(&mut self, key: &[u8]) -> Result<(), NoMemory>
        ensures { OnOk result (self.new ≡ Some key.now) }
    {
        self.is_set = true;
        self.bytes.clear();
        self.bytes.extend_from_slice(key)?;
        Ok(())
    }

    /// Whether that key comes after the last one.
    pub(crate) fn precedes(&self, key: &[u8]) -> bool
        ensures { result ≡ comes_after self.now key.now }
    {
        !self.is_set || self.bytes.as_slice().cmp(key).is_lt()
    }
}
