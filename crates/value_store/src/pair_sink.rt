ghost use Rattle.std.specs.Prelude.{ℕ, List, OnOk};

use mdb_base::NoMemory;
use std::alloc::Global;

/// Takes pairs of a key and a value, one after another.
pub trait PairSink {
    /// Whether a pair of this key and this value leads from one state to the other.
    ghost takes: { Self → List ℕ → List ℕ → Self → Type 0 };

    fn take(&mut self, alloc: Global, key: &[u8], value: &[u8]) -> Result<(), NoMemory>
        ensures { OnOk result (takes self.old key.now value.now self.new) };
}
