ghost use Rattle.std.specs.Prelude.{◌≡◌, IfOk};
ghost use Rattle.proof_model.specs.ChangeProofs.{changed_keys};
ghost use Rattle.proof_check.specs.Claims.{keys_of};

use crate::claim::Entry;
use crate::proof_node::ProofNode;
use bit_keys::NoMemory;
use mdb_base::Change;
use std::alloc::Global;
use std::marker::Model;

/// What shows the changes of a range that lead from one map to another, all of them or the first ones.
#[derive(Debug, Drop)]
pub struct ChangeProof {
    /// Whether more changes of the range follow.
    pub cut: bool,
    /// In the order of their keys.
    pub changes: Vec<Change>,
    /// The path of the start of the range, where it has one, in the map to which the changes lead.
    pub start: Vec<ProofNode>,
    /// The path of the key up to where the changes tell, where there is one, in that map.
    pub end: Vec<ProofNode>,
}

impl Model for ChangeProof {
    ghost use Rattle.proof_model.specs.ChangeProofs.{ChangeProof as ShownChanges};

    ghost Value = { ShownChanges };

    ghost view = { λ p. record { cut = p.cut; changes = p.changes.items; start = p.start.items; end = p.end.items } };
}

impl ChangeProof {
    /// The changes by their keys, as a check takes entries. That of a deletion has no byte of a value.
    pub fn entries(&self, alloc: Global) -> Result<Vec<Entry<'_>>, NoMemory>
        ensures { IfOk result (λ es. keys_of es.items ≡ changed_keys self.now.changes) }
    {
        let mut entries = Vec::new(alloc);
        for change in &self.changes {
            entries.push(Entry {
                key: &change.key,
                value: change.value.as_deref().unwrap_or(&[]),
            })?;
        }
        Ok(entries)
    }
}
