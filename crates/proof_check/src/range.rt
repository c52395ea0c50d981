ghost use Rattle.std.specs.Prelude.{◌≡◌, map, IfOk};
ghost use Rattle.proof_model.specs.RangeProofs.{keys_of as listed_keys};
ghost use Rattle.proof_check.specs.Claims.{pair_of, keys_of};

use crate::claim::Entry;
use crate::proof_node::ProofNode;
use bit_keys::NoMemory;
use std::alloc::Global;
use std::marker::Model;

/// A key and its value.
#[derive(Debug, Drop)]
pub struct Pair {
    pub key: Vec<u8>,
    pub value: Vec<u8>,
}

impl Model for Pair {
    ghost use Rattle.proof_model.specs.Proofs.{Pair as KeyedValue};

    ghost Value = { KeyedValue };

    ghost view = { λ p. (p.key.items, p.value.items) };
}

/// What shows the pairs of a range, all of them or the first ones.
#[derive(Debug, Drop)]
pub struct RangeProof {
    /// Whether more pairs of the range follow.
    pub cut: bool,
    /// In the order of their keys.
    pub pairs: Vec<Pair>,
    /// The path of the start of the range, where it has one.
    pub start: Vec<ProofNode>,
    /// The path of the key up to where the pairs tell, where there is one.
    pub end: Vec<ProofNode>,
}

impl Model for RangeProof {
    ghost use Rattle.proof_model.specs.RangeProofs.{RangeProof as ShownRange};

    ghost Value = { ShownRange };

    ghost view = { λ p. record { cut = p.cut; pairs = p.pairs.items; start = p.start.items; end = p.end.items } };
}

impl RangeProof {
    /// The pairs as a check takes them. No key and no value is copied.
    pub fn entries(&self, alloc: Global) -> Result<Vec<Entry<'_>>, NoMemory>
        ensures pairs { IfOk result (λ es. map pair_of es.items ≡ self.now.pairs) }
        ensures keys { IfOk result (λ es. keys_of es.items ≡ listed_keys self.now.pairs) }
    {
        let mut entries = Vec::with_capacity(alloc, self.pairs.len())?;
        for pair in &self.pairs {
            entries.push(Entry {
                key: &pair.key,
                value: &pair.value,
            })?;
        }
        Ok(entries)
    }
}
