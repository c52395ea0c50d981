use crate::proof_node::ProofNode;
use std::marker::Model;

/// What shows the value of one key, or that it has none.
#[derive(Debug, Drop)]
pub struct PointProof {
    pub value: Option<Vec<u8>>,
    /// The nodes on the way down to the key, the root node in front.
    pub path: Vec<ProofNode>,
}

impl Model for PointProof {
    ghost use Rattle.std.specs.Prelude.{option_map};
    ghost use Rattle.proof_model.specs.Proofs.{PointProof as ShownPoint};

    ghost Value = { ShownPoint };

    ghost view = { λ p. record { value = option_map (λ v. v.items) p.value; path = p.path.items } };
}
