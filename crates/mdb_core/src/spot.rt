// A map of which a source tells.
use crate::{Digests, ViewId};
use mdb_base::Batch;
use node_table::NodeTable;
use std::marker::Model;

/// The map of a live view, as it was when the spot was given.
#[derive(Drop)]
pub struct Proposal {
    pub(crate) id: ViewId,
    pub(crate) digests: Digests,
    pub(crate) nodes: NodeTable,
}

impl Model for Proposal {
    ghost use Rattle.mdb_core.specs.SpotParts.{ProposalState};
    ghost use Rattle.mdb_core.specs.Stores.{AreDigests};

    ghost Value = { ProposalState };

    ghost view = { λ p. record { id = p.id; digests = p.digests; nodes = p.nodes } };

    ghost invariant = { λ p. AreDigests p.digests };
}

/// A map before the present one, as the store held it when the spot was given.
#[derive(Drop)]
pub struct Past {
    /// The batch that leads back to it.
    pub(crate) undo: Batch,
    pub(crate) digests: Digests,
    pub(crate) nodes: NodeTable,
}

impl Model for Past {
    ghost use Rattle.mdb_core.specs.SpotParts.{PastState};
    ghost use Rattle.mdb_core.specs.Stores.{AreDigests};

    ghost Value = { PastState };

    ghost view = { λ p. record { undo = p.undo; digests = p.digests; nodes = p.nodes } };

    ghost invariant = { λ p. AreDigests p.digests };
}

/// Which map a source tells. `Db::source` gives it.
#[derive(Drop)]
pub enum Spot {
    /// The map of the store.
    Store,
    /// The map of a view.
    View(Proposal),
    /// A map before the present one.
    Past(Past),
    /// The map of no pairs.
    Empty,
}
