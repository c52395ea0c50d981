// What is kept of a commit.
ghost use Rattle.std.specs.Prelude.{◌≡◌, ◌<◌, ◌≤◌, ◌*◌, ◌^◌, length};
ghost use Rattle.std.specs.List.{sum_by};
ghost use Rattle.history_model.specs.Changes.{delta_weight};
ghost use Rattle.change_history.specs.Histories.{commit_weight};

use crate::Delta;
use bit_keys::Id;
use std::marker::Model;

/// The keys that a commit changed, in their order, and the root of the map before it.
#[derive(Drop)]
pub(crate) struct Commit {
    deltas: Vec<Delta>,
    former: Id,
    /// The bytes of the keys and of both values.
    weight: u128,
}

impl Model for Commit {
    ghost use Rattle.change_history.specs.Histories.{CommitState, IsCommit};

    ghost Value = { CommitState };

    ghost view = { λ c. record { deltas = c.deltas.items; former = c.former } };

    ghost invariant = { λ c. IsCommit c.deltas.items c.weight };
}

fn weight_of(deltas: &[Delta]) -> u128
    ensures exact { result ≡ sum_by delta_weight deltas.now }
    ensures small { result < 2 ^ 127 }
{
    let mut sum = 0;
    for delta in deltas {
        sum += delta.weight();
    }
    sum
}

impl Commit {
    pub(crate) fn new(deltas: Vec<Delta>, former: Id) -> Commit
        ensures { result ≡ record { deltas = deltas.items; former = former } }
    {
        let weight = weight_of(&deltas);
        Commit {
            deltas,
            former,
            weight,
        }
    }

    pub(crate) fn deltas(&self) -> &[Delta]
        ensures { result.now ≡ self.now.deltas }
    {
        self.deltas.as_slice()
    }

    /// The root of the map before the commit.
    pub(crate) fn former(&self) -> Id
        ensures { result ≡ self.now.former }
    {
        self.former
    }

    pub(crate) fn weight(&self) -> u128
        ensures exact { result ≡ commit_weight self.now }
        ensures small { result < 2 ^ 127 }
    {
        self.weight
    }
}
