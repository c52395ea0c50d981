// Why a view is not made, and nothing is done with one.
ghost use Rattle.std.specs.Prelude.{◌≡◌, ℕ, Option, true, option_map, MatchOption};
ghost use Rattle.std.specs.Result.{IsOkAnd};
ghost use Rattle.view_model.specs.Calls.{view_refused, parent_refused, parent_path, limit_passed, make_refused};
ghost use Rattle.view_stack.specs.Tree.{live_at};
ghost use Rattle.view_stack.specs.Links.{IsOpen};
ghost use Rattle.view_stack.specs.Paths.{tree_path};
ghost use Rattle.view_stack.specs.Forests.{kept_state, forest_of, IsTree};
ghost use Rattle.view_stack.specs.ViewAnswers.{state_told, fault_told, number_in};

use crate::{Kept, Tree, ViewFault, ViewId, ViewState};
use mdb_base::Batch;

/// How many numbers are given at most.
pub(crate) const NUMBER_LIMIT: usize = 1_000_000;

/// How many numbers a path has past that of the store, at most.
const DEPTH_LIMIT: usize = 64;

/// How many bytes the payloads of all live views have at most.
const WEIGHT_LIMIT: u64 = 268_435_456;

impl Kept {
    pub(crate) fn state(&self) -> ViewState
        ensures { result ≡ state_told (kept_state self.now) }
    {
        match self {
            Kept::Live(_) => ViewState::Live,
            Kept::Committed => ViewState::Committed,
            Kept::Invalid => ViewState::Invalid,
            Kept::Closed => ViewState::Closed,
        }
    }
}

impl Tree {
    /// A view that has to be live, as the tree has it.
    pub(crate) fn live(&self, id: ViewId) -> Result<u32, ViewFault>
        requires { IsTree self.now }
        ensures { MatchOption (view_refused (forest_of self.now) id.number) (IsOkAnd result (λ n. (n ≡ id.number) × (live_at self.now n ≡ true))) (λ r. result ≡ Err (fault_told r)) }
    {
        match self.find(id) {
            None => Err(ViewFault::Unknown),
            Some(number) => match self.slot(number).kept.state() {
                ViewState::Live => Ok(number),
                state => Err(ViewFault::NotLive(state)),
            },
        }
    }

    /// What a new view would stand on, as the tree has it.
    fn parent_of(&self, parent: Option<ViewId>) -> Result<u32, ViewFault>
        requires { IsTree self.now }
        ensures { MatchOption (parent_refused (forest_of self.now) (number_in parent)) (IsOkAnd result (λ n. IsOpen self.now n × (tree_path self.now n ≡ parent_path (forest_of self.now) (number_in parent)))) (λ r. result ≡ Err (fault_told r)) }
    {
        match parent {
            None => Ok(self.last),
            Some(id) => self.live(id),
        }
    }

    /// The first limit that one view more would pass.
    fn limit_passed(&self, parent: u32, batch: &Batch) -> Option<ViewFault>
        requires tree { IsTree self.now }
        requires on { IsOpen self.now parent }
        ensures { (p : Option ℕ) → tree_path self.now parent ≡ parent_path (forest_of self.now) p → result ≡ option_map fault_told (limit_passed (forest_of self.now) p batch.now) }
    {
        if self.count() >= NUMBER_LIMIT {
            return Some(ViewFault::TooMany);
        }
        if self.depth(parent) >= DEPTH_LIMIT {
            return Some(ViewFault::TooDeep);
        }
        if batch.payload_len() > WEIGHT_LIMIT - self.weight {
            return Some(ViewFault::TooHeavy);
        }
        None
    }

    /// What a new view stands on, as the tree has it, or why the view is not made.
    pub(crate) fn admit(&self, parent: Option<ViewId>, batch: &Batch) -> Result<u32, ViewFault>
        requires { IsTree self.now }
        ensures { MatchOption (make_refused (forest_of self.now) (number_in parent) batch.now) (IsOkAnd result (λ n. IsOpen self.now n × (tree_path self.now n ≡ parent_path (forest_of self.now) (number_in parent)))) (λ r. result ≡ Err (fault_told r)) }
    {
        let number = match self.parent_of(parent) {
            Ok(number) => number,
            Err(fault) => return Err(fault),
        };
        match self.limit_passed(number, batch) {
            None => Ok(number),
            Some(fault) => Err(fault),
        }
    }
}
