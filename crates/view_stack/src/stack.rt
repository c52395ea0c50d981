// All views, and the calls that change none.
ghost use Rattle.std.specs.Prelude.{◌≡◌, length, drop, Some, IfOk, MatchOption, option_map};
ghost use Rattle.view_model.specs.Forest.{Live, no_views, state, path_of};
ghost use Rattle.view_model.specs.Calls.{make_refused};
ghost use Rattle.view_model.specs.Maps.{changes_of};
ghost use Rattle.view_stack.specs.ViewAnswers.{state_told, fault_told, number_in, numbers};

use crate::{Kept, Tree, ViewFault, ViewId, ViewState};
use mdb_base::{Batch, NoMemory};
use std::alloc::Global;
use std::marker::Model;

/// Views that stand on a store or on each other, and room for direct batches.
#[derive(Drop)]
pub struct ViewStack {
    pub(crate) tree: Tree,
    pub(crate) room: usize,
}

impl Model for ViewStack {
    ghost use Rattle.view_stack.specs.Forests.{StackState, IsStack, forest_of};

    ghost Value = { StackState };

    ghost view = { λ s. record { forest = forest_of s.tree; room = s.room } };

    ghost invariant = { λ s. IsStack s.tree s.room };
}

impl ViewStack {
    /// No view, and a store on which nothing was committed.
    pub fn new(alloc: Global) -> ViewStack
        ensures { result ≡ record { forest = no_views; room = 0 } }
    {
        ViewStack {
            tree: Tree::new(alloc),
            room: 0,
        }
    }

    /// Whether `make` would make this view, or why not.
    pub fn may(&self, parent: Option<ViewId>, batch: &Batch) -> Result<(), ViewFault>
        ensures { MatchOption (make_refused self.now.forest (number_in parent) batch.now) (result ≡ Ok tt) (λ r. result ≡ Err (fault_told r)) }
    {
        match self.tree.admit(parent, batch) {
            Ok(_) => Ok(()),
            Err(fault) => Err(fault),
        }
    }

    /// What has become of a view; None where its number was never given.
    pub fn state(&self, id: ViewId) -> Option<ViewState>
        ensures { result ≡ option_map state_told (state self.now.forest id.number) }
    {
        match self.tree.find(id) {
            Some(number) => Some(self.tree.slot(number).kept.state()),
            None => None,
        }
    }

    /// The changes of a live view.
    pub fn batch(&self, id: ViewId) -> &Batch
        requires { state self.now.forest id.number ≡ Some Live }
        ensures { result.now ≡ changes_of self.now.forest id.number }
    {
        self.tree.batch(id)
    }

    /// The views from the store up to a live one, which is the last.
    pub fn chain(&self, alloc: Global, id: ViewId) -> Result<Vec<ViewId>, NoMemory>
        requires { state self.now.forest id.number ≡ Some Live }
        ensures { IfOk result (λ ids. numbers ids.items ≡ drop (length self.now.forest.store) (path_of self.now.forest id.number)) }
    {
        self.tree.chain(alloc, self.tree.known(id))
    }
}
