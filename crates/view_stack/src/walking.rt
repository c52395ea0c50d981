// The way from a view down to the store.
ghost use Rattle.std.specs.Prelude.{◌≡◌, ◌+◌, ◌≤◌, ◌++◌, length, map, reverse, true, Some, MatchOption, IfOk};
ghost use Rattle.view_model.specs.Calls.{number_limit};
ghost use Rattle.view_stack.specs.Tree.{Has, kept_at, live_at};
ghost use Rattle.view_stack.specs.Forests.{kept_batch};
ghost use Rattle.view_stack.specs.Links.{IsRooted, IsOpen};
ghost use Rattle.view_stack.specs.Paths.{tree_path};
ghost use Rattle.view_stack.specs.ViewAnswers.{numbers};

use crate::{Kept, Tree, ViewId};
use mdb_base::{Batch, NoMemory};
use std::alloc::Global;

impl Tree {
    /// A number as the tree has it; None where it was never given.
    pub(crate) fn find(&self, id: ViewId) -> Option<u32>
        requires { length self.now.slots ≤ number_limit }
        ensures { MatchOption result (Has self.now id.number → ⊥) (λ n. (n ≡ id.number) × Has self.now n) }
    {
        if id.number == 0 || id.number > self.slots.len() as u64 {
            None
        } else {
            Some(id.number as u32)
        }
    }

    /// The number of a live view as the tree has it.
    pub(crate) fn known(&self, id: ViewId) -> u32
        requires few { length self.now.slots ≤ number_limit }
        requires live { live_at self.now id.number ≡ true }
        ensures { result ≡ id.number }
    {
        id.number as u32
    }

    /// How many numbers the path of a view has past that of the store.
    pub(crate) fn depth(&self, view: u32) -> usize
        requires rooted { IsRooted self.now }
        requires on { IsOpen self.now view }
        ensures { result + length (tree_path self.now self.now.last) ≡ length (tree_path self.now view) }
    {
        let mut from = view;
        let mut depth = 0;
        while from != self.last {
            from = self.slot(from).parent;
            depth += 1;
        }
        depth
    }

    /// The views from the store up to this one.
    pub(crate) fn chain(&self, alloc: Global, view: u32) -> Result<Vec<ViewId>, NoMemory>
        requires rooted { IsRooted self.now }
        requires on { IsOpen self.now view }
        ensures { IfOk result (λ ids. tree_path self.now view ≡ tree_path self.now self.now.last ++ numbers ids.items) }
    {
        let mut ids = Vec::new(alloc);
        let mut at = view;
        while at != self.last {
            ids.push(ViewId {
                number: u64::from(at),
            })?;
            at = self.slot(at).parent;
        }
        ids.reverse();
        Ok(ids)
    }

    /// The changes of a live view.
    pub(crate) fn batch(&self, id: ViewId) -> &Batch
        requires few { length self.now.slots ≤ number_limit }
        requires live { live_at self.now id.number ≡ true }
        ensures { kept_batch (kept_at self.now id.number) ≡ Some result.now }
    {
        match &self.slot(self.known(id)).kept {
            Kept::Live(batch) => batch,
            Kept::Committed | Kept::Invalid | Kept::Closed => unreachable!(),
        }
    }
}
