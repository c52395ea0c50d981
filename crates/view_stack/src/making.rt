// Views that are made, and direct batches.
ghost use Rattle.std.specs.Prelude.{◌≡◌, ◌+◌, ◌<◌, length, is_ok, max, if◌then◌else◌, OnOk, IfErr};
ghost use Rattle.view_model.specs.Calls.{number_limit, Make, Direct, Given, Step};
ghost use Rattle.view_stack.specs.ViewAnswers.{number_in, given_answer, RoomFails};

use crate::admitting::NUMBER_LIMIT;
use crate::{ViewFault, ViewId, ViewStack};
use mdb_base::Batch;
use std::alloc::Global;

impl ViewStack {
    /// Makes a view on the store, or on another view.
    pub fn make(
        &mut self,
        alloc: Global,
        parent: Option<ViewId>,
        batch: Batch,
    ) -> Result<ViewId, ViewFault>
        ensures step { Step self.old.forest (Make (number_in parent) batch) (given_answer result) self.new.forest }
        ensures room { self.new.room ≡ self.old.room }
    {
        let parent = match self.tree.admit(parent, &batch) {
            Ok(parent) => parent,
            Err(fault) => return Err(fault),
        };
        let Ok(batch) = Box::new(alloc, batch) else {
            return Err(ViewFault::NoMemory);
        };
        if self.tree.reserve(self.room + 1).is_err() {
            return Err(ViewFault::NoMemory);
        }
        self.tree.add(parent, batch);
        Ok(ViewId {
            number: self.tree.count() as u64,
        })
    }

    /// Makes room for one direct batch, so that it takes no memory.
    pub fn room(&mut self) -> Result<(), ViewFault>
        ensures few { OnOk result (length self.old.forest.views < number_limit) }
        ensures fault { IfErr result (RoomFails self.old.forest) }
        ensures forest { self.new.forest ≡ self.old.forest }
        ensures room { self.new.room ≡ (if is_ok result then max 1 self.old.room else self.old.room) }
    {
        if self.tree.count() >= NUMBER_LIMIT {
            return Err(ViewFault::TooMany);
        }
        if self.room == 0 {
            if self.tree.reserve(1).is_err() {
                return Err(ViewFault::NoMemory);
            }
            self.room = 1;
        }
        Ok(())
    }

    /// Gives the next number to a direct batch, and puts it on the path of the store.
    pub fn direct(&mut self) -> ViewId
        requires few { length self.old.forest.views < number_limit }
        requires room { 0 < self.old.room }
        ensures step { Step self.old.forest Direct (Given result.number) self.new.forest }
        ensures room { self.new.room + 1 ≡ self.old.room }
    {
        self.tree.end_above(0);
        self.tree.add_committed();
        self.room -= 1;
        let number = self.tree.count() as u64;
        ViewId { number }
    }
}
