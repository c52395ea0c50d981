// Views that are closed or committed.
ghost use Rattle.std.specs.Prelude.{◌≡◌};
ghost use Rattle.view_model.specs.Calls.{Close, Commit, Done, Step, MayCommit};
ghost use Rattle.view_stack.specs.ViewAnswers.{done_answer};

use crate::{ViewFault, ViewId, ViewStack};

impl ViewStack {
    /// Closes a view, and the live ones that stand on it.
    pub fn close(&mut self, id: ViewId) -> Result<(), ViewFault>
        ensures step { Step self.old.forest (Close id.number) (done_answer result) self.new.forest }
        ensures room { self.new.room ≡ self.old.room }
    {
        match self.tree.live(id) {
            Ok(number) => {
                self.tree.end(number, true);
                Ok(())
            }
            Err(fault) => Err(fault),
        }
    }

    /// Puts a view on the path of the store. What does not stand on it ends.
    pub fn committed(&mut self, id: ViewId)
        requires { MayCommit self.old.forest id.number }
        ensures step { Step self.old.forest (Commit id.number) Done self.new.forest }
        ensures room { self.new.room ≡ self.old.room }
    {
        let number = self.tree.known(id);
        self.tree.end_above(number);
        self.tree.end_below(number);
        self.tree.take(number);
    }
}
