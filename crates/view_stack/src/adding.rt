// Views more, and the store's path gone on.
ghost use Rattle.std.specs.Prelude.{◌≡◌, ◌+◌, ◌≤◌, ◌<◌, length, OnOk, is_ok};
ghost use Rattle.batch_model.specs.Batch.{batch_form};
ghost use Rattle.view_model.specs.Calls.{number_limit, weight_limit};
ghost use Rattle.view_stack.specs.Tree.{slot_at, kept_weight, added, added_committed, taken};
ghost use Rattle.view_stack.specs.Links.{IsSound, IsOpen, IsOn};

use crate::{Kept, Slot, Tree};
use mdb_base::{Batch, NoMemory};

impl Tree {
    /// Makes room for so many views more.
    pub(crate) fn reserve(&mut self, more: usize) -> Result<(), NoMemory>
        ensures same { self.new ≡ record self.old { capacity = self.new.capacity } }
        ensures room { OnOk result (length self.old.slots + more ≤ self.new.capacity) }
        ensures grows { self.old.capacity ≤ self.new.capacity }
    {
        match self.slots.reserve(more) {
            Ok(()) => Ok(()),
            Err(_) => Err(NoMemory),
        }
    }

    /// One live view more, on the store or on a live one.
    pub(crate) fn add(&mut self, parent: u32, batch: Box<Batch>)
        requires sound { IsSound self.old }
        requires on { IsOpen self.old parent }
        requires few { length self.old.slots < number_limit }
        requires light { self.old.weight + length (batch_form batch.value) ≤ weight_limit }
        requires spare { length self.old.slots < self.old.capacity }
        ensures { self.new ≡ added self.old parent (Kept.Live batch) }
    {
        let number = (self.slots.len() + 1) as u32;
        let next = self.first_on(parent);
        self.set_first_on(parent, number);
        if next != 0 {
            self.set_prev(next, number);
        }
        self.weight += batch.payload_len();
        self.slots.push_reserved(Slot {
            parent,
            first: 0,
            next,
            prev: 0,
            kept: Kept::Live(batch),
        });
    }

    /// A batch that is committed at once, where no view is live.
    pub(crate) fn add_committed(&mut self)
        requires few { length self.old.slots < number_limit }
        requires spare { length self.old.slots < self.old.capacity }
        ensures { self.new ≡ added_committed self.old }
    {
        let number = (self.slots.len() + 1) as u32;
        self.slots.push_reserved(Slot {
            parent: self.last,
            first: 0,
            next: 0,
            prev: 0,
            kept: Kept::Committed,
        });
        self.last = number;
    }

    /// The path of the store goes on by the only live view on it.
    pub(crate) fn take(&mut self, number: u32)
        requires sound { IsSound self.old }
        requires on { IsOn self.old self.old.last number }
        ensures { self.new ≡ taken self.old number }
    {
        let first = self.slot(number).first;
        self.let_go(number, Kept::Committed);
        self.last = number;
        self.top = first;
    }
}
