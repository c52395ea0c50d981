// All views by their numbers, and the live ones by what they stand on.
ghost use Rattle.std.specs.Prelude.{◌≡◌, ◌≤◌, ◌<◌, ◌-◌, length, slice_set, IsTrue, true};
ghost use Rattle.view_stack.specs.Tree.{Has, slot_at, first_on, with_first, with_next, with_prev, no_tree};

use crate::{Kept, Slot};
use std::alloc::Global;
use std::marker::Model;

/// All views that were made, in the order of their numbers. The live ones that were made on one view, or on the store,
/// are linked from the highest number to the lowest.
#[derive(Drop)]
pub(crate) struct Tree {
    pub(crate) slots: Vec<Slot>,
    /// The number that was committed last; 0 before the first commit.
    pub(crate) last: u32,
    /// The live view of the highest number that was made on the store as it is; 0 where there is none.
    pub(crate) top: u32,
    /// How many bytes the payloads of all live views have.
    pub(crate) weight: u64,
}

impl Model for Tree {
    ghost use Rattle.view_stack.specs.Slots.{TreeState};
    ghost use Rattle.std.specs.Prelude.{vec_capacity};

    ghost Value = { TreeState };

    ghost view = { λ t. record { slots = t.slots.items; last = t.last; top = t.top; weight = t.weight; capacity = vec_capacity t.slots } };
}

impl Tree {
    pub(crate) fn new(alloc: Global) -> Tree
        ensures { result ≡ no_tree }
    {
        Tree {
            slots: Vec::new(alloc),
            last: 0,
            top: 0,
            weight: 0,
        }
    }

    /// How many numbers were given.
    pub(crate) fn count(&self) -> usize
        ensures { result ≡ length self.now.slots }
    {
        self.slots.len()
    }

    pub(crate) fn slot(&self, number: u32) -> &Slot
        requires { Has self.now number }
        ensures { result.now ≡ slot_at self.now.slots number }
    {
        &self.slots[(number - 1) as usize]
    }

    /// The live view of the highest number that was made on this one, which is live or was committed last.
    pub(crate) fn first_on(&self, parent: u32) -> u32
        requires { parent ≤ length self.now.slots }
        ensures { result ≡ first_on self.now parent }
    {
        if parent == self.last {
            self.top
        } else if parent == 0 {
            0
        } else {
            self.slot(parent).first
        }
    }

    pub(crate) fn set_first_on(&mut self, parent: u32, first: u32)
        requires { parent ≤ length self.old.slots }
        ensures { self.new ≡ with_first self.old parent first }
    {
        if parent == self.last {
            self.top = first;
        } else if parent != 0 {
            let slot = &mut self.slots[(parent - 1) as usize];
            slot.first = first;
        }
    }

    pub(crate) fn set_next(&mut self, number: u32, next: u32)
        requires { Has self.old number }
        ensures { self.new ≡ with_next self.old number next }
    {
        let slot = &mut self.slots[(number - 1) as usize];
        slot.next = next;
    }

    pub(crate) fn set_prev(&mut self, number: u32, prev: u32)
        requires { Has self.old number }
        ensures { self.new ≡ with_prev self.old number prev }
    {
        let slot = &mut self.slots[(number - 1) as usize];
        slot.prev = prev;
    }
}
