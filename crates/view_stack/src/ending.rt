// Views that are live no more.
ghost use Rattle.std.specs.Prelude.{◌≡◌, ◌≢◌, ◌⊎◌, ◌≤◌, true, false};
ghost use Rattle.view_stack.specs.Tree.{Has, slot_at, kept_weight, kept_at, live_at, marked, let_go, unlinked};
ghost use Rattle.view_stack.specs.Links.{IsSound, IsLinked, IsOn, next_at};
ghost use Rattle.view_stack.specs.EndedViews.{Ends, IsOver, IsBeside};

use crate::{Kept, Tree};
use std::mem;

impl Kept {
    /// How many bytes the payload of the changes has that are kept.
    fn weight(&self) -> u64
        ensures { result ≡ kept_weight self.now }
    {
        match self {
            Kept::Live(batch) => batch.payload_len(),
            Kept::Committed | Kept::Invalid | Kept::Closed => 0,
        }
    }

    /// What is kept of a view that was closed, or that was not committed where another was.
    fn ended(closed: bool) -> Kept
        ensures { result ≡ marked closed }
    {
        if closed { Kept::Closed } else { Kept::Invalid }
    }
}

impl Tree {
    /// Lets go of the changes of a live view.
    pub(crate) fn let_go(&mut self, number: u32, mark: Kept)
        requires has { Has self.old number }
        requires weighs { kept_weight (kept_at self.old number) ≤ self.old.weight }
        ensures { self.new ≡ let_go self.old number mark }
    {
        let slot = &mut self.slots[(number - 1) as usize];
        let kept = mem::replace(&mut slot.kept, mark);
        self.weight -= kept.weight();
    }

    /// Takes a live view out of those that were made on the same one.
    fn unlink(&mut self, number: u32)
        requires linked { IsLinked self.old }
        requires live { live_at self.old number ≡ true }
        ensures { self.new ≡ unlinked self.old number }
    {
        let slot = self.slot(number);
        let (parent, next, prev) = (slot.parent, slot.next, slot.prev);
        if prev == 0 {
            self.set_first_on(parent, next);
        } else {
            self.set_next(prev, next);
        }
        if next != 0 {
            self.set_prev(next, prev);
        }
    }

    /// Ends a live view on which no live one was made.
    fn end_one(&mut self, number: u32, closed: bool)
        requires sound { IsSound self.old }
        requires live { live_at self.old number ≡ true }
        requires alone { (slot_at self.old.slots number).first ≡ 0 }
        ensures sound { IsSound self.new }
        ensures ends { Ends (marked closed) (λ n. n ≡ number) self.old self.new }
        ensures ended { live_at self.new number ≡ false }
    {
        self.unlink(number);
        self.let_go(number, Kept::ended(closed));
    }

    /// Ends a live view, and those that stand on it.
    pub(crate) fn end(&mut self, number: u32, closed: bool)
        requires sound { IsSound self.old }
        requires live { live_at self.old number ≡ true }
        ensures sound { IsSound self.new }
        ensures ends { Ends (marked closed) (IsOver self.old number) self.old self.new }
        ensures ended { live_at self.new number ≡ false }
    {
        let mut child = self.slot(number).first;
        while child != 0 {
            self.end(child, closed);
            child = self.slot(number).first;
        }
        self.end_one(number, closed);
    }

    /// Ends the live views that were made on the store and have higher numbers than this one; all of them for 0.
    pub(crate) fn end_above(&mut self, number: u32)
        requires sound { IsSound self.old }
        requires on { (number ≡ 0) ⊎ IsOn self.old self.old.last number }
        ensures sound { IsSound self.new }
        ensures ends { Ends (marked false) (IsBeside self.old number) self.old self.new }
        ensures on { (number ≡ 0) ⊎ IsOn self.new self.new.last number }
        ensures top { self.new.top ≡ number }
    {
        while self.top != number {
            let top = self.top;
            self.end(top, false);
        }
    }

    /// Ends the live views that were made on the store and have lower numbers than this one, the highest.
    pub(crate) fn end_below(&mut self, number: u32)
        requires sound { IsSound self.old }
        requires on { IsOn self.old self.old.last number }
        requires top { self.old.top ≡ number }
        ensures sound { IsSound self.new }
        ensures ends { Ends (marked false) (IsBeside self.old number) self.old self.new }
        ensures on { IsOn self.new self.new.last number }
        ensures top { self.new.top ≡ number }
        ensures alone { next_at self.new number ≡ 0 }
    {
        let mut next = self.slot(number).next;
        while next != 0 {
            self.end(next, false);
            next = self.slot(number).next;
        }
    }
}
