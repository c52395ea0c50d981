// Making a view, and closing one.
ghost use Rattle.std.specs.Prelude.{◌≡◌, ◌+◌, length, None, OnOk, IfOk, IfErr, OnErr, IsErrOf, MatchOption};
ghost use Rattle.disk_model.specs.Files.{Files};
ghost use Rattle.trie_model.specs.Maps.{Map, map_digests, map_items, root};
ghost use Rattle.trie_model.specs.Strings.{strings};
ghost use Rattle.batch_model.specs.Batch.{after_batch};
ghost use Rattle.view_model.specs.Forest.{next_number};
ghost use Rattle.view_model.specs.Calls.{view_refused, parent_refused, made, closed};
ghost use Rattle.view_model.specs.Maps.{parent_map};
ghost use Rattle.view_stack.specs.ViewAnswers.{number_in};
ghost use Rattle.mdb_core.specs.Stores.{Keeps, root_at};
ghost use Rattle.mdb_core.specs.Places.{fault_of_refusal};
ghost use Rattle.mdb_core.specs.Proposals.{Makes, MakeFails};

use crate::applying::PAYLOAD_LIMIT;
use crate::fault::told_of_view;
use crate::{Db, DbFault, ViewId};
use bit_keys::Id;
use disk_world::Disk;
use mdb_base::{Batch, NoMemory};
use std::alloc::Global;
use std::sync::ledger::Ledger;
use trie_items::Steps;

impl Db {
    /// Makes a view of a batch on the map or on a live view. Nothing is read or written.
    pub fn view<D: Disk, L: Ledger>(
        &mut self,
        alloc: Global,
        disk: &mut D,
        parent: Option<ViewId>,
        batch: Batch,
        steps: &mut Steps<L>,
    ) -> Result<ViewId, DbFault>
        ensures made { OnOk result (Makes self.old (number_in parent) batch) }
        ensures fault { IfErr result (MakeFails self.old (number_in parent) batch) }
        ensures refused { OnErr result (self.new ≡ self.old) }
        ensures number { IfOk result (λ id. id.number ≡ next_number self.old.forest) }
        ensures state { OnOk result (self.new ≡ record self.old { forest = made self.old.forest (number_in parent) batch; roots = self.new.roots }) }
        ensures root { (m : Map) → self.old.digests ≡ map_digests m
            → IfOk result (λ id. root_at self.new.roots id.number ≡ root self.old.width (after_batch (parent_map self.old.forest m (number_in parent)) batch)) }
        ensures keeps { (m : Map) (files : Files) → Keeps self.old m files → Keeps self.new m files }
        ensures ticks { (m : Map) → self.old.digests ≡ map_digests m
            → OnOk result (steps.new ≡ steps.old + length (strings self.old.width (map_items (after_batch (parent_map self.old.forest m (number_in parent)) batch)))) }
        ensures disk { disk.new ≡ disk.old }
    {
        let _ = disk;
        let root = match self.propose(alloc, parent, &batch, steps) {
            Ok(root) => root,
            Err(fault) => return Err(fault),
        };
        if self.roots.reserve(1).is_err() {
            return Err(DbFault::NoMemory);
        }
        match self.views.make(alloc, parent, batch) {
            Ok(id) => {
                self.roots.push_reserved(root);
                Ok(id)
            }
            Err(fault) => Err(told_of_view(fault)),
        }
    }

    /// Tests what can be told of a view before it is made, and makes its root.
    fn propose<L: Ledger>(
        &self,
        alloc: Global,
        parent: Option<ViewId>,
        batch: &Batch,
        steps: &mut Steps<L>,
    ) -> Result<Id, DbFault>
        ensures may { OnOk result (Makes self.now (number_in parent) batch.now) }
        ensures fault { IfErr result (MakeFails self.now (number_in parent) batch.now) }
        ensures root { (m : Map) → self.now.digests ≡ map_digests m → IfOk result (λ id. id ≡ root self.now.width (after_batch (parent_map self.now.forest m (number_in parent)) batch.now)) }
        ensures cost { (m : Map) → self.now.digests ≡ map_digests m
            → OnOk result (steps.new ≡ steps.old + length (strings self.now.width (map_items (after_batch (parent_map self.now.forest m (number_in parent)) batch.now)))) }
    {
        if let Err(fault) = self.admit_view(parent, batch) {
            return Err(fault);
        }
        match self.root_on(alloc, parent, batch, steps) {
            Ok(root) => Ok(root),
            Err(_) => Err(DbFault::NoMemory),
        }
    }

    /// Whether the store works, and may make this view.
    fn admit_view(&self, parent: Option<ViewId>, batch: &Batch) -> Result<(), DbFault>
        ensures may { OnOk result (Makes self.now (number_in parent) batch.now) }
        ensures fault { IfErr result (MakeFails self.now (number_in parent) batch.now) }
    {
        if self.values.failed() {
            return Err(DbFault::Failed);
        }
        if let Err(fault) = self.views.may(parent, batch) {
            return Err(told_of_view(fault));
        }
        let bytes = batch.payload_len();
        if bytes > PAYLOAD_LIMIT {
            return Err(DbFault::TooLarge(bytes));
        }
        Ok(())
    }

    /// The root of the map of a parent after a batch.
    fn root_on<L: Ledger>(
        &self,
        alloc: Global,
        parent: Option<ViewId>,
        batch: &Batch,
        steps: &mut Steps<L>,
    ) -> Result<Id, NoMemory>
        requires { parent_refused self.now.forest (number_in parent) ≡ None }
        ensures root { (m : Map) → self.now.digests ≡ map_digests m → IfOk result (λ id. id ≡ root self.now.width (after_batch (parent_map self.now.forest m (number_in parent)) batch.now)) }
        ensures cost { (m : Map) → self.now.digests ≡ map_digests m
            → OnOk result (steps.new ≡ steps.old + length (strings self.now.width (map_items (after_batch (parent_map self.now.forest m (number_in parent)) batch.now)))) }
    {
        let mut digests = self.digests_at(alloc, parent)?;
        digests.lay(alloc, batch)?;
        digests.counted_root(alloc, self.branch, steps)
    }

    /// Closes a live view, and those that stand on it.
    pub fn close_view(&mut self, id: ViewId) -> Result<(), DbFault>
        ensures closed { MatchOption (view_refused self.old.forest id.number)
            ((result ≡ Ok tt) × (self.new ≡ record self.old { forest = closed self.old.forest id.number }))
            (λ r. (result ≡ Err (fault_of_refusal r)) × (self.new ≡ self.old)) }
        ensures keeps { (m : Map) (files : Files) → Keeps self.old m files → Keeps self.new m files }
    {
        match self.views.close(id) {
            Ok(()) => Ok(()),
            Err(fault) => Err(told_of_view(fault)),
        }
    }
}
