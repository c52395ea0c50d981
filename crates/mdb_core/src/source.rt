// The maps of a store as sources of nodes.
ghost use Rattle.std.specs.Prelude.{◌≡◌, Some, option_map, OnOk, IfOk, IfErr, IfSome, IsErrOf};
ghost use Rattle.std.specs.FinMap as map_of;
ghost use Rattle.disk_model.specs.Words.{TellsContents};
ghost use Rattle.trie_model.specs.Maps.{Map, map_digests};
ghost use Rattle.trie_model.specs.Table.{table};
ghost use Rattle.batch_model.specs.Batch.{after_batch};
ghost use Rattle.view_model.specs.Forest.{Live, state};
ghost use Rattle.view_model.specs.Maps.{view_map};
ghost use Rattle.trie_items.specs.Shown.{shown_of};
ghost use Rattle.trie_items.specs.Sources.{HasReason, first_key, next_key, row_of};
ghost use Rattle.mdb_journal.specs.Opening.{Untouched};
ghost use Rattle.mdb_core.specs.Stores.{Keeps, is_failed};
ghost use Rattle.mdb_core.specs.Places.{GetFails, MayRead, Speaks, map_at};
ghost use Rattle.mdb_core.specs.Spots.{IsSpotOf, keys_at};
ghost use Rattle.mdb_core.specs.SourceReads.{Reads, source_answer};

use crate::naming::Found;
use crate::spot::{Past, Proposal, Spot};
use crate::{At, Db, DbFault, ViewId};
use bit_keys::Key;
use disk_world::Disk;
use mdb_base::{Batch, NoMemory};
use node_codec::Node;
use node_table::NodeTable;
use std::alloc::Global;
use trie_items::{NodeSource, ShownNode, SourceFault};

/// A store and its disk as a source of nodes, which lends both.
///
/// It tells the map of its spot, that of a view as long as the view is live, where the disk is that of
/// the store and tells what is read. It is made by its literal.
#[derive(Drop)]
pub struct DbSource<'b, D: Disk> {
    pub db: &'b mut Db,
    pub disk: &'b mut D,
    pub spot: &'b Spot,
}

impl<'b, D: Disk> NodeSource for DbSource<'b, D> {
    ghost use Rattle.mdb_core.specs.LentStores.{lending, lending-IsSource};

    ghost words = { lending D.words };

    fn root_key(&mut self, alloc: Global) -> Result<Option<Key>, SourceFault> {
        Ok(self.db.root_key_at(alloc, self.spot)?)
    }

    fn node(&mut self, alloc: Global, key: &Key) -> Result<Option<Node>, SourceFault> {
        Ok(self.db.node_at(alloc, self.spot, key)?)
    }

    fn shown(
        &mut self,
        alloc: Global,
        key: &Key,
        token: Option<u16>,
    ) -> Result<Option<ShownNode>, SourceFault> {
        Ok(self.db.shown_at(alloc, self.spot, key, token)?)
    }

    fn value(&mut self, alloc: Global, key: &[u8]) -> Result<Option<Vec<u8>>, SourceFault> {
        self.db.value_at(alloc, self.disk, self.spot, key)
    }

    fn next(
        &mut self,
        alloc: Global,
        from: &[u8],
        past: bool,
    ) -> Result<Option<Vec<u8>>, SourceFault> {
        Ok(self.db.next_at(alloc, self.spot, from, past)?)
    }

    ghost lawful = { lending-IsSource D.words };
}

impl Db {
    /// The spot of a place, for a source. Nothing is read or written.
    ///
    /// It makes the nodes of the map: those of the store's own map once after each commit, those of a view or of a past
    /// map each time.
    pub fn source<D: Disk>(&mut self, alloc: Global, disk: &mut D, at: At) -> Result<Spot, DbFault>
        ensures spot { (m : Map) → Speaks self.old m at → IfOk result (λ spot. IfSome (map_at self.old m at) (IsSpotOf self.new m spot)) }
        ensures may { OnOk result (MayRead self.old at) }
        ensures fault { IfErr result (GetFails self.old at) }
        ensures not_disk { IsErrOf result DbFault.Disk → ⊥ }
        ensures stays { self.new ≡ self.old }
        ensures disk { disk.new ≡ disk.old }
    {
        let _ = disk;
        let spot = match self.find(alloc, at) {
            Ok(Found::Store) => self.store_spot(alloc),
            Ok(Found::View(id)) => self.view_spot(alloc, id),
            Ok(Found::Past(undo)) => self.past_spot(alloc, undo),
            Ok(Found::Empty) => Ok(Spot::Empty),
            Err(fault) => return Err(fault),
        };
        match spot {
            Ok(spot) => Ok(spot),
            Err(_) => Err(DbFault::NoMemory),
        }
    }
}

impl Db {
    /// The nodes of the map, taken out where they were made before.
    fn take_nodes(&mut self, alloc: Global) -> Result<NodeTable, NoMemory>
        ensures nodes { (m : Map) → self.old.digests ≡ map_digests m → IfOk result (λ nodes. nodes ≡ table self.old.width m) }
        ensures stays { self.new ≡ self.old }
    {
        match self.nodes.take() {
            Some(nodes) => Ok(nodes),
            None => self.digests.nodes(alloc, self.branch),
        }
    }

    fn store_spot(&mut self, alloc: Global) -> Result<Spot, NoMemory>
        ensures spot { IfOk result (λ spot. spot ≡ Spot.Store) }
        ensures stays { self.new ≡ self.old }
    {
        let nodes = self.take_nodes(alloc)?;
        self.nodes = Some(nodes);
        Ok(Spot::Store)
    }

    fn view_spot(&self, alloc: Global, id: ViewId) -> Result<Spot, NoMemory>
        requires { state self.now.forest id.number ≡ Some Live }
        ensures { (m : Map) → self.now.digests ≡ map_digests m → IfOk result (λ spot. IsSpotOf self.now m spot (view_map self.now.forest m id.number)) }
    {
        let digests = self.digests_at(alloc, Some(id))?;
        let nodes = digests.nodes(alloc, self.branch)?;
        Ok(Spot::View(Proposal { id, digests, nodes }))
    }

    fn past_spot(&self, alloc: Global, undo: Batch) -> Result<Spot, NoMemory>
        ensures { (m : Map) → self.now.digests ≡ map_digests m → IfOk result (λ spot. IsSpotOf self.now m spot (after_batch m undo)) }
    {
        let mut digests = self.digests.copy(alloc)?;
        digests.lay(alloc, &undo)?;
        let nodes = digests.nodes(alloc, self.branch)?;
        Ok(Spot::Past(Past {
            undo,
            digests,
            nodes,
        }))
    }

    /// The key of the root node in the map of a spot.
    fn root_key_at(&mut self, alloc: Global, spot: &Spot) -> Result<Option<Key>, NoMemory>
        ensures key { (m : Map) (n : Map) → self.old.digests ≡ map_digests m → IsSpotOf self.old m spot.now n → IfOk result (λ key. key ≡ first_key (table self.old.width n)) }
        ensures stays { self.new ≡ self.old }
    {
        match spot {
            Spot::Store => {
                let nodes = self.take_nodes(alloc)?;
                let key = root_key_in(alloc, &nodes);
                self.nodes = Some(nodes);
                key
            }
            Spot::View(proposal) => root_key_in(alloc, &proposal.nodes),
            Spot::Past(past) => root_key_in(alloc, &past.nodes),
            Spot::Empty => Ok(None),
        }
    }

    /// The node at a key in the map of a spot.
    fn node_at(&mut self, alloc: Global, spot: &Spot, key: &Key) -> Result<Option<Node>, NoMemory>
        ensures node { (m : Map) (n : Map) → self.old.digests ≡ map_digests m → IsSpotOf self.old m spot.now n → IfOk result (λ node. node ≡ row_of key.now (table self.old.width n)) }
        ensures stays { self.new ≡ self.old }
    {
        match spot {
            Spot::Store => {
                let nodes = self.take_nodes(alloc)?;
                let node = nodes.node(alloc, key);
                self.nodes = Some(nodes);
                node
            }
            Spot::View(proposal) => proposal.nodes.node(alloc, key),
            Spot::Past(past) => past.nodes.node(alloc, key),
            Spot::Empty => Ok(None),
        }
    }

    /// What a path shows of the node at a key in the map of a spot, with the rest of the child at a token.
    fn shown_at(
        &mut self,
        alloc: Global,
        spot: &Spot,
        key: &Key,
        token: Option<u16>,
    ) -> Result<Option<ShownNode>, NoMemory>
        ensures shown { (m : Map) (n : Map) → self.old.digests ≡ map_digests m → IsSpotOf self.old m spot.now n → IfOk result (λ shown. shown ≡ option_map (shown_of token) (row_of key.now (table self.old.width n))) }
        ensures stays { self.new ≡ self.old }
    {
        match spot {
            Spot::Store => {
                let mut nodes = self.take_nodes(alloc)?;
                let shown = nodes.shown(alloc, key, token);
                self.nodes = Some(nodes);
                shown
            }
            Spot::View(proposal) => shown_in(alloc, &proposal.nodes, key, token),
            Spot::Past(past) => shown_in(alloc, &past.nodes, key, token),
            Spot::Empty => Ok(None),
        }
    }

    /// The value of a key in the map of a spot; None too where the spot names a view that is live no more.
    fn value_at<D: Disk>(
        &mut self,
        alloc: Global,
        disk: &mut D,
        spot: &Spot,
        key: &[u8],
    ) -> Result<Option<Vec<u8>>, SourceFault>
        ensures value { TellsContents D.words.tells → (m : Map) (n : Map) → Keeps self.old m (D.words.seen disk.old) → IsSpotOf self.old m spot.now n
            → IfOk result (λ value. option_map (λ v. v.items) value ≡ map_of.get n key.now) }
        ensures reads { Reads self.old self.new }
        ensures untouched { Untouched (D.words.seen disk.old) (D.words.seen disk.new) (D.words.moments disk.old) (D.words.moments disk.new) }
        ensures reason { HasReason (D.words.faults disk.old) (D.words.faults disk.new) (is_failed self.old) (is_failed self.new) result }
    {
        match spot {
            Spot::Store => answered(self.get(alloc, disk, At::Store, key)),
            Spot::View(proposal) => answered(self.get(alloc, disk, At::View(proposal.id), key)),
            Spot::Past(past) => self.past_value(alloc, disk, &past.undo, key),
            Spot::Empty => Ok(None),
        }
    }

    /// The value of a key in a past map, to which a batch leads back.
    fn past_value<D: Disk>(
        &mut self,
        alloc: Global,
        disk: &mut D,
        undo: &Batch,
        key: &[u8],
    ) -> Result<Option<Vec<u8>>, SourceFault>
        ensures value { TellsContents D.words.tells → (m : Map) → Keeps self.old m (D.words.seen disk.old)
            → IfOk result (λ value. option_map (λ v. v.items) value ≡ map_of.get (after_batch m undo.now) key.now) }
        ensures reads { Reads self.old self.new }
        ensures untouched { Untouched (D.words.seen disk.old) (D.words.seen disk.new) (D.words.moments disk.old) (D.words.moments disk.new) }
        ensures reason { HasReason (D.words.faults disk.old) (D.words.faults disk.new) (is_failed self.old) (is_failed self.new) result }
    {
        if self.values.failed() {
            return Err(SourceFault::Failed);
        }
        answered(self.get_past(alloc, disk, undo, key))
    }

    /// The least key at or above that one, or above it where `past`, in the map of a spot.
    fn next_at(
        &self,
        alloc: Global,
        spot: &Spot,
        from: &[u8],
        past: bool,
    ) -> Result<Option<Vec<u8>>, NoMemory>
        ensures { IfOk result (λ key. option_map (λ key. key.items) key ≡ next_key past from.now (keys_at self.now spot.now)) }
    {
        match spot {
            Spot::Store => self.digests.next(alloc, from, past),
            Spot::View(proposal) => proposal.digests.next(alloc, from, past),
            Spot::Past(former) => former.digests.next(alloc, from, past),
            Spot::Empty => Ok(None),
        }
    }
}

fn root_key_in(alloc: Global, nodes: &NodeTable) -> Result<Option<Key>, NoMemory>
    ensures { IfOk result (λ key. key ≡ first_key nodes.now) }
{
    match nodes.root_key() {
        None => Ok(None),
        Some(key) => match key.copy(alloc) {
            Ok(key) => Ok(Some(key)),
            Err(_) => Err(NoMemory),
        },
    }
}

/// What a path shows of the node at a key in a table that is lent: its row is searched, which takes less time than the
/// table that was made for the spot.
fn shown_in(
    alloc: Global,
    nodes: &NodeTable,
    key: &Key,
    token: Option<u16>,
) -> Result<Option<ShownNode>, NoMemory>
    ensures { IfOk result (λ shown. shown ≡ option_map (shown_of token) (row_of key.now nodes.now)) }
{
    match nodes.node(alloc, key)? {
        Some(node) => Ok(Some(ShownNode::of_node(alloc, node, token)?)),
        None => Ok(None),
    }
}

/// What a source answers where the store answers this.
fn answered(found: Result<Option<Vec<u8>>, DbFault>) -> Result<Option<Vec<u8>>, SourceFault>
    ensures { result ≡ source_answer found }
{
    match found {
        Ok(value) => Ok(value),
        Err(DbFault::Disk | DbFault::Failed) => Err(SourceFault::Failed),
        Err(DbFault::NoMemory) => Err(SourceFault::NoMemory),
        Err(_) => Ok(None),
    }
}
