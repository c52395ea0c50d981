// Opening a store.
ghost use Rattle.std.specs.Prelude.{◌≡◌, ◌⊎◌, ◌≤◌, ℕ, false, OnOk, IfOk, IfErr, IsErrOf};
ghost use Rattle.base_model.specs.Faults.{Rose};
ghost use Rattle.disk_model.specs.Moments.{LeavesOnly};
ghost use Rattle.disk_model.specs.Words.{TellsContents, TellsImages};
ghost use Rattle.trie_model.specs.Maps.{Map, limits, map_digests};
ghost use Rattle.bit_keys.specs.Branch.{width_of};
ghost use Rattle.store_model.specs.Journal.{Stands};
ghost use Rattle.mdb_journal.specs.DiskMoves.{AreSynced};
ghost use Rattle.mdb_journal.specs.Opening.{Untouched};
ghost use Rattle.value_store.specs.Values.{Keeps as ValuesKeep};
ghost use Rattle.store_model.specs.Openings.{Opens};
ghost use Rattle.change_history.specs.Histories.{no_commits};
ghost use Rattle.view_model.specs.Forest.{no_views};
ghost use Rattle.mdb_core.specs.Stores.{AreDigests, Keeps, is_failed};
ghost use Rattle.mdb_core.specs.StoreOpenings.{Opened, OpenFails};

use crate::fault::told;
use crate::{Config, Db, DbFault, Digests};
use bit_keys::Branch;
use change_history::History;
use disk_world::Disk;
use std::alloc::Global;
use value_store::ValueStore;
use view_stack::ViewStack;

impl Db {
    /// Opens the store of a disk, and makes it where there is none.
    pub fn open<D: Disk>(
        alloc: Global,
        disk: &mut D,
        branch: Branch,
        config: Config,
    ) -> Result<Db, DbFault>
        requires cache { (1 ≤ config.cache) × (config.cache ≤ 65536) }
        requires weight { config.weight ≤ 268435456 }
        ensures opened { TellsContents D.words.tells → IfOk result (Opened (width_of branch) (D.words.seen disk.old) (D.words.seen disk.new)) }
        ensures works { IfOk result (λ d. (is_failed d ≡ false) × (d.forest ≡ no_views) × (d.width ≡ width_of branch)) }
        ensures history { IfOk result (λ d. d.history ≡ no_commits config.commits config.weight d.root) }
        ensures refused { TellsContents D.words.tells → IfErr result (OpenFails (width_of branch) (D.words.seen disk.old)) }
        ensures kept { TellsContents D.words.tells → (m : Map) → Stands limits (D.words.seen disk.old) m → IsErrOf result DbFault.NoMemory → Stands limits (D.words.seen disk.new) m }
        ensures read_others { TellsContents D.words.tells → (file : ℕ) → 2 ≤ file → D.words.seen disk.new file ≡ D.words.seen disk.old file }
        ensures synced { TellsImages D.words.tells → OnOk result (AreSynced (D.words.seen disk.new) (D.words.moments disk.new)) }
        ensures left { TellsImages D.words.tells → (m : Map) → Stands limits (D.words.seen disk.old) m → OnOk result (LeavesOnly (λ image. Stands limits image m) (D.words.moments disk.new).now) }
        ensures others { TellsImages D.words.tells → (file : ℕ) → 2 ≤ file → (D.words.moments disk.new).now file ≡ (D.words.moments disk.old).now file }
        ensures opens { TellsImages D.words.tells → (m : Map) → Stands limits (D.words.seen disk.old) m → Opens limits m (D.words.moments disk.old) (D.words.moments disk.new) }
        ensures later { D.words.faults disk.old ≤ D.words.faults disk.new }
        ensures disk { IsErrOf result DbFault.Disk → Rose (D.words.faults disk.old) (D.words.faults disk.new) }
    {
        match ValueStore::open(alloc, disk, branch) {
            Ok(values) => rooted(alloc, disk, branch, config, values),
            Err(fault) => Err(told(fault)),
        }
    }
}

/// The store of these values, with the digests of all of them, the root, and no commit yet.
fn rooted<D: Disk>(
    alloc: Global,
    disk: &mut D,
    branch: Branch,
    config: Config,
    mut values: ValueStore,
) -> Result<Db, DbFault>
    requires works { values.journal.failed ≡ false }
    ensures keeps { TellsContents D.words.tells → (m : Map) → ValuesKeep values m (D.words.seen disk.old) → IfOk result (λ d. Keeps d m (D.words.seen disk.new)) }
    ensures works { IfOk result (λ d. (is_failed d ≡ false) × (d.forest ≡ no_views) × (d.width ≡ width_of branch)) }
    ensures history { IfOk result (λ d. d.history ≡ no_commits config.commits config.weight d.root) }
    ensures fault { IfErr result (λ fault. (fault ≡ DbFault.Disk) ⊎ (fault ≡ DbFault.NoMemory)) }
    ensures untouched { Untouched (D.words.seen disk.old) (D.words.seen disk.new) (D.words.moments disk.old) (D.words.moments disk.new) }
    ensures later { D.words.faults disk.old ≤ D.words.faults disk.new }
    ensures disk { IsErrOf result DbFault.Disk → Rose (D.words.faults disk.old) (D.words.faults disk.new) }
{
    let digests = match read_digests(alloc, disk, &mut values) {
        Ok(digests) => digests,
        Err(fault) => return Err(fault),
    };
    let root = match digests.root(alloc, branch) {
        Ok(root) => root,
        Err(_) => return Err(DbFault::NoMemory),
    };
    match History::new(alloc, config.commits, config.weight, root) {
        Ok(history) => Ok(Db {
            values,
            digests,
            root,
            branch,
            views: ViewStack::new(alloc),
            roots: Vec::new(alloc),
            history,
            nodes: None,
        }),
        Err(_) => Err(DbFault::NoMemory),
    }
}

/// Reads each value, in the order of the keys, and keeps its digest.
fn read_digests<D: Disk>(
    alloc: Global,
    disk: &mut D,
    values: &mut ValueStore,
) -> Result<Digests, DbFault>
    requires works { values.old.journal.failed ≡ false }
    ensures digests { TellsContents D.words.tells → (m : Map) → ValuesKeep values.old m (D.words.seen disk.old) → IfOk result (λ digests. digests ≡ map_digests m) }
    ensures some { IfOk result (λ digests. AreDigests digests) }
    ensures stays { OnOk result (values.new ≡ values.old) }
    ensures fault { IfErr result (λ fault. (fault ≡ DbFault.Disk) ⊎ (fault ≡ DbFault.NoMemory)) }
    ensures untouched { Untouched (D.words.seen disk.old) (D.words.seen disk.new) (D.words.moments disk.old) (D.words.moments disk.new) }
    ensures later { D.words.faults disk.old ≤ D.words.faults disk.new }
    ensures disk { IsErrOf result DbFault.Disk → Rose (D.words.faults disk.old) (D.words.faults disk.new) }
{
    let mut digests = Digests::new(alloc);
    match values.each(alloc, disk, &mut digests) {
        Ok(()) => Ok(digests),
        Err(fault) => Err(told(fault)),
    }
}
