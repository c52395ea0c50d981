// Reading the batches of a journal into an index.
ghost use Rattle.std.specs.Prelude.{◌≡◌, ℕ, suc, ◌+◌, ◌^◌, ◌<◌, ◌≤◌, false, None, List, length, Ok, Err, IfOk, IfErr, IfSome, OnOk, OnErr, IsErrOf};
ghost use Rattle.std.specs.FinMap as map_of;
ghost use Rattle.base_model.specs.Faults.{Rose};
ghost use Rattle.base_model.specs.Fields.{Field, number_at};
ghost use Rattle.disk_model.specs.Words.{TellsContents};
ghost use Rattle.trie_model.specs.Maps.{Map, limits};
ghost use Rattle.batch_model.specs.Batch.{BatchFault, Outside, batch_of};
ghost use Rattle.store_model.specs.Header.{first_gate};
ghost use Rattle.store_model.specs.Record.{Record};
ghost use Rattle.mdb_journal.specs.Journal.{Knows};
ghost use Rattle.mdb_journal.specs.Opening.{Untouched};
ghost use Rattle.value_store.specs.Index.{AreInFile, IsInFile, IsShort};
ghost use Rattle.value_store.specs.BatchReading.{laid, Shows, Midway, Counted, BatchRead, payload_at, place_behind};

use crate::Place;
use crate::heads::read_head;
use crate::index::Index;
use crate::last_key::LastKey;
use crate::pieces::Pieces;
use disk_world::Disk;
use mdb_base::{NoMemory, read_uvarint};
use mdb_journal::Journal;
use std::alloc::Global;

/// Why a batch is not read.
#[derive(Clone, Copy, Debug, PartialEq, Eq)]
pub(crate) enum BatchTrouble {
    /// The payload is outside the grammar.
    Outside,
    /// The disk failed.
    Disk,
    /// There was no memory.
    NoMemory,
}

/// An index that is being filled, and what is read on the way.
#[derive(Drop)]
pub(crate) struct Loader {
    alloc: Global,
    index: Index,
    pieces: Pieces,
    last: LastKey,
}

fn place_behind(start: u64, count: Option<u32>) -> Option<Place>
    ensures { result ≡ place_behind start count }
{
    match count {
        Some(count) => Some(Place { start, count }),
        None => None,
    }
}

// Puts a key at a place, or takes it out.
fn lay(alloc: Global, index: &mut Index, key: &[u8], place: Option<Place>) -> Result<(), NoMemory>
    requires { IsShort key.now }
    ensures { OnOk result (index.new ≡ laid index.old key.now place) }
{
    match place {
        Some(place) => index.put(Vec::from_slice(alloc, key)?, place),
        None => {
            index.remove(key);
            Ok(())
        }
    }
}

impl Loader {
    pub(crate) fn new(alloc: Global) -> Result<Loader, NoMemory>
        ensures { IfOk result (λ loader. loader.index ≡ map_of.empty) }
    {
        Ok(Loader {
            alloc,
            index: Index::new(alloc),
            pieces: Pieces::new(alloc)?,
            last: LastKey::new(alloc),
        })
    }

    pub(crate) fn into_index(self) -> Index
        ensures { result ≡ self.index }
    {
        self.index
    }

    // Goes to the changes of a batch, and tells how many there are.
    fn begin<D: Disk>(
        &mut self,
        disk: &mut D,
        journal: &mut Journal,
        place: u64,
        count: u64,
    ) -> Result<u64, BatchTrouble>
        requires end { place + count ≤ journal.old.end }
        requires limit { place + count < 2 ^ 64 }
        requires works { journal.old.failed ≡ false }
        ensures counted { TellsContents D.words.tells → journal.old.end ≤ length (D.words.seen disk.old journal.old.file)
            → let file = D.words.seen disk.old journal.old.file in IfOk result (λ n. Counted file (payload_at file place count) n self.new.pieces) }
        ensures outside { TellsContents D.words.tells → journal.old.end ≤ length (D.words.seen disk.old journal.old.file)
            → IsErrOf result BatchTrouble.Outside → number_at (λ _ _. Outside) (payload_at (D.words.seen disk.old journal.old.file) place count) 0 ≡ Err Outside }
        ensures place { OnOk result ((place ≤ self.new.pieces.place) × (self.new.pieces.place + self.new.pieces.left ≡ place + count)) }
        ensures last { self.new.last ≡ None }
        ensures index { self.new.index ≡ self.old.index }
        ensures journal { OnOk result (journal.new ≡ journal.old) }
        ensures untouched { Untouched (D.words.seen disk.old) (D.words.seen disk.new) (D.words.moments disk.old) (D.words.moments disk.new) }
        ensures later { D.words.faults disk.old ≤ D.words.faults disk.new }
        ensures disk { IsErrOf result BatchTrouble.Disk → Rose (D.words.faults disk.old) (D.words.faults disk.new) }
    {
        self.last.clear();
        self.pieces.begin(place, count);
        let Ok(()) = self.pieces.fill(disk, journal) else {
            return Err(BatchTrouble::Disk);
        };
        let Ok((changes, start)) = read_uvarint(self.pieces.piece(), 0) else {
            return Err(BatchTrouble::Outside);
        };
        self.pieces.skip(start as u64);
        Ok(changes)
    }

    // Reads the change that comes next.
    fn read_change<D: Disk>(
        &mut self,
        disk: &mut D,
        journal: &mut Journal,
    ) -> Result<(), BatchTrouble>
        requires end { self.old.pieces.place + self.old.pieces.left ≤ journal.old.end }
        requires behind { first_gate ≤ self.old.pieces.place }
        requires works { journal.old.failed ≡ false }
        ensures goes { TellsContents D.words.tells → (payload : List ℕ) (n : ℕ) (whole : Field BatchFault Map)
            → Midway (D.words.seen disk.old journal.old.file) payload (suc n) self.old.last self.old.pieces self.old.index whole
            → OnOk result (Midway (D.words.seen disk.old journal.old.file) payload n self.new.last self.new.pieces self.new.index whole) }
        ensures outside { TellsContents D.words.tells → (payload : List ℕ) (n : ℕ) (whole : Field BatchFault Map)
            → Midway (D.words.seen disk.old journal.old.file) payload (suc n) self.old.last self.old.pieces self.old.index whole
            → IsErrOf result BatchTrouble.Outside → whole ≡ Err Outside }
        ensures place { OnOk result ((self.old.pieces.place ≤ self.new.pieces.place) × (self.new.pieces.place + self.new.pieces.left ≡ self.old.pieces.place + self.old.pieces.left)) }
        ensures in_file { AreInFile journal.old.end self.old.index → OnOk result (AreInFile journal.old.end self.new.index) }
        ensures journal { OnOk result (journal.new ≡ journal.old) }
        ensures untouched { Untouched (D.words.seen disk.old) (D.words.seen disk.new) (D.words.moments disk.old) (D.words.moments disk.new) }
        ensures later { D.words.faults disk.old ≤ D.words.faults disk.new }
        ensures disk { IsErrOf result BatchTrouble.Disk → Rose (D.words.faults disk.old) (D.words.faults disk.new) }
    {
        let Ok(()) = self.pieces.fill(disk, journal) else {
            return Err(BatchTrouble::Disk);
        };
        let Some(head) = read_head(self.pieces.piece(), &self.last) else {
            return Err(BatchTrouble::Outside);
        };
        let length = head.length as u64;
        let whole = length + u64::from(head.count.unwrap_or(0));
        if self.pieces.left() < whole {
            return Err(BatchTrouble::Outside);
        }
        let start = self.pieces.place() + length;
        let place = place_behind(start, head.count);
        let Ok(()) = self.last.set(head.key) else {
            return Err(BatchTrouble::NoMemory);
        };
        let Ok(()) = lay(self.alloc, &mut self.index, head.key, place) else {
            return Err(BatchTrouble::NoMemory);
        };
        self.pieces.skip(whole);
        Ok(())
    }

    // Reads so many changes.
    fn read_changes<D: Disk>(
        &mut self,
        disk: &mut D,
        journal: &mut Journal,
        count: u64,
    ) -> Result<(), BatchTrouble>
        requires end { self.old.pieces.place + self.old.pieces.left ≤ journal.old.end }
        requires behind { first_gate ≤ self.old.pieces.place }
        requires works { journal.old.failed ≡ false }
        ensures goes { TellsContents D.words.tells → (payload : List ℕ) (whole : Field BatchFault Map)
            → Midway (D.words.seen disk.old journal.old.file) payload count self.old.last self.old.pieces self.old.index whole
            → OnOk result (Midway (D.words.seen disk.old journal.old.file) payload 0 self.new.last self.new.pieces self.new.index whole) }
        ensures outside { TellsContents D.words.tells → (payload : List ℕ) (whole : Field BatchFault Map)
            → Midway (D.words.seen disk.old journal.old.file) payload count self.old.last self.old.pieces self.old.index whole
            → IsErrOf result BatchTrouble.Outside → whole ≡ Err Outside }
        ensures in_file { AreInFile journal.old.end self.old.index → OnOk result (AreInFile journal.old.end self.new.index) }
        ensures journal { OnOk result (journal.new ≡ journal.old) }
        ensures untouched { Untouched (D.words.seen disk.old) (D.words.seen disk.new) (D.words.moments disk.old) (D.words.moments disk.new) }
        ensures later { D.words.faults disk.old ≤ D.words.faults disk.new }
        ensures disk { IsErrOf result BatchTrouble.Disk → Rose (D.words.faults disk.old) (D.words.faults disk.new) }
    {
        'changes: for _done in 0..count {
            match self.read_change(disk, journal) {
                Ok(()) => {}
                Err(trouble) => return Err(trouble),
            }
        }
        Ok(())
    }

    /// Lays the batch at a place of the active file on the index.
    pub(crate) fn read_batch<D: Disk>(
        &mut self,
        disk: &mut D,
        journal: &mut Journal,
        place: u64,
        count: u64,
    ) -> Result<(), BatchTrouble>
        requires behind { first_gate ≤ place }
        requires end { place + count ≤ journal.old.end }
        requires limit { place + count < 2 ^ 64 }
        requires works { journal.old.failed ≡ false }
        ensures read { TellsContents D.words.tells → journal.old.end ≤ length (D.words.seen disk.old journal.old.file) → (m : Map)
            → Shows (D.words.seen disk.old journal.old.file) m self.old.index
            → OnOk result (BatchRead (D.words.seen disk.old journal.old.file) (payload_at (D.words.seen disk.old journal.old.file) place count) m self.new.index) }
        ensures outside { TellsContents D.words.tells → journal.old.end ≤ length (D.words.seen disk.old journal.old.file) → (m : Map)
            → Shows (D.words.seen disk.old journal.old.file) m self.old.index
            → IsErrOf result BatchTrouble.Outside → batch_of limits (payload_at (D.words.seen disk.old journal.old.file) place count) ≡ Err Outside }
        ensures in_file { AreInFile journal.old.end self.old.index → OnOk result (AreInFile journal.old.end self.new.index) }
        ensures journal { OnOk result (journal.new ≡ journal.old) }
        ensures untouched { Untouched (D.words.seen disk.old) (D.words.seen disk.new) (D.words.moments disk.old) (D.words.moments disk.new) }
        ensures later { D.words.faults disk.old ≤ D.words.faults disk.new }
        ensures disk { IsErrOf result BatchTrouble.Disk → Rose (D.words.faults disk.old) (D.words.faults disk.new) }
    {
        let changes = match self.begin(disk, journal, place, count) {
            Ok(changes) => changes,
            Err(trouble) => return Err(trouble),
        };
        match self.read_changes(disk, journal, changes) {
            Ok(()) => {}
            Err(trouble) => return Err(trouble),
        }
        if self.pieces.left() > 0 {
            return Err(BatchTrouble::Outside);
        }
        Ok(())
    }
}
