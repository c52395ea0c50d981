// A payload, of which a piece is in memory.
ghost use Rattle.std.specs.Prelude.{◌≡◌, ◌+◌, ◌-◌, ◌≤◌, ◌^◌, ◌<◌, min, false, [], length, take, drop, IfOk, OnOk, OnErr, IsErrOf};
ghost use Rattle.base_model.specs.Faults.{Rose};
ghost use Rattle.disk_model.specs.Words.{TellsContents};
ghost use Rattle.mdb_journal.specs.Opening.{Untouched};
ghost use Rattle.value_store.specs.ChangeHeads.{head_limit};
ghost use Rattle.value_store.specs.PayloadPieces.{IsPieceOf};

use disk_world::{Disk, Failed};
use mdb_base::NoMemory;
use mdb_journal::Journal;
use std::alloc::Global;
use std::marker::Model;

/// How many bytes are read at once, where there are so many.
const PIECE: usize = 65_536;

/// The first bytes of a change, with room to spare: a head has 277 bytes at most.
const HEAD: usize = 300;

/// What is left of a payload, and the piece of it that was read. The room for the piece is made once.
#[derive(Drop)]
pub(crate) struct Pieces {
    room: Vec<u8>,
    start: usize,
    end: usize,
    place: u64,
    left: u64,
}

impl Model for Pieces {
    ghost use Rattle.std.specs.Prelude.{◌≡◌, ◌+◌, ◌-◌, ◌^◌, ◌<◌, ◌≤◌, vec_len, slice_range};
    ghost use Rattle.value_store.specs.PayloadPieces.{PieceState, piece_limit};

    ghost Value = { PieceState };

    ghost view = { λ p. record { place = p.place; left = p.left; piece = slice_range p.room.items p.start p.end } };

    ghost invariant = { λ p. (vec_len p.room ≡ piece_limit) × (p.start ≤ p.end) × (p.end ≤ piece_limit) × (p.end - p.start ≤ p.left) × (p.place + p.left < 2 ^ 64) };
}

// Reads so many bytes into the front of the room.
fn read_front<D: Disk>(
    disk: &mut D,
    journal: &mut Journal,
    place: u64,
    count: usize,
    room: &mut [u8],
) -> Result<(), Failed>
    requires fits { count ≤ length room.old }
    requires end { place + count ≤ journal.old.end }
    requires works { journal.old.failed ≡ false }
    ensures bytes { TellsContents D.words.tells → OnOk result (take count room.new ≡ take count (drop place (D.words.seen disk.old journal.old.file))) }
    ensures journal { OnOk result (journal.new ≡ journal.old) }
    ensures untouched { Untouched (D.words.seen disk.old) (D.words.seen disk.new) (D.words.moments disk.old) (D.words.moments disk.new) }
    ensures later { D.words.faults disk.old ≤ D.words.faults disk.new }
    ensures disk { OnErr result (Rose (D.words.faults disk.old) (D.words.faults disk.new)) }
{
    let Ok(()) = journal.read(disk, place, &mut room[..count]) else {
        return Err(Failed);
    };
    Ok(())
}

impl Pieces {
    /// Makes the room. There is no payload yet.
    pub(crate) fn new(alloc: Global) -> Result<Pieces, NoMemory> {
        Ok(Pieces {
            room: vec![in alloc; 0; PIECE]?,
            start: 0,
            end: 0,
            place: 0,
            left: 0,
        })
    }

    /// Goes to the payload that stands at a place.
    pub(crate) fn begin(&mut self, place: u64, length: u64)
        requires { place + length < 2 ^ 64 }
        ensures { self.new ≡ record { place = place; left = length; piece = [] } }
    {
        self.start = 0;
        self.end = 0;
        self.place = place;
        self.left = length;
    }

    /// Where the first byte stands that is left.
    pub(crate) fn place(&self) -> u64
        ensures is { result ≡ self.now.place }
        ensures limit { self.now.place + self.now.left < 2 ^ 64 }
    {
        self.place
    }

    /// How many bytes are left.
    pub(crate) fn left(&self) -> u64
        ensures { result ≡ self.now.left }
    {
        self.left
    }

    /// The first bytes that are left.
    pub(crate) fn piece(&self) -> &[u8]
        ensures all { result.now ≡ self.now.piece }
        ensures fits { length result.now ≤ self.now.left }
    {
        &self.room[self.start..self.end]
    }

    /// Goes on behind so many bytes.
    pub(crate) fn skip(&mut self, count: u64)
        requires { count ≤ self.old.left }
        ensures { self.new ≡ record { place = self.old.place + count; left = self.old.left - count; piece = drop count self.old.piece } }
    {
        let inside = (self.end - self.start) as u64;
        self.start = if count < inside {
            self.start + count as usize
        } else {
            self.end
        };
        self.place += count;
        self.left -= count;
    }

    /// Reads a piece where too little is there for the head of a change.
    pub(crate) fn fill<D: Disk>(
        &mut self,
        disk: &mut D,
        journal: &mut Journal,
    ) -> Result<(), Failed>
        requires end { self.old.place + self.old.left ≤ journal.old.end }
        requires works { journal.old.failed ≡ false }
        ensures stays { (self.new.place ≡ self.old.place) × (self.new.left ≡ self.old.left) }
        ensures enough { OnOk result (min head_limit self.old.left ≤ length self.new.piece) }
        ensures piece { TellsContents D.words.tells → IsPieceOf (D.words.seen disk.old journal.old.file) self.old → OnOk result (IsPieceOf (D.words.seen disk.old journal.old.file) self.new) }
        ensures journal { OnOk result (journal.new ≡ journal.old) }
        ensures untouched { Untouched (D.words.seen disk.old) (D.words.seen disk.new) (D.words.moments disk.old) (D.words.moments disk.new) }
        ensures later { D.words.faults disk.old ≤ D.words.faults disk.new }
        ensures disk { OnErr result (Rose (D.words.faults disk.old) (D.words.faults disk.new)) }
    {
        if (self.end - self.start) as u64 >= self.left.min(HEAD as u64) {
            return Ok(());
        }
        let count = self.left.min(PIECE as u64) as usize;
        self.start = 0;
        self.end = count;
        read_front(disk, journal, self.place, count, &mut self.room)
    }
}
