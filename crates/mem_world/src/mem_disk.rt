// A disk that tells what is read, and what a crash may leave.
ghost use Rattle.std.specs.Prelude.{◌≡◌, map};
ghost use Rattle.mem_world.specs.File.{resting};
ghost use Rattle.mem_world.specs.Changes.{after};
ghost use Rattle.mem_world.specs.Seen.{file_of};

use crate::Pick;
use crate::bytes::fits;
use crate::changes::{Call, Change, make};
use crate::file::MemFile;
use crate::stops::Stops;
use disk_world::{Disk, Failed, NoMemory};
use std::alloc::Global;

/// Five files in memory, which crash, and which fail the calls they are told to.
///
/// A write or a cut that is told to fail leaves what is read, and a crash may leave anything in its
/// range, as after one that was done. The files are what the calls made of those at the start.
#[derive(Drop)]
pub struct MemDisk {
    pub(crate) alloc: Global,
    pub(crate) start: [Vec<u8>; 5],
    pub(crate) files: [MemFile; 5],
    pub(crate) calls: Vec<Call>,
    pub(crate) stops: Stops,
    pub(crate) faults: u64,
    ghost replays: { map file_of files ≡ after (map (λ v. resting v.items) start) calls.items },
}

impl MemDisk {
    ghost use Rattle.std.specs.Prelude.{◌≡◌, ◌≤◌, ◌<◌, ◌⊎◌, ◌∷◌, ◌↔◌, [], ℕ, map, length, Some, IsTrue, IfOk, OnOk, OnErr};
    ghost use Rattle.base_model.specs.Faults.{HasCause, CountsFaults};
    ghost use Rattle.disk_model.specs.Crash.{IsImageOf};
    ghost use Rattle.mem_world.specs.File.{resting};
    ghost use Rattle.mem_world.specs.Picks.{picked};
    ghost use Rattle.mem_world.specs.Stops.{FailsNext, NeverFails, next_stops};
    ghost use Rattle.mem_world.specs.Changes.{Fits, step};
    ghost use Rattle.mem_world.specs.Told.{disk_files, disk_past, disk_stops, disk_faults, mem_words, Begun};

    /// Five empty files, just synced.
    pub fn new(alloc: Global) -> MemDisk
        ensures files { disk_files result ≡ map resting ([] ∷ [] ∷ [] ∷ [] ∷ [] ∷ []) }
        ensures past { disk_past result ≡ [] }
        ensures stops { NeverFails (disk_stops result) }
        ensures faults { disk_faults result ≡ 0 }
    {
        MemDisk {
            alloc,
            start: [
                Vec::new(alloc),
                Vec::new(alloc),
                Vec::new(alloc),
                Vec::new(alloc),
                Vec::new(alloc),
            ],
            files: [
                MemFile::empty(alloc),
                MemFile::empty(alloc),
                MemFile::empty(alloc),
                MemFile::empty(alloc),
                MemFile::empty(alloc),
            ],
            calls: Vec::new(alloc),
            stops: Stops::never(alloc),
            faults: 0,
        }
    }

    /// After so many further calls all fail.
    pub fn fuse(&mut self, calls: u64)
        ensures files { disk_files self.new ≡ disk_files self.old }
        ensures past { disk_past self.new ≡ disk_past self.old }
        ensures stops { disk_stops self.new ≡ record (disk_stops self.old) { fuse = Some calls } }
        ensures faults { disk_faults self.new ≡ disk_faults self.old }
    {
        self.stops.fuse = Some(calls);
    }

    /// Just these of the further calls fail, counted from 0.
    pub fn failing(&mut self, calls: Vec<u64>)
        ensures files { disk_files self.new ≡ disk_files self.old }
        ensures past { disk_past self.new ≡ disk_past self.old }
        ensures stops { disk_stops self.new ≡ record (disk_stops self.old) { failing = calls; call = 0 } }
        ensures faults { disk_faults self.new ≡ disk_faults self.old }
    {
        self.stops.failing = calls;
        self.stops.call = 0;
    }

    /// The disk that a crash leaves, just synced. No call of it is told to fail.
    pub fn crash(&self, pick: Pick) -> Result<MemDisk, NoMemory>
        ensures picked { IfOk result (λ disk. disk_files disk ≡ map (λ f. resting (picked pick f)) (disk_files self.now)) }
        ensures image { IfOk result (λ disk. IsImageOf (mem_words.moments self.now).now (mem_words.seen disk)) }
        ensures past { IfOk result (λ disk. disk_past disk ≡ []) }
        ensures stops { IfOk result (λ disk. NeverFails (disk_stops disk)) }
        ensures faults { IfOk result (λ disk. disk_faults disk ≡ 0) }
    {
        self.left(pick)
    }

    fn left(&self, pick: Pick) -> Result<MemDisk, NoMemory>
        ensures picked { IfOk result (λ disk. disk_files disk ≡ map (λ f. resting (picked pick f)) (disk_files self.now)) }
        ensures past { IfOk result (λ disk. disk_past disk ≡ []) }
        ensures stops { IfOk result (λ disk. NeverFails (disk_stops disk)) }
        ensures faults { IfOk result (λ disk. disk_faults disk ≡ 0) }
    {
        let alloc = self.alloc;
        MemDisk::holding(
            alloc,
            self.files[0].crashed(alloc, pick)?,
            self.files[1].crashed(alloc, pick)?,
            self.files[2].crashed(alloc, pick)?,
            self.files[3].crashed(alloc, pick)?,
            self.files[4].crashed(alloc, pick)?,
        )
    }

    // Five files of these bytes, just synced.
    fn holding(
        alloc: Global,
        first: Vec<u8>,
        second: Vec<u8>,
        third: Vec<u8>,
        fourth: Vec<u8>,
        fifth: Vec<u8>,
    ) -> Result<MemDisk, NoMemory>
        ensures files { IfOk result (λ disk. disk_files disk ≡ map resting (first.items ∷ second.items ∷ third.items ∷ fourth.items ∷ fifth.items ∷ [])) }
        ensures past { IfOk result (λ disk. disk_past disk ≡ []) }
        ensures stops { IfOk result (λ disk. NeverFails (disk_stops disk)) }
        ensures faults { IfOk result (λ disk. disk_faults disk ≡ 0) }
    {
        let files = [
            MemFile::holding(alloc, &first)?,
            MemFile::holding(alloc, &second)?,
            MemFile::holding(alloc, &third)?,
            MemFile::holding(alloc, &fourth)?,
            MemFile::holding(alloc, &fifth)?,
        ];
        Ok(MemDisk {
            alloc,
            start: [first, second, third, fourth, fifth],
            files,
            calls: Vec::new(alloc),
            stops: Stops::never(alloc),
            faults: 0,
        })
    }

    // Counts a fault.
    fn fault<T: Drop>(&mut self) -> Result<T, Failed>
        ensures files { disk_files self.new ≡ disk_files self.old }
        ensures past { disk_past self.new ≡ disk_past self.old }
        ensures stops { disk_stops self.new ≡ disk_stops self.old }
        ensures fails { OnOk result ⊥ }
        ensures cause { HasCause (disk_faults self.old) (disk_faults self.new) result }
        ensures faults { CountsFaults (disk_faults self.old) (disk_faults self.new) result }
    {
        self.faults = self.faults.saturating_add(1);
        Err(Failed)
    }

    // Makes the change, or counts a fault where there is no memory for it.
    fn done(&mut self, file: u8, change: Change) -> Result<(), Failed>
        requires file { file ≤ 4 }
        requires fits { Fits change }
        ensures files { OnOk result (disk_files self.new ≡ step (record { file = file; change = change }) (disk_files self.old)) }
        ensures past { OnOk result (disk_past self.new ≡ disk_files self.old ∷ disk_past self.old) }
        ensures err_files { OnErr result (disk_files self.new ≡ disk_files self.old) }
        ensures err_past { OnErr result (disk_past self.new ≡ disk_past self.old) }
        ensures inside { file < length (disk_files self.old) }
        ensures stops { disk_stops self.new ≡ disk_stops self.old }
        ensures cause { HasCause (disk_faults self.old) (disk_faults self.new) result }
        ensures faults { CountsFaults (disk_faults self.old) (disk_faults self.new) result }
    {
        let call = Call { file, change };
        match make(self.alloc, &mut self.calls, &mut self.files, call) {
            Ok(()) => Ok(()),
            Err(_) => self.fault(),
        }
    }

    // Fails a call that was begun. Its change is made where there is memory for it.
    fn begun(&mut self, file: u8, change: Change) -> Result<(), Failed>
        requires file { file ≤ 4 }
        requires fits { Fits change }
        ensures ends { Begun (record { file = file; change = change }) self.old self.new }
        ensures inside { file < length (disk_files self.old) }
        ensures stops { disk_stops self.new ≡ disk_stops self.old }
        ensures fails { OnOk result ⊥ }
        ensures cause { HasCause (disk_faults self.old) (disk_faults self.new) result }
        ensures faults { CountsFaults (disk_faults self.old) (disk_faults self.new) result }
    {
        let call = Call { file, change };
        let _made = make(self.alloc, &mut self.calls, &mut self.files, call);
        self.fault()
    }
}

impl Disk for MemDisk {
    ghost use Rattle.std.specs.Prelude.{◌≡◌, ◌≤◌, ◌<◌, ◌+◌, ◌⊎◌, length, IsErr};
    ghost use Rattle.disk_model.specs.Calls.{IsLen, IsRead, IsWrite, IsCut, IsSync};
    ghost use Rattle.mem_world.specs.Stops.{FailsNext};
    ghost use Rattle.mem_world.specs.Told.{mem_words, disk_stops, Heeds};
    ghost use Rattle.mem_world.specs.Sound.{mem_is_disk};

    ghost words = { mem_words };

    fn len(&mut self, file: u8) -> Result<u64, Failed>
        requires { file ≤ 4 }
        ensures disk { IsLen mem_words file self.old self.new result }
        ensures heeds { Heeds self.old self.new result }
        ensures only { IsErr result → FailsNext (disk_stops self.old) }
    {
        if self.stops.next() {
            return self.fault();
        }
        Ok(self.files[file as usize].bytes.len())
    }

    fn read(&mut self, file: u8, at: u64, into: &mut [u8]) -> Result<(), Failed>
        requires { file ≤ 4 }
        ensures disk { IsRead mem_words file at into.new self.old self.new result }
        ensures heeds { Heeds self.old self.new result }
        ensures only { IsErr result → FailsNext (disk_stops self.old) ⊎ (length (mem_words.seen self.old file) < at + length into.new) }
    {
        if self.stops.next() {
            return self.fault();
        }
        if self.files[file as usize].bytes.read(at, into) {
            Ok(())
        } else {
            self.fault()
        }
    }

    fn write_at(&mut self, file: u8, at: u64, bytes: &[u8]) -> Result<(), Failed>
        requires { file ≤ 4 }
        ensures disk { IsWrite mem_words file at bytes.now self.old self.new result }
        ensures heeds { Heeds self.old self.new result }
    {
        let stopped = self.stops.next();
        if !fits(at, bytes.len()) {
            return self.fault();
        }
        if stopped {
            return self.begun(file, Change::FailedWrite(at, bytes.len() as u64));
        }
        let Ok(copy) = Vec::from_slice(self.alloc, bytes) else {
            return self.fault();
        };
        self.done(file, Change::Write(at, copy))
    }

    fn cut(&mut self, file: u8, length: u64) -> Result<(), Failed>
        requires { file ≤ 4 }
        ensures disk { IsCut mem_words file length self.old self.new result }
        ensures heeds { Heeds self.old self.new result }
    {
        if self.stops.next() {
            return self.begun(file, Change::FailedCut(length));
        }
        self.done(file, Change::Cut(length))
    }

    fn sync(&mut self, file: u8) -> Result<(), Failed>
        requires { file ≤ 4 }
        ensures disk { IsSync mem_words file self.old self.new result }
        ensures heeds { Heeds self.old self.new result }
    {
        if self.stops.next() {
            return self.fault();
        }
        self.done(file, Change::Sync)
    }

    ghost lawful = { mem_is_disk };
}
