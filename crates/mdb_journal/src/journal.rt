ghost use Rattle.std.specs.Prelude.{◌≡◌, ◌≤◌};
ghost use Rattle.disk_model.specs.Files.{file_limit};
ghost use Rattle.store_model.specs.Header.{first_gate};
ghost use Rattle.mdb_journal.specs.Journal.{JournalState};

use crate::header::FIRST_GATE;
use std::marker::Model;

/// The records of a disk's files 0 and 1. It belongs to the disk on which it was opened.
#[derive(Debug, Drop)]
pub struct Journal {
    pub(crate) file: u8,
    pub(crate) generation: u64,
    pub(crate) end: u64,
    pub(crate) failed: bool,
}

impl Model for Journal {
    ghost Value = { JournalState };

    ghost view = { λ j. record { file = j.file; generation = j.generation; end = j.end; failed = j.failed } };

    ghost invariant = { λ j. (j.file ≤ 1) × (j.end ≤ file_limit) };
}

impl Journal {
    /// The number of the file that is read and appended to.
    pub fn active(&self) -> u8
        ensures { result ≡ self.now.file }
    {
        self.file
    }

    /// The generation of that file.
    pub fn generation(&self) -> u64
        ensures { result ≡ self.now.generation }
    {
        self.generation
    }

    /// The place of the first record's gate.
    pub fn first(&self) -> u64
        ensures { result ≡ first_gate }
    {
        FIRST_GATE
    }

    /// The place of the first gate that is not open.
    pub fn end(&self) -> u64
        ensures is { result ≡ self.now.end }
        ensures limit { result ≤ file_limit }
    {
        self.end
    }

    /// Whether the disk failed in a call.
    pub fn failed(&self) -> bool
        ensures { result ≡ self.now.failed }
    {
        self.failed
    }
}
