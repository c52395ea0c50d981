// A disk that tells what is read, and nothing of crashes.
ghost use Rattle.std.specs.Prelude.{◌≡◌, ◌≤◌, ◌+◌, length, take, OnOk, OnErr};
ghost use Rattle.disk_model.specs.Files.{Alone, written, file_limit};
ghost use Rattle.mem_world.specs.Seen.{bytes_in};

use crate::bytes::{FileBytes, fits};
use disk_world::{Disk, Failed};
use std::alloc::{AllocError, Global};

/// Five files in memory. A call fails only where a read reaches past the end, where a write ends past
/// the longest file, and where memory is short. One that fails changes nothing.
#[derive(Drop)]
pub struct FlatDisk {
    pub(crate) files: [FileBytes; 5],
    pub(crate) faults: u64,
}

impl FlatDisk {
    ghost use Rattle.std.specs.Prelude.{◌≡◌, ℕ, [], OnOk};
    ghost use Rattle.base_model.specs.Faults.{HasCause, CountsFaults};
    ghost use Rattle.mem_world.specs.Told.{flat_words, flat_faults};

    /// Five empty files.
    pub fn new(alloc: Global) -> FlatDisk
        ensures seen { (file : ℕ) → flat_words.seen result file ≡ [] }
        ensures faults { flat_faults result ≡ 0 }
    {
        FlatDisk {
            files: [
                FileBytes::empty(alloc),
                FileBytes::empty(alloc),
                FileBytes::empty(alloc),
                FileBytes::empty(alloc),
                FileBytes::empty(alloc),
            ],
            faults: 0,
        }
    }

    /// Counts a fault.
    fn fault(&mut self) -> Result<(), Failed>
        ensures files { self.new.files ≡ self.old.files }
        ensures fails { OnOk result ⊥ }
        ensures cause { HasCause (flat_faults self.old) (flat_faults self.new) result }
        ensures faults { CountsFaults (flat_faults self.old) (flat_faults self.new) result }
    {
        self.faults = self.faults.saturating_add(1);
        Err(Failed)
    }
}

impl Disk for FlatDisk {
    ghost use Rattle.std.specs.Prelude.{◌≡◌, ◌≤◌, ◌<◌, ◌+◌, ◌⊎◌, ◌↔◌, length, OnErr, IsOk, IsErr};
    ghost use Rattle.base_model.specs.Faults.{CountsFaults};
    ghost use Rattle.disk_model.specs.Files.{file_limit};
    ghost use Rattle.disk_model.specs.Calls.{IsLen, IsRead, IsWrite, IsCut, IsSync};
    ghost use Rattle.mem_world.specs.Told.{flat_words, flat_faults};
    ghost use Rattle.mem_world.specs.Sound.{flat_is_disk};

    ghost words = { flat_words };

    fn len(&mut self, file: u8) -> Result<u64, Failed>
        requires { file ≤ 4 }
        ensures disk { IsLen flat_words file self.old self.new result }
        ensures ok { IsOk result }
        ensures faults { CountsFaults (flat_faults self.old) (flat_faults self.new) result }
    {
        Ok(self.files[file as usize].len())
    }

    fn read(&mut self, file: u8, at: u64, into: &mut [u8]) -> Result<(), Failed>
        requires { file ≤ 4 }
        ensures disk { IsRead flat_words file at into.new self.old self.new result }
        ensures past { IsErr result ↔ (length (flat_words.seen self.old file) < at + length into.new) }
        ensures faults { CountsFaults (flat_faults self.old) (flat_faults self.new) result }
    {
        if self.files[file as usize].read(at, into) {
            Ok(())
        } else {
            self.fault()
        }
    }

    fn write_at(&mut self, file: u8, at: u64, bytes: &[u8]) -> Result<(), Failed>
        requires { file ≤ 4 }
        ensures disk { IsWrite flat_words file at bytes.now self.old self.new result }
        ensures kept { OnErr result (flat_words.seen self.new ≡ flat_words.seen self.old) }
        ensures faults { CountsFaults (flat_faults self.old) (flat_faults self.new) result }
    {
        if !fits(at, bytes.len()) {
            return self.fault();
        }
        match write_one(&mut self.files, file, at, bytes) {
            Ok(()) => Ok(()),
            Err(_) => self.fault(),
        }
    }

    fn cut(&mut self, file: u8, length: u64) -> Result<(), Failed>
        requires { file ≤ 4 }
        ensures disk { IsCut flat_words file length self.old self.new result }
        ensures ok { IsOk result }
        ensures faults { CountsFaults (flat_faults self.old) (flat_faults self.new) result }
    {
        cut_one(&mut self.files, file, length);
        Ok(())
    }

    fn sync(&mut self, _file: u8) -> Result<(), Failed>
        requires { _file ≤ 4 }
        ensures disk { IsSync flat_words _file self.old self.new result }
        ensures ok { IsOk result }
        ensures faults { CountsFaults (flat_faults self.old) (flat_faults self.new) result }
    {
        Ok(())
    }

    ghost lawful = { flat_is_disk };
}

// Writes into one of five files.
fn write_one(files: &mut [FileBytes; 5], file: u8, at: u64, piece: &[u8]) -> Result<(), AllocError>
    requires file { file ≤ 4 }
    requires fits { at + length piece.now ≤ file_limit }
    ensures ok { OnOk result (Alone file (λ was is. is ≡ written was at piece.now) (bytes_in files.old) (bytes_in files.new)) }
    ensures err { OnErr result (bytes_in files.new ≡ bytes_in files.old) }
{
    match files[file as usize].write(at, piece) {
        Ok(()) => Ok(()),
        Err(error) => Err(error),
    }
}

// Cuts one of five files.
fn cut_one(files: &mut [FileBytes; 5], file: u8, length: u64)
    requires { file ≤ 4 }
    ensures { Alone file (λ was is. is ≡ take length was) (bytes_in files.old) (bytes_in files.new) }
{
    files[file as usize].cut(length);
}
