// A disk of five files.
ghost use Rattle.std.specs.Prelude.{◌≤◌};
ghost use Rattle.disk_model.specs.Words.{DiskWords, IsDisk};
ghost use Rattle.disk_model.specs.Calls.{IsLen, IsRead, IsWrite, IsCut, IsSync};

use crate::Failed;

/// Five files, with the numbers 0 to 4.
///
/// A disk tells what is read of its files and what a crash may leave of them, or the first alone, or
/// neither. What it doesn't tell, no call says anything of.
pub trait Disk {
    /// What is known of it.
    ghost words: { DiskWords Self };

    /// How many bytes the file has.
    fn len(&mut self, file: u8) -> Result<u64, Failed>
        requires { file ≤ 4 }
        ensures { IsLen words file self.old self.new result };

    /// Fills the piece with the bytes that stand there. It fails where they are too few.
    fn read(&mut self, file: u8, at: u64, into: &mut [u8]) -> Result<(), Failed>
        requires { file ≤ 4 }
        ensures { IsRead words file at into.new self.old self.new result };

    /// Writes over what is there and past the end, and fills a gap before it with zeros.
    ///
    /// A write that failed may leave anything in its range, and so may a crash after any write, until
    /// the file is synced. The gap belongs to the range.
    fn write_at(&mut self, file: u8, at: u64, bytes: &[u8]) -> Result<(), Failed>
        requires { file ≤ 4 }
        ensures { IsWrite words file at bytes.now self.old self.new result };

    /// Shortens a file that is longer. A cut that failed may leave anything behind its place.
    fn cut(&mut self, file: u8, length: u64) -> Result<(), Failed>
        requires { file ≤ 4 }
        ensures { IsCut words file length self.old self.new result };

    /// From then on a crash leaves of the file what is read now.
    fn sync(&mut self, file: u8) -> Result<(), Failed>
        requires { file ≤ 4 }
        ensures { IsSync words file self.old self.new result };

    ghost lawful: { IsDisk words };
}
