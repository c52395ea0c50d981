// A file, and what of it is not safe.
ghost use Rattle.std.specs.Prelude.{◌≡◌, ◌≤◌, ◌+◌};
ghost use Rattle.std.proofs.Props.{props};
ghost use Rattle.mem_world.specs.File.{IsSound, file_with};

use crate::Pick;
use crate::bytes::FileBytes;
use std::alloc::{AllocError, Global};

/// The bytes of a file, with what it went through since its last successful sync.
///
/// The bytes are one of the images that a crash may leave, and so are those of that sync.
#[derive(Drop)]
pub struct MemFile {
    pub(crate) bytes: FileBytes,
    pub(crate) synced: Vec<u8>,
    pub(crate) least: u64,
    pub(crate) greatest: u64,
    pub(crate) touched: Vec<(u64, u64)>,
    ghost sound: { IsSound (file_with bytes.bytes.items synced.items least greatest touched.items) } by { Prim.hlevel props },
}

impl MemFile {
    ghost use Rattle.std.specs.Prelude.{◌≡◌, ◌≤◌, ◌+◌, [], length, IfOk, OnOk, OnErr};
    ghost use Rattle.disk_model.specs.Files.{file_limit};
    ghost use Rattle.disk_model.specs.Crash.{is_touched};
    ghost use Rattle.mem_world.specs.File.{resting, after_writing, after_failed_write, after_cutting, after_failed_cut, after_syncing};
    ghost use Rattle.mem_world.specs.declared.pick.Pick.TheVariants.{Noise};
    ghost use Rattle.mem_world.specs.Picks.{picked, noise_at};
    ghost use Rattle.mem_world.specs.Seen.{file_of};

    pub(crate) fn empty(alloc: Global) -> MemFile
        ensures { file_of result ≡ resting [] }
    {
        MemFile {
            bytes: FileBytes::empty(alloc),
            synced: Vec::new(alloc),
            least: 0,
            greatest: 0,
            touched: Vec::new(alloc),
        }
    }

    /// These bytes, just synced.
    pub(crate) fn holding(alloc: Global, bytes: &[u8]) -> Result<MemFile, AllocError>
        ensures { IfOk result (λ f. file_of f ≡ resting bytes.now) }
    {
        let len = bytes.len() as u64;
        Ok(MemFile {
            bytes: FileBytes::holding(Vec::from_slice(alloc, bytes)?),
            synced: Vec::from_slice(alloc, bytes)?,
            least: len,
            greatest: len,
            touched: Vec::new(alloc),
        })
    }

    /// Without memory the file is as it was. So it is after each call here.
    pub(crate) fn write(&mut self, at: u64, piece: &[u8]) -> Result<(), AllocError>
        requires { at + length piece.now ≤ file_limit }
        ensures ok { OnOk result (file_of self.new ≡ after_writing at piece.now (file_of self.old)) }
        ensures err { OnErr result (file_of self.new ≡ file_of self.old) }
    {
        let from = at.min(self.bytes.len());
        let to = at + piece.len() as u64;
        self.touched.push((from, to))?;
        let Ok(()) = self.bytes.write(at, piece) else {
            self.touched.pop();
            return Err(AllocError);
        };
        self.greatest = self.greatest.max(to);
        Ok(())
    }

    /// A write of so many bytes that failed.
    pub(crate) fn fail_write(&mut self, at: u64, count: u64) -> Result<(), AllocError>
        requires { at + count ≤ file_limit }
        ensures ok { OnOk result (file_of self.new ≡ after_failed_write at count (file_of self.old)) }
        ensures err { OnErr result (file_of self.new ≡ file_of self.old) }
    {
        let from = at.min(self.bytes.len());
        self.touched.push((from, at + count))?;
        self.greatest = self.greatest.max(at + count);
        Ok(())
    }

    pub(crate) fn cut(&mut self, length: u64)
        ensures { file_of self.new ≡ after_cutting length (file_of self.old) }
    {
        self.bytes.cut(length);
        self.least = length.min(self.least);
    }

    /// A cut that failed.
    pub(crate) fn fail_cut(&mut self, length: u64)
        ensures { file_of self.new ≡ after_failed_cut length (file_of self.old) }
    {
        self.least = length.min(self.least);
    }

    pub(crate) fn sync(&mut self, alloc: Global) -> Result<(), AllocError>
        ensures ok { OnOk result (file_of self.new ≡ after_syncing (file_of self.old)) }
        ensures err { OnErr result (file_of self.new ≡ file_of self.old) }
    {
        self.synced = Vec::from_slice(alloc, &self.bytes.bytes)?;
        self.least = self.bytes.len();
        self.greatest = self.bytes.len();
        self.touched.clear();
        Ok(())
    }

    /// Whether a write touched the byte at a place.
    fn is_touched(&self, place: u64) -> bool
        ensures { result ≡ is_touched (file_of self.now).unsynced.touched place }
    {
        self.touched
            .iter()
            .any(|range| range.0 <= place && place < range.1)
    }

    /// The byte at a place, or noise where the crash rule leaves it open.
    fn noise_at(&self, seed: u64, place: u64) -> u8
        ensures { result ≡ noise_at seed (file_of self.now).unsynced place }
    {
        if self.least <= place || self.is_touched(place) {
            ((seed % 256 + place % 256) % 256) as u8
        } else {
            self.synced.get(place as usize).copied().unwrap_or(0)
        }
    }

    /// The greatest length, with noise wherever the rule leaves a byte open.
    fn noise(&self, alloc: Global, seed: u64) -> Result<Vec<u8>, AllocError>
        ensures { IfOk result (λ bytes. bytes.items ≡ picked (Noise seed) (file_of self.now)) }
    {
        let mut bytes = Vec::new(alloc);
        for place in 0..self.greatest {
            bytes.push(self.noise_at(seed, place))?;
        }
        Ok(bytes)
    }

    /// What a crash leaves.
    pub(crate) fn crashed(&self, alloc: Global, pick: Pick) -> Result<Vec<u8>, AllocError>
        ensures { IfOk result (λ bytes. bytes.items ≡ picked pick (file_of self.now)) }
    {
        match pick {
            Pick::Kept => Vec::from_slice(alloc, &self.bytes.bytes),
            Pick::Lost => Vec::from_slice(alloc, &self.synced),
            Pick::Noise(seed) => self.noise(alloc, seed),
        }
    }
}
