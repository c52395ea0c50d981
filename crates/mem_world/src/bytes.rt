// The bytes of a file.
ghost use Rattle.std.specs.Prelude.{◌≡◌, ◌≤◌, ◌+◌, ◌-◌, ◌++◌, ◌↔◌, [], length, take, drop, replicate, OnOk, OnErr, IsTrue};
ghost use Rattle.std.proofs.Props.{props};
ghost use Rattle.disk_model.specs.Files.{IsFile, written, file_limit};

use std::alloc::{AllocError, Global};

/// How many bytes a file has at most.
const FILE_LIMIT: u64 = (1 << 63) - 1;

/// Whether the range of so many bytes ends within the longest file.
pub(crate) fn fits(at: u64, count: usize) -> bool
    ensures { IsTrue result ↔ (at + count ≤ file_limit) }
{
    at <= FILE_LIMIT && count as u64 <= FILE_LIMIT - at
}

// Fills up with zeros to a length.
fn reach(bytes: &mut Vec<u8>, to: usize) -> Result<(), AllocError>
    ensures ok { OnOk result (bytes.new.items ≡ bytes.old.items ++ replicate (to - length bytes.old.items) 0) }
    ensures err { OnErr result (bytes.new.items ≡ bytes.old.items) }
{
    if to <= bytes.len() {
        return Ok(());
    }
    bytes.resize(to, 0)
}

// Writes over what is there.
fn put(bytes: &mut Vec<u8>, at: usize, piece: &[u8])
    requires { at + length piece.now ≤ length bytes.old.items }
    ensures { bytes.new.items ≡ take at bytes.old.items ++ piece.now ++ drop (at + length piece.now) bytes.old.items }
{
    bytes[at..at + piece.len()].copy_from_slice(piece);
}

/// Bytes, and not more than a file may have.
#[derive(Drop)]
pub struct FileBytes {
    pub(crate) bytes: Vec<u8>,
    ghost is_file: { IsFile bytes.items } by { Prim.hlevel props },
}

impl FileBytes {
    ghost use Rattle.mem_world.specs.Seen.{bytes_of};

    pub(crate) fn empty(alloc: Global) -> FileBytes
        ensures { bytes_of result ≡ [] }
    {
        FileBytes {
            bytes: Vec::new(alloc),
        }
    }

    pub(crate) fn holding(bytes: Vec<u8>) -> FileBytes
        ensures { bytes_of result ≡ bytes.items }
    {
        FileBytes { bytes }
    }

    pub(crate) fn len(&self) -> u64
        ensures value { result ≡ length (bytes_of self.now) }
        ensures limit { result ≤ file_limit }
    {
        self.bytes.len() as u64
    }

    /// Fills the piece with the bytes that stand there, and says whether there are so many.
    pub(crate) fn read(&self, at: u64, into: &mut [u8]) -> bool
        ensures inside { IsTrue result ↔ (at + length into.new ≤ length (bytes_of self.now)) }
        ensures bytes { IsTrue result → into.new ≡ take (length into.new) (drop at (bytes_of self.now)) }
    {
        let len = self.bytes.len() as u64;
        let count = into.len() as u64;
        if len < at || len - at < count {
            return false;
        }
        into.copy_from_slice(&self.bytes[at as usize..(at + count) as usize]);
        true
    }

    /// Writes over what is there and past the end. Without memory the bytes are as they were.
    pub(crate) fn write(&mut self, at: u64, piece: &[u8]) -> Result<(), AllocError>
        requires { at + length piece.now ≤ file_limit }
        ensures ok { OnOk result (bytes_of self.new ≡ written (bytes_of self.old) at piece.now) }
        ensures err { OnErr result (bytes_of self.new ≡ bytes_of self.old) }
    {
        reach(&mut self.bytes, at as usize + piece.len())?;
        put(&mut self.bytes, at as usize, piece);
        Ok(())
    }

    pub(crate) fn cut(&mut self, length: u64)
        ensures { bytes_of self.new ≡ take length (bytes_of self.old) }
    {
        self.bytes.truncate(length as usize);
    }
}
