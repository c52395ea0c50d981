// The standard streams, and any other of std's readers and writers. What they hold is not told.
ghost use Rattle.std.specs.Prelude.{◌≡◌, ◌≤◌, None};
ghost use Rattle.std.specs.Io.{ReadsAtMost, WritesAtMost};
ghost use Rattle.std.specs.Io.KnownBytes.{ReadConsumes, WriteAppends};
ghost use Rattle.base_model.specs.Faults.{HasCause, TookNothing, TellsAlike, CountsFaults, one_more};
ghost use Rattle.real_world.specs.FailureCounts.{CountsWrites};
ghost use Rattle.real_world.specs.UntoldStreams.{untold};

use mdb_base::{Failed, Sink, Source};
use std::io::{Read, Write};

// Counts a failure.
fn counted(faults: &mut u64) -> Failed
    ensures count { faults.new ≡ one_more faults.old }
    ensures later { faults.old ≤ faults.new }
{
    *faults = faults.saturating_add(1);
    Failed
}

/// A reader of std as a source that counts its failures and tells nothing.
#[derive(Drop)]
pub struct StdSource<R: Read + Drop> {
    pub(crate) inner: R,
    pub(crate) faults: u64,
}

impl<R: Read + Drop> StdSource<R> {
    pub fn new(inner: R) -> Self
        ensures inner { result.inner ≡ inner }
        ensures faults { result.faults ≡ 0 }
    {
        StdSource { inner, faults: 0 }
    }
}

impl<R: Read + Drop> Source for StdSource<R> {
    ghost left = { λ _. None };

    ghost faults = { λ s. s.faults };

    fn read(&mut self, into: &mut [u8]) -> Result<usize, Failed>
        ensures bound { ReadsAtMost result into.new }
        ensures bytes { ReadConsumes untold untold result into.new }
        ensures tells { TellsAlike untold untold }
        ensures cause { HasCause self.old.faults self.new.faults result }
        ensures faults { CountsFaults self.old.faults self.new.faults result }
    {
        match self.inner.read(into) {
            Ok(count) => Ok(count),
            Err(_) => Err(counted(&mut self.faults)),
        }
    }
}

/// A writer of std as a sink that counts its failures and tells nothing.
#[derive(Drop)]
pub struct StdSink<W: Write + Drop> {
    pub(crate) inner: W,
    pub(crate) faults: u64,
}

impl<W: Write + Drop> StdSink<W> {
    pub fn new(inner: W) -> Self
        ensures inner { result.inner ≡ inner }
        ensures faults { result.faults ≡ 0 }
    {
        StdSink { inner, faults: 0 }
    }
}

impl<W: Write + Drop> Sink for StdSink<W> {
    ghost taken = { λ _. None };

    ghost faults = { λ s. s.faults };

    /// A write that takes nothing of a piece that is not empty counts as a failure too.
    fn write(&mut self, piece: &[u8]) -> Result<usize, Failed>
        ensures bound { WritesAtMost result piece.now }
        ensures bytes { WriteAppends untold untold result piece.now }
        ensures tells { TellsAlike untold untold }
        ensures cause { HasCause self.old.faults self.new.faults result }
        ensures nothing { TookNothing self.old.faults self.new.faults result piece.now }
        ensures faults { CountsWrites self.old.faults self.new.faults result piece.now }
    {
        match self.inner.write(piece) {
            Ok(0) => {
                if !piece.is_empty() {
                    counted(&mut self.faults);
                }
                Ok(0)
            }
            Ok(count) => Ok(count),
            Err(_) => Err(counted(&mut self.faults)),
        }
    }
}
