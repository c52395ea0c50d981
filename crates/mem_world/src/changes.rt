// What the calls of a disk changed.
ghost use Rattle.std.specs.Prelude.{◌≡◌, ◌≤◌, ◌<◌, ◌++◌, ◌∷◌, [], length, map, OnOk, OnErr};
ghost use Rattle.mem_world.specs.Changes.{Fits, changed, step};
ghost use Rattle.mem_world.specs.Seen.{file_of};

use crate::file::MemFile;
use std::alloc::{AllocError, Global};

/// What a call did to a file.
#[derive(Drop)]
pub enum Change {
    /// These bytes were written at that place.
    Write(u64, Vec<u8>),
    /// A write of so many bytes at that place failed.
    FailedWrite(u64, u64),
    /// The file was cut to that length.
    Cut(u64),
    /// A cut to that length failed.
    FailedCut(u64),
    /// The file was synced.
    Sync,
}

/// A call that changed what a crash may leave.
#[derive(Drop)]
pub struct Call {
    pub(crate) file: u8,
    pub(crate) change: Change,
}

// Does it to a file.
fn apply(alloc: Global, file: &mut MemFile, change: &Change) -> Result<(), AllocError>
    requires { Fits change.now }
    ensures ok { OnOk result (file_of file.new ≡ changed change.now (file_of file.old)) }
    ensures err { OnErr result (file_of file.new ≡ file_of file.old) }
{
    match change {
        Change::Write(at, bytes) => file.write(*at, bytes),
        Change::FailedWrite(at, count) => file.fail_write(*at, *count),
        Change::Cut(length) => {
            file.cut(*length);
            Ok(())
        }
        Change::FailedCut(length) => {
            file.fail_cut(*length);
            Ok(())
        }
        Change::Sync => file.sync(alloc),
    }
}

// Does it to one of the files.
fn apply_call(alloc: Global, files: &mut [MemFile; 5], call: &Call) -> Result<(), AllocError>
    requires file { call.now.file ≤ 4 }
    requires fits { Fits call.now.change }
    ensures ok { OnOk result (map file_of files.new ≡ step call.now (map file_of files.old)) }
    ensures err { OnErr result (map file_of files.new ≡ map file_of files.old) }
    ensures inside { call.now.file < length (map file_of files.old) }
{
    match apply(alloc, &mut files[call.file as usize], &call.change) {
        Ok(()) => Ok(()),
        Err(error) => Err(error),
    }
}

/// Makes a call and notes it down. Without memory nothing is done.
pub(crate) fn make(
    alloc: Global,
    calls: &mut Vec<Call>,
    files: &mut [MemFile; 5],
    call: Call,
) -> Result<(), AllocError>
    requires file { call.file ≤ 4 }
    requires fits { Fits call.change }
    ensures files { OnOk result (map file_of files.new ≡ step call (map file_of files.old)) }
    ensures calls { OnOk result (calls.new.items ≡ calls.old.items ++ call ∷ []) }
    ensures err_files { OnErr result (map file_of files.new ≡ map file_of files.old) }
    ensures err_calls { OnErr result (calls.new.items ≡ calls.old.items) }
    ensures inside { call.file < length (map file_of files.old) }
{
    calls.reserve(1)?;
    apply_call(alloc, files, &call)?;
    if calls.push(call).is_err() {
        return Err(AllocError);
    }
    Ok(())
}
