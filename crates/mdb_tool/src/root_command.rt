// The command `root`: the root of the map that an input makes.
ghost use Rattle.std.specs.Prelude.{IfOk, string_bytes, ◌≡◌};
ghost use Rattle.text_model.specs.Texts.{root_text};
ghost use Rattle.bit_keys.specs.Branch.{width_of};
ghost use Rattle.run_model.specs.OutsideThings.{DiskSeen, outside};
ghost use Rattle.run_model.specs.Command.{Root};
ghost use Rattle.run_model.specs.Root.{RootRuns};
ghost use Rattle.run_model.specs.Runs.{SharedRuns};
ghost use Rattle.mdb_tool.specs.Ends.{end_of};

use crate::map_lines::read_map;
use crate::status::Status;
use bit_keys::{Branch, Id};
use mdb_base::{NoMemory, Sink, Source, write_all};
use std::alloc::Global;

// The line that is printed.
fn line_of_root(alloc: Global, id: &Id) -> Result<String, NoMemory>
    ensures { IfOk result (λ text. string_bytes text ≡ root_text id.now) }
{
    let digits = hex::encode(alloc, id.as_slice())?;
    Ok(format!(in alloc; "root {digits}\n")?)
}

/// Reads lines of puts and deletions, and prints the root of the map that they make. It is handed no disk:
/// its clauses hold of each one, which is as it was.
pub(crate) fn run_root<S: Source, K: Sink>(
    alloc: Global,
    branch: Branch,
    input: &mut S,
    out: &mut K,
) -> Status
    ensures shared { (disk : DiskSeen) → let before = outside (S.left input.old) (S.faults input.old) (K.taken out.old) (K.faults out.old) disk in
        let after = outside (S.left input.new) (S.faults input.new) (K.taken out.new) (K.faults out.new) disk in
        SharedRuns Root (width_of branch) before after (end_of result) }
    ensures root { (disk : DiskSeen) → let before = outside (S.left input.old) (S.faults input.old) (K.taken out.old) (K.faults out.old) disk in
        let after = outside (S.left input.new) (S.faults input.new) (K.taken out.new) (K.faults out.new) disk in
        RootRuns (width_of branch) before after (end_of result) }
{
    let digests = match read_map(alloc, input) {
        Ok(digests) => digests,
        Err(fault) => return fault.status(),
    };
    let Ok(id) = digests.into_root(alloc, branch) else {
        return Status::NoMemory;
    };
    let Ok(line) = line_of_root(alloc, &id) else {
        return Status::NoMemory;
    };
    match write_all(out, line.as_bytes()) {
        Ok(()) => Status::Done,
        Err(_) => Status::Write,
    }
}
