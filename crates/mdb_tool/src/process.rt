// What the process does around the top call.
ghost use Rattle.std.specs.Prelude.{◌≡◌, ◌≢◌, ◌++◌, [], IfOk, IfErr, IfSome, None, false, map, string_bytes};
ghost use Rattle.std.specs.Process.{exit_status};
ghost use Rattle.run_model.specs.OutsideThings.{outside, output_seen, disk_seen};
ghost use Rattle.run_model.specs.Runs.{Runs};
ghost use Rattle.mdb_tool.specs.declared.status.Status.{Status};
ghost use Rattle.mdb_tool.specs.AskedTexts.{asked};
ghost use Rattle.mdb_tool.specs.Ends.{end_of};
ghost use Rattle.mdb_tool.specs.Process.{PrintsText, Answers, TakesText, TellsEnd, Greets, is_greeted, told_text, EndsBy, end_line};
ghost use Rattle.mdb_tool.specs.Hints.{hint_lines, end_hint as end_hint_of, unread_hint as unread_hint_of};

use crate::help::{HELP, VERSION, asked_text};
use crate::hints::{GREETING, Hint, end_hint, hint_line, reads_lines, unread_hint};
use crate::program::run;
use crate::status::{Status, status_line, status_number};
use disk_world::Disk;
use mdb_base::{NoMemory, Sink, Source, write_all};
use std::alloc::Global;
use std::process::ExitCode;

/// Which of the standard streams are terminals.
#[derive(Clone, Copy, Debug, PartialEq, Eq)]
pub(crate) struct Terminals {
    /// Standard input.
    pub(crate) input: bool,
    /// Standard error.
    pub(crate) errors: bool,
}

/// Does what the words ask for, tells on `err` why the work is not finished, and gives the number of
/// the status. Words that could not be read come with their status.
pub(crate) fn carry_out<S: Source, K: Sink, D: Disk, E: Sink>(
    alloc: Global,
    terminals: Terminals,
    words: Result<Vec<String>, Status>,
    input: &mut S,
    out: &mut K,
    disk: &mut D,
    err: &mut E,
) -> ExitCode
    // The words are answered by a status, which is told on `err` and gives the number.
    ensures answered { IfOk words (λ words. (status : Status) ×
        (let given = map string_bytes words.items in
        let before = outside (S.left input.old) (S.faults input.old) (K.taken out.old) (K.faults out.old) (disk_seen D.words disk.old) in
        let after = outside (S.left input.new) (S.faults input.new) (K.taken out.new) (K.faults out.new) (disk_seen D.words disk.new) in
        Answers (asked HELP.now VERSION.now given) given before after (end_of status))
        × (let given = map string_bytes words.items in
        EndsBy (is_greeted terminals given) GREETING.now (told_text terminals.errors given (end_hint_of given (end_of status)) (end_of status)) (end_of status)
        (output_seen (E.taken err.old) (E.faults err.old)) (output_seen (E.taken err.new) (E.faults err.new)) (exit_status result))) }

    // Words that could not be read have their status: it is told, and nothing else is touched.
    ensures refused { IfErr words (λ status.
        EndsBy false GREETING.now (told_text terminals.errors [] (unread_hint_of (end_of status)) (end_of status)) (end_of status)
        (output_seen (E.taken err.old) (E.faults err.old)) (output_seen (E.taken err.new) (E.faults err.new)) (exit_status result)) }
    ensures untouched { IfErr words (λ _.
        outside (S.left input.new) (S.faults input.new) (K.taken out.new) (K.faults out.new) (disk_seen D.words disk.new)
        ≡ outside (S.left input.old) (S.faults input.old) (K.taken out.old) (K.faults out.old) (disk_seen D.words disk.old)) }
{
    match words {
        Ok(words) => carry_out_words(alloc, terminals, &words, input, out, disk, err),
        Err(status) => refuse(alloc, terminals, &status, err),
    }
}

// Carries out words that were read.
fn carry_out_words<S: Source, K: Sink, D: Disk, E: Sink>(
    alloc: Global,
    terminals: Terminals,
    words: &[String],
    input: &mut S,
    out: &mut K,
    disk: &mut D,
    err: &mut E,
) -> ExitCode
    ensures { (status : Status) ×
        (let given = map string_bytes words.now in
        let before = outside (S.left input.old) (S.faults input.old) (K.taken out.old) (K.faults out.old) (disk_seen D.words disk.old) in
        let after = outside (S.left input.new) (S.faults input.new) (K.taken out.new) (K.faults out.new) (disk_seen D.words disk.new) in
        Answers (asked HELP.now VERSION.now given) given before after (end_of status))
        × (let given = map string_bytes words.now in
        EndsBy (is_greeted terminals given) GREETING.now (told_text terminals.errors given (end_hint_of given (end_of status)) (end_of status)) (end_of status)
        (output_seen (E.taken err.old) (E.faults err.old)) (output_seen (E.taken err.new) (E.faults err.new)) (exit_status result)) }
{
    greet(terminals, words, err);
    let status = answer(alloc, words, input, out, disk);
    let hint = end_hint(words, &status);
    report(alloc, terminals.errors, words, hint, &status, err);
    ExitCode::from(status_number(&status))
}

// Ends where the words could not be read.
fn refuse<E: Sink>(alloc: Global, terminals: Terminals, status: &Status, err: &mut E) -> ExitCode
    ensures { EndsBy false GREETING.now (told_text terminals.errors [] (unread_hint_of (end_of status.now)) (end_of status.now)) (end_of status.now)
        (output_seen (E.taken err.old) (E.faults err.old)) (output_seen (E.taken err.new) (E.faults err.new)) (exit_status result) }
{
    let hint = unread_hint(status);
    report(alloc, terminals.errors, &[], hint, status, err);
    ExitCode::from(status_number(status))
}

// Whether a greeting is due.
fn is_greeting_due(terminals: Terminals, words: &[String]) -> bool
    ensures { result ≡ is_greeted terminals (map string_bytes words.now) }
{
    terminals.input && terminals.errors && reads_lines(words)
}

// Tells a terminal that lines are read from one. Where the sink fails, the run goes on.
fn greet<E: Sink>(terminals: Terminals, words: &[String], err: &mut E)
    ensures { Greets (is_greeted terminals (map string_bytes words.now)) GREETING.now
        (output_seen (E.taken err.old) (E.faults err.old)) (output_seen (E.taken err.new) (E.faults err.new)) }
{
    if is_greeting_due(terminals, words) {
        write_greeting(err);
    }
}

fn write_greeting<E: Sink>(err: &mut E)
    ensures { TakesText GREETING.now (output_seen (E.taken err.old) (E.faults err.old)) (output_seen (E.taken err.new) (E.faults err.new)) }
{
    let _ = write_all(err, GREETING.as_bytes());
}

/// Does what the words ask for: writes a text about the program, or runs.
pub(crate) fn answer<S: Source, K: Sink, D: Disk>(
    alloc: Global,
    words: &[String],
    input: &mut S,
    out: &mut K,
    disk: &mut D,
) -> Status
    // Where a text is asked for, it is written and nothing is read.
    ensures asked { IfSome (asked HELP.now VERSION.now (map string_bytes words.now)) (λ text.
        let before = outside (S.left input.old) (S.faults input.old) (K.taken out.old) (K.faults out.old) (disk_seen D.words disk.old) in
        let after = outside (S.left input.new) (S.faults input.new) (K.taken out.new) (K.faults out.new) (disk_seen D.words disk.new) in
        PrintsText text before after (end_of result)) }
    // For all other words all that a run promises holds.
    ensures run { let given = map string_bytes words.now in
        let before = outside (S.left input.old) (S.faults input.old) (K.taken out.old) (K.faults out.old) (disk_seen D.words disk.old) in
        let after = outside (S.left input.new) (S.faults input.new) (K.taken out.new) (K.faults out.new) (disk_seen D.words disk.new) in
        asked HELP.now VERSION.now given ≡ None → Runs given before after (end_of result) }
{
    let Some(text) = asked_text(words) else {
        return run(alloc, words, input, out, disk);
    };
    match write_all(out, text.as_bytes()) {
        Ok(()) => Status::Done,
        Err(_) => Status::Write,
    }
}

/// Tells why the work is not finished, and a terminal the hint too. Where the sink fails, the number of the
/// status alone tells.
pub(crate) fn report<E: Sink>(
    alloc: Global,
    terminal: bool,
    words: &[String],
    hint: Hint,
    status: &Status,
    err: &mut E,
)
    ensures quiet { status.now ≡ Status.Done → output_seen (E.taken err.new) (E.faults err.new) ≡ output_seen (E.taken err.old) (E.faults err.old) }
    ensures told { status.now ≢ Status.Done → TellsEnd (told_text terminal (map string_bytes words.now) hint (end_of status.now))
        (output_seen (E.taken err.old) (E.faults err.old)) (output_seen (E.taken err.new) (E.faults err.new)) }
{
    if *status == Status::Done {
        return;
    }
    let _ = match told_lines(alloc, terminal, words, hint, status) {
        Ok(text) => write_all(err, text.as_bytes()),
        Err(_) => write_all(err, b"mdb: no memory\n"),
    };
}

// What is told of a status.
fn told_lines(
    alloc: Global,
    terminal: bool,
    words: &[String],
    hint: Hint,
    status: &Status,
) -> Result<String, NoMemory>
    ensures { IfOk result (λ text. string_bytes text ≡ told_text terminal (map string_bytes words.now) hint (end_of status.now)) }
{
    if terminal {
        hinted_lines(alloc, words, hint, status)
    } else {
        ended_line(alloc, status)
    }
}

// The line that tells of a status, and the hint behind it.
fn hinted_lines(
    alloc: Global,
    words: &[String],
    hint: Hint,
    status: &Status,
) -> Result<String, NoMemory>
    ensures { IfOk result (λ text. string_bytes text ≡ end_line (end_of status.now) ++ hint_lines (map string_bytes words.now) hint) }
{
    let mut text = ended_line(alloc, status)?;
    let line = hint_line(alloc, words, hint)?;
    text.push_str(line.as_str())?;
    Ok(text)
}

// The line that tells of a status, with its end.
fn ended_line(alloc: Global, status: &Status) -> Result<String, NoMemory>
    ensures { IfOk result (λ line. string_bytes line ≡ end_line (end_of status.now)) }
{
    let mut line = status_line(alloc, status)?;
    line.push('\n')?;
    Ok(line)
}

#[cfg(test)]
mod tests;
