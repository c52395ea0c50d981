// How a run ends.
ghost use Rattle.std.specs.Prelude.{◌≡◌, IfOk, string_bytes};
ghost use Rattle.run_model.specs.End.{end_text, end_number};
ghost use Rattle.text_model.specs.Texts.{limit_word, proof_refused_text, no_store_text, branch_text, damaged_text};
ghost use Rattle.proof_model.specs.CauseWords.{cause_words};
ghost use Rattle.proof_check.specs.RefusalReasons.{seen_cause};
ghost use Rattle.script_run.specs.Ends.{limit_of};
ghost use Rattle.mdb_tool.specs.Ends.{end_of};

use mdb_base::{LimitKind, NoMemory};
use proof_check::Refusal;
use std::alloc::Global;
use verify_run::cause_text;

/// How a run ends. The process ends with its number.
#[derive(Clone, Copy, Debug, PartialEq, Eq)]
pub enum Status {
    /// The work is finished.
    Done,
    /// The word at this place, counted from 1, is the first outside the grammar. Where a word is
    /// missing it is one past the last.
    BadWords(usize),
    /// The line of this number, counted from 1, is the first outside the grammar.
    BadLine(u64),
    /// The file of this number is no store's.
    NotAStore(u8),
    /// The store has another branch factor than the one that was asked for.
    BranchDiffers { kept: u16, asked: u16 },
    /// The file of this number is outside the format of stores, at this place.
    Damaged { file: u8, at: u64 },
    /// The proof of this line, counted from 1, is the first that is refused.
    VerifyRefused { line: u64, cause: Refusal },
    /// The store has no map that the root names.
    NotHeld,
    /// A count reached its limit.
    Limit(LimitKind),
    /// The input could not be read.
    Read,
    /// The output could not be written.
    Write,
    /// The disk failed.
    Disk,
    /// There was no memory.
    NoMemory,
}

// The word of a limit.
fn limit_name(kind: LimitKind) -> &'static str
    ensures { result.now ≡ limit_word (limit_of kind) }
{
    match kind {
        LimitKind::Input => "input",
        LimitKind::Pairs => "pairs",
        LimitKind::Batch => "batch",
        LimitKind::Answers => "answers",
    }
}

// The line of a file that is no store's.
fn no_store_line(alloc: Global, file: u8) -> Result<String, NoMemory>
    ensures { IfOk result (λ text. string_bytes text ≡ no_store_text file) }
{
    Ok(format!(in alloc; "mdb: file {file} is no store")?)
}

// The line of a store of another factor.
fn branch_line(alloc: Global, kept: u16, asked: u16) -> Result<String, NoMemory>
    ensures { IfOk result (λ text. string_bytes text ≡ branch_text kept asked) }
{
    Ok(format!(in alloc; "mdb: the store has factor {kept}, asked was {asked}")?)
}

// The line of a file that is damaged.
fn damaged_line(alloc: Global, file: u8, at: u64) -> Result<String, NoMemory>
    ensures { IfOk result (λ text. string_bytes text ≡ damaged_text file at) }
{
    Ok(format!(in alloc; "mdb: file {file} is damaged at {at}")?)
}

// The line of a proof that is refused.
fn proof_refused_line(alloc: Global, line: u64, cause: &Refusal) -> Result<String, NoMemory>
    ensures { IfOk result (λ text. string_bytes text ≡ proof_refused_text line (cause_words (seen_cause cause.now))) }
{
    let why = cause_text(alloc, cause)?;
    Ok(format!(in alloc; "mdb: line {line} refused, {why}")?)
}

/// The line that tells of a status, without its end.
pub fn status_line(alloc: Global, status: &Status) -> Result<String, NoMemory>
    ensures { IfOk result (λ text. string_bytes text ≡ end_text (end_of status.now)) }
{
    let text = match status {
        Status::Done => String::from_str(alloc, "mdb: done")?,
        Status::BadWords(place) => {
            let place = *place;
            format!(in alloc; "mdb: word {place} is not understood")?
        }
        Status::BadLine(number) => {
            let number = *number;
            format!(in alloc; "mdb: line {number} is not understood")?
        }
        Status::NotAStore(file) => no_store_line(alloc, *file)?,
        Status::BranchDiffers { kept, asked } => branch_line(alloc, *kept, *asked)?,
        Status::Damaged { file, at } => damaged_line(alloc, *file, *at)?,
        Status::VerifyRefused { line, cause } => proof_refused_line(alloc, *line, cause)?,
        Status::NotHeld => String::from_str(alloc, "mdb: root not held")?,
        Status::Limit(kind) => {
            let name = limit_name(*kind);
            format!(in alloc; "mdb: limit {name}")?
        }
        Status::Read => String::from_str(alloc, "mdb: reading failed")?,
        Status::Write => String::from_str(alloc, "mdb: writing failed")?,
        Status::Disk => String::from_str(alloc, "mdb: disk failed")?,
        Status::NoMemory => String::from_str(alloc, "mdb: no memory")?,
    };
    Ok(text)
}

/// The number with which the process ends.
pub fn status_number(status: &Status) -> u8
    ensures { result ≡ end_number (end_of status.now) }
{
    match status {
        Status::Done => 0,
        Status::BadWords(_) => 2,
        Status::BadLine(_) => 3,
        Status::NotAStore(_) | Status::BranchDiffers { .. } | Status::Damaged { .. } => 4,
        Status::VerifyRefused { .. } => 5,
        Status::NotHeld => 6,
        Status::Limit(_) => 10,
        Status::Read => 20,
        Status::Write => 21,
        Status::Disk => 22,
        Status::NoMemory => 30,
    }
}
