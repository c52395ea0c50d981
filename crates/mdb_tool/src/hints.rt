// What a terminal is told besides the line of a status: what was expected, or where to look.
ghost use Rattle.std.specs.Prelude.{◌≡◌, ◌∷◌, [], ◌++◌, IfOk, map, string_bytes};
ghost use Rattle.mdb_tool.specs.Ends.{end_of};
ghost use Rattle.mdb_tool.specs.ReadJob.{seen_command};
ghost use Rattle.mdb_tool.specs.Hints.{argument_text, hint_text, hint_lines, is_command as is_command_of, own_arguments as own_arguments_of, own_hint as own_hint_of, argument_hint as argument_hint_of, line_hint as line_hint_of, command_line_hint as command_line_hint_of, disk_hint as disk_hint_of, end_hint as end_hint_of, unread_hint as unread_hint_of, is_shown as is_shown_of, shown_folder as shown_folder_of, folder_text, command_reads, reads_lines as reads_lines_of};

use crate::job::{Command, read_words};
use crate::status::Status;
use mdb_base::NoMemory;
use std::alloc::Global;

/// An argument of a command's own, behind the factor.
#[derive(Clone, Copy, Debug, PartialEq, Eq)]
pub(crate) enum Argument {
    /// Which map of a store.
    Root,
    /// A key.
    Key,
    /// The first key of a range.
    Start,
    /// The last key of a range.
    End,
    /// The most pairs of a proof.
    Pairs,
    /// The most bytes of them.
    Bytes,
}

/// What a second line tells.
#[derive(Clone, Copy, Debug, PartialEq, Eq)]
pub(crate) enum Hint {
    /// Nothing: there is no second line.
    Nothing,
    /// How the program is called. There was no argument.
    Usage,
    /// That an argument is not UTF-8.
    NotText,
    /// That the command uses a store, which the folder `-` is not.
    StoreFolder,
    /// That the folder stands in front of the command.
    FolderFirst,
    /// That a command is missing.
    CommandMissing,
    /// That no command has this name.
    NoSuchCommand,
    /// What a branch factor is.
    Factor,
    /// What an argument of the command's own is.
    Expected(Argument),
    /// That no argument follows.
    NoMore,
    /// What a line of `root` is.
    MapLines,
    /// What a line of a script is.
    ScriptLines,
    /// What a line of `verify` is.
    VerifyLines,
    /// Whose a file may be that is no store's.
    NoStore,
    /// That a store keeps its factor.
    KeptFactor,
    /// What to do where a file is damaged.
    Damaged,
    /// Where the causes of refusal are described.
    Causes,
    /// Which maps a store holds.
    HeldMaps,
    /// Where the limits are described.
    Limits,
    /// What standard input may be.
    Input,
    /// What standard output may be.
    Output,
    /// What to look at in the folder.
    Folder,
}

/// What a terminal is told where the program waits for lines on another one, with its end.
pub(crate) const GREETING: &str =
    "mdb: lines are read from the terminal; Ctrl-D at the beginning of a line ends them\n";

// What an argument of a command's own is.
fn text_of_argument(argument: Argument) -> &'static str
    ensures { result.now ≡ argument_text argument }
{
    match argument {
        Argument::Root => "ROOT is now, ~0 for the same, empty, or 64 hexadecimal digits",
        Argument::Key =>
            "KEY is two hexadecimal digits for each byte, or - for no bytes; at most 256 bytes",
        Argument::Start =>
            "START is a key of at most 257 bytes, or '*' in quotes where the range is open",
        Argument::End => "END is a key of at most 257 bytes and not below START, or '*' in quotes",
        Argument::Pairs => "PAIRS is a number from 1 to 4096",
        Argument::Bytes => "BYTES is a number from 1 to 2097152",
    }
}

// The text of a hint, but for the folder's, of which this is the end.
fn text_of_hint(hint: Hint) -> &'static str
    ensures { result.now ≡ hint_text hint }
{
    match hint {
        Hint::Nothing => "",
        Hint::Usage => "usage: mdb FOLDER COMMAND FACTOR ARGUMENTS..; mdb --help tells more",
        Hint::NotText => "an argument is not UTF-8",
        Hint::StoreFolder => "FOLDER is the folder of a store here; one of the name - is ./-",
        Hint::FolderFirst => "FOLDER comes first, - where no store is used",
        Hint::CommandMissing => "a command follows FOLDER; mdb --help lists them",
        Hint::NoSuchCommand => "no command of this name; mdb --help lists them",
        Hint::Factor => "FACTOR is 2, 4, 16 or 256",
        Hint::Expected(argument) => text_of_argument(argument),
        Hint::NoMore => "no argument follows here; mdb --help lists those of each command",
        Hint::MapLines =>
            "a line is put KEY VALUE, del KEY or # a comment; docs/guide.md has The lines of root",
        Hint::ScriptLines =>
            "mdb --help lists the lines of apply; docs/guide.md has The lines of a script",
        Hint::VerifyLines =>
            "a line is point ROOT KEY PROOF, range ROOT START END PROOF, changes ROOT START END PROOF or # a comment; docs/guide.md has The lines of verify",
        Hint::NoStore =>
            "the files mdb0 and mdb1 of FOLDER are those of a store, and of no other program or version",
        Hint::KeptFactor => "a store keeps the factor that it was made with",
        Hint::Damaged => "no command mends a file; docs/guide.md has A store",
        Hint::Causes => "docs/guide.md has the causes under The lines of verify",
        Hint::HeldMaps => "a store holds its present map, which is now, and the empty one",
        Hint::Limits => "docs/guide.md has all limits under Limits",
        Hint::Input => "standard input has to be open, and no folder",
        Hint::Output => "standard output has to be open, with room for what is written",
        Hint::Folder =>
            " has to be a folder that is there, in which you may write, with room on its disk",
    }
}

// Whether a command has this name.
fn is_command(word: &str) -> bool
    ensures { result ≡ is_command_of word.now }
{
    matches!(
        word,
        "root" | "apply" | "get" | "prove" | "range" | "changes" | "verify"
    )
}

// The arguments of a command's own.
fn own_arguments(command: &str) -> &'static [Argument]
    ensures { result.now ≡ own_arguments_of command.now }
{
    match command {
        "get" => &[Argument::Key],
        "prove" => &[Argument::Root, Argument::Key],
        "range" => &[
            Argument::Root,
            Argument::Start,
            Argument::End,
            Argument::Pairs,
            Argument::Bytes,
        ],
        "changes" => &[
            Argument::Root,
            Argument::Root,
            Argument::Start,
            Argument::End,
            Argument::Pairs,
            Argument::Bytes,
        ],
        _ => &[],
    }
}

// The hint at a place behind the factor.
fn own_hint(command: &str, place: usize) -> Hint
    ensures { result ≡ own_hint_of command.now place }
{
    match own_arguments(command).get(place.saturating_sub(4)) {
        Some(argument) => Hint::Expected(*argument),
        None => Hint::NoMore,
    }
}

// The hint for the argument at this place, which is the first wrong one.
fn argument_hint(words: &[String], place: usize) -> Hint
    ensures { result ≡ argument_hint_of (map string_bytes words.now) place }
{
    let Some((folder, words)) = words.split_first() else {
        return Hint::Usage;
    };
    if place == 1 {
        return Hint::StoreFolder;
    }
    if place == 2 && is_command(folder.as_str()) {
        return Hint::FolderFirst;
    }
    let Some((command, _)) = words.split_first() else {
        return Hint::CommandMissing;
    };
    match place {
        2 => Hint::NoSuchCommand,
        3 => Hint::Factor,
        _ => own_hint(command.as_str(), place),
    }
}

// The hint for a wrong line of a command's input.
fn command_line_hint(command: &str) -> Hint
    ensures { result ≡ command_line_hint_of command.now }
{
    match command {
        "root" => Hint::MapLines,
        "apply" => Hint::ScriptLines,
        "verify" => Hint::VerifyLines,
        _ => Hint::Nothing,
    }
}

// The hint for a wrong line of the input, by the words.
fn line_hint(words: &[String]) -> Hint
    ensures { result ≡ line_hint_of (map string_bytes words.now) }
{
    let Some((_, words)) = words.split_first() else {
        return Hint::Nothing;
    };
    match words.split_first() {
        Some((command, _)) => command_line_hint(command.as_str()),
        None => Hint::Nothing,
    }
}

// The hint for a disk that failed.
fn disk_hint(words: &[String]) -> Hint
    ensures { result ≡ disk_hint_of (map string_bytes words.now) }
{
    match words.first() {
        Some(folder) if folder.as_str() == "-" => Hint::StoreFolder,
        _ => Hint::Folder,
    }
}

/// The hint for how a run of these words ends.
pub(crate) fn end_hint(words: &[String], status: &Status) -> Hint
    ensures { result ≡ end_hint_of (map string_bytes words.now) (end_of status.now) }
{
    match status {
        Status::Done | Status::NoMemory => Hint::Nothing,
        Status::BadWords(place) => argument_hint(words, *place),
        Status::BadLine(_) => line_hint(words),
        Status::NotAStore(_) => Hint::NoStore,
        Status::BranchDiffers { .. } => Hint::KeptFactor,
        Status::Damaged { .. } => Hint::Damaged,
        Status::VerifyRefused { .. } => Hint::Causes,
        Status::NotHeld => Hint::HeldMaps,
        Status::Limit(_) => Hint::Limits,
        Status::Read => Hint::Input,
        Status::Write => Hint::Output,
        Status::Disk => disk_hint(words),
    }
}

/// The hint where the words could not be read.
pub(crate) fn unread_hint(status: &Status) -> Hint
    ensures { result ≡ unread_hint_of (end_of status.now) }
{
    match status {
        Status::BadWords(_) => Hint::NotText,
        _ => Hint::Nothing,
    }
}

// Whether a terminal shows these bytes as they are: they are printable ASCII.
fn is_shown(bytes: &[u8]) -> bool
    ensures { result ≡ is_shown_of bytes.now }
{
    bytes.iter().all(|b| b.is_ascii_graphic() || *b == b' ')
}

// The folder as it is shown. One that a terminal might take for its own orders is named by its place.
fn shown_folder(words: &[String]) -> &str
    ensures { result.now ≡ shown_folder_of (map string_bytes words.now) }
{
    match words.first() {
        Some(folder) if is_shown(folder.as_bytes()) => folder.as_str(),
        _ => "FOLDER",
    }
}

// The text of the hint on the folder.
fn folder_line(alloc: Global, words: &[String]) -> Result<String, NoMemory>
    ensures { IfOk result (λ text. string_bytes text ≡ folder_text (map string_bytes words.now) ++ 10 ∷ []) }
{
    let folder = shown_folder(words);
    let end = text_of_hint(Hint::Folder);
    Ok(format!(in alloc; "{folder}{end}\n")?)
}

/// The second line with its end, or nothing.
pub(crate) fn hint_line(alloc: Global, words: &[String], hint: Hint) -> Result<String, NoMemory>
    ensures { IfOk result (λ text. string_bytes text ≡ hint_lines (map string_bytes words.now) hint) }
{
    match hint {
        Hint::Nothing => Ok(String::new(alloc)),
        Hint::Folder => folder_line(alloc, words),
        other => {
            let text = text_of_hint(other);
            Ok(format!(in alloc; "{text}\n")?)
        }
    }
}

// Whether a command reads lines.
fn reads(command: &Command) -> bool
    ensures { result ≡ command_reads (seen_command command.now) }
{
    match command {
        Command::Root | Command::Apply | Command::Verify => true,
        Command::Get(_) | Command::Prove(..) | Command::Range { .. } | Command::Changes { .. } =>
            false,
    }
}

/// Whether a run of these words reads lines.
pub(crate) fn reads_lines(words: &[String]) -> bool
    ensures { result ≡ reads_lines_of (map string_bytes words.now) }
{
    match read_words(words) {
        Ok(job) => reads(&job.command),
        Err(_) => false,
    }
}
