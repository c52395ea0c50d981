// The words of the command line.
ghost use Rattle.std.specs.Prelude.{◌≡◌, ◌<◌, ℕ, List, Result, Some, Ok, Err, IfOk, IfErr, map, option_map, string_bytes};
ghost use Rattle.range_model.specs.Ranges.{Range as Bounds};
ghost use Rattle.run_model.specs.Command.{Command as ModelCommand, Job as ModelJob, job_of, job_words, job_with, no_words, key_words, get_words, prove_words, range_words, changes_words, word_then, asked_words, end_word, in_folder as in_folder_of, factor_word};
ghost use Rattle.text_model.specs.Words.{RootWord as RootMeant, root_word};
ghost use Rattle.bit_keys.specs.Branch.{width_of};
ghost use Rattle.batch_text.specs.SeenLine.{seen_root};
ghost use Rattle.mdb_tool.specs.ReadJob.{AreRead, seen_command, seen_job, bounds_words, bytes_words, counts_words};

use batch_text::{
    BoundWord, KeyWord, RangeWord, RootWord, read_bound_word, read_bytes_word, read_key_word,
    read_pairs_word, read_root_word,
};
use bit_keys::Branch;

/// A command, with what its own words say.
#[derive(Debug, Drop)]
pub(crate) enum Command {
    /// The root of the map that the input makes.
    Root,
    /// A script on a store.
    Apply,
    /// The value of a key in a store.
    Get(KeyWord),
    /// The proof of a key, in the map of a store that a root names.
    Prove(RootWord, KeyWord),
    /// The proof of a range, in the map of a store that a root names, with so many pairs and so many bytes of them at
    /// most.
    Range {
        root: RootWord,
        range: RangeWord,
        pairs: u32,
        bytes: u32,
    },
    /// The proof of what changed in a range between two maps of a store that roots name, with so many changes and so many
    /// bytes of them at most.
    Changes {
        from: RootWord,
        to: RootWord,
        range: RangeWord,
        pairs: u32,
        bytes: u32,
    },
    /// Whether the proofs of the input are accepted.
    Verify,
}

/// What the words ask for.
#[derive(Debug, Drop)]
pub(crate) struct Job {
    /// The most children that a node of the trie may have.
    pub(crate) branch: Branch,
    pub(crate) command: Command,
}

// The word of a branch factor.
fn read_factor(word: &str) -> Option<Branch>
    ensures { option_map width_of result ≡ factor_word word.now }
{
    match word {
        "2" => Some(Branch::B2),
        "4" => Some(Branch::B4),
        "16" => Some(Branch::B16),
        "256" => Some(Branch::B256),
        _ => None,
    }
}

// The factor at the front of the words after a command, and those that are the command's own.
fn read_branch(words: &[String]) -> Result<(Branch, &[String]), usize>
    ensures found { IfOk result (λ read. (own : List (List ℕ) → Result ModelCommand ℕ) →
        job_words own (map string_bytes words.now) ≡ job_with (Some (width_of read.0)) (own (map string_bytes read.1.now))) }
    ensures none { IfErr result (λ place. (own : List (List ℕ) → Result ModelCommand ℕ) →
        job_words own (map string_bytes words.now) ≡ Err place) }
{
    let Some((factor, own)) = words.split_first() else {
        return Err(3);
    };
    match read_factor(factor.as_str()) {
        Some(branch) => Ok((branch, own)),
        None => Err(3),
    }
}

// The words of a command that has none of its own.
fn read_none(command: Command, words: &[String]) -> Result<Command, usize>
    ensures { AreRead seen_command result (no_words (seen_command command) (map string_bytes words.now)) }
{
    if words.is_empty() {
        Ok(command)
    } else {
        Err(4)
    }
}

// A key at this place, and no word behind it.
fn read_key(words: &[String], place: usize) -> Result<KeyWord, usize>
    requires { place < 100 }
    ensures ok { IfOk result (λ key. (command : List ℕ → ModelCommand) → key_words place command (map string_bytes words.now) ≡ Ok (command key)) }
    ensures err { IfErr result (λ wrong. (command : List ℕ → ModelCommand) → key_words place command (map string_bytes words.now) ≡ Err wrong) }
{
    let Some((word, others)) = words.split_first() else {
        return Err(place);
    };
    match read_key_word(word.as_bytes()) {
        Some(key) if others.is_empty() => Ok(key),
        Some(_) => Err(place + 1),
        None => Err(place),
    }
}

// The words of `get`: a key.
fn read_get(words: &[String]) -> Result<Command, usize>
    ensures { AreRead seen_command result (get_words (map string_bytes words.now)) }
{
    let key = read_key(words, 4)?;
    Ok(Command::Get(key))
}

// The words of `prove`: a root and a key.
fn read_prove(words: &[String]) -> Result<Command, usize>
    ensures { AreRead seen_command result (prove_words (map string_bytes words.now)) }
{
    let Some((word, others)) = words.split_first() else {
        return Err(4);
    };
    let Some(root) = read_root_word(word.as_bytes()) else {
        return Err(4);
    };
    let key = read_key(others, 5)?;
    Ok(Command::Prove(root, key))
}

// The range from a start to the end that a word stands for.
fn read_end(start: Option<BoundWord>, word: &[u8]) -> Option<RangeWord>
    ensures { result ≡ end_word start word.now }
{
    let end = read_bound_word(word)?;
    RangeWord::between(start, end)
}

// The two bounds of what is asked, of which the first stands at this place, and the words behind them.
fn read_bounds(words: &[String], place: usize) -> Result<(RangeWord, &[String]), usize>
    requires { place < 100 }
    ensures ok { IfOk result (λ read. (behind : Bounds → List (List ℕ) → Result ModelCommand ℕ) →
        bounds_words place behind (map string_bytes words.now) ≡ behind read.0 (map string_bytes read.1.now)) }
    ensures err { IfErr result (λ wrong. (behind : Bounds → List (List ℕ) → Result ModelCommand ℕ) →
        bounds_words place behind (map string_bytes words.now) ≡ Err wrong) }
{
    let Some((word, words)) = words.split_first() else {
        return Err(place);
    };
    let Some(start) = read_bound_word(word.as_bytes()) else {
        return Err(place);
    };
    let Some((word, words)) = words.split_first() else {
        return Err(place + 1);
    };
    match read_end(start, word.as_bytes()) {
        Some(range) => Ok((range, words)),
        None => Err(place + 1),
    }
}

// How many bytes are asked for, and no word behind that.
fn read_bytes(words: &[String], place: usize) -> Result<u32, usize>
    requires { place < 100 }
    ensures ok { IfOk result (λ bytes. (command : ℕ → ModelCommand) → bytes_words place command (map string_bytes words.now) ≡ Ok (command bytes)) }
    ensures err { IfErr result (λ wrong. (command : ℕ → ModelCommand) → bytes_words place command (map string_bytes words.now) ≡ Err wrong) }
{
    let Some((word, others)) = words.split_first() else {
        return Err(place + 3);
    };
    match read_bytes_word(word.as_bytes()) {
        Some(bytes) if others.is_empty() => Ok(bytes),
        Some(_) => Err(place + 4),
        None => Err(place + 3),
    }
}

// How many entries are asked for, and how many bytes of them.
fn read_counts(words: &[String], place: usize) -> Result<(u32, u32), usize>
    requires { place < 100 }
    ensures ok { IfOk result (λ counts. (command : ℕ → ℕ → ModelCommand) →
        counts_words place command (map string_bytes words.now) ≡ Ok (command counts.0 counts.1)) }
    ensures err { IfErr result (λ wrong. (command : ℕ → ℕ → ModelCommand) →
        counts_words place command (map string_bytes words.now) ≡ Err wrong) }
{
    let Some((word, others)) = words.split_first() else {
        return Err(place + 2);
    };
    let Some(pairs) = read_pairs_word(word.as_bytes()) else {
        return Err(place + 2);
    };
    let bytes = read_bytes(others, place)?;
    Ok((pairs, bytes))
}

// What is asked of a range, from this place on: two bounds and two counts.
fn read_asked(words: &[String], place: usize) -> Result<(RangeWord, u32, u32), usize>
    requires { place < 100 }
    ensures ok { IfOk result (λ asked. (command : Bounds → ℕ → ℕ → ModelCommand) →
        asked_words place command (map string_bytes words.now) ≡ Ok (command asked.0 asked.1 asked.2)) }
    ensures err { IfErr result (λ wrong. (command : Bounds → ℕ → ℕ → ModelCommand) →
        asked_words place command (map string_bytes words.now) ≡ Err wrong) }
{
    let (range, words) = match read_bounds(words, place) {
        Ok(read) => read,
        Err(wrong) => return Err(wrong),
    };
    match read_counts(words, place) {
        Ok((pairs, bytes)) => Ok((range, pairs, bytes)),
        Err(wrong) => Err(wrong),
    }
}

// A root at this place, and the words behind it.
fn read_root(words: &[String], place: usize) -> Result<(RootWord, &[String]), usize>
    requires { place < 100 }
    ensures ok { IfOk result (λ read. (behind : RootMeant → List (List ℕ) → Result ModelCommand ℕ) →
        word_then place root_word behind (map string_bytes words.now) ≡ behind (seen_root read.0) (map string_bytes read.1.now)) }
    ensures err { IfErr result (λ wrong. (behind : RootMeant → List (List ℕ) → Result ModelCommand ℕ) →
        word_then place root_word behind (map string_bytes words.now) ≡ Err wrong) }
{
    let Some((word, others)) = words.split_first() else {
        return Err(place);
    };
    match read_root_word(word.as_bytes()) {
        Some(root) => Ok((root, others)),
        None => Err(place),
    }
}

// The words of `range`: a root, and what is asked of its map.
fn read_range(words: &[String]) -> Result<Command, usize>
    ensures { AreRead seen_command result (range_words (map string_bytes words.now)) }
{
    let (root, words) = read_root(words, 4)?;
    let (range, pairs, bytes) = read_asked(words, 5)?;
    Ok(Command::Range {
        root,
        range,
        pairs,
        bytes,
    })
}

// The words of `changes`: the former root, the later one, and what is asked of the changes between their maps.
fn read_changes(words: &[String]) -> Result<Command, usize>
    ensures { AreRead seen_command result (changes_words (map string_bytes words.now)) }
{
    let (from, words) = read_root(words, 4)?;
    let (to, words) = read_root(words, 5)?;
    let (range, pairs, bytes) = read_asked(words, 6)?;
    Ok(Command::Changes {
        from,
        to,
        range,
        pairs,
        bytes,
    })
}

// The job of a command without words of its own, by the words behind the command.
fn read_plain_job(command: Command, words: &[String]) -> Result<Job, usize>
    ensures { AreRead seen_job result (job_words (no_words (seen_command command)) (map string_bytes words.now)) }
{
    let (branch, own) = read_branch(words)?;
    let command = read_none(command, own)?;
    Ok(Job { branch, command })
}

// The job of `get`, by the words behind the command.
fn read_get_job(words: &[String]) -> Result<Job, usize>
    ensures { AreRead seen_job result (job_words get_words (map string_bytes words.now)) }
{
    let (branch, own) = read_branch(words)?;
    let command = read_get(own)?;
    Ok(Job { branch, command })
}

// The job of `prove`, by the words behind the command.
fn read_prove_job(words: &[String]) -> Result<Job, usize>
    ensures { AreRead seen_job result (job_words prove_words (map string_bytes words.now)) }
{
    let (branch, own) = read_branch(words)?;
    let command = read_prove(own)?;
    Ok(Job { branch, command })
}

// The job of `range`, by the words behind the command.
fn read_range_job(words: &[String]) -> Result<Job, usize>
    ensures { AreRead seen_job result (job_words range_words (map string_bytes words.now)) }
{
    let (branch, own) = read_branch(words)?;
    let command = read_range(own)?;
    Ok(Job { branch, command })
}

// The job of `changes`, by the words behind the command.
fn read_changes_job(words: &[String]) -> Result<Job, usize>
    ensures { AreRead seen_job result (job_words changes_words (map string_bytes words.now)) }
{
    let (branch, own) = read_branch(words)?;
    let command = read_changes(own)?;
    Ok(Job { branch, command })
}

// A job that uses a store, which has a folder.
fn in_folder(folder: &str, job: Result<Job, usize>) -> Result<Job, usize>
    ensures { (meant : Result ModelJob ℕ) → AreRead seen_job job meant → AreRead seen_job result (in_folder_of folder.now meant) }
{
    if folder == "-" { Err(1) } else { job }
}

/// Reads the words: an error is the place of the first word outside the grammar, counted from 1.
pub(crate) fn read_words(words: &[String]) -> Result<Job, usize>
    ensures { AreRead seen_job result (job_of (map string_bytes words.now)) }
{
    let Some((folder, words)) = words.split_first() else {
        return Err(1);
    };
    let Some((command, words)) = words.split_first() else {
        return Err(2);
    };
    match command.as_str() {
        "root" => read_plain_job(Command::Root, words),
        "apply" => in_folder(folder.as_str(), read_plain_job(Command::Apply, words)),
        "get" => in_folder(folder.as_str(), read_get_job(words)),
        "prove" => in_folder(folder.as_str(), read_prove_job(words)),
        "range" => in_folder(folder.as_str(), read_range_job(words)),
        "changes" => in_folder(folder.as_str(), read_changes_job(words)),
        "verify" => read_plain_job(Command::Verify, words),
        _ => Err(2),
    }
}
