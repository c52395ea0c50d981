// What a line asks for, read from its bytes.
ghost use Rattle.std.specs.Prelude.{◌≡◌, ℕ, List, IfOk, IfErr, Ok};
ghost use Rattle.range_model.specs.Ranges.{Range as RangeOf};
ghost use Rattle.text_model.specs.ReadLine.{Line as LineOf, one_word as words_of_one, two_words as words_of_two, three_words as words_of_three, four_words as words_of_four, five_words as words_of_five, six_words as words_of_six, put_line, del_line, number_line, place_line, get_line, prove_line, point_line, range_line, changes_line, verify_range_line, commit_words, script_words, verify_words, line_of_words, read_line as line_of};
ghost use Rattle.std.specs.Option.{ok_or};
ghost use Rattle.text_model.specs.LineKind.{Bounds};
ghost use Rattle.text_model.specs.Words.{PlaceWord as PlaceOf, words_of, range_between};
ghost use Rattle.batch_text.specs.SeenLine.{seen_input, seen_place, seen_line, IsFaultOf, IsRead};

use crate::hex_words::{read_hex, read_key, read_value};
use crate::key_bytes::KeyBytes;
use crate::line_kind::LineKind;
use crate::number_words::{PlaceWord, read_bytes_word, read_number, read_pairs_word, read_place};
use crate::range_words::{BoundWord, RangeWord, read_bound};
use crate::root_words::{RootWord, read_plain_root, read_root};
use crate::words::{five_words, four_words, next_word, only_word, six_words, two_words};
use bit_keys::{Id, Range};
use std::alloc::Global;

/// The most bytes that a line may have, without its end.
pub(crate) const LINE_LIMIT: usize = 20_000_000;

/// Which lines an input may have.
#[derive(Clone, Copy, Debug, PartialEq, Eq)]
pub enum InputKind {
    /// `put KEY VALUE` and `del KEY`.
    Batch,
    /// These, `commit`, `view PLACE`, `take NUMBER`, `close NUMBER`, `state NUMBER`, `get PLACE KEY`, `root PLACE`,
    /// `prove ROOT KEY`, `range ROOT START END PAIRS BYTES` and `changes FROM TO START END PAIRS BYTES`.
    Script,
    /// `point ROOT KEY HEX`, `range ROOT START END HEX` and `changes ROOT START END HEX`.
    Verify,
}

/// A line that was not read.
#[derive(Clone, Copy, Debug, PartialEq, Eq)]
pub struct LineFault {
    /// The number that the caller gave the line.
    pub line: u64,
    /// Why it was not read.
    pub kind: LineKind,
}

/// What a line asks for.
#[derive(Drop)]
pub enum Line {
    /// Nothing: a comment, or a line without words.
    Skip,
    /// A value at a key.
    Put {
        key: KeyBytes,
        value: Vec<u8>,
    },
    /// No value at a key.
    Del {
        key: KeyBytes,
    },
    /// That the pending batch is committed: the changes of the lines before it.
    Commit,
    /// That a view of the pending batch is made, on the store or on a view.
    View {
        place: PlaceWord,
    },
    /// That the view of this number is committed.
    Take {
        number: u64,
    },
    /// That the view of this number is closed.
    Close {
        number: u64,
    },
    /// How the view of this number stands.
    State {
        number: u64,
    },
    /// The value at a key, of the store or of a view.
    Get {
        place: PlaceWord,
        key: KeyBytes,
    },
    /// The root, of the store or of a view.
    Root {
        place: PlaceWord,
    },
    /// The proof of a key, in the map that a root names.
    Prove {
        root: RootWord,
        key: KeyBytes,
    },
    /// Whether bytes prove what every map with this root has at a key.
    Point {
        root: Id,
        key: KeyBytes,
        proof: Vec<u8>,
    },
    /// The proof of a range, in the map that a root names, with so many pairs and so many bytes of them at most.
    RangeOf {
        root: RootWord,
        range: Range,
        pairs: u32,
        bytes: u32,
    },
    /// The proof of what changed in a range from the map of one root to that of another, with so many changes and so
    /// many bytes of them at most.
    ChangesOf {
        from: RootWord,
        to: RootWord,
        range: Range,
        pairs: u32,
        bytes: u32,
    },
    /// Whether bytes prove what every map with this root has in a range.
    VerifyRange {
        root: Id,
        range: Range,
        proof: Vec<u8>,
    },
    /// Whether bytes prove how a map of one's own is led to every map with this root in a range.
    VerifyChanges {
        root: Id,
        range: Range,
        proof: Vec<u8>,
    },
}

/// Reads the line of this number in an input of this kind.
pub fn read_line(
    alloc: Global,
    line: &[u8],
    number: u64,
    kind: InputKind,
) -> Result<Line, LineFault>
    ensures ok { IfOk result (λ found. line_of (seen_input kind) line.now ≡ Ok (seen_line found)) }
    ensures number { IfErr result (λ fault. fault.line ≡ number) }
    ensures fault { IfErr result (λ fault. IsFaultOf fault.kind (line_of (seen_input kind) line.now)) }
{
    match read_bytes(alloc, line, kind) {
        Ok(found) => Ok(found),
        Err(kind) => Err(LineFault { line: number, kind }),
    }
}

fn read_bytes(alloc: Global, line: &[u8], kind: InputKind) -> Result<Line, LineKind>
    ensures { IsRead seen_line result (line_of (seen_input kind) line.now) }
{
    if line.len() > LINE_LIMIT {
        return Err(LineKind::TooLong);
    }
    if let [b'#', ..] = line {
        return Ok(Line::Skip);
    }
    read_words(alloc, line, kind)
}

// A line by its words. Of those of a store the ones that change a map come first, since most lines do.
fn read_words(alloc: Global, line: &[u8], kind: InputKind) -> Result<Line, LineKind>
    ensures { IsRead seen_line result (line_of_words (seen_input kind) (words_of line.now)) }
{
    let Some((command, rest)) = next_word(line) else {
        return Ok(Line::Skip);
    };
    if let InputKind::Verify = kind {
        return read_verify(alloc, command, rest);
    }
    if command == b"put".as_slice() {
        return read_put(alloc, rest);
    }
    if command == b"del".as_slice() {
        return read_del(alloc, rest);
    }
    match kind {
        InputKind::Script => read_script(alloc, command, rest),
        InputKind::Batch | InputKind::Verify => Err(LineKind::Word),
    }
}

// What follows `put`.
fn read_put(alloc: Global, rest: &[u8]) -> Result<Line, LineKind>
    ensures { IsRead seen_line result (words_of_two put_line (words_of rest.now)) }
{
    let Some((key, value)) = two_words(rest) else {
        return Err(LineKind::Count);
    };
    let key = read_key(alloc, key)?;
    let value = read_value(alloc, value)?;
    Ok(Line::Put { key, value })
}

// What follows `del`.
fn read_del(alloc: Global, rest: &[u8]) -> Result<Line, LineKind>
    ensures { IsRead seen_line result (words_of_one del_line (words_of rest.now)) }
{
    let Some(key) = only_word(rest) else {
        return Err(LineKind::Count);
    };
    let key = read_key(alloc, key)?;
    Ok(Line::Del { key })
}

// A line that only a script has.
fn read_script(alloc: Global, command: &[u8], rest: &[u8]) -> Result<Line, LineKind>
    ensures { IsRead seen_line result (script_words command.now (words_of rest.now)) }
{
    if command == b"commit".as_slice() {
        return read_commit(rest);
    }
    if command == b"view".as_slice() {
        let place = only_place(rest)?;
        return Ok(Line::View { place });
    }
    if command == b"take".as_slice() {
        let number = only_number(rest)?;
        return Ok(Line::Take { number });
    }
    if command == b"close".as_slice() {
        let number = only_number(rest)?;
        return Ok(Line::Close { number });
    }
    if command == b"state".as_slice() {
        let number = only_number(rest)?;
        return Ok(Line::State { number });
    }
    if command == b"get".as_slice() {
        return read_get(alloc, rest);
    }
    if command == b"root".as_slice() {
        let place = only_place(rest)?;
        return Ok(Line::Root { place });
    }
    if command == b"prove".as_slice() {
        return read_prove(alloc, rest);
    }
    if command == b"range".as_slice() {
        return read_range(alloc, rest);
    }
    if command == b"changes".as_slice() {
        return read_changes(alloc, rest);
    }
    Err(LineKind::Word)
}

// What follows `commit`.
fn read_commit(rest: &[u8]) -> Result<Line, LineKind>
    ensures { IsRead seen_line result (commit_words (words_of rest.now)) }
{
    match next_word(rest) {
        Some(_) => Err(LineKind::Count),
        None => Ok(Line::Commit),
    }
}

// The number of a view, with nothing behind it, whatever a line asks of that view.
fn only_number(rest: &[u8]) -> Result<u64, LineKind>
    ensures { (line : ℕ → LineOf) → IsRead line result (words_of_one (number_line line) (words_of rest.now)) }
{
    let Some(number) = only_word(rest) else {
        return Err(LineKind::Count);
    };
    read_number(number)
}

// The store or a view, with nothing behind it, whatever a line asks of it.
fn only_place(rest: &[u8]) -> Result<PlaceWord, LineKind>
    ensures { (line : PlaceOf → LineOf) → IsRead (λ place. line (seen_place place)) result (words_of_one (place_line line) (words_of rest.now)) }
{
    let Some(place) = only_word(rest) else {
        return Err(LineKind::Count);
    };
    read_place(place)
}

// What follows `get`.
fn read_get(alloc: Global, rest: &[u8]) -> Result<Line, LineKind>
    ensures { IsRead seen_line result (words_of_two get_line (words_of rest.now)) }
{
    let Some((place, key)) = two_words(rest) else {
        return Err(LineKind::Count);
    };
    let place = read_place(place)?;
    let key = read_key(alloc, key)?;
    Ok(Line::Get { place, key })
}

// What follows `prove`.
fn read_prove(alloc: Global, rest: &[u8]) -> Result<Line, LineKind>
    ensures { IsRead seen_line result (words_of_two prove_line (words_of rest.now)) }
{
    let Some((root, key)) = two_words(rest) else {
        return Err(LineKind::Count);
    };
    let root = read_root(root)?;
    let key = read_key(alloc, key)?;
    Ok(Line::Prove { root, key })
}

// The range between two bounds.
fn read_between(
    alloc: Global,
    start: Option<BoundWord>,
    end: Option<BoundWord>,
) -> Result<Range, LineKind>
    ensures { IsRead (λ range. range) result (ok_or (range_between start end) Bounds) }
{
    let Some(range) = RangeWord::between(start, end) else {
        return Err(LineKind::Bounds);
    };
    range.to_range(alloc).map_err(|_| LineKind::NoMemory)
}

// What follows `range` in a script.
fn read_range(alloc: Global, rest: &[u8]) -> Result<Line, LineKind>
    ensures { IsRead seen_line result (words_of_five range_line (words_of rest.now)) }
{
    let Some((root, start, end, pairs, bytes)) = five_words(rest) else {
        return Err(LineKind::Count);
    };
    let root = read_root(root)?;
    let start = read_bound(start)?;
    let end = read_bound(end)?;
    let pairs = read_pairs_word(pairs).ok_or(LineKind::Number)?;
    let bytes = read_bytes_word(bytes).ok_or(LineKind::Number)?;
    let range = read_between(alloc, start, end)?;
    Ok(Line::RangeOf {
        root,
        range,
        pairs,
        bytes,
    })
}

// What follows `changes` in a script.
fn read_changes(alloc: Global, rest: &[u8]) -> Result<Line, LineKind>
    ensures { IsRead seen_line result (words_of_six changes_line (words_of rest.now)) }
{
    let Some((from, to, start, end, pairs, bytes)) = six_words(rest) else {
        return Err(LineKind::Count);
    };
    let from = read_root(from)?;
    let to = read_root(to)?;
    let start = read_bound(start)?;
    let end = read_bound(end)?;
    let pairs = read_pairs_word(pairs).ok_or(LineKind::Number)?;
    let size = read_bytes_word(bytes).ok_or(LineKind::Number)?;
    let range = read_between(alloc, start, end)?;
    Ok(Line::ChangesOf {
        from,
        to,
        range,
        pairs,
        bytes: size,
    })
}

// A line of an input of proofs.
fn read_verify(alloc: Global, command: &[u8], rest: &[u8]) -> Result<Line, LineKind>
    ensures { IsRead seen_line result (verify_words command.now (words_of rest.now)) }
{
    if command == b"point".as_slice() {
        return read_point(alloc, rest);
    }
    if command == b"range".as_slice() {
        let (root, range, proof) = read_range_proof(alloc, rest)?;
        return Ok(Line::VerifyRange { root, range, proof });
    }
    if command == b"changes".as_slice() {
        let (root, range, proof) = read_range_proof(alloc, rest)?;
        return Ok(Line::VerifyChanges { root, range, proof });
    }
    Err(LineKind::Word)
}

// What follows `point`.
fn read_point(alloc: Global, rest: &[u8]) -> Result<Line, LineKind>
    ensures { IsRead seen_line result (words_of_three point_line (words_of rest.now)) }
{
    let Some((root, words)) = next_word(rest) else {
        return Err(LineKind::Count);
    };
    let Some((key, proof)) = two_words(words) else {
        return Err(LineKind::Count);
    };
    let root = read_plain_root(root)?;
    let key = read_key(alloc, key)?;
    let proof = read_hex(alloc, proof)?;
    Ok(Line::Point { root, key, proof })
}

// What follows `range` or `changes` in an input of proofs.
fn read_range_proof(alloc: Global, rest: &[u8]) -> Result<(Id, Range, Vec<u8>), LineKind>
    ensures { (line : List ℕ → RangeOf → List ℕ → LineOf) → IsRead (λ told. line told.0 told.1 told.2.items) result (words_of_four (verify_range_line line) (words_of rest.now)) }
{
    let Some((root, start, end, proof)) = four_words(rest) else {
        return Err(LineKind::Count);
    };
    let root = read_plain_root(root)?;
    let start = read_bound(start)?;
    let end = read_bound(end)?;
    let proof = read_hex(alloc, proof)?;
    let range = read_between(alloc, start, end)?;
    Ok((root, range, proof))
}

#[cfg(test)]
mod tests;
