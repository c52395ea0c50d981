// The map that the lines of an input make.
ghost use Rattle.std.specs.Prelude.{◌≡◌, ◌≤◌, ℕ, Ok, Err, IfOk, OnOk, true, false};
ghost use Rattle.base_model.specs.Faults.{Rose, TellsAlike};
ghost use Rattle.base_model.specs.Streams.{AtEnd};
ghost use Rattle.trie_model.specs.Maps.{Map, map_digests};
ghost use Rattle.text_model.specs.MapOfLines.{after_line};
ghost use Rattle.batch_text.specs.SeenLine.{seen_line};
ghost use Rattle.text_model.specs.ReadLine.{Batch, is_line};
ghost use Rattle.mdb_tool.specs.MapLines.{Lays, Makes, FirstBad, IsPastLimit, GoodSoFar, status_of_fault};

use crate::status::Status;
use batch_text::{InputKind, Line, LineFault, LineKind, LineReader, ReaderFault, read_line};
use mdb_base::{LimitKind, NoMemory, Source};
use mdb_core::Digests;
use std::alloc::Global;
use trie_items::value_digest;

/// The most bytes of an input that are read.
const INPUT_LIMIT: usize = 1_073_741_824;

/// Why the lines of an input make no map.
#[derive(Clone, Copy, Debug, PartialEq, Eq)]
pub(crate) enum MapFault {
    /// The line of this number is the first outside the grammar.
    Line(u64),
    /// The source failed.
    Read,
    /// The input goes past its limit.
    Limit,
    /// There was no memory.
    NoMemory,
}

impl MapFault {
    /// The status with which the run ends.
    pub(crate) fn status(self) -> Status
        ensures { result ≡ status_of_fault self }
    {
        match self {
            MapFault::Line(number) => Status::BadLine(number),
            MapFault::Read => Status::Read,
            MapFault::Limit => Status::Limit(LimitKind::Input),
            MapFault::NoMemory => Status::NoMemory,
        }
    }
}

// Does what a line of puts asks for.
fn lay_line(digests: &mut Digests, line: Line) -> Result<(), NoMemory>
    ensures { (m : Map) → digests.old ≡ map_digests m → OnOk result (digests.new ≡ map_digests (after_line m (seen_line line))) }
{
    match line {
        Line::Skip
        | Line::Commit
        | Line::View { .. }
        | Line::Take { .. }
        | Line::Close { .. }
        | Line::State { .. }
        | Line::Get { .. }
        | Line::Root { .. }
        | Line::Prove { .. }
        | Line::Point { .. }
        | Line::RangeOf { .. }
        | Line::ChangesOf { .. }
        | Line::VerifyRange { .. }
        | Line::VerifyChanges { .. } => Ok(()),
        Line::Put { key, value } => digests.put(key, value_digest(&value)),
        Line::Del { key } => {
            digests.remove(&key);
            Ok(())
        }
    }
}

// Lays a line on the digests, and says whether it is in the grammar.
fn apply_line(
    alloc: Global,
    digests: &mut Digests,
    line: &[u8],
    number: u64,
) -> Result<bool, NoMemory>
    ensures good { result ≡ Ok true → Lays line.now digests.old digests.new }
    ensures bad { result ≡ Ok false → is_line Batch line.now ≡ false }
{
    match read_line(alloc, line, number, InputKind::Batch) {
        Ok(line) => {
            lay_line(digests, line)?;
            Ok(true)
        }
        Err(
            LineFault {
                kind: LineKind::NoMemory,
                ..
            },
        ) => Err(NoMemory),
        Err(_) => Ok(false),
    }
}

/// Reads all lines of an input, and keeps the digests of the map that they make.
pub(crate) fn read_map<S: Source>(alloc: Global, input: &mut S) -> Result<Digests, MapFault>
    ensures made { IfOk result (λ digests. Makes (S.left input.old) digests) }
    ensures end { OnOk result (AtEnd (S.left input.new)) }
    ensures line { (n : ℕ) → result ≡ Err (MapFault.Line n) → FirstBad (S.left input.old) n }
    ensures limit { result ≡ Err MapFault.Limit → IsPastLimit (S.left input.old) }
    ensures later { S.faults input.old ≤ S.faults input.new }
    ensures read { result ≡ Err MapFault.Read → Rose (S.faults input.old) (S.faults input.new) }
    ensures undecided { result ≡ Err MapFault.Read → GoodSoFar (S.left input.old) (S.left input.new) }
{
    let mut reader = LineReader::new(alloc, INPUT_LIMIT);
    let mut digests = Digests::new(alloc);
    let mut number = 1u64;
    'lines: loop {
        match reader.advance(input) {
            Ok(true) => {}
            Ok(false) => return Ok(digests),
            Err(ReaderFault::Read) => return Err(MapFault::Read),
            Err(ReaderFault::Limit) => return Err(MapFault::Limit),
            Err(ReaderFault::Overlong) => return Err(MapFault::Line(number)),
            Err(ReaderFault::NoMemory) => return Err(MapFault::NoMemory),
        }
        match apply_line(alloc, &mut digests, reader.line(), number) {
            Ok(true) => {}
            Ok(false) => return Err(MapFault::Line(number)),
            Err(_) => return Err(MapFault::NoMemory),
        }
        number += 1;
    }
}
