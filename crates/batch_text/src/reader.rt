// The lines of a source, one after another, up to so many bytes.
ghost use Rattle.std.specs.Prelude.{◌≡◌, ◌<◌, ◌≤◌, ◌+◌, [], take, length, IfOk, Ok, IsErrOf, IsTrue, MatchOption, true, false};
ghost use Rattle.std.specs.Str.Lines.{strip_carriage_return};
ghost use Rattle.base_model.specs.Faults.{Rose, TellsAlike};
ghost use Rattle.base_model.specs.Streams.{AtEnd};
ghost use Rattle.text_model.specs.Lines.{is_overlong};
ghost use Rattle.batch_text.specs.Stream.{Stream, NoNewline, Pulls, Gives, TakesLine, EndHolds, NoMore, Past, BeginsOverlong, EndsAt, IsLast, NoEnd, SettlesNothing, held_limit};

mod held;

use crate::line::LINE_LIMIT;
use held::Held;
use mdb_base::Source;
use memchr::memchr;
use std::alloc::Global;
use std::marker::Model;

/// Why no line is given.
#[derive(Clone, Copy, Debug, PartialEq, Eq)]
pub enum ReaderFault {
    /// The source failed.
    Read,
    /// The input goes past its limit, and no line is left within it.
    Limit,
    /// The next line is too long.
    Overlong,
    /// There was no memory.
    NoMemory,
}

/// Gives the lines of a source one after another.
///
/// The line that was given last is the front of the bytes that are held, until the next one is asked for.
/// A source that has ended is not asked again.
#[derive(Drop)]
pub struct LineReader {
    held: Held,
    // How many bytes of what is held are the line, and how many it takes with its end.
    line: usize,
    used: usize,
    allowed: usize,
    // Whether the source told that it ended. It is not asked again: on a terminal one end is enough.
    ended: bool,
}

impl Model for LineReader {
    ghost use Rattle.std.specs.Prelude.{◌≤◌, take, drop, length};
    ghost use Rattle.batch_text.specs.Stream.{Stream};

    ghost Value = { Stream };

    ghost view = { λ r. record { held = drop r.used r.held; allowed = r.allowed; line = take r.line r.held; ended = r.ended } };

    ghost invariant = { λ r. (r.used ≤ length r.held) × (r.line ≤ length r.held) };
}

impl LineReader {
    /// A reader of a text of which at most `limit` bytes are used.
    pub fn new(alloc: Global, limit: usize) -> Self
        ensures held { result.held ≡ [] }
        ensures allowed { result.allowed ≡ limit }
        ensures line { result.line ≡ [] }
        ensures ended { result.ended ≡ false }
    {
        LineReader {
            held: Held::new(alloc),
            line: 0,
            used: 0,
            allowed: limit,
            ended: false,
        }
    }

    /// The line that was given last, without its end.
    pub fn line(&self) -> &[u8]
        ensures { result.now ≡ self.now.line }
    {
        &self.held.bytes()[..self.line]
    }

    /// Goes on to the next line, and says whether there is one.
    ///
    /// A line without an end that is too long is a fault as soon as that is certain. One that has its
    /// end is given, however long it is.
    pub fn advance<S: Source>(&mut self, input: &mut S) -> Result<bool, ReaderFault>
        requires { EndHolds self.old.ended (S.left input.old) }
        ensures line { result ≡ Ok true → Gives self.old (S.left input.old) self.new (S.left input.new) }
        ensures takes { result ≡ Ok true → TakesLine self.old (S.left input.old) self.new (S.left input.new) }
        ensures kept { (result ≡ Ok true → ⊥) → Pulls self.old.held (S.left input.old) self.new.held (S.left input.new) × (self.new.allowed ≡ self.old.allowed) }
        ensures bounded { length self.new.held ≤ held_limit }
        ensures shorter { result ≡ Ok true → self.new.allowed < self.old.allowed }
        ensures end { result ≡ Ok false → NoMore self.old (S.left input.old) × AtEnd (S.left input.new) }
        ensures limit { IsErrOf result ReaderFault.Limit → Past self.old (S.left input.old) }
        ensures overlong { IsErrOf result ReaderFault.Overlong → BeginsOverlong self.old (S.left input.old) }
        ensures tells { TellsAlike (S.left input.old) (S.left input.new) }
        ensures later { S.faults input.old ≤ S.faults input.new }
        ensures read { IsErrOf result ReaderFault.Read → Rose (S.faults input.old) (S.faults input.new) }
        ensures undecided { IsErrOf result ReaderFault.Read → SettlesNothing self.new.allowed self.new.held }
        ensures told { result ≡ Ok false → IsTrue self.new.ended }
        ensures ended { EndHolds self.new.ended (S.left input.new) }
        ensures alone { IsTrue self.old.ended → input.new ≡ input.old }
    {
        self.held.skip(self.used);
        self.used = 0;
        self.line = 0;
        match fill(&mut self.held, self.allowed, self.ended, input)? {
            Some(at) => {
                self.line = text_len(&self.held.bytes()[..at]);
                self.used = at + 1;
                self.allowed -= at + 1;
                Ok(true)
            }
            None => {
                self.ended = true;
                let rest = self.held.bytes().len();
                if rest == 0 {
                    return Ok(false);
                }
                self.line = rest;
                self.used = rest;
                self.allowed -= rest;
                Ok(true)
            }
        }
    }
}

// Takes bytes until the end of the line at the front is held: the place of its newline, or none where
// the text ends.
fn fill<S: Source>(
    held: &mut Held,
    allowed: usize,
    ended: bool,
    input: &mut S,
) -> Result<Option<usize>, ReaderFault>
    requires { EndHolds ended (S.left input.old) }
    ensures bytes { Pulls held.old (S.left input.old) held.new (S.left input.new) }
    ensures bounded { length held.new ≤ held_limit }
    ensures found { IfOk result (λ end. MatchOption end (IsLast allowed held.new (S.left input.new)) (EndsAt allowed held.new)) }
    ensures limit { IsErrOf result ReaderFault.Limit → NoEnd allowed held.new × (is_overlong (strip_carriage_return (take allowed held.new)) ≡ false) × (allowed < length held.new) }
    ensures overlong { IsErrOf result ReaderFault.Overlong → NoEnd allowed held.new × (is_overlong (strip_carriage_return (take allowed held.new)) ≡ true) }
    ensures tells { TellsAlike (S.left input.old) (S.left input.new) }
    ensures later { S.faults input.old ≤ S.faults input.new }
    ensures read { IsErrOf result ReaderFault.Read → Rose (S.faults input.old) (S.faults input.new) }
    ensures undecided { IsErrOf result ReaderFault.Read → SettlesNothing allowed held.new }
    ensures alone { IsTrue ended → input.new ≡ input.old }
{
    let mut scanned = 0usize;
    'pulls: loop {
        let bytes = held.bytes();
        let usable = &bytes[..bytes.len().min(allowed)];
        if let Some(at) = newline_from(usable, scanned) {
            return Ok(Some(at));
        }
        if text_len(usable) > LINE_LIMIT {
            return Err(ReaderFault::Overlong);
        }
        if allowed < bytes.len() {
            return Err(ReaderFault::Limit);
        }
        if ended {
            return Ok(None);
        }
        scanned = bytes.len();
        if held.pull(input)? == 0 {
            return Ok(None);
        }
    }
}

// The place of the first newline, where none stands among the bytes that were scanned before.
fn newline_from(bytes: &[u8], scanned: usize) -> Option<usize>
    requires within { scanned ≤ length bytes.now }
    requires before { NoNewline (take scanned bytes.now) }
    ensures { MatchOption result (NoNewline bytes.now) (EndsAt (length bytes.now) bytes.now) }
{
    let at = memchr(b'\n', &bytes[scanned..])?;
    Some(scanned + at)
}

// How many bytes of a line's bytes are its text: a carriage return at its end is none of it.
fn text_len(line: &[u8]) -> usize
    ensures within { result ≤ length line.now }
    ensures most { length line.now ≤ result + 1 }
    ensures text { take result line.now ≡ strip_carriage_return line.now }
{
    match line {
        [text @ .., 13] => text.len(),
        _ => line.len(),
    }
}

#[cfg(test)]
mod tests;
