// Bytes that were read from a source and are not used up.
ghost use Rattle.std.specs.Prelude.{◌≡◌, ◌+◌, ◌≤◌, List, [], take, drop, length, IfOk, OnOk, OnErr, Ok, IsErrOf};
ghost use Rattle.base_model.specs.Faults.{Rose, TellsAlike};
ghost use Rattle.base_model.specs.Streams.{AtEnd};
ghost use Rattle.batch_text.specs.Stream.{Pulls, held_limit};
ghost use Rattle.text_model.specs.Lines.{line_limit};

use super::ReaderFault;
use mdb_base::Source;
use std::alloc::Global;
use std::marker::Model;

// How many bytes are asked of a source at a time.
const PIECE: usize = 65_536;

/// Bytes that were read and are not used up: the end of a buffer, in front of which those that are
/// used up stay until the next read.
#[derive(Drop)]
pub(crate) struct Held {
    buffer: Vec<u8>,
    from: usize,
}

impl Model for Held {
    ghost use Rattle.std.specs.Prelude.{ℕ, ◌≤◌, List, drop, vec_len};
    ghost use Rattle.batch_text.specs.Stream.{held_limit};

    ghost Value = { List ℕ };

    ghost view = { λ h. drop h.from h.buffer.items };

    ghost invariant = { λ h. (h.from ≤ vec_len h.buffer) × (vec_len h.buffer ≤ held_limit) };
}

impl Held {
    /// No bytes.
    pub(crate) fn new(alloc: Global) -> Self
        ensures { result ≡ [] }
    {
        Held {
            buffer: Vec::new(alloc),
            from: 0,
        }
    }

    /// The bytes that are held.
    pub(crate) fn bytes(&self) -> &[u8]
        ensures value { result.now ≡ self.now }
        ensures bounded { length self.now ≤ held_limit }
    {
        &self.buffer[self.from..]
    }

    /// Uses up so many bytes.
    pub(crate) fn skip(&mut self, count: usize)
        requires { count ≤ length self.old }
        ensures { self.new ≡ drop count self.old }
    {
        self.from += count;
    }

    /// Takes the next bytes of the source behind those that are held, and says how many.
    pub(crate) fn pull<S: Source>(&mut self, input: &mut S) -> Result<usize, ReaderFault>
        requires { length self.old ≤ line_limit + 1 }
        ensures bytes { Pulls self.old (S.left input.old) self.new (S.left input.new) }
        ensures count { IfOk result (λ n. length self.new ≡ length self.old + n) }
        ensures front { OnOk result (take (length self.old) self.new ≡ self.old) }
        ensures kept { OnErr result (self.new ≡ self.old) }
        ensures end { result ≡ Ok 0 → AtEnd (S.left input.new) }
        ensures bounded { length self.new ≤ held_limit }
        ensures tells { TellsAlike (S.left input.old) (S.left input.new) }
        ensures later { S.faults input.old ≤ S.faults input.new }
        ensures read { IsErrOf result ReaderFault.Read → Rose (S.faults input.old) (S.faults input.new) }
        ensures limit { IsErrOf result ReaderFault.Limit → ⊥ }
        ensures overlong { IsErrOf result ReaderFault.Overlong → ⊥ }
    {
        cut_front(&mut self.buffer, self.from);
        self.from = 0;
        read_behind(&mut self.buffer, input)
    }
}

// Lets go of the first bytes. None are let go while a long line comes in: then nothing moves.
fn cut_front(buffer: &mut Vec<u8>, count: usize)
    requires { count ≤ length buffer.old.items }
    ensures { buffer.new.items ≡ drop count buffer.old.items }
{
    if count == 0 {
        return;
    }
    let rest = buffer.len() - count;
    buffer.copy_within(count.., 0);
    buffer.truncate(rest);
}

// Reads the next bytes of the source into the room behind those of the buffer.
fn read_behind<S: Source>(buffer: &mut Vec<u8>, input: &mut S) -> Result<usize, ReaderFault>
    requires { length buffer.old.items ≤ line_limit + 1 }
    ensures bytes { Pulls buffer.old.items (S.left input.old) buffer.new.items (S.left input.new) }
    ensures count { IfOk result (λ n. length buffer.new.items ≡ length buffer.old.items + n) }
    ensures front { OnOk result (take (length buffer.old.items) buffer.new.items ≡ buffer.old.items) }
    ensures kept { OnErr result (buffer.new.items ≡ buffer.old.items) }
    ensures end { result ≡ Ok 0 → AtEnd (S.left input.new) }
    ensures bounded { length buffer.new.items ≤ held_limit }
    ensures tells { TellsAlike (S.left input.old) (S.left input.new) }
    ensures later { S.faults input.old ≤ S.faults input.new }
    ensures read { IsErrOf result ReaderFault.Read → Rose (S.faults input.old) (S.faults input.new) }
    ensures limit { IsErrOf result ReaderFault.Limit → ⊥ }
    ensures overlong { IsErrOf result ReaderFault.Overlong → ⊥ }
{
    let held = buffer.len();
    if buffer.resize(held + PIECE, 0).is_err() {
        return Err(ReaderFault::NoMemory);
    }
    let Ok(count) = input.read(&mut buffer[held..]) else {
        buffer.truncate(held);
        return Err(ReaderFault::Read);
    };
    buffer.truncate(held + count);
    Ok(count)
}
