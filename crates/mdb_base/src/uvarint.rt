// Numbers as unsigned varints, in the form of Go's package `encoding/binary`.
ghost use Rattle.std.specs.Prelude.{◌≡◌, ◌++◌, ◌≤◌, ◌<◌, ◌^◌, min, length, get_or, nat_le, nat_lt, ◌&&◌, take, OnOk, OnErr, IfOk};
ghost use Rattle.base_model.specs.Uvarint.{uvarint};
ghost use Rattle.base_model.specs.ReadUvarint.{high_run, groups_value, uvarint_read, uvarint_at};
ghost use Rattle.mdb_base.specs.ReadNumbers.{seen};

use crate::NoMemory;
use thiserror::Error;

/// Appends the shortest spelling of `n`, of 1 to 10 bytes.
pub fn write_uvarint(out: &mut Vec<u8>, n: u64) -> Result<(), NoMemory>
    ensures ok { OnOk result (out.new.items ≡ out.old.items ++ uvarint n) }
    ensures err { OnErr result (out.new.items ≡ out.old.items) }
{
    let start = out.len();
    let written = push_groups(out, n);
    if written.is_err() {
        out.truncate(start);
    }
    written
}

// Where memory runs out, a part of the spelling stands behind what was there.
fn push_groups(out: &mut Vec<u8>, n: u64) -> Result<(), NoMemory>
    ensures ok { OnOk result (out.new.items ≡ out.old.items ++ uvarint n) }
    ensures front { take (length out.old.items) out.new.items ≡ out.old.items }
{
    let mut rest = n;
    while rest >= 128 {
        out.push(128 + (rest % 128) as u8)?;
        rest /= 128;
    }
    out.push(rest as u8)?;
    Ok(())
}

/// How many bytes the shortest spelling of `n` has, which are 1 to 10.
pub fn uvarint_len(n: u64) -> u64
    ensures exact { result ≡ length (uvarint n) }
    ensures few { result ≤ 10 }
{
    let mut left = n;
    let mut count = 1;
    while left >= 128 {
        left /= 128;
        count += 1;
    }
    count
}

/// Why no number is read.
#[derive(Clone, Copy, Debug, PartialEq, Eq, Error)]
pub enum VarintFault {
    /// The number has more than 64 bits.
    #[error("a number of more than 64 bits")]
    Long,
    /// The bytes end before the number does.
    #[error("a number that runs past the end")]
    Short,
    /// The same number has a shorter spelling.
    #[error("a number that is not in its shortest spelling")]
    NotShortest,
}

/// Reads the number at a place, and tells the place after it. It takes no memory.
pub fn read_uvarint(bytes: &[u8], at: usize) -> Result<(u64, usize), VarintFault>
    requires { at ≤ length bytes.now }
    ensures exact { seen result ≡ uvarint_at bytes.now at }
    ensures inside { IfOk result (λ x. x.1 ≤ length bytes.now) }
{
    let (number, count) = read_front(&bytes[at..])?;
    Ok((number, at + count))
}

/// The number in front, and how many bytes it has.
fn read_front(bytes: &[u8]) -> Result<(u64, usize), VarintFault>
    ensures exact { seen result ≡ uvarint_read bytes.now }
    ensures inside { IfOk result (λ x. x.1 ≤ length bytes.now) }
{
    let run = leading_high_bytes(bytes);
    if is_long(bytes, run) {
        return Err(VarintFault::Long);
    }
    if run >= bytes.len() {
        return Err(VarintFault::Short);
    }
    if is_padded(bytes, run) {
        return Err(VarintFault::NotShortest);
    }
    let number = value_of_groups(&bytes[..run + 1]);
    Ok((number, run + 1))
}

/// Whether nine bytes with the high bit are followed by more than what is left of 64 bits.
fn is_long(bytes: &[u8], run: usize) -> bool
    ensures { result ≡ (nat_le 9 run && nat_lt 1 (get_or bytes.now 9 0)) }
{
    run >= 9 && bytes.len() > 9 && bytes[9] > 1
}

/// Whether the last byte adds nothing to those before it.
fn is_padded(bytes: &[u8], run: usize) -> bool
    requires { run < length bytes.now }
    ensures { result ≡ (nat_lt 0 run && nat_le (get_or bytes.now run 0) 0) }
{
    run > 0 && bytes[run] == 0
}

/// How many bytes with the high bit stand in front, among the first ten.
fn leading_high_bytes(bytes: &[u8]) -> usize
    ensures { result ≡ min 10 (high_run bytes.now) }
{
    let mut run = 0;
    while run < 10 && run < bytes.len() && bytes[run] >= 128 {
        run += 1;
    }
    run
}

fn value_of_groups(groups: &[u8]) -> u64
    requires { groups_value groups.now < 2 ^ 64 }
    ensures { result ≡ groups_value groups.now }
{
    let mut value = 0;
    let mut left = groups.len();
    while left > 0 {
        left -= 1;
        value = value * 128 + u64::from(groups[left] % 128);
    }
    value
}
