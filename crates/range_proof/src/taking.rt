ghost use Rattle.std.specs.Prelude.{◌≡◌, ◌≤◌, IfOk, option_map};
ghost use Rattle.trie_model.specs.Maps.{Map};
ghost use Rattle.trie_items.specs.Sources.{Answers, next_key};
ghost use Rattle.proof_model.specs.Proofs.{pair_size};
ghost use Rattle.proof_model.specs.RangeProofs.{pairs_in};
ghost use Rattle.range_proof.specs.TakenKeys.{IsTaken, in_range, least_of, is_taken};

use bit_keys::Range;
use proof_check::Pair;
use std::alloc::Global;
use trie_items::{NodeSource, SourceFault};

/// A byte string that is at most each key from the start on, and above those before it.
pub fn least(range: &Range) -> &[u8]
    ensures { result.now ≡ least_of range.now.start }
{
    match range.start() {
        Some(start) => start,
        None => &[],
    }
}

/// The key, where it lies in the range.
fn inside(range: &Range, key: Option<Vec<u8>>) -> Option<Vec<u8>>
    ensures { option_map (λ k. k.items) result ≡ in_range range.now (option_map (λ k. k.items) key) }
{
    match key {
        Some(key) if range.holds(&key) => Some(key),
        _ => None,
    }
}

/// The key that follows in the source, where it lies in the range.
pub fn next_inside<N: NodeSource>(
    alloc: Global,
    source: &mut N,
    range: &Range,
    from: &[u8],
    past: bool,
) -> Result<Option<Vec<u8>>, SourceFault>
    ensures key { IfOk result (λ k. option_map (λ k. k.items) k ≡ in_range range.now (next_key past from.now (N.words.keys source.old))) }
    ensures answers { Answers N.words source.old source.new result }
{
    let key = source.next(alloc, from, past)?;
    Ok(inside(range, key))
}

fn size_of(key: &[u8], value: &[u8]) -> u64
    ensures { result ≡ pair_size (key.now, value.now) }
{
    (key.len() + value.len()) as u64
}

/// Whether a pair is taken behind others: the first one in any case, and then while there is room.
fn is_taken(others: &[Pair], used: u64, size: u64, bytes: u32) -> bool
    ensures { result ≡ is_taken others.now used size bytes }
{
    let bytes = u64::from(bytes);
    others.is_empty() || size <= bytes && used <= bytes - size
}

/// The first pairs of a range that a number of pairs and of bytes allows, and one at least; and whether
/// more follow. Each key and each value is read once, and no value behind the first one without room.
pub fn take<N: NodeSource>(
    alloc: Global,
    source: &mut N,
    range: &Range,
    pairs: u32,
    bytes: u32,
) -> Result<(Vec<Pair>, bool), SourceFault>
    requires { 1 ≤ pairs }
    ensures taken { IfOk result (λ t. (m : Map) → N.words.told source.old m → IsTaken pairs bytes (pairs_in m range.now) t.0.items t.1) }
    ensures answers { Answers N.words source.old source.new result }
{
    let mut taken = Vec::new(alloc);
    let mut used = 0;
    let mut next = next_inside(alloc, source, range, least(range), false)?;
    while let Some(key) = next {
        if taken.len() >= pairs as usize {
            return Ok((taken, true));
        }
        let Some(value) = source.value(alloc, &key)? else {
            return Ok((taken, true));
        };
        let size = size_of(&key, &value);
        if !is_taken(taken.as_slice(), used, size, bytes) {
            return Ok((taken, true));
        }
        used += size;
        next = next_inside(alloc, source, range, &key, true)?;
        taken.push(Pair { key, value })?;
    }
    Ok((taken, false))
}
