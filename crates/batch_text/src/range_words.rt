// Words that stand for the bounds of a range.
ghost use Rattle.std.specs.Prelude.{◌≡◌, IfOk, IsErrOf, option_map};
ghost use Rattle.std.specs.Result.{result_ok};
ghost use Rattle.range_model.specs.Ranges.{are_in_order as in_order_of};
ghost use Rattle.text_model.specs.Words.{range_between};
ghost use Rattle.text_model.specs.ReadLine.{bound_word};
ghost use Rattle.batch_text.specs.SeenLine.{IsRead};
ghost use Rattle.batch_text.specs.BoundWords.{IsShort, IsBound};

use crate::hex_words::read_short;
use crate::line_kind::LineKind;
use bit_keys::{NoMemory, Range};
use std::alloc::Global;
use std::marker::Model;

/// The most bytes of a bound: one more than a key has.
const BOUND_LIMIT: usize = 257;

/// The bound of a range that stands in place, so that it takes no memory.
#[derive(Debug, Drop)]
pub struct BoundWord {
    room: [u8; BOUND_LIMIT],
    count: usize,
}

impl Model for BoundWord {
    ghost use Rattle.std.specs.Prelude.{ℕ, ◌≤◌, List, take};
    ghost use Rattle.batch_text.specs.BoundWords.{IsShort};

    ghost Value = { List ℕ };

    ghost view = { λ bound. take bound.count bound.room };

    ghost invariant = { λ bound. (bound.count ≤ 257) × IsShort (take bound.count bound.room) };
}

impl BoundWord {
    /// Its bytes.
    pub fn as_slice(&self) -> &[u8]
        ensures same { result.now ≡ self.now }
        ensures short { IsShort self.now }
    {
        &self.room[..self.count]
    }
}

/// The bound that a word stands for: none for a star.
pub(crate) fn read_bound(word: &[u8]) -> Result<Option<BoundWord>, LineKind>
    ensures read { IsRead (λ bound. bound) result (bound_word word.now) }
    ensures told { IsErrOf result LineKind.NoMemory → ⊥ }
{
    if word == b"*".as_slice() {
        return Ok(None);
    }
    let mut room = [0u8; BOUND_LIMIT];
    let count = read_short(word, &mut room)?;
    Ok(Some(BoundWord { room, count }))
}

/// The bound that a word stands for, which is none for a star; None where the word stands for no bound.
pub fn read_bound_word(word: &[u8]) -> Option<Option<BoundWord>>
    ensures { result ≡ result_ok (bound_word word.now) }
{
    match read_bound(word) {
        Ok(bound) => Some(bound),
        Err(_) => None,
    }
}

/// A range whose bounds stand in place, so that it takes no memory.
#[derive(Debug, Drop)]
pub struct RangeWord {
    start: Option<BoundWord>,
    end: Option<BoundWord>,
}

impl Model for RangeWord {
    ghost use Rattle.std.specs.Prelude.{◌≡◌, true};
    ghost use Rattle.range_model.specs.Ranges.{Range as Bounds, are_in_order};

    ghost Value = { Bounds };

    ghost view = { λ range. record { start = range.start; end = range.end } };

    ghost invariant = { λ range. are_in_order range.start range.end ≡ true };
}

// Whether an end is not below its start.
fn are_in_order(start: &Option<BoundWord>, end: &Option<BoundWord>) -> bool
    ensures { result ≡ in_order_of start.now end.now }
{
    match (start, end) {
        (Some(start), Some(end)) => start.as_slice().cmp(end.as_slice()).is_le(),
        _ => true,
    }
}

fn copied(alloc: Global, bound: &Option<BoundWord>) -> Result<Option<Vec<u8>>, NoMemory>
    ensures same { IfOk result (λ b. option_map (λ v. v.items) b ≡ bound.now) }
    ensures within { IsBound bound.now }
{
    match bound {
        Some(bytes) => Ok(Some(Vec::from_slice(alloc, bytes.as_slice())?)),
        None => Ok(None),
    }
}

impl RangeWord {
    /// The range between two bounds, unless the end is below the start.
    pub fn between(start: Option<BoundWord>, end: Option<BoundWord>) -> Option<RangeWord>
        ensures { result ≡ range_between start end }
    {
        if !are_in_order(&start, &end) {
            return None;
        }
        Some(RangeWord { start, end })
    }

    /// The range as one that owns its bounds.
    pub fn to_range(&self, alloc: Global) -> Result<Range, NoMemory>
        ensures { IfOk result (λ range. range ≡ self.now) }
    {
        let start = copied(alloc, &self.start)?;
        let end = copied(alloc, &self.end)?;
        Ok(Range::new(start, end).unwrap())
    }
}
