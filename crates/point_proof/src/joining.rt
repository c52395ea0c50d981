ghost use Rattle.std.specs.Prelude.{◌≡◌, ◌*◌, ◌≤◌, ◌++◌, IfOk, length, drop};
ghost use Rattle.bit_keys.specs.Branch.{width_of};

use bit_keys::{Branch, Key, NoMemory};
use std::alloc::Global;

/// A key and behind it the tokens of another from the one at `from` up to `to`.
fn with_tokens(
    alloc: Global,
    front: Key,
    rest: &Key,
    unit: Branch,
    from: u64,
    to: u64,
) -> Result<Key, NoMemory>
    requires order { from ≤ to }
    requires room { width_of unit * to ≤ length rest.now }
    ensures { IfOk result (λ k. k ++ drop (width_of unit * to) rest.now ≡ front ++ drop (width_of unit * from) rest.now) }
{
    let mut key = front;
    for i in from..to {
        key = key.slot(alloc, unit, rest.token(unit, i))?;
    }
    Ok(key)
}

/// A key and behind it another.
pub fn joined(alloc: Global, front: Key, rest: &Key) -> Result<Key, NoMemory>
    ensures { IfOk result (λ k. k ≡ front ++ rest.now) }
{
    let bits = rest.bits();
    let whole = bits / 8;
    // Whole bytes first, and then bit by bit.
    let front = with_tokens(alloc, front, rest, Branch::B256, 0, whole)?;
    with_tokens(alloc, front, rest, Branch::B2, 8 * whole, bits)
}
