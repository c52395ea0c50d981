// The latest commits within the limits.
ghost use Rattle.std.specs.Prelude.{◌≡◌, ◌≤◌, ◌<◌, ◌^◌, ◌∷◌, ◌+◌, ℕ, length};
ghost use Rattle.std.specs.List.{sum_by};
ghost use Rattle.change_history.specs.Histories.{commit_weight, kept, AreKept};

use crate::Commit;
use circular_buffer::HeapCircularBuffer;

/// Lets the oldest commits go, until the others weigh no more than the limit. Answers how much they weigh.
pub(crate) fn trim(ring: &mut HeapCircularBuffer<Commit>, weight: u128, limit: u64) -> u128
    requires { weight ≡ sum_by commit_weight ring.old.items }
    ensures kept { (n : ℕ) → length ring.old.items ≤ n → ring.new.items ≡ kept n limit ring.old.items }
    ensures capacity { ring.new.capacity ≡ ring.old.capacity }
    ensures weight { result ≡ sum_by commit_weight ring.new.items }
    ensures light { result ≤ limit }
{
    let mut sum = weight;
    while sum > limit as u128 {
        let Some(gone) = ring.pop_back() else {
            return sum;
        };
        sum -= gone.weight();
    }
    sum
}

/// Puts a commit in front of the others, of which the oldest goes where there are too many. Answers how much they weigh.
pub(crate) fn put(
    ring: &mut HeapCircularBuffer<Commit>,
    weight: u64,
    limit: u64,
    commit: Commit,
) -> u64
    requires { AreKept ring.old.items ring.old.capacity weight }
    ensures kept { ring.new.items ≡ kept ring.old.capacity limit (commit ∷ ring.old.items) }
    ensures capacity { ring.new.capacity ≡ ring.old.capacity }
    ensures ring { AreKept ring.new.items ring.new.capacity result }
{
    let mut sum = weight as u128 + commit.weight();
    if let Some(gone) = ring.push_front(commit) {
        sum -= gone.weight();
    }
    trim(ring, sum, limit) as u64
}
