// The deltas of two runs of commits as those of one.
ghost use Rattle.std.specs.Prelude.{◌≡◌, ◌<◌, ◌≤◌, ◌+◌, length, option_map, IfOk, IfSome};
ghost use Rattle.change_history.specs.NetChanges.{net_of, nets_of, paired, turn};
ghost use Rattle.change_history.specs.MergedDeltas.{IsMerged, added_of, turn_of};

use crate::Net;
use mdb_base::NoMemory;
use std::alloc::Global;
use std::cmp::Ordering;

/// The delta of the least key, and how many each run gives for it.
#[derive(Clone, Copy)]
struct Step<'a> {
    /// None where the newer run undoes what the older one did.
    added: Option<Net<'a>>,
    older: usize,
    newer: usize,
}

/// Two deltas of one key as one.
fn pair<'a>(first: &Net<'a>, second: &Net<'a>) -> Option<Net<'a>>
    ensures { added_of result ≡ paired (net_of first.now) (net_of second.now) }
{
    let net = Net {
        first: first.first,
        last: second.last,
    };
    if net.is_idle() { None } else { Some(net) }
}

/// The next step, where a run is left.
fn next<'a>(older: &[Net<'a>], newer: &[Net<'a>]) -> Option<Step<'a>>
    ensures turn { option_map (turn_of (nets_of older.now) (nets_of newer.now)) result ≡ turn (nets_of older.now) (nets_of newer.now) }
    ensures takes { IfSome result (λ s. (s.older ≤ length older.now) × (s.newer ≤ length newer.now) × (0 < s.older + s.newer)) }
{
    match (older.split_first(), newer.split_first()) {
        (None, None) => None,
        (Some((first, _)), None) => Some(Step {
            added: Some(*first),
            older: 1,
            newer: 0,
        }),
        (None, Some((second, _))) => Some(Step {
            added: Some(*second),
            older: 0,
            newer: 1,
        }),
        (Some((first, _)), Some((second, _))) => match first.key().cmp(second.key()) {
            Ordering::Less => Some(Step {
                added: Some(*first),
                older: 1,
                newer: 0,
            }),
            Ordering::Equal => Some(Step {
                added: pair(first, second),
                older: 1,
                newer: 1,
            }),
            Ordering::Greater => Some(Step {
                added: Some(*second),
                older: 0,
                newer: 1,
            }),
        },
    }
}

/// The deltas of two runs of commits, of which the second follows the first, as those of one run.
pub(crate) fn merge<'a>(
    alloc: Global,
    older: &[Net<'a>],
    newer: &[Net<'a>],
) -> Result<Vec<Net<'a>>, NoMemory>
    ensures { IfOk result (λ v. IsMerged (nets_of older.now) (nets_of newer.now) (nets_of v.items)) }
{
    let mut at = 0;
    let mut beside = 0;
    let mut merged = Vec::new(alloc);
    while let Some(step) = next(&older[at..], &newer[beside..]) {
        if let Some(net) = step.added {
            merged.push(net)?;
        }
        at += step.older;
        beside += step.newer;
    }
    Ok(merged)
}
