// The deltas of one commit in a range.
ghost use Rattle.std.specs.Prelude.{◌≡◌, IfOk};
ghost use Rattle.std.specs.List.{filter};
ghost use Rattle.history_model.specs.Changes.{lies_in};
ghost use Rattle.change_history.specs.NetChanges.{nets_of};

use crate::{Delta, Net};
use bit_keys::Range;
use mdb_base::NoMemory;
use std::alloc::Global;

/// The deltas of a commit that lie in a range.
pub(crate) fn list<'a>(
    alloc: Global,
    deltas: &'a [Delta],
    range: &Range,
) -> Result<Vec<Net<'a>>, NoMemory>
    ensures { IfOk result (λ v. nets_of v.items ≡ filter (lies_in range.now) deltas.now) }
{
    let mut listed = Vec::new(alloc);
    for delta in deltas {
        if range.holds(&delta.key) {
            listed.push(Net {
                first: delta,
                last: delta,
            })?;
        }
    }
    Ok(listed)
}
