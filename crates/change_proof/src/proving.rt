ghost use Rattle.std.specs.Prelude.{◌≡◌, IfOk};
ghost use Rattle.std.specs.Option.{option_copied};
ghost use Rattle.trie_model.specs.Maps.{Map};
ghost use Rattle.bit_keys.specs.Branch.{width_of};
ghost use Rattle.trie_items.specs.Sources.{Answers};
ghost use Rattle.proof_model.specs.ChangeProofs.{proof_of_changes, changes_reach};

use bit_keys::{Branch, Range};
use change_history::Taken;
use mdb_base::Change;
use proof_check::ChangeProof;
use range_proof::path_of_bound;
use std::alloc::Global;
use trie_items::{NodeSource, SourceFault};

/// The end of the range that changes tell of.
fn reached_end<'a>(range: &'a Range, cut: bool, changes: &'a [Change]) -> Option<&'a [u8]>
    ensures { option_copied result ≡ (changes_reach range.now cut changes.now).end }
{
    if !cut {
        return range.end();
    }
    match changes.last() {
        Some(last) => Some(&last.key),
        None => range.end(),
    }
}

/// The changes of a range that were taken, and the paths of both ends of the range that they tell of. The
/// source is that of the map to which the changes lead.
pub fn prove<N: NodeSource>(
    alloc: Global,
    source: &mut N,
    branch: Branch,
    range: &Range,
    taken: Taken,
) -> Result<ChangeProof, SourceFault>
    requires { N.words.width source.old ≡ width_of branch }
    ensures proof { IfOk result (λ p. (m : Map) → N.words.told source.old m → p ≡ proof_of_changes (width_of branch) m range.now taken.cut taken.changes.items) }
    ensures answers { Answers N.words source.old source.new result }
{
    let start = path_of_bound(alloc, source, branch, range.start())?;
    let end = path_of_bound(
        alloc,
        source,
        branch,
        reached_end(range, taken.cut, &taken.changes),
    )?;
    Ok(ChangeProof {
        cut: taken.cut,
        changes: taken.changes,
        start,
        end,
    })
}
