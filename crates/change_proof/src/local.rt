ghost use Rattle.std.specs.Prelude.{◌≡◌, true, IfOk};
ghost use Rattle.std.specs.List.{AllByRecursion};
ghost use Rattle.trie_model.specs.Maps.{Map};
ghost use Rattle.range_model.specs.Ranges.{holds};
ghost use Rattle.trie_items.specs.Sources.{Answers};
ghost use Rattle.proof_model.specs.RangeProofs.{pairs_in};
ghost use Rattle.proof_model.specs.SoundProofs.{AreSorted};

use bit_keys::Range;
use proof_check::Pair;
use range_proof::{least, next_inside};
use std::alloc::Global;
use trie_items::{NodeSource, SourceFault};

/// The pairs of a range in the order of their keys, one after another.
pub(crate) fn pairs_of<N: NodeSource>(
    alloc: Global,
    source: &mut N,
    range: &Range,
) -> Result<Vec<Pair>, SourceFault>
    ensures told { IfOk result (λ ps. (m : Map) → N.words.told source.old m → ps.items ≡ pairs_in m range.now) }
    ensures sorted { IfOk result (λ ps. AreSorted ps.items) }
    ensures inside { IfOk result (λ ps. AllByRecursion (λ e. holds range.now e.0 ≡ true) ps.items) }
    ensures answers { Answers N.words source.old source.new result }
{
    let mut pairs = Vec::new(alloc);
    let mut next = next_inside(alloc, source, range, least(range), false)?;
    while let Some(key) = next {
        let Some(value) = source.value(alloc, &key)? else {
            return Ok(pairs);
        };
        next = next_inside(alloc, source, range, &key, true)?;
        pairs.push(Pair { key, value })?;
    }
    Ok(pairs)
}
