ghost use Rattle.std.specs.Prelude.{◌≡◌, length, None, IfNone, OnOk};
ghost use Rattle.base_model.specs.Bytes.{AreBytes};
ghost use Rattle.trie_model.specs.Ids.{id};
ghost use Rattle.trie_model.specs.Strings.{strings};
ghost use Rattle.bit_keys.specs.Branch.{width_of};
ghost use Rattle.proof_model.specs.Claims.{claim_items};
ghost use Rattle.proof_model.specs.Refusals.{first_break, first_place, lies_outside, refusal, root_refusal, or_else, Outside};
ghost use Rattle.proof_check.specs.Claims.{claim_of, keys_of, entry_less, entry_outside, entry_refusal, listed_refusal, HaveBytes, IsCheckable};
ghost use Rattle.proof_check.specs.CheckResults.{Tells, Costs};

use crate::claim::{Claim, Entry};
use crate::items::items_of;
use crate::paths::check_paths;
use crate::proof_node::ProofNode;
use crate::verify_fault::VerifyFault;
use bit_keys::{Branch, Id, Range};
use std::alloc::Global;
use std::sync::ledger::Ledger;
use trie_items::{ItemList, Steps};

/// The first entry whose key is not greater than the one before it.
fn unsorted(entries: &[Entry]) -> Option<usize>
    ensures { result ≡ first_break entry_less 0 entries.now }
{
    for i in 1..entries.len() {
        if !entries[i - 1].key.cmp(entries[i].key).is_lt() {
            return Some(i);
        }
    }
    None
}

fn is_outside(asked: &Range, key: &[u8]) -> bool
    ensures outside { result ≡ lies_outside asked.now key.now }
    ensures bytes { AreBytes key.now }
{
    !asked.holds(key)
}

/// The first entry whose key is not in the range.
fn outside(entries: &[Entry], asked: &Range) -> Option<usize>
    ensures place { result ≡ first_place (entry_outside asked.now) 0 entries.now }
    ensures bytes { IfNone result (HaveBytes entries.now) }
{
    for (i, entry) in entries.iter().enumerate() {
        if is_outside(asked, entry.key) {
            return Some(i);
        }
    }
    None
}

fn check_inside(entries: &[Entry], asked: &Range) -> Result<(), VerifyFault>
    ensures told { Tells result (or_else Outside (first_place (entry_outside asked.now) 0 entries.now) None) }
    ensures bytes { OnOk result (HaveBytes entries.now) }
{
    match outside(entries, asked) {
        Some(place) => Err(VerifyFault::Outside(place)),
        None => Ok(()),
    }
}

/// Whether the keys of entries strictly increase and lie in the range.
fn check_entries(entries: &[Entry], asked: &Range) -> Result<(), VerifyFault>
    ensures told { Tells result (entry_refusal asked.now entries.now None) }
    ensures bytes { OnOk result (HaveBytes entries.now) }
{
    match unsorted(entries) {
        Some(place) => Err(VerifyFault::Unsorted(place)),
        None => check_inside(entries, asked),
    }
}

/// What is told of entries and of paths alone: whether the keys strictly increase and lie in the range, and
/// whether the paths are in order and agree.
pub fn check_listed(
    asked: &Range,
    entries: &[Entry],
    start: &[ProofNode],
    end: &[ProofNode],
) -> Result<(), VerifyFault>
    ensures { Tells result (listed_refusal asked.now (keys_of entries.now) start.now end.now) }
{
    check_entries(entries, asked)?;
    check_paths(start, end)
}

/// Whether items have a root, all of it.
fn check_root<L: Ledger>(
    alloc: Global,
    items: &ItemList,
    root: &Id,
    steps: &mut Steps<L>,
) -> Result<(), VerifyFault>
    ensures told { Tells result (root_refusal (id items.now.width items.now.items) root.now) }
    ensures cost { Costs result steps.old steps.new (length (strings items.now.width items.now.items)) }
{
    let have = items.root(alloc, steps)?;
    if have != *root {
        return Err(VerifyFault::RootDiffers { have, want: *root });
    }
    Ok(())
}

/// Whether a claim is accepted against a root, or the first reason why not. A range was asked for, and
/// where the claim reaches less far, its entries are to tell all up to there. No node is hashed twice.
pub fn check<L: Ledger>(
    alloc: Global,
    branch: Branch,
    asked: &Range,
    root: &Id,
    claim: &Claim,
    steps: &mut Steps<L>,
) -> Result<(), VerifyFault>
    requires { IsCheckable (width_of branch) asked.now (claim_of claim.now) }
    ensures told { Tells result (refusal (width_of branch) asked.now root.now (claim_of claim.now)) }
    ensures cost { Costs result steps.old steps.new (length (strings (width_of branch) (claim_items (width_of branch) (claim_of claim.now)))) }
{
    check_entries(claim.entries, asked)?;
    let items = items_of(alloc, branch, claim)?;
    check_root(alloc, &items, root, steps)
}
