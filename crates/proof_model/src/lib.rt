//! Words for proofs: the path of a key, the taking, proofs as values and as bytes, and why one is refused.
//!
//! It stands on `base_model`, `trie_model`, `batch_model` and `range_model`, and holds no code: each
//! function is empty, or names the laws that it stands on, and its contract is a law of the definitions in `specs/`. Nothing here fails, and
//! nothing here takes memory.
#![tactic(auto)]

ghost use Rattle.proof_model.specs.Laws.{TakenIsLongest, SpelledPointsAreRead, ReadPointsAreSpelled, SpelledRangesAreRead, ReadRangesAreSpelled, SpelledChangesAreRead, ReadChangesAreSpelled};
ghost use Rattle.proof_model.specs.SoundProofs.{ClaimItemsAreValid, AcceptedClaimsAreTrue, AcceptedPointsAreTrue};
ghost use Rattle.proof_model.specs.TrueClaims.{DescribedHasTheRoot, TrueClaimsAreAccepted, TruePointsAreAccepted};
ghost use Rattle.proof_model.specs.Worked.{OneKeyPoints, TwoKeyPoint, ChildPoint, DoubledIsRefused, OneKeyIsAccepted};
ghost use Rattle.proof_model.specs.RangeLaws.{AcceptedRangesAreTrue, UncutRangesAreWhole, TrueRangesAreAccepted};
ghost use Rattle.proof_model.specs.ChangeLaws.{AcceptedChangesAreTrue, TrueChangesAreAccepted};
ghost use Rattle.proof_model.specs.WorkedRanges.{UnboundedRange, OneKeyRange, GapRange, CutRange, SwappedIsRefused, OutsideIsRefused, LeftOutIsRefused, BadFlagIsTold};
ghost use Rattle.proof_model.specs.WorkedChanges.{OneChange, NoChange, IdleIsRefused, TwiceIsRefused, BesideIsRefused};

use history_model::{changes_lead, changes_of_three, changes_rise, none_to_itself};
use range_model::{bytes_lie_as_their_bits, slots_lie_as_their_keys};

/// What is taken of pairs is the longest front that fits, or one pair.
pub fn taken_is_longest()
    ensures { TakenIsLongest }
{}

/// A point proof that is spelled is read.
pub fn spelled_points_are_read()
    ensures { SpelledPointsAreRead }
{}

/// A point proof that is read is spelled so, each byte of it.
pub fn read_points_are_spelled()
    ensures { ReadPointsAreSpelled }
{}

/// The bytes of point proofs in a map of one key.
pub fn one_key_points()
    ensures { OneKeyPoints }
{}

/// The bytes of a point proof in a map of two keys.
pub fn two_key_point()
    ensures { TwoKeyPoint }
{}

/// The bytes of a point proof whose last node is a child in the key's slot.
pub fn child_point()
    ensures { ChildPoint }
{}

/// A point proof whose node is shown twice is refused.
pub fn doubled_is_refused()
    ensures { DoubledIsRefused }
{}

/// The point proofs of a map of one key are accepted against its root.
pub fn one_key_is_accepted()
    ensures { OneKeyIsAccepted }
{}

/// The items of a proof are a valid item list.
pub fn claim_items_are_valid()
    ensures { ClaimItemsAreValid }
{
    slots_lie_as_their_keys();
    bytes_lie_as_their_bits();
}

/// A proof that is accepted lists what the map has in its range, or SHA-256 is broken.
pub fn accepted_claims_are_true()
    ensures { AcceptedClaimsAreTrue }
{
    slots_lie_as_their_keys();
    bytes_lie_as_their_bits();
}

/// A point proof that is accepted shows what the map has at the key, or SHA-256 is broken.
pub fn accepted_points_are_true()
    ensures { AcceptedPointsAreTrue }
{
    slots_lie_as_their_keys();
    bytes_lie_as_their_bits();
}

/// An item list that describes a map, and branches where the map does, has the map's root.
pub fn described_has_the_root()
    ensures { DescribedHasTheRoot }
{}

/// All that a map has in a range, with the paths to both ends, is accepted.
pub fn true_claims_are_accepted()
    ensures { TrueClaimsAreAccepted }
{
    slots_lie_as_their_keys();
    bytes_lie_as_their_bits();
}

/// The point proof of each key in each map is accepted.
pub fn true_points_are_accepted()
    ensures { TruePointsAreAccepted }
{
    slots_lie_as_their_keys();
    bytes_lie_as_their_bits();
}

/// A range proof that is spelled is read.
pub fn spelled_ranges_are_read()
    ensures { SpelledRangesAreRead }
{}

/// A range proof that is read is spelled so, each byte of it.
pub fn read_ranges_are_spelled()
    ensures { ReadRangesAreSpelled }
{}

/// The bytes of a range proof without bounds.
pub fn unbounded_range()
    ensures { UnboundedRange }
{}

/// The bytes of a range proof of one key.
pub fn one_key_range()
    ensures { OneKeyRange }
{}

/// The bytes of a range proof that has no pair.
pub fn gap_range()
    ensures { GapRange }
{}

/// The bytes of a range proof that is cut.
pub fn cut_range()
    ensures { CutRange }
{}

/// Pairs that are not in order are refused.
pub fn swapped_is_refused()
    ensures { SwappedIsRefused }
{}

/// A pair that was not asked for is refused.
pub fn outside_is_refused()
    ensures { OutsideIsRefused }
{}

/// A list without one of the pairs is refused.
pub fn left_out_is_refused()
    ensures { LeftOutIsRefused }
{}

/// Bytes with a flag above 1 are no range proof, and the place of the flag is told.
pub fn bad_flag_is_told()
    ensures { BadFlagIsTold }
{}

/// A range proof that is accepted lists what the map has up to where it reaches, or SHA-256 is broken.
pub fn accepted_ranges_are_true()
    ensures { AcceptedRangesAreTrue }
{
    slots_lie_as_their_keys();
    bytes_lie_as_their_bits();
}

/// A range proof that is accepted and not cut lists what the map has in the whole range, or SHA-256 is broken.
pub fn uncut_ranges_are_whole()
    ensures { UncutRangesAreWhole }
{
    slots_lie_as_their_keys();
    bytes_lie_as_their_bits();
}

/// The range proof of each range of each map is accepted, however much of it is taken.
pub fn true_ranges_are_accepted()
    ensures { TrueRangesAreAccepted }
{
    slots_lie_as_their_keys();
    bytes_lie_as_their_bits();
}

/// A change proof that is spelled is read.
pub fn spelled_changes_are_read()
    ensures { SpelledChangesAreRead }
{}

/// A change proof that is read is spelled so, each byte of it.
pub fn read_changes_are_spelled()
    ensures { ReadChangesAreSpelled }
{}

/// A change proof that is accepted leads to the map up to where its changes reach, or SHA-256 is broken.
pub fn accepted_changes_are_true()
    ensures { AcceptedChangesAreTrue }
{
    slots_lie_as_their_keys();
    bytes_lie_as_their_bits();
}

/// The change proof of two maps is accepted against the root of the later one where the local map is the former one,
/// however much of the changes is taken.
pub fn true_changes_are_accepted()
    ensures { TrueChangesAreAccepted }
{
    slots_lie_as_their_keys();
    bytes_lie_as_their_bits();
    changes_lead();
    changes_rise();
}

/// The bytes of a change proof of one put.
pub fn one_change()
    ensures { OneChange }
{
    changes_of_three();
}

/// The bytes of a change proof of no change.
pub fn no_change()
    ensures { NoChange }
{
    none_to_itself();
}

/// Changes that change nothing are refused, and a deletion of a key that is there is none of them.
pub fn idle_is_refused()
    ensures { IdleIsRefused }
{}

/// Two changes of one key are refused.
pub fn twice_is_refused()
    ensures { TwiceIsRefused }
{}

/// A change that was not asked for is refused.
pub fn beside_is_refused()
    ensures { BesideIsRefused }
{}
