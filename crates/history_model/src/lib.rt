//! Words for the history of a store: on which keys two maps differ, which maps are held, and what changed between them.
//!
//! It stands on `base_model`, `trie_model`, `range_model` and `batch_model`, and holds no code: each function is empty,
//! and its contract is a law of the definitions in `specs/`. Nothing here fails, and nothing here takes memory.
#![tactic(auto)]

ghost use Rattle.history_model.specs.Laws.{ChangesLead, AllChangesLead, ChangesRise, NoneToItself, DeltasRise, DeltasDiffer, StepsAddUp, HeldIsLongest, CutsAreOne};
ghost use Rattle.history_model.specs.Worked.{ChangesOfThree, ToldForward, LastCommitCounts, HeavyStandsAlone};

/// The changes in a range, laid on the first map, give the second one there.
pub fn changes_lead()
    ensures { ChangesLead }
{}

/// All changes lead from the one map to the other.
pub fn all_changes_lead()
    ensures { AllChangesLead }
{}

/// The keys of changes strictly increase.
pub fn changes_rise()
    ensures { ChangesRise }
{}

/// A map has no changes to itself.
pub fn none_to_itself()
    ensures { NoneToItself }
{}

/// The keys of deltas strictly increase.
pub fn deltas_rise()
    ensures { DeltasRise }
{}

/// The two values of a delta differ.
pub fn deltas_differ()
    ensures { DeltasDiffer }
{}

/// The deltas of two steps add up, key by key.
pub fn steps_add_up()
    ensures { StepsAddUp }
{}

/// What is held is the longest list within the limits.
pub fn held_is_longest()
    ensures { HeldIsLongest }
{}

/// A list that is cut after each commit is the one that is cut once.
pub fn cuts_are_one()
    ensures { CutsAreOne }
{}

/// The changes of three commits.
pub fn changes_of_three()
    ensures { ChangesOfThree }
{}

/// Changes are told forward, between roots of maps that are held.
pub fn told_forward()
    ensures { ToldForward }
{}

/// The 65th commit lets the first map go.
pub fn last_commit_counts()
    ensures { LastCommitCounts }
{}

/// A commit that is too heavy lets all maps before it go.
pub fn heavy_stands_alone()
    ensures { HeavyStandsAlone }
{}
