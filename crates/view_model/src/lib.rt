//! Words for views: proposed changes that stand on the store or on each other, their states, and what calls do to them.
//!
//! It stands on `base_model`, `trie_model` and `batch_model`, and holds no code: each function is empty, and its
//! contract is a law of the definitions in `specs/`. Nothing here fails, and nothing here takes memory.
#![tactic(auto)]

ghost use Rattle.view_model.specs.Laws.{CommitsKeepWhatStandsOn, CommitsEndTheOthers, NextIsTold, OneNumberMore, DeadViewsStay, LimitsHold, NumbersAreGivenOnce, ForestsAreReached, CallsKeepForests, DirectsEndAll, MadeOnParents, LiveMapsStay, CommitsTakeMaps};

/// After a commit exactly the views stay live that stand on the one that was committed.
pub fn commits_keep_what_stands_on()
    ensures { CommitsKeepWhatStandsOn }
{}

/// A commit makes every other live view invalid, and the view itself is committed.
pub fn commits_end_the_others()
    ensures { CommitsEndTheOthers }
{}

/// The test and the condition of a commit are one.
pub fn next_is_told()
    ensures { NextIsTold }
{}

/// A live view whose path is one number longer than that of the store may be committed.
pub fn one_number_more()
    ensures { OneNumberMore }
{}

/// A view that is no longer live stays what it is.
pub fn dead_views_stay()
    ensures { DeadViewsStay }
{}

/// After any list of calls no limit is passed.
pub fn limits_hold()
    ensures { LimitsHold }
{}

/// The numbers that are given are 1, 2, 3 and so on.
pub fn numbers_are_given_once()
    ensures { NumbersAreGivenOnce }
{}

/// In each forest that calls make, live views stand on the store or on live views.
pub fn forests_are_reached()
    ensures { ForestsAreReached }
{}

/// And each call leaves it so.
pub fn calls_keep_forests()
    ensures { CallsKeepForests }
{}

/// After a batch that is committed at once no view is live.
pub fn directs_end_all()
    ensures { DirectsEndAll }
{}

/// A view that was just made is live, and its map is that of its parent with its batch laid on.
pub fn made_on_parents()
    ensures { MadeOnParents }
{}

/// As long as a view stays live its map stays what it is, whatever is called.
pub fn live_maps_stay()
    ensures { LiveMapsStay }
{}

/// A commit makes the map of the view that of the store.
pub fn commits_take_maps()
    ensures { CommitsTakeMaps }
{}
