//! What words ask for and what runs come to: the commands, what a run sees of the things outside, the
//! outcome of words on an input, and for each command the record of what its runs promise.
//!
//! It stands on the other crates of definitions, and only the program stands on it. It holds no code:
//! each function is empty, and its contract is a law of the definitions in `specs/`, or some of their
//! worked values. Nothing here fails, and nothing here takes memory.
#![tactic(auto)]

ghost use Rattle.run_model.specs.Laws.{DecidedStays, UndecidedRootFinishes, DecidedVerifyStays, UndecidedVerifyFinishes, PassedLinesAreTrue, StoreIsAskedAlike, StoredMapsAreWithin, RangeWordsAreWithin};
ghost use Rattle.run_model.specs.Worked.{OnePairRuns, EmptyRuns, WrongWordRuns, WrongLineRuns, KeyLimitRuns, VerifyRuns, VerifyRangeRuns, VerifyChangesRuns, RangeRuns};

use batch_model::read_batches_are_spelled;
use proof_model::{
    accepted_changes_are_true, accepted_points_are_true, accepted_ranges_are_true,
    read_changes_are_spelled, read_points_are_spelled, read_ranges_are_spelled,
};

/// What the first bytes of an input decide of `root`, the whole input does not change.
pub fn decided_stays()
    ensures { DecidedStays }
{}

/// Where whole lines decide nothing of `root`, an input that ends behind them is one of finished work.
pub fn undecided_root_finishes()
    ensures { UndecidedRootFinishes }
{}

/// What the first bytes of an input decide of `verify`, the whole input does not change.
pub fn decided_verify_stays()
    ensures { DecidedVerifyStays }
{}

/// Where whole lines decide nothing of `verify`, an input that ends behind them is one of finished work.
pub fn undecided_verify_finishes()
    ensures { UndecidedVerifyFinishes }
{}

/// What a line of `verify` shows that passes is so in every map with its root, or SHA-256 is broken.
pub fn passed_lines_are_true()
    ensures { PassedLinesAreTrue }
{
    accepted_points_are_true();
    read_points_are_spelled();
    accepted_ranges_are_true();
    read_ranges_are_spelled();
    accepted_changes_are_true();
    read_changes_are_spelled();
}

/// Whether lines of `verify` ask for the store does not hang on what that is found to be.
pub fn store_is_asked_alike()
    ensures { StoreIsAskedAlike }
{}

/// The map for which the files of a store stand is one of byte strings within the limits.
pub fn stored_maps_are_within()
    ensures { StoredMapsAreWithin }
{
    read_batches_are_spelled();
}

/// What words ask for of a range is within the limits.
pub fn range_words_are_within()
    ensures { RangeWordsAreWithin }
{}

/// Inputs that make the map of one pair, and the line that is printed.
pub fn one_pair_runs()
    ensures { OnePairRuns }
{}

/// Inputs that make the empty map.
pub fn empty_runs()
    ensures { EmptyRuns }
{}

/// Words that are refused.
pub fn wrong_word_runs()
    ensures { WrongWordRuns }
{}

/// Lines that are refused.
pub fn wrong_line_runs()
    ensures { WrongLineRuns }
{}

/// A key on both sides of its limit.
pub fn key_limit_runs()
    ensures { KeyLimitRuns }
{}

/// Lines of proofs, and the first one that does not pass.
pub fn verify_runs()
    ensures { VerifyRuns }
{}

/// Lines of range proofs, and the first one that does not pass.
pub fn verify_range_runs()
    ensures { VerifyRangeRuns }
{}

/// Lines of change proofs, the first one that does not pass, and a store that is not opened.
pub fn verify_changes_runs()
    ensures { VerifyChangesRuns }
{}

/// Range proofs of the empty map, in a store that has it.
pub fn range_runs()
    ensures { RangeRuns }
{}
