//! Words for scripts: what each line does to a store and its views, what a whole input prints and commits, and where it stops.
//!
//! It stands on `text_model` for the lines and the texts, on `view_model` for the views, on
//! `batch_model` for the batches, on `trie_model` for the roots and on `proof_model` for the proofs.
//! It holds no code: each function is empty, and its contract is a law of the definitions in `specs/`,
//! or some of their worked values. Nothing here fails, and nothing here takes memory.
#![tactic(auto)]

ghost use Rattle.session_model.specs.Laws.{StepsMakeTheMap, MapsEndThere, HeldOfAllMaps, ChangesAreNamed, DecidedStops, AcknowledgedStand, ViewRootsStay};
ghost use Rattle.session_model.specs.Worked.{WorkedScripts, ViewScripts, ClosedLines, RefusedLines, NamedMaps, ProvedLines, RangedLines};

/// The map at which a script stands is that after its steps.
pub fn steps_make_the_map()
    ensures { StepsMakeTheMap }
{}

/// That map is the last one of the maps that the store had.
pub fn maps_end_there()
    ensures { MapsEndThere }
{}

/// The maps that are held at the end of a script are those that are held of all its maps.
pub fn held_of_all_maps()
    ensures { HeldOfAllMaps }
{}

/// Between which two maps changes are told.
pub fn changes_are_named()
    ensures { ChangesAreNamed }
{}

/// Why a script stops by the first bytes of an input, the whole input does not change.
pub fn decided_stops()
    ensures { DecidedStops }
{}

/// What is acknowledged by bytes of the text of the first steps is what these steps committed, up to some batch.
pub fn acknowledged_stand()
    ensures { AcknowledgedStand }
{}

/// What `view` printed as the root of a view is what `root` and `take` print of it later.
pub fn view_roots_stay()
    ensures { ViewRootsStay }
{}

/// Scripts of few lines, what they print, and where they stop.
pub fn worked_scripts()
    ensures { WorkedScripts }
{}

/// Scripts on views, and what they print.
pub fn view_scripts()
    ensures { ViewScripts }
{}

/// A view that is closed, and the one that stands on it.
pub fn closed_lines()
    ensures { ClosedLines }
{}

/// Lines that are refused, and lines that only read.
pub fn refused_lines()
    ensures { RefusedLines }
{}

/// Which maps have a name in a store, for a script as for a command.
pub fn named_maps()
    ensures { NamedMaps }
{}

/// Proofs of keys in the maps that roots name.
pub fn proved_lines()
    ensures { ProvedLines }
{}

/// Proofs of ranges of the maps that roots name.
pub fn ranged_lines()
    ensures { RangedLines }
{}
