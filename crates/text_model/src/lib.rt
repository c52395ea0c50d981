//! The words of text: lines and which of them are read, what a line asks for or why it is not
//! understood, the first bad line, the map that lines make, and the texts that are printed.
//!
//! It stands on `base_model`, `trie_model` and `range_model`, and on `hex` for its words. It holds no code: each
//! function is empty, and its contract is a law of the definitions in `specs/`, or some of their
//! worked values. Nothing here fails, and nothing here takes memory.
#![tactic(auto)]

ghost use Rattle.text_model.specs.Laws.{LinesMakeMaps, LastLineCounts, FirstBadLine, CutLines, BadLineStays, OverlongLinesAreBad, RootLines, NumberedLines, ValueLines, NumbersAreDecimal, PointLinesAreWithin, RangeLinesAreWithin, AskedRangesAreWithin};
ghost use Rattle.text_model.specs.WorkedLines.{GoodLines, BadLines, ScriptLines, BadScriptLines, ProofLines};
ghost use Rattle.text_model.specs.WorkedTexts.{WorkedTexts};

/// What lines make is a map of byte strings within the limits of keys and values.
pub fn lines_make_maps()
    ensures { LinesMakeMaps }
{}

/// A later line on a key replaces an earlier one.
pub fn last_line_counts()
    ensures { LastLineCounts }
{}

/// The number that is told of a bad line is that of the first one, whatever makes a line bad.
pub fn first_bad_line()
    ensures { FirstBadLine }
{}

/// Which lines of an input are read, by its limit.
pub fn cut_lines()
    ensures { CutLines }
{}

/// A bad line within the limit of an input is the first bad line of the whole.
pub fn bad_line_stays()
    ensures { BadLineStays }
{}

/// A line of too many bytes is not understood, whatever it is an input of.
pub fn overlong_lines_are_bad()
    ensures { OverlongLinesAreBad }
{}

/// The line of a root tells the root, and always has one length.
pub fn root_lines()
    ensures { RootLines }
{}

/// The line of a commit, and of a view that was made or committed, tells its number and its root.
pub fn numbered_lines()
    ensures { NumberedLines }
{}

/// The line of what is at a key tells it, and a printed word is read as the bytes that it stands for.
pub fn value_lines()
    ensures { ValueLines }
{}

/// A word is read as a number exactly where it is what is printed of that number.
pub fn numbers_are_decimal()
    ensures { NumbersAreDecimal }
{}

/// What a line says of a proof: the bytes of a root, of a key within its limit, and of the proof.
pub fn point_lines_are_within()
    ensures { PointLinesAreWithin }
{}

/// What a line says of a range proof, or of a change proof: the bytes of a root, a range of keys, and the bytes of the proof.
pub fn range_lines_are_within()
    ensures { RangeLinesAreWithin }
{}

/// What a line asks for of a range: a range of keys, and how much of it within the limits.
pub fn asked_ranges_are_within()
    ensures { AskedRangesAreWithin }
{}

/// Lines that are understood.
pub fn good_lines()
    ensures { GoodLines }
{}

/// Lines that are not understood, and their faults.
pub fn bad_lines()
    ensures { BadLines }
{}

/// Lines of a script that are understood.
pub fn script_lines()
    ensures { ScriptLines }
{}

/// Lines of a script that are not understood, and their faults.
pub fn bad_script_lines()
    ensures { BadScriptLines }
{}

/// Lines of an input of proofs, and the faults of some.
pub fn proof_lines()
    ensures { ProofLines }
{}

/// Texts that come with a store and with views.
pub fn worked_texts()
    ensures { WorkedTexts }
{}
