//! Words for the journal: headers, records, and the map that two files stand for.
//!
//! It stands on `base_model`, `disk_model`, `trie_model` and `batch_model`, and holds no code: each function is
//! empty, and its contract is a law of the definitions in `specs/`, or some of their worked values.
//! Nothing here fails, and nothing here takes memory.
#![tactic(auto)]

ghost use Rattle.store_model.specs.Laws.{SpelledHeadersAreRead, ReadHeadersAreSpelled, SpelledRecordsAreRead, ReadRecordsAreSpelled, RecordsArePrefixFree, FilesHoldOneList, FilesStandForOneMap, FilesAreFoundOnce, MapsFollowRecords, AppendsAdd, StagingIsSafe, OpeningIsSafe, ActiveFileCounts};
ghost use Rattle.store_model.specs.Worked.{WorkedJournals, WrongHeaders};

/// A header that is spelled is read, whatever follows it.
pub fn spelled_headers_are_read()
    ensures { SpelledHeadersAreRead }
{}

/// A header that is read is spelled so.
pub fn read_headers_are_spelled()
    ensures { ReadHeadersAreSpelled }
{}

/// A record that is spelled between two gates is read.
pub fn spelled_records_are_read()
    ensures { SpelledRecordsAreRead }
{}

/// A record that is read is spelled so, and the next gate is there.
pub fn read_records_are_spelled()
    ensures { ReadRecordsAreSpelled }
{}

/// No record begins another.
pub fn records_are_prefix_free()
    ensures { RecordsArePrefixFree }
{}

/// Files hold at most one list of records.
pub fn files_hold_one_list()
    ensures { FilesHoldOneList }
{}

/// Files stand for at most one map.
pub fn files_stand_for_one_map()
    ensures { FilesStandForOneMap }
{}

/// Files are found to be one map, or not to be opened for one reason.
pub fn files_are_found_once()
    ensures { FilesAreFoundOnce }
{}

/// One record more makes of the map what it makes of the map before it.
pub fn maps_follow_records()
    ensures { MapsFollowRecords }
{}

/// What becomes of the active file becomes of the records.
pub fn active_file_counts()
    ensures { ActiveFileCounts }
{}

/// An append adds its record, and before its gate is opened it adds none.
pub fn appends_add()
    ensures { AppendsAdd }
{}

/// A crash before the first sync of an append leaves the records before it.
pub fn staging_is_safe()
    ensures { StagingIsSafe }
{}

/// A crash before the second sync of an append leaves the records before it, or with it.
pub fn opening_is_safe()
    ensures { OpeningIsSafe }
{}

/// The worked journal of one commit, with and without more behind its last gate.
pub fn worked_journals()
    ensures { WorkedJournals }
{}

/// Headers with a wrong byte, and what is told of them.
pub fn wrong_headers()
    ensures { WrongHeaders }
{}
