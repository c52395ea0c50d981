//! Words for bytes and the outside: byte strings, bits, uvarint, fields, membership, faults and streams.
//!
//! It stands on `std` alone and holds no code: each function is empty, and its contract is a law
//! of the definitions in `specs/`. Nothing here fails, and nothing here takes memory.
#![tactic(auto)]

ghost use Rattle.base_model.specs.Uvarint.{UvarintsArePrefixFree, WorkedUvarints};
ghost use Rattle.base_model.specs.ReadUvarint.{SpelledNumbersAreRead, ReadNumbersAreSpelled};

/// No spelling of a number is a prefix of the spelling of another.
pub fn uvarints_are_prefix_free()
    ensures { UvarintsArePrefixFree }
{}

/// Worked spellings, as Go's package `encoding/binary` writes them.
pub fn worked_uvarints()
    ensures { WorkedUvarints }
{}

/// The spelling of a number of at most 64 bits is read as that number, whatever follows it.
pub fn spelled_numbers_are_read()
    ensures { SpelledNumbersAreRead }
{}

/// What is read is the shortest spelling of that number.
pub fn read_numbers_are_spelled()
    ensures { ReadNumbersAreSpelled }
{}
