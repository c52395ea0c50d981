//! Words for ranges of keys, and for where keys and slots lie beside them.
//!
//! It stands on `base_model` and `trie_model`, and holds no code: each function is empty, and its
//! contract is a law of the definitions in `specs/`. Nothing here fails, and nothing here takes memory.
#![tactic(auto)]

ghost use Rattle.range_model.specs.Laws.{SlotsLieAsTheirKeys, BytesLieAsTheirBits};

/// A slot lies where all keys lie that it begins; it straddles where they lie in no one place.
pub fn slots_lie_as_their_keys()
    ensures { SlotsLieAsTheirKeys }
{}

/// A byte string lies in a range where its bits do.
pub fn bytes_lie_as_their_bits()
    ensures { BytesLieAsTheirBits }
{}
