// Words that stand for a root.
ghost use Rattle.std.specs.Prelude.{◌≡◌, option_map};
ghost use Rattle.std.specs.Option.{ok_or};
ghost use Rattle.text_model.specs.LineKind.{Root as NoRoot};
ghost use Rattle.text_model.specs.Words.{id_word, back_word, root_word, plain_root_word};
ghost use Rattle.batch_text.specs.SeenLine.{seen_root, IsRead};

use crate::digits::read_digits;
use crate::line_kind::LineKind;
use crate::number_words::read_number_word;
use bit_keys::Id;

/// What a word says of a map: its root, or where a store has it.
#[derive(Clone, Copy, Debug, PartialEq, Eq)]
pub enum RootWord {
    /// The map with this root.
    Id(Id),
    /// The map of the store.
    Now,
    /// The empty map.
    Empty,
    /// The map of the store so many commits back.
    Back(u64),
}

// The ID that 64 digits stand for; None where they stand for none.
fn read_id(word: &[u8]) -> Option<Id>
    ensures { result ≡ id_word word.now }
{
    if word.len() != 64 {
        return None;
    }
    let mut id = [0u8; 32];
    if !read_digits(word, &mut id) {
        return None;
    }
    Some(id)
}

// How many commits back, by a number behind `~`.
fn read_back(word: &[u8]) -> Option<RootWord>
    ensures { option_map seen_root result ≡ back_word word.now }
{
    let (first, number) = word.split_first()?;
    if *first != b'~' {
        return None;
    }
    let commits = read_number_word(number)?;
    Some(RootWord::Back(commits))
}

/// What a word says of a map that a store has; None where it says nothing.
pub fn read_root_word(word: &[u8]) -> Option<RootWord>
    ensures { option_map seen_root result ≡ root_word word.now }
{
    if word == b"now".as_slice() {
        return Some(RootWord::Now);
    }
    if word == b"empty".as_slice() {
        return Some(RootWord::Empty);
    }
    match read_id(word) {
        Some(id) => Some(RootWord::Id(id)),
        None => read_back(word),
    }
}

/// What a word of a script's line says of a map.
pub(crate) fn read_root(word: &[u8]) -> Result<RootWord, LineKind>
    ensures { IsRead seen_root result (ok_or (root_word word.now) NoRoot) }
{
    read_root_word(word).ok_or(LineKind::Root)
}

/// The root that a word stands for where there is no store.
pub(crate) fn read_plain_root(word: &[u8]) -> Result<Id, LineKind>
    ensures { IsRead (λ id. id) result (ok_or (plain_root_word word.now) NoRoot) }
{
    if word == b"empty".as_slice() {
        return Ok([0; 32]);
    }
    read_id(word).ok_or(LineKind::Root)
}
