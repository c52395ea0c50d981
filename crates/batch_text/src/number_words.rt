// Words that stand for a number, and for what a line of a script speaks of.
ghost use Rattle.std.specs.Prelude.{◌≡◌};
ghost use Rattle.std.specs.Char.{is_ascii_digit};
ghost use Rattle.std.specs.List.{list_all};
ghost use Rattle.std.specs.Option.{ok_or};
ghost use Rattle.text_model.specs.LineKind.{Number, Place};
ghost use Rattle.text_model.specs.Words.{is_numeral as is_numeral_of, number_word, place_word, count_word, most_pairs, most_bytes};
ghost use Rattle.batch_text.specs.SeenLine.{seen_place, IsRead};

use crate::line_kind::LineKind;

/// The most pairs of a range that may be asked for.
const MOST_PAIRS: u32 = 4_096;

/// The most bytes of them.
const MOST_BYTES: u32 = 2_097_152;

/// What a line of a script speaks of.
#[derive(Clone, Copy, Debug, PartialEq, Eq)]
pub enum PlaceWord {
    /// The store.
    Db,
    /// The view of this number.
    View(u64),
}

// Whether all bytes are decimal digits.
fn are_decimal(word: &[u8]) -> bool
    ensures { result ≡ list_all is_ascii_digit word.now }
{
    word.iter().all(|b| b.is_ascii_digit())
}

// Whether they are, at least one, with no 0 in front of others: a 0 is then the whole word.
fn is_numeral(word: &[u8]) -> bool
    ensures { result ≡ is_numeral_of word.now }
{
    let Some((first, rest)) = word.split_first() else {
        return false;
    };
    if *first == b'0' {
        return rest.is_empty();
    }
    are_decimal(word)
}

/// The number that a word stands for; None where it stands for none.
pub fn read_number_word(word: &[u8]) -> Option<u64>
    ensures { result ≡ number_word word.now }
{
    if !is_numeral(word) {
        return None;
    }
    let Ok(text) = str::from_utf8(word) else {
        return None;
    };
    text.parse::<u64>().ok()
}

/// The number of a view that a word stands for.
pub(crate) fn read_number(word: &[u8]) -> Result<u64, LineKind>
    ensures { IsRead (λ n. n) result (ok_or (number_word word.now) Number) }
{
    read_number_word(word).ok_or(LineKind::Number)
}

/// The store or the view that a word stands for.
pub(crate) fn read_place(word: &[u8]) -> Result<PlaceWord, LineKind>
    ensures { IsRead seen_place result (ok_or (place_word word.now) Place) }
{
    if word == b"db".as_slice() {
        return Ok(PlaceWord::Db);
    }
    match read_number_word(word) {
        Some(number) => Ok(PlaceWord::View(number)),
        None => Err(LineKind::Place),
    }
}

// The number from 1 to a limit that a word stands for.
fn read_count(word: &[u8], limit: u32) -> Option<u32>
    ensures { result ≡ count_word limit word.now }
{
    let number = read_number_word(word)?;
    if number < 1 || number > limit as u64 {
        return None;
    }
    Some(number as u32)
}

/// How many pairs a word asks for: 1 to 4,096; None where it asks for none such.
pub fn read_pairs_word(word: &[u8]) -> Option<u32>
    ensures { result ≡ count_word most_pairs word.now }
{
    read_count(word, MOST_PAIRS)
}

/// How many bytes a word asks for: 1 to 2,097,152; None where it asks for none such.
pub fn read_bytes_word(word: &[u8]) -> Option<u32>
    ensures { result ≡ count_word most_bytes word.now }
{
    read_count(word, MOST_BYTES)
}
