// Words in hexadecimal: keys, values, and bytes of any number.
ghost use Rattle.std.specs.Prelude.{◌≡◌, ◌≤◌, ◌%◌, IfSome, IfNone, IfOk, IsErrOf, None, length, take};
ghost use Rattle.std.specs.List.{AllPass};
ghost use Rattle.std.specs.Option.{ok_or};
ghost use Rattle.std.specs.Result.{result_ok};
ghost use Rattle.hex.specs.Hex.{decode_of, is_hex_digit};
ghost use Rattle.text_model.specs.LineKind.{Hex, LongKey};
ghost use Rattle.text_model.specs.Words.{hex_word};
ghost use Rattle.text_model.specs.ReadLine.{at_most, key_word, value_word};
ghost use Rattle.batch_text.specs.SeenLine.{IsRead};

use crate::digits::{are_digits, read_digits};
use crate::key_bytes::KeyBytes;
use crate::line_kind::LineKind;
use smallvec::SmallVec;
use std::alloc::Global;
use std::marker::Model;

/// The most bytes of a key.
const KEY_LIMIT: usize = 256;

/// The most bytes of a value.
const VALUE_LIMIT: usize = 262_144;

// The digits that a word has for its bytes, two for each: none for a dash. They may be no digits yet.
fn digits_of(word: &[u8]) -> Option<&[u8]>
    ensures spelled { IfSome result (λ digits. hex_word word.now ≡ result_ok (decode_of digits.now)) }
    ensures even { IfSome result (λ digits. length digits.now % 2 ≡ 0) }
    ensures none { IfNone result (hex_word word.now ≡ None) }
{
    if word == b"-".as_slice() {
        return Some(&[]);
    }
    if word.is_empty() || word.len() % 2 == 1 {
        return None;
    }
    Some(word)
}

// The fault of a word of too many digits: it may be none in hexadecimal, and then its length is no fault.
fn fault_of_long(digits: &[u8], long: LineKind) -> LineKind
    ensures hex { AllPass is_hex_digit digits.now → result ≡ long }
    ensures other { ¬ (AllPass is_hex_digit digits.now) → result ≡ LineKind.Hex }
{
    if are_digits(digits) {
        long
    } else {
        LineKind::Hex
    }
}

/// Puts the bytes of the key or the bound that a word stands for at the front of a room that is as long as they
/// may be, and says how many they are.
pub(crate) fn read_short(word: &[u8], room: &mut [u8]) -> Result<usize, LineKind>
    ensures read { IsRead (λ n. take n room.new) result (at_most (length room.old) LongKey (hex_word word.now)) }
    ensures fits { IfOk result (λ n. n ≤ length room.old) }
    ensures told { IsErrOf result LineKind.NoMemory → ⊥ }
{
    let Some(digits) = digits_of(word) else {
        return Err(LineKind::Hex);
    };
    let count = digits.len() / 2;
    if count > room.len() {
        return Err(fault_of_long(digits, LineKind::LongKey));
    }
    if !read_digits(digits, &mut room[..count]) {
        return Err(LineKind::Hex);
    }
    Ok(count)
}

/// The key that a word stands for.
pub(crate) fn read_key(alloc: Global, word: &[u8]) -> Result<KeyBytes, LineKind>
    ensures { IsRead (λ key. key.items) result (key_word word.now) }
{
    let mut room = [0u8; KEY_LIMIT];
    let count = match read_short(word, &mut room) {
        Ok(count) => count,
        Err(kind) => return Err(kind),
    };
    match SmallVec::from_slice(alloc, &room[..count]) {
        Ok(key) => Ok(key),
        Err(_) => Err(LineKind::NoMemory),
    }
}

/// A key that stands in place, so that it takes no memory.
#[derive(Debug, Drop)]
pub struct KeyWord {
    room: [u8; KEY_LIMIT],
    count: usize,
}

impl Model for KeyWord {
    ghost use Rattle.std.specs.Prelude.{ℕ, ◌≤◌, List, take};

    ghost Value = { List ℕ };

    ghost view = { λ key. take key.count key.room };

    ghost invariant = { λ key. key.count ≤ 256 };
}

impl KeyWord {
    /// Its bytes.
    pub fn as_slice(&self) -> &[u8]
        ensures { result.now ≡ self.now }
    {
        &self.room[..self.count]
    }
}

/// The key that a word stands for; None where it stands for none.
pub fn read_key_word(word: &[u8]) -> Option<KeyWord>
    ensures { result ≡ result_ok (key_word word.now) }
{
    let mut room = [0u8; KEY_LIMIT];
    match read_short(word, &mut room) {
        Ok(count) => Some(KeyWord { room, count }),
        Err(_) => None,
    }
}

// The bytes of an even number of digits.
fn bytes_of(alloc: Global, digits: &[u8]) -> Result<Vec<u8>, LineKind>
    requires { length digits.now % 2 ≡ 0 }
    ensures { IsRead (λ bytes. bytes.items) result (ok_or (result_ok (decode_of digits.now)) Hex) }
{
    let Ok(mut bytes) = vec![in alloc; 0u8; digits.len() / 2] else {
        return Err(LineKind::NoMemory);
    };
    if !read_digits(digits, &mut bytes) {
        return Err(LineKind::Hex);
    }
    Ok(bytes)
}

/// The value that a word stands for.
pub(crate) fn read_value(alloc: Global, word: &[u8]) -> Result<Vec<u8>, LineKind>
    ensures { IsRead (λ value. value.items) result (value_word word.now) }
{
    let Some(digits) = digits_of(word) else {
        return Err(LineKind::Hex);
    };
    if digits.len() > 2 * VALUE_LIMIT {
        return Err(fault_of_long(digits, LineKind::LongValue));
    }
    bytes_of(alloc, digits)
}

/// The bytes that a word stands for, as many as a line has room for.
pub(crate) fn read_hex(alloc: Global, word: &[u8]) -> Result<Vec<u8>, LineKind>
    ensures { IsRead (λ bytes. bytes.items) result (ok_or (hex_word word.now) Hex) }
{
    let Some(digits) = digits_of(word) else {
        return Err(LineKind::Hex);
    };
    bytes_of(alloc, digits)
}
