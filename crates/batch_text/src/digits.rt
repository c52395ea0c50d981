// Digits in hexadecimal, read by a table.
//
// The crate `hex` branches on the kind of each digit, and a processor guesses a third of these branches
// wrong. That was a quarter of the time of a run; a table has nothing to guess.
ghost use Rattle.std.specs.Prelude.{◌≡◌, ◌*◌, ◌↔◌, IsTrue, length};
ghost use Rattle.std.specs.List.{AllPass};
ghost use Rattle.hex.specs.Hex.{hex_digit_value, is_hex_digit};
ghost use Rattle.batch_text.specs.HexDigits.{IsByteOf, Decodes};

/// The value of each byte as a digit, in either case, or 255 where it is none.
const VALUES: [u8; 256] = [
    255, 255, 255, 255, 255, 255, 255, 255, 255, 255, 255, 255, 255, 255, 255, 255, 255, 255, 255,
    255, 255, 255, 255, 255, 255, 255, 255, 255, 255, 255, 255, 255, 255, 255, 255, 255, 255, 255,
    255, 255, 255, 255, 255, 255, 255, 255, 255, 255, 0, 1, 2, 3, 4, 5, 6, 7, 8, 9, 255, 255, 255,
    255, 255, 255, 255, 10, 11, 12, 13, 14, 15, 255, 255, 255, 255, 255, 255, 255, 255, 255, 255,
    255, 255, 255, 255, 255, 255, 255, 255, 255, 255, 255, 255, 255, 255, 255, 255, 10, 11, 12, 13,
    14, 15, 255, 255, 255, 255, 255, 255, 255, 255, 255, 255, 255, 255, 255, 255, 255, 255, 255,
    255, 255, 255, 255, 255, 255, 255, 255, 255, 255, 255, 255, 255, 255, 255, 255, 255, 255, 255,
    255, 255, 255, 255, 255, 255, 255, 255, 255, 255, 255, 255, 255, 255, 255, 255, 255, 255, 255,
    255, 255, 255, 255, 255, 255, 255, 255, 255, 255, 255, 255, 255, 255, 255, 255, 255, 255, 255,
    255, 255, 255, 255, 255, 255, 255, 255, 255, 255, 255, 255, 255, 255, 255, 255, 255, 255, 255,
    255, 255, 255, 255, 255, 255, 255, 255, 255, 255, 255, 255, 255, 255, 255, 255, 255, 255, 255,
    255, 255, 255, 255, 255, 255, 255, 255, 255, 255, 255, 255, 255, 255, 255, 255, 255, 255, 255,
    255, 255, 255, 255, 255, 255, 255, 255, 255, 255, 255, 255, 255, 255, 255, 255, 255, 255, 255,
    255, 255, 255,
];

/// The value of a digit, in either case.
fn digit(byte: u8) -> Option<u8>
    ensures { result ≡ hex_digit_value byte }
{
    let value = VALUES[byte as usize];
    if value < 16 { Some(value) } else { None }
}

/// The byte that two digits stand for.
fn pair(high: u8, low: u8) -> Option<u8>
    ensures { IsByteOf high low result }
{
    Some(digit(high)? * 16 + digit(low)?)
}

/// Writes the bytes that digits stand for, two digits each, and says whether all are digits. Where one
/// is none, some bytes may have been written.
pub(crate) fn read_digits(digits: &[u8], out: &mut [u8]) -> bool
    requires { length digits.now ≡ 2 * length out.old }
    ensures { Decodes digits.now out.new result }
{
    'bytes: for i in 0..out.len() {
        let Some(byte) = pair(digits[2 * i], digits[2 * i + 1]) else {
            return false;
        };
        out[i] = byte;
    }
    true
}

/// Whether all are digits.
pub(crate) fn are_digits(digits: &[u8]) -> bool
    ensures { IsTrue result ↔ AllPass is_hex_digit digits.now }
{
    digits.iter().all(|b| digit(*b).is_some())
}
