// Hex digits, read and written by arithmetic. They may be those of a key or of a text that is to be
// sealed, so that no table is looked up at them, and nothing branches by one.
ghost use Rattle.std.specs.Prelude.{◌≡◌, ◌≤◌, ◌<◌, ◌*◌, length, nat_lt, Some, None, unwrap_or};
ghost use Rattle.std.specs.Prelude.{IfOk, option_map, slice_index, if◌then◌else◌};
ghost use Rattle.hex.specs.Hex.{decode_of, decode_pairs, encode_lower, hex_digit_value};
ghost use Rattle.hex.specs.Hex.{lower_digits};
ghost use Rattle.eleos_texts.specs.Fields.{decoded};

use eleos_base::NoMemory;
use std::alloc::Global;

/// The bytes of pairs of digits of either case. None comes where a byte is no digit, or one is left
/// over.
pub(crate) fn bytes_of(alloc: Global, text: &[u8]) -> Result<Option<Vec<u8>>, NoMemory>
    ensures { IfOk result (λ bytes.
        option_map (λ found. found.items) bytes ≡ decoded (decode_of text.now)) }
{
    if text.len() % 2 == 1 {
        return Ok(None);
    }
    let mut bytes = vec![in alloc; 0; text.len() / 2]?;
    if read_pairs(&mut bytes, text) {
        Ok(Some(bytes))
    } else {
        Ok(None)
    }
}

/// Puts what the pairs of digits say, and whether each byte of the text is a digit.
fn read_pairs(bytes: &mut [u8], text: &[u8]) -> bool
    requires { length text.now ≡ 2 * length bytes.old }
    ensures { decoded (decode_pairs 0 text.now) ≡ (if result then Some bytes.new else None) }
{
    let mut any = 0;
    for (i, byte) in bytes.iter_mut().enumerate() {
        let high = value_of(text[2 * i]);
        let low = value_of(text[2 * i + 1]);
        *byte = high.wrapping_mul(16).wrapping_add(low);
        any |= high | low;
    }
    any < 16
}

/// Puts the digits of the bytes, two for each.
pub(crate) fn write_pairs(digits: &mut [u8], bytes: &[u8])
    requires { length digits.old ≡ 2 * length bytes.now }
    ensures { digits.new ≡ encode_lower bytes.now }
{
    for (i, byte) in bytes.iter().enumerate() {
        digits[2 * i] = digit_of(*byte / 16);
        digits[2 * i + 1] = digit_of(*byte % 16);
    }
}

/// The value of a digit of either case, 255 where it is none.
fn value_of(digit: u8) -> u8
    ensures { result ≡ unwrap_or (hex_digit_value digit) 255 }
{
    let decimal = digit.wrapping_sub(b'0');
    let letter = (digit | 32).wrapping_sub(b'a');
    let is_decimal = mask_below(decimal, 10);
    let is_letter = mask_below(letter, 6);
    (decimal & is_decimal) | (letter.wrapping_add(10) & is_letter) | !(is_decimal | is_letter)
}

/// The digit of a value, in lower case: a decimal one, or from ten on one of the letters, which
/// stand further behind. A mask for the letters becomes a branch.
fn digit_of(value: u8) -> u8
    requires { value < 16 }
    ensures { result ≡ slice_index lower_digits value }
{
    let letters = (value + 6) / 16;
    b'0' + value + letters * (b'a' - b'9' - 1)
}

/// All bits where the number is below the limit, and none elsewhere.
fn mask_below(number: u8, limit: u8) -> u8
    requires { limit ≤ 128 }
    ensures { result ≡ (if nat_lt number limit then 255 else 0) }
{
    // the top bit of the difference, unless the number has that bit
    let below = (number.wrapping_sub(limit) & !number) >> 7;
    below * 255
}
