// Numbers, names and bytes.
ghost use Rattle.std.specs.Prelude.{◌≡◌, ◌+◌, ◌*◌, List, ℕ, IfOk, IsTrue};
ghost use Rattle.eleos_texts.specs.Fields.{is_numeral, up_to, number_up_to, most_u32};
ghost use Rattle.eleos_texts.specs.Fields.{is_up_to, is_number, number_below, is_hex};
ghost use Rattle.eleos_texts.specs.Fields.{is_name, is_name_char, hex_bytes};
ghost use Rattle.std.specs.List.{list_all};
ghost use Rattle.std.specs.Char.{is_ascii_digit};

use crate::digits;
use eleos_base::{Bytes, NoMemory};
use std::alloc::Global;

/// Bytes of a name.
const MOST_NAME: usize = 16;

/// A number of at most so much, in decimal and without a leading zero.
pub fn number_up_to(text: &[u8], most: u64) -> Option<u64>
    ensures { result ≡ number_up_to most text.now }
{
    if !is_numeral(text) {
        return None;
    }
    let mut value: u64 = 0;
    for digit in text {
        value = with_digit(value, digit.saturating_sub(b'0'), most)?;
    }
    Some(value)
}

/// A number with one more digit, where that is at most so much.
fn with_digit(value: u64, digit: u8, most: u64) -> Option<u64>
    ensures { result ≡ up_to most (10 * value + digit) }
{
    let value = value.checked_mul(10)?.checked_add(u64::from(digit))?;
    if value <= most { Some(value) } else { None }
}

/// A number of 32 bits.
pub fn number_u32(text: &[u8]) -> Option<u32>
    ensures { result ≡ number_up_to most_u32 text.now }
{
    let number = number_up_to(text, u64::from(u32::MAX))?;
    Some(number as u32)
}

/// Whether the numeral says a number of at most so much.
pub fn is_up_to(text: &[u8], most: u64) -> bool
    requires { IsTrue (is_numeral text.now) }
    ensures { result ≡ is_up_to most text.now }
{
    number_up_to(text, most).is_some()
}

/// A number below this one.
pub fn number_below(text: &[u8], limit: u32) -> Option<u32>
    ensures { result ≡ number_below limit text.now }
{
    let number = number_up_to(text, u64::from(limit))?;
    if number < u64::from(limit) {
        Some(number as u32)
    } else {
        None
    }
}

/// Whether the text is the numeral of this number.
pub fn is_number(text: &[u8], n: u32) -> bool
    ensures { result ≡ is_number n text.now }
{
    number_up_to(text, u64::from(n)) == Some(u64::from(n))
}

/// Whether the text is a number without a leading zero.
pub fn is_numeral(text: &[u8]) -> bool
    ensures { result ≡ is_numeral text.now }
{
    !text.is_empty() && (text.len() == 1 || text[0] != b'0') && are_digits(text)
}

fn are_digits(text: &[u8]) -> bool
    ensures { result ≡ list_all is_ascii_digit text.now }
{
    text.iter().all(|c| c.is_ascii_digit())
}

/// Whether the text can be a name.
pub fn is_name(text: &[u8]) -> bool
    ensures { result ≡ is_name text.now }
{
    !text.is_empty()
        && text.len() <= MOST_NAME
        && text[0].is_ascii_lowercase()
        && are_name_chars(text)
}

fn are_name_chars(text: &[u8]) -> bool
    ensures { result ≡ list_all is_name_char text.now }
{
    text.iter()
        .all(|c| c.is_ascii_lowercase() || c.is_ascii_digit())
}

/// Bytes in hex of either case, where a dash stands for none.
#[tactic(auto, unfolding(crate::specs::Fields::hex_bytes))]
pub fn hex_bytes(alloc: Global, text: &[u8]) -> Result<Option<Bytes>, NoMemory>
    ensures { IfOk result (λ bytes. bytes ≡ hex_bytes text.now) }
{
    if text == b"-".as_slice() {
        return Ok(Some(Bytes::of(Vec::new(alloc))));
    }
    if text.is_empty() {
        return Ok(None);
    }
    match digits::bytes_of(alloc, text)? {
        Some(bytes) => Ok(Some(Bytes::of(bytes))),
        None => Ok(None),
    }
}

/// Whether the text is bytes in hex.
pub fn is_hex(alloc: Global, text: &[u8]) -> Result<bool, NoMemory>
    ensures { IfOk result (λ hex. hex ≡ is_hex text.now) }
{
    Ok(hex_bytes(alloc, text)?.is_some())
}
