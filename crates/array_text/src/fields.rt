//! The number of a field of a table.

ghost use Rattle.std.specs.Prelude.{◌≡◌, ◌<◌, ◌≤◌, ◌^◌, length, IfSome};
ghost use Rattle.std.specs.List.{list_all, prefix_len};
ghost use Rattle.std.specs.Char.{is_ascii_digit};
ghost use Rattle.apl_tokens.specs.Characters.{is_blank, decimal_from};
ghost use Rattle.array_text.specs.Tables.{sign_and_rest, digits_number, unsigned_number, field_number};

use apl_tokens::number_of_digits;

/// The greatest count of digits whose number is always in range.
const FEW_DIGITS: usize = 18;

/// Returns true if a byte is a blank: a space or a tab.
fn is_blank(byte: u8) -> bool
    ensures { result ≡ is_blank byte }
{
    byte == b' ' || byte == b'\t'
}

/// Counts the blanks at the front.
fn blanks_at(bytes: &[u8]) -> usize
    ensures is { result ≡ prefix_len is_blank bytes.now }
    ensures within { result ≤ length bytes.now }
{
    for (offset, byte) in bytes.iter().enumerate() {
        if !is_blank(*byte) {
            return offset;
        }
    }
    bytes.len()
}

/// Counts the digits at the front.
fn digits_at(bytes: &[u8]) -> usize
    ensures is { result ≡ prefix_len is_ascii_digit bytes.now }
    ensures within { result ≤ length bytes.now }
{
    for (offset, byte) in bytes.iter().enumerate() {
        if !byte.is_ascii_digit() {
            return offset;
        }
    }
    bytes.len()
}

/// Returns true if all bytes are blanks.
fn are_blanks(bytes: &[u8]) -> bool
    ensures { result ≡ list_all is_blank bytes.now }
{
    bytes.iter().all(|byte| is_blank(*byte))
}

/// Returns true for a minus at the front, and the bytes after the sign, if there is one.
#[tactic(auto, unfolding(crate::specs::Tables::sign_and_rest))]
fn without_sign(bytes: &[u8]) -> (bool, &[u8])
    ensures { (result.0, result.1.now) ≡ sign_and_rest bytes.now }
{
    let Some((first, rest)) = bytes.split_first() else {
        return (false, bytes);
    };
    match *first {
        b'-' => (true, rest),
        b'+' => (false, rest),
        0xc2 if rest.first() == Some(&0xaf) => (true, &rest[1..]),
        _ => (false, bytes),
    }
}

/// Returns the number of these digits, if there are any and it is in range.
#[tactic(auto, unfolding(crate::specs::Tables::digits_number))]
fn digits_number(is_negative: bool, digits: &[u8]) -> Option<i64>
    ensures { result ≡ digits_number is_negative digits.now }
{
    if digits.is_empty() {
        return None;
    }
    number_of_digits(is_negative, digits)
}

/// Returns the number of at most 18 bytes that are digits alone.
fn few_digits(bytes: &[u8]) -> Option<u64>
    ensures some { IfSome result (λ n. 0 < length bytes.now) }
    ensures digits { IfSome result (λ n. prefix_len is_ascii_digit bytes.now ≡ length bytes.now) }
    ensures is { IfSome result (λ n. n ≡ decimal_from 0 bytes.now) }
    ensures small { IfSome result (λ n. n < 10 ^ 18) }
{
    if bytes.is_empty() || bytes.len() > FEW_DIGITS {
        return None;
    }
    let mut magnitude: u64 = 0;
    for byte in bytes {
        if !byte.is_ascii_digit() {
            return None;
        }
        magnitude = magnitude * 10 + u64::from(*byte - b'0');
    }
    Some(magnitude)
}

/// Returns the number of digits with blanks after them, if it is in range. Reads a few digits without blanks, the most common field, in one
/// pass.
#[tactic(auto, using(crate::proofs::Decimals::few_alone), unfolding(crate::specs::Tables::unsigned_number))]
fn unsigned_number(is_negative: bool, bytes: &[u8]) -> Option<i64>
    ensures { result ≡ unsigned_number is_negative bytes.now }
{
    if let Some(magnitude) = few_digits(bytes) {
        let number = magnitude as i64;
        return Some(if is_negative { -number } else { number });
    }
    let size = digits_at(bytes);
    if !are_blanks(&bytes[size..]) {
        return None;
    }
    digits_number(is_negative, &bytes[..size])
}

/// Returns the number of a field, if it has one.
#[tactic(auto, unfolding(crate::specs::Tables::field_number))]
pub(crate) fn field_number(field: &[u8]) -> Option<i64>
    ensures { result ≡ field_number field.now }
{
    let (is_negative, bytes) = without_sign(&field[blanks_at(field)..]);
    unsigned_number(is_negative, bytes)
}
