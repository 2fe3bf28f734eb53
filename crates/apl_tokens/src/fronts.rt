//! Reads a name, a number or an arrow from the front of the bytes of a line.

ghost use Rattle.std.specs.Prelude.{◌≡◌, ◌≤◌, true, [], ◌∷◌, ◌++◌, length, take, IfSome};
ghost use Rattle.std.specs.Char.{is_ascii_digit};
ghost use Rattle.std.specs.List.{list_all};
ghost use Rattle.std.specs.Str.{IsAscii};
ghost use Rattle.names.specs.Characters.{is_name_part};
ghost use Rattle.apl_tokens.specs.Characters.{decimal_from};
ghost use Rattle.apl_tokens.specs.Lexemes.{Named, Number, Sign};
ghost use Rattle.apl_tokens.specs.Signs.{left_arrow, space};
ghost use Rattle.apl_tokens.specs.Reading.{ReadsBefore, Reads, EndsName, EndsNumber, minus_bytes};

use crate::numbers::with_sign;
use names::Name;

/// The name at the front of a line, and the bytes after the byte that ends it.
#[derive(Clone, Copy)]
pub(crate) struct Front<'a> {
    pub(crate) name: Name,
    pub(crate) rest: &'a [u8],
}

/// Returns the number of ASCII letters, ASCII digits and `_` at the front.
fn count_parts(text: &[u8]) -> usize
    ensures within { result ≤ length text.now }
    ensures parts { list_all is_name_part (take result text.now) ≡ true }
    ensures ascii { IsAscii (take result text.now) }
{
    for (index, byte) in text.iter().enumerate() {
        if !byte.is_ascii_alphanumeric() && *byte != b'_' {
            return index;
        }
    }
    text.len()
}

/// Returns the value of the digits at the front and their number, or `None` on overflow. No digits have the value 0.
#[inline(always)]
fn magnitude_front(text: &[u8]) -> Option<(u64, usize)>
    ensures within { IfSome result (λ front. front.1 ≤ length text.now) }
    ensures digits { IfSome result (λ front. list_all is_ascii_digit (take front.1 text.now) ≡ true) }
    ensures ascii { IfSome result (λ front. IsAscii (take front.1 text.now)) }
    ensures spelled { IfSome result (λ front. front.0 ≡ decimal_from 0 (take front.1 text.now)) }
{
    let mut magnitude: u64 = 0;
    for (index, byte) in text.iter().enumerate() {
        if !byte.is_ascii_digit() {
            return Some((magnitude, index));
        }
        let value = u64::from(*byte - b'0');
        magnitude = magnitude.checked_mul(10)?.checked_add(value)?;
    }
    Some((magnitude, text.len()))
}

/// Returns the bytes after `byte`, if it is the first.
fn after_byte(text: &[u8], byte: u8) -> Option<&[u8]>
    ensures { IfSome result (λ rest. text.now ≡ byte ∷ rest.now) }
{
    let (first, rest) = text.split_first()?;
    if *first == byte { Some(rest) } else { None }
}

/// Returns the bytes after a blank, if one is at the front.
pub(crate) fn after_blank(text: &[u8]) -> Option<&[u8]>
    ensures { IfSome result (λ rest. text.now ≡ space ∷ rest.now) }
{
    after_byte(text, b' ')
}

/// Returns the bytes after a high minus, if one is at the front.
fn after_minus(text: &[u8]) -> Option<&[u8]>
    ensures { IfSome result (λ rest. text.now ≡ minus_bytes true ++ rest.now) }
{
    after_byte(after_byte(text, 0xC2)?, 0xAF)
}

/// Returns the bytes after an arrow, if one is at the front.
pub(crate) fn after_arrow(text: &[u8]) -> Option<&[u8]>
    ensures { IfSome result (λ rest. Reads text.now rest.now (Sign left_arrow ∷ [])) }
{
    after_byte(after_byte(after_byte(text, 0xE2)?, 0x86)?, 0x90)
}

/// Returns the name at the front, in ASCII letters, and the bytes after it, if the byte `end` follows the name.
pub(crate) fn name_front(text: &[u8], end: u8) -> Option<Front<'_>>
    ensures { IfSome result (λ front. ReadsBefore EndsName text.now (end ∷ front.rest.now) (Named front.name ∷ [])) }
{
    let count = count_parts(text);
    let (letters, rest) = text.split_at(count);
    let rest = after_byte(rest, end)?;
    if !letters.first()?.is_ascii_alphabetic() {
        return None;
    }
    let name = Name::of_letters(letters)?;
    Some(Front { name, rest })
}

/// Returns the number of the digits at the front, negative if `is_negative`, and the bytes after it.
fn digits_front(text: &[u8], is_negative: bool) -> Option<(i64, &[u8])>
    ensures { IfSome result (λ front. ReadsBefore EndsNumber (minus_bytes is_negative ++ text.now) front.1.now (Number front.0 ∷ [])) }
{
    let (magnitude, count) = magnitude_front(text)?;
    if count == 0 {
        return None;
    }
    let (_, rest) = text.split_at(count);
    let number = with_sign(is_negative, magnitude)?;
    Some((number, rest))
}

/// Returns the number at the front and the bytes after it.
pub(crate) fn number_front(text: &[u8]) -> Option<(i64, &[u8])>
    ensures { IfSome result (λ front. ReadsBefore EndsNumber text.now front.1.now (Number front.0 ∷ [])) }
{
    match after_minus(text) {
        Some(digits) => digits_front(digits, true),
        None => digits_front(text, false),
    }
}
