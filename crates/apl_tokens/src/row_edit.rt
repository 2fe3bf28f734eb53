//! Reads a row of numbers from the bytes of a line. Builds no list of tokens, and allocates nothing for one number.

ghost use Rattle.std.specs.Prelude.{◌≡◌, ◌<◌, ◌≤◌, ◌+◌, [], ◌∷◌, ◌++◌, length, codes, count_by, vec_capacity, IfSome, ◌==◌};
ghost use Rattle.std.specs.Str.{chars};
ghost use Rattle.apl_tokens.specs.NumberEdits.{IsNumberRow, row_numbers_of, number_lexemes, AreSeveral};
ghost use Rattle.apl_tokens.specs.Reading.{ReadsBefore, EndsNumber, GoesOn};

use crate::fronts::{after_blank, name_front, number_front};
use names::Name;
use std::alloc::Global;

/// The numbers of a row.
#[derive(Debug, Drop)]
pub enum RowNumbers {
    /// One number.
    One(i64),
    /// More than one.
    Several(Vec<i64>),
}

/// A row of numbers: `)ROW NAME numbers`.
#[derive(Debug, Drop)]
pub struct NumberRow {
    /// The name of the array that gains the row.
    pub name: Name,
    /// The numbers of the row.
    pub numbers: RowNumbers,
}

/// Returns the bytes after `)ROW` and a blank, if they are at the front.
fn after_row(text: &[u8]) -> Option<&[u8]>
    ensures { IfSome result (λ rest. text.now ≡ codes ")ROW " ++ rest.now) }
{
    text.strip_prefix(b")ROW ")
}

/// Counts the blanks.
fn count_blanks(text: &[u8]) -> usize
    ensures { result ≡ count_by (λ byte. byte == 0x20) text.now }
{
    let mut blanks: usize = 0;
    for byte in text {
        if *byte == b' ' {
            blanks += 1;
        }
    }
    blanks
}

/// Appends `count` numbers, each after a blank, within the capacity. Returns `None` unless they are the whole text.
fn more_numbers(text: &[u8], count: usize, numbers: &mut Vec<i64>) -> Option<()>
    requires { length numbers.old.items + count ≤ vec_capacity numbers.old }
    ensures reads { IfSome result (λ done. GoesOn text.now numbers.old.items [] numbers.new.items) }
    ensures count { IfSome result (λ done. length numbers.new.items ≡ length numbers.old.items + count) }
{
    let mut rest = text;
    for _ in 0..count {
        let (number, after) = number_front(after_blank(rest)?)?;
        numbers.push_reserved(number);
        rest = after;
    }
    if rest.is_empty() { Some(()) } else { None }
}

/// Reads the remaining numbers, each after a blank, which are the whole text. Returns `first` and these, or `None` if there are more than `most`
/// or memory runs out. The capacity is a power of two, as for the items of an array.
fn several_numbers(alloc: Global, first: i64, text: &[u8], most: usize) -> Option<Vec<i64>>
    ensures reads { IfSome result (λ numbers. GoesOn text.now (first ∷ []) [] numbers.items) }
    ensures several { IfSome result (λ numbers. 1 < length numbers.items) }
    ensures few { IfSome result (λ numbers. length numbers.items ≤ most) }
{
    let more = count_blanks(text);
    if more == 0 || more >= most {
        return None;
    }
    let room = (more + 1).checked_next_power_of_two()?;
    let mut numbers = Vec::with_capacity(alloc, room).ok()?;
    numbers.push_reserved(first);
    more_numbers(text, more, &mut numbers)?;
    Some(numbers)
}

/// Reads a text that is numbers with one blank between them, at most `most`.
fn row_numbers(alloc: Global, text: &[u8], most: usize) -> Option<RowNumbers>
    requires { 0 < most }
    ensures reads { IfSome result (λ numbers. ReadsBefore EndsNumber text.now [] (number_lexemes (row_numbers_of numbers))) }
    ensures several { IfSome result AreSeveral }
    ensures few { IfSome result (λ numbers. length (row_numbers_of numbers) ≤ most) }
{
    let (first, rest) = number_front(text)?;
    if rest.is_empty() {
        return Some(RowNumbers::One(first));
    }
    let numbers = several_numbers(alloc, first, rest, most)?;
    Some(RowNumbers::Several(numbers))
}

/// Reads a line of the form `)ROW NAME numbers`: a name in ASCII letters, at most `most` numbers, and one blank between parts. Allocates nothing
/// for one number. Returns `None` for every other line, for some rows, and if memory runs out.
pub fn number_row(alloc: Global, text: &str, most: usize) -> Option<NumberRow>
    requires { 0 < most }
    ensures row { IfSome result (λ row. IsNumberRow (chars text.now) row) }
    ensures few { IfSome result (λ row. length (row_numbers_of row.numbers) ≤ most) }
{
    let rest = after_row(text.as_bytes())?;
    let Some(front) = name_front(rest, b' ') else {
        return None;
    };
    let numbers = row_numbers(alloc, front.rest, most)?;
    Some(NumberRow {
        name: front.name,
        numbers,
    })
}
