//! The text of an array.

ghost use Rattle.std.specs.Prelude.{◌≡◌, IfOk, string_bytes};
ghost use Rattle.array_text.specs.Text.{array_text};

use crate::planes::push_items;
use arrays_core::Array;
use std::alloc::{AllocError, Global};

/// Returns the printed text of an array. A scalar is its item. A vector of numbers is its numbers with one blank between, a vector of characters
/// its characters, and an empty vector an empty line. A matrix of numbers has each column right-justified to its widest number, with one blank
/// between columns; a matrix of characters has its rows joined. An array of more axes prints its planes, which are its last two axes, as
/// matrices with an empty line between; without items it has no text. A negative number begins with `¯`, and each line ends with LF.
pub fn print(alloc: Global, array: &Array) -> Result<String, AllocError>
    ensures { IfOk result (λ text. string_bytes text ≡ array_text array.now) }
{
    let mut text = String::new(alloc);
    let axes = array.shape().as_slice();
    match array.numbers() {
        Some(numbers) => push_items(alloc, &mut text, axes, numbers)?,
        None => push_items(alloc, &mut text, axes, array.characters().unwrap())?,
    }
    Ok(text)
}
