//! The text of an array of characters.

ghost use Rattle.array_text.specs.Text.{character_line, character_plane};

use crate::planes::Printed;
use std::alloc::{AllocError, Global};

/// Characters: a line is joined, and so is each row of a matrix.
impl Printed for char {
    ghost line = { character_line };

    ghost plane = { character_plane };

    fn push_line(out: &mut String, characters: &[char]) -> Result<(), AllocError> {
        for character in characters {
            out.push(*character)?;
        }
        out.push('\n')
    }

    fn push_plane(
        _alloc: Global,
        out: &mut String,
        rows: usize,
        columns: usize,
        characters: &[char],
    ) -> Result<(), AllocError> {
        for row in 0..rows {
            Self::push_line(out, &characters[row * columns..(row + 1) * columns])?;
        }
        Ok(())
    }
}
