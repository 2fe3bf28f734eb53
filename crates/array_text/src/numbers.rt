//! The text of an array of numbers.

ghost use Rattle.std.specs.Prelude.{◌≡◌, ◌+◌, ◌*◌, ◌<◌, ◌≤◌, ◌++◌, length, decimal, IfOk, OnOk, string_bytes};
ghost use Rattle.array_text.specs.Text.{number_text, number_width, right_justified, number_line, column_width, column_widths, number_row, number_plane};

use crate::planes::Printed;
use crate::spacing::{push_blank_between, push_blanks};
use itoa::Buffer;
use std::alloc::{AllocError, Global};

/// Appends a number; a negative one has a high minus.
fn push_number(out: &mut String, number: i64) -> Result<(), AllocError>
    ensures { OnOk result (string_bytes out.new ≡ string_bytes out.old ++ number_text number) }
{
    if number < 0 {
        out.push('¯')?;
    }
    let mut buffer = Buffer::new();
    out.push_str(buffer.format(number.unsigned_abs()))
}

/// Counts the digits of a number.
fn digits_in(number: u64) -> usize
    ensures value { result ≡ length (decimal number) }
    ensures small { result ≤ 20 }
{
    match number.checked_ilog10() {
        Some(power) => power as usize + 1,
        None => 1,
    }
}

/// Returns the width of a number, in characters.
fn width_of(number: i64) -> usize
    ensures value { result ≡ number_width number }
    ensures small { result ≤ 41 }
{
    let digits = digits_in(number.unsigned_abs());
    if number < 0 { digits + 1 } else { digits }
}

/// Returns the width of the widest number of a column.
fn width_of_column(rows: usize, columns: usize, column: usize, numbers: &[i64]) -> usize
    requires shape { length numbers.now ≡ rows * columns }
    requires within { column < columns }
    ensures { result ≡ column_width rows columns numbers.now column }
{
    let mut widest = 0;
    for row in 0..rows {
        let width = width_of(numbers[row * columns + column]);
        if width > widest {
            widest = width;
        }
    }
    widest
}

/// Returns the widths of the columns of a matrix.
fn column_widths(
    alloc: Global,
    rows: usize,
    columns: usize,
    numbers: &[i64],
) -> Result<Vec<usize>, AllocError>
    requires { length numbers.now ≡ rows * columns }
    ensures { IfOk result (λ v. v.items ≡ column_widths rows columns numbers.now) }
{
    let mut widths = Vec::with_capacity(alloc, columns)?;
    for column in 0..columns {
        widths.push(width_of_column(rows, columns, column, numbers))?;
    }
    Ok(widths)
}

/// Appends a number, right-justified in its column.
fn push_cell(out: &mut String, width: usize, number: i64) -> Result<(), AllocError>
    ensures { OnOk result (string_bytes out.new ≡ string_bytes out.old ++ right_justified width number) }
{
    push_blanks(out, width.saturating_sub(width_of(number)))?;
    push_number(out, number)
}

/// Appends a row of a matrix.
fn push_row(out: &mut String, widths: &[usize], row: &[i64]) -> Result<(), AllocError>
    requires { length widths.now ≡ length row.now }
    ensures { OnOk result (string_bytes out.new ≡ string_bytes out.old ++ number_row widths.now row.now) }
{
    for column in 0..row.len() {
        push_blank_between(out, column)?;
        push_cell(out, widths[column], row[column])?;
    }
    out.push('\n')
}

/// Numbers: in a line with one blank between, in a matrix with each column right-justified.
impl Printed for i64 {
    ghost line = { number_line };

    ghost plane = { number_plane };

    fn push_line(out: &mut String, numbers: &[i64]) -> Result<(), AllocError> {
        for (earlier, number) in numbers.iter().enumerate() {
            push_blank_between(out, earlier)?;
            push_number(out, *number)?;
        }
        out.push('\n')
    }

    fn push_plane(
        alloc: Global,
        out: &mut String,
        rows: usize,
        columns: usize,
        numbers: &[i64],
    ) -> Result<(), AllocError> {
        let widths = column_widths(alloc, rows, columns, numbers)?;
        for row in 0..rows {
            push_row(
                out,
                widths.as_slice(),
                &numbers[row * columns..(row + 1) * columns],
            )?;
        }
        Ok(())
    }
}
