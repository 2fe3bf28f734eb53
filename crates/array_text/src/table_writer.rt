//! Writes a table as the text of a file.

ghost use Rattle.std.specs.Prelude.{◌≡◌, ◌≤◌, ◌*◌, ◌++◌, length, All, IfOk, OnOk, map, string_bytes};
ghost use Rattle.std.specs.Fmt.{signed_decimal};
ghost use Rattle.arrays_core.specs.Items.{type_of};
ghost use Rattle.arrays_core.specs.declared.item.ItemType.TheVariants.{Nums};
ghost use Rattle.array_text.specs.Text.{gap, item_number};
ghost use Rattle.array_text.specs.Tables.{between_fields, record_text, records_text, table_text};

use arrays_core::Array;
use itoa::Buffer;
use std::alloc::{AllocError, Global};

/// Appends the comma before each field of a record but the first; `earlier` fields come before it.
#[tactic(auto, unfolding(crate::specs::Text::gap))]
fn push_comma_between(out: &mut String, earlier: usize) -> Result<(), AllocError>
    ensures { OnOk result (string_bytes out.new ≡ string_bytes out.old ++ gap between_fields earlier) }
{
    if earlier == 0 {
        return Ok(());
    }
    out.push(',')
}

/// Appends a number as a field.
fn push_field(out: &mut String, number: i64) -> Result<(), AllocError>
    ensures { OnOk result (string_bytes out.new ≡ string_bytes out.old ++ signed_decimal number) }
{
    let mut buffer = Buffer::new();
    out.push_str(buffer.format(number))
}

/// Appends a record: the numbers with commas between.
fn push_record(out: &mut String, numbers: &[i64]) -> Result<(), AllocError>
    ensures { OnOk result (string_bytes out.new ≡ string_bytes out.old ++ record_text numbers.now) }
{
    for (column, number) in numbers.iter().enumerate() {
        push_comma_between(out, column)?;
        push_field(out, *number)?;
    }
    out.push('\n')
}

/// Appends the records of a matrix, one for each row.
fn push_records(
    out: &mut String,
    rows: usize,
    columns: usize,
    numbers: &[i64],
) -> Result<(), AllocError>
    requires { length numbers.now ≡ rows * columns }
    ensures { OnOk result (string_bytes out.new ≡ string_bytes out.old ++ records_text rows columns numbers.now) }
{
    for row in 0..rows {
        push_record(out, &numbers[row * columns..(row + 1) * columns])?;
    }
    Ok(())
}

/// Returns the file of a table: a scalar is one field, a vector one record, and a matrix has one record for each row. Commas separate fields, a
/// negative number begins with `-`, and each record ends with LF. An array without items has no text.
pub fn write_table(alloc: Global, array: &Array) -> Result<String, AllocError>
    requires rank { length array.now.shape ≤ 2 }
    requires numbers { All (λ item. type_of item ≡ Nums) array.now.items }
    ensures { IfOk result (λ text. string_bytes text ≡ table_text array.now.shape (map item_number array.now.items)) }
{
    let mut text = String::new(alloc);
    let axes = array.shape().as_slice();
    let Some(numbers) = array.numbers() else {
        return Ok(text);
    };
    if numbers.is_empty() {
        return Ok(text);
    }
    if axes.len() < 2 {
        push_record(&mut text, numbers)?;
    } else {
        push_records(&mut text, axes[0] as usize, axes[1] as usize, numbers)?;
    }
    Ok(text)
}
