//! Reads a table from the bytes of a file.

ghost use Rattle.std.specs.Prelude.{◌≡◌, ◌≤◌, ◌*◌, ◌∷◌, ◌++◌, List, [], map, true, None, Some, IfOk, vec_len};
ghost use Rattle.csv.specs.Records.{fields_of};
ghost use Rattle.arrays_core.specs.declared.item.Item.TheVariants.{Num};
ghost use Rattle.arrays_core.specs.declared.item.ItemType.TheVariants.{Nums};
ghost use Rattle.array_text.specs.Reading.{AreLeft, AreRead};
ghost use Rattle.array_text.specs.Tables.{Fields, IsReadOf, IsTableRead, bad_field_fault, columns_of, fields_read, first_bad, first_fault, is_matrix_within, numbers_of, record_fault, records_of, rows_of};

use crate::fields::field_number;
use crate::records::{read_next, reader_of};
use crate::table_fault::TableFault;
use arrays_core::{Array, shape_of};
use csv::{ByteRecord, Reader};
use std::alloc::{AllocError, Global};

/// The greatest number of rows, of columns, and of places of a table.
const MOST_PLACES: u64 = arrays_core::MOST_PLACES as u64;

/// The greatest number of records that are read: a header, the most rows, and one more.
const MOST_RECORDS: u64 = MOST_PLACES + 2;

/// Returns true if a table may have `rows` rows and `columns` columns.
fn is_matrix_within(rows: u64, columns: usize) -> bool
    ensures { result ≡ is_matrix_within rows columns }
{
    rows <= MOST_PLACES && columns as u64 <= MOST_PLACES && rows * columns as u64 <= MOST_PLACES
}

/// Returns the number of rows of a table with `count` records: a header is not a row.
fn rows_of(header: bool, count: u64) -> u64
    ensures { result ≡ rows_of header count }
{
    if header {
        count.saturating_sub(1)
    } else {
        count
    }
}

/// Returns the matrix of these numbers.
fn matrix(alloc: Global, rows: u64, columns: usize, numbers: Vec<i64>) -> Result<Array, AllocError>
    requires within { is_matrix_within rows columns ≡ true }
    requires full { vec_len numbers ≡ rows * columns }
    ensures { IfOk result (λ a. a ≡ record {
      item_type = Nums;
      shape = rows ∷ columns ∷ [];
      items = map (λ z. Num z) numbers.items;
    }) }
{
    let shape = shape_of(alloc, &[rows as u32, columns as u32]);
    Array::from_numbers(&shape, numbers)
}

/// Appends the numbers of the fields of a record.
fn push_fields(row: &ByteRecord, number: u64, numbers: &mut Vec<i64>) -> Result<(), TableFault>
    ensures { IsReadOf (bad_field_fault number (first_bad 1 (fields_of row.now)) None)
        (λ _. numbers.new.items ≡ numbers.old.items ++ numbers_of (fields_of row.now)) result }
{
    for column in 0..row.len() {
        let Some(field) = row.get(column) else {
            unreachable!();
        };
        let Some(value) = field_number(field) else {
            return Err(TableFault::Field {
                row: number,
                field: column as u64 + 1,
            });
        };
        numbers.push(value)?;
    }
    Ok(())
}

/// Appends the numbers of a record, by its number from 1. A header has no numbers.
#[tactic(auto, unfolding(crate::specs::Tables::record_fault))]
fn push_record(
    row: &ByteRecord,
    header: bool,
    columns: usize,
    number: u64,
    numbers: &mut Vec<i64>,
) -> Result<(), TableFault>
    requires { 1 ≤ number }
    ensures { IsReadOf (record_fault header columns number (fields_of row.now))
        (λ _. numbers.new.items ≡ numbers.old.items ++ numbers_of (fields_read header number (fields_of row.now))) result }
{
    if row.len() != columns {
        return Err(TableFault::Length { row: number });
    }
    if !(header && number == 1) {
        push_fields(row, number, numbers)?;
    }
    if !is_matrix_within(rows_of(header, number), columns) {
        return Err(TableFault::Limit);
    }
    Ok(())
}

/// Appends the numbers of all remaining records, and returns the number of rows and columns.
fn push_records(
    reader: &mut Reader<&[u8]>,
    row: &mut ByteRecord,
    header: bool,
    numbers: &mut Vec<i64>,
) -> Result<(u64, usize), TableFault>
    requires left { (records : List Fields) × AreLeft (λ s. Some s.now) reader.old records }
    requires none { numbers.old.items ≡ [] }
    ensures { (records : List Fields) → AreLeft (λ s. Some s.now) reader.old records
        → IsReadOf (first_fault header (columns_of records) 1 records) (λ size. AreRead header records numbers.new.items size.0 size.1) result }
{
    if !read_next(reader, row)? {
        return Ok((0, 0));
    }
    let columns = row.len();
    push_record(row, header, columns, 1, numbers)?;
    for count in 1..MOST_RECORDS {
        if !read_next(reader, row)? {
            return Ok((rows_of(header, count), columns));
        }
        push_record(row, header, columns, count + 1, numbers)?;
    }
    unreachable!()
}

/// Reads a table: the records of `csv`, each with as many fields as the first. Each field is a number, with or without a sign, and with or
/// without blanks around it. A first record that is a header only gives the number of fields. Returns a matrix of records by fields; a file
/// without records has no rows and no columns. Returns the first fault: for each record first its number of fields, then its fields from the
/// left, then the limits of an array.
pub fn read_table(alloc: Global, bytes: &[u8], header: bool) -> Result<Array, TableFault>
    ensures { IsTableRead header (records_of bytes.now) result }
{
    let mut reader = reader_of(alloc, bytes);
    let mut row = ByteRecord::new(alloc);
    let mut numbers = Vec::new(alloc);
    let (rows, columns) = push_records(&mut reader, &mut row, header, &mut numbers)?;
    Ok(matrix(alloc, rows, columns, numbers)?)
}
