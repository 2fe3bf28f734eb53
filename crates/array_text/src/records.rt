//! Reads the records of a file, one by one.

ghost use Rattle.std.specs.Prelude.{List, Some, IfOk};
ghost use Rattle.csv.specs.Records.{fields_of};
ghost use Rattle.array_text.specs.Tables.{Fields, records_of};
ghost use Rattle.array_text.specs.Reading.{AreLeft, IsNext};

use csv::{ByteRecord, ErrorKind, Reader, ReaderBuilder};
use std::alloc::{AllocError, Global};
use std::io::Read;

/// Returns a reader of the records of a file, which may have different numbers of fields.
pub(crate) fn reader_of(alloc: Global, bytes: &[u8]) -> Reader<&[u8]>
    ensures { AreLeft (λ s. Some s.now) result (records_of bytes.now) }
{
    ReaderBuilder::new()
        .has_headers(false)
        .flexible(true)
        .from_reader(alloc, bytes)
}

/// Reads the next record into `row`, and returns true if there is one. Reading bytes in memory fails only if memory runs out.
pub(crate) fn read_next<R: Read>(
    reader: &mut Reader<R>,
    row: &mut ByteRecord,
) -> Result<bool, AllocError>
    requires { (rest : List Fields) × AreLeft R.remaining reader.old rest }
    ensures { IfOk result (λ found. (rest : List Fields) → AreLeft R.remaining reader.old rest
        → IsNext (AreLeft R.remaining reader.new) rest found (fields_of row.new)) }
{
    match reader.read_byte_record(row) {
        Ok(found) => Ok(found),
        Err(error) => match error.kind() {
            ErrorKind::UnequalLengths { .. } => unreachable!(),
            _ => Err(AllocError),
        },
    }
}
