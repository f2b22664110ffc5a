// The records of a text as `csv` reads them, one at a time.

ghost use Rattle.std.specs.Prelude.{◌≡◌, ◌<◌, [], IfOk, length, slice_index_or};
ghost use Rattle.csv.specs.Records.{fields_of};
ghost use Rattle.trace.specs.{Cutting.fields_of_row, Cutting.IsReading, Cutting.TakesNext, Cutting.records_left, Trace.records_of};

use crate::cutting::Row;
use csv::{ByteRecord, Error, Reader, ReaderBuilder};
use std::alloc::Global;

// A reader before the first record of a text.
pub(crate) fn records(alloc: Global, text: &[u8]) -> Reader<&[u8]>
    ensures reading { IsReading result }
    ensures all { records_left result ≡ records_of text.now }
{
    ReaderBuilder::new()
        .has_headers(false)
        .flexible(true)
        .from_reader(alloc, text)
}

// Takes the next record, or says that there is none.
pub(crate) fn next_record(rows: &mut Reader<&[u8]>, row: &mut ByteRecord) -> Result<bool, Error>
    requires { IsReading rows.old }
    ensures { IfOk result (TakesNext rows.old rows.new (fields_of row.new)) }
{
    rows.read_byte_record(row)
}

// The fields of a record that has four.
pub(crate) fn row_of(byte_record: &ByteRecord) -> Row<'_>
    requires { length (fields_of byte_record.now) ≡ 4 }
    ensures { fields_of byte_record.now ≡ fields_of_row result }
{
    Row {
        worker: field(byte_record, 0),
        op: field(byte_record, 1),
        sector: field(byte_record, 2),
        digits: field(byte_record, 3),
    }
}

// A field of a record that has it.
fn field(row: &ByteRecord, i: usize) -> &[u8]
    requires { i < length (fields_of row.now) }
    ensures { result.now ≡ slice_index_or (fields_of row.now) i [] }
{
    row.get(i).unwrap()
}
