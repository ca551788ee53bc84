//! The records of a CSV text in memory, one after another.
//!
//! A text is read with the CSV reader's defaults, and records may have any number of fields. Callers may rely on
//! `records_left`: it has the records of the text that a reader has not read, by the CSV reader's own specification,
//! and each call of `next_record` takes the first of them; and on `rows_reader` to find the rows after one header,
//! field by field. One record is used again for each row, so no text is kept twice. `row_line` is the line of a refused
//! row, `fields_line`, `unknown_task_line` and `bad_number_line` those of what files with rows share.
#![tactic(auto)]

mod fault_line;

ghost use Rattle.std.specs.Prelude.{◌≡◌, ◌<◌, ◌≤◌, ◌+◌, ◌∷◌, [], Ok, Some, true, false, length, map, option_map, IfOk, IfSome};
ghost use Rattle.csv.specs.Reading.{default_config, records, strip_bom, error_kind, stops_reader};
ghost use Rattle.csv.specs.Records.{field_at, fields_of};
ghost use Rattle.dvs_base.specs.Parts.{two_of, three_of};
ghost use Rattle.csv_text.specs.Rows.{IsDefault, records_left, has_fields, text_rows};

use csv::{ByteRecord, Error, Reader, ReaderBuilder};
use dvs_base::NoMemory;
pub use fault_line::{bad_number_line, fields_line, row_line, unknown_task_line};
use std::alloc::Global;

// A reader of the records of a text, of any number of fields, the first one included. It fails only if memory runs
// out. The reader is given an empty header row first, so that it keeps no copy of the first record.
fn text_reader(alloc: Global, text: &[u8]) -> Result<Reader<&[u8]>, NoMemory>
    ensures default_reader { IfOk result (λ reader. IsDefault reader) }
    ensures all { IfOk result (λ reader. records_left reader ≡ records default_config (strip_bom text.now)) }
    ensures few { IfOk result (λ reader. length (records_left reader) ≤ length text.now + 1) }
{
    let mut reader = ReaderBuilder::new().flexible(true).from_reader(alloc, text);
    match reader.set_byte_headers(ByteRecord::new(alloc)) {
        Ok(()) => Ok(reader),
        Err(_) => Err(NoMemory),
    }
}

// The error that stops a reader of a text in memory: memory ran out.
fn no_record(error: Error) -> NoMemory
    requires { stops_reader (error_kind error) ≡ true }
{
    NoMemory
}

/// Reads the fields of the next record, and returns whether there is one. It fails only if memory runs out.
pub fn next_record(reader: &mut Reader<&[u8]>, fields: &mut ByteRecord) -> Result<bool, NoMemory>
    requires { IsDefault reader.old }
    ensures some { result ≡ Ok true → records_left reader.old ≡ fields_of fields.new ∷ records_left reader.new }
    ensures default_reader { result ≡ Ok true → IsDefault reader.new }
    ensures none { result ≡ Ok false → records_left reader.old ≡ [] }
{
    reader.read_byte_record(fields).map_err(no_record)
}

// The field of a record at this place, counted from 0.
fn field(fields: &ByteRecord, place: usize) -> &[u8]
    requires { place < length (fields_of fields.now) }
    ensures { field_at (fields_of fields.now) place ≡ Some result.now }
{
    fields.get(place).unwrap()
}

/// The fields of a record of two fields, and None exactly for a record of another number of fields.
pub fn two_fields(fields: &ByteRecord) -> Option<(&[u8], &[u8])>
    ensures { option_map (λ p. (p.0.now, p.1.now)) result ≡ two_of (fields_of fields.now) }
{
    if fields.len() != 2 {
        return None;
    }
    Some((field(fields, 0), field(fields, 1)))
}

/// The fields of a record of three fields, and None exactly for a record of another number of fields.
pub fn three_fields(fields: &ByteRecord) -> Option<(&[u8], &[u8], &[u8])>
    ensures { option_map (λ p. (p.0.now, p.1.now, p.2.now)) result ≡ three_of (fields_of fields.now) }
{
    if fields.len() != 3 {
        return None;
    }
    Some((field(fields, 0), field(fields, 1), field(fields, 2)))
}

// Whether the fields of a record are exactly these.
fn has_fields(fields: &ByteRecord, names: &[&str]) -> bool
    ensures { result ≡ has_fields (map (λ n. n.now) names.now) (fields_of fields.now) }
{
    if fields.len() != names.len() {
        return false;
    }
    for place in 0..names.len() {
        if field(fields, place) != names[place].as_bytes() {
            return false;
        }
    }
    true
}

/// A reader of the rows of a text after its header, and None if the first record is not the header or there is no
/// record. It fails only if memory runs out.
pub fn rows_reader<'a>(
    alloc: Global,
    text: &'a [u8],
    header: &[&str],
    fields: &mut ByteRecord,
) -> Result<Option<Reader<&'a [u8]>>, NoMemory>
    ensures rows { IfOk result (λ found.
        option_map records_left found ≡ text_rows (map (λ n. n.now) header.now) text.now) }
    ensures default_reader { IfOk result (λ found. IfSome found IsDefault) }
    ensures few { IfOk result (λ found. IfSome found (λ reader. length (records_left reader) ≤ length text.now)) }
{
    let mut reader = text_reader(alloc, text)?;
    if next_record(&mut reader, fields)? && has_fields(fields, header) {
        return Ok(Some(reader));
    }
    Ok(None)
}
