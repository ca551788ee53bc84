// The lines of a refused request file.
ghost use Rattle.std.specs.Prelude.{◌≡◌, ◌≤◌, length};
ghost use Rattle.request_list.specs.FaultLines.{request_column_word, request_fault_text};

use crate::{MOST_REQUESTS, RequestColumn, RequestFault};
use csv_text::{bad_number_line, fields_line, row_line};
use dvs_base::{Line, Part, Short, line_of, too_many_line};

fn request_column_word(column: RequestColumn) -> &'static [u8]
    ensures text { result.now ≡ request_column_word column }
    ensures most { length result.now ≤ 8 }
{
    match column {
        RequestColumn::Arrival => b"arrival",
        RequestColumn::Units => b"units",
    }
}

fn too_many_rows(count: u64) -> Line
    ensures { result ≡ request_fault_text (RequestFault.TooMany count) }
{
    let requests = Short::of(b"requests");
    too_many_line(&requests, count, &Short::of(b"rows"), MOST_REQUESTS)
}

/// The line of a request file's refusal. It takes no memory.
pub fn request_fault_line(why: &RequestFault) -> Line
    ensures { result ≡ request_fault_text why.now }
{
    match why {
        RequestFault::Header => line_of(&[Part::Word(b"requests: wrong header\n")]),
        RequestFault::TooMany { count } => too_many_rows(*count),
        RequestFault::Fields { row, count } => fields_line(b"requests", *row, *count),
        RequestFault::BadNumber { row, column } => bad_number_line(
            b"requests",
            *row,
            request_column_word(*column),
        ),
        RequestFault::Range { row } => row_line(
            b"requests",
            *row,
            &[Part::Word(b"units out of range\n")],
        ),
        RequestFault::Early { row } => row_line(b"requests", *row, &[Part::Word(b"too early\n")]),
        RequestFault::NoMemory => line_of(&[Part::Word(b"no memory\n")]),
    }
}
