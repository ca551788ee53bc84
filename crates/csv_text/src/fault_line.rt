// The lines of a refused row.
ghost use Rattle.std.specs.Prelude.{◌≡◌, ◌≤◌, ◌+◌, length, map};
ghost use Rattle.dvs_base.specs.declared.limits.TheConstants.{LINE_BYTES, NAME_BYTES, NUMBER_BYTES};
ghost use Rattle.dvs_base.specs.Parts.{part_text, most_of};
ghost use Rattle.csv_text.specs.FaultLines.{row_text, fields_text, unknown_task_text, bad_number_text};

use dvs_base::{Line, Part, Short, push_number, push_parts, push_word};

/// The line of a refused row: its file, its number, and what is wrong. It takes no memory.
pub fn row_line(file: &[u8], row: u64, what: &[Part<'_>]) -> Line
    requires { length file.now + NUMBER_BYTES + 8 + most_of what.now ≤ LINE_BYTES }
    ensures { result ≡ row_text file.now row (map part_text what.now) }
{
    let mut line = Line::new();
    push_word(&mut line, file);
    push_word(&mut line, b": row ");
    push_number(&mut line, row);
    push_word(&mut line, b": ");
    push_parts(&mut line, what);
    line
}

/// The line of a row that has `count` fields, and so too few or too many. It takes no memory.
pub fn fields_line(file: &[u8], row: u64, count: u64) -> Line
    requires { length file.now ≤ NAME_BYTES }
    ensures { result ≡ fields_text file.now row count }
{
    row_line(file, row, &[Part::Number(count), Part::Word(b" fields\n")])
}

/// The line of a row that names a task which isn't there. It takes no memory.
pub fn unknown_task_line(file: &[u8], row: u64, name: &Short) -> Line
    requires { length file.now ≤ NAME_BYTES }
    ensures { result ≡ unknown_task_text file.now row name.now }
{
    row_line(
        file,
        row,
        &[
            Part::Word(b"unknown task "),
            Part::Shown(name),
            Part::Word(b"\n"),
        ],
    )
}

/// The line of a row whose field in this column is not a number. It takes no memory.
pub fn bad_number_line(file: &[u8], row: u64, column: &[u8]) -> Line
    requires file { length file.now ≤ NAME_BYTES }
    requires column { length column.now ≤ NAME_BYTES }
    ensures { result ≡ bad_number_text file.now row column.now }
{
    row_line(
        file,
        row,
        &[Part::Word(b"bad "), Part::Word(column), Part::Word(b"\n")],
    )
}
