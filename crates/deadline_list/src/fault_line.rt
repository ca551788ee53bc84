// The lines of a refused deadline file.
ghost use Rattle.std.specs.Prelude.{◌≡◌, [], ◌∷◌, codes};
ghost use Rattle.std.specs.Option.{option_copied};
ghost use Rattle.dvs_base.specs.Parts.{name_text};
ghost use Rattle.csv_text.specs.FaultLines.{row_text};
ghost use Rattle.task_model.specs.Tasks.{names_of};
ghost use Rattle.deadline_list.specs.FaultLines.{deadline_fault_text};

use crate::DeadlineFault;
use csv_text::{bad_number_line, fields_line, row_line, unknown_task_line};
use dvs_base::{Line, Name, Part, line_of, name_part};
use task_model::{TaskSet, task_name};

fn repeated_line(row: u64, name: &Option<Name>) -> Line
    ensures { result ≡ row_text (codes "deadlines") row
        (codes "task " ∷ name_text name.now ∷ codes " stands twice\n" ∷ []) }
{
    row_line(
        b"deadlines",
        row,
        &[
            Part::Word(b"task "),
            name_part(name),
            Part::Word(b" stands twice\n"),
        ],
    )
}

/// The line of a deadline file's refusal, with the tasks' names if they were read. It takes no memory.
pub fn deadline_fault_line(why: &DeadlineFault, tasks: Option<&TaskSet>) -> Line
    ensures { result ≡ deadline_fault_text (names_of (option_copied tasks.entry)) why.now }
{
    match why {
        DeadlineFault::Header => line_of(&[Part::Word(b"deadlines: wrong header\n")]),
        DeadlineFault::Fields { row, count } => fields_line(b"deadlines", *row, *count),
        DeadlineFault::UnknownTask { row, name } => unknown_task_line(b"deadlines", *row, name),
        DeadlineFault::BadNumber { row } => bad_number_line(b"deadlines", *row, b"deadline"),
        DeadlineFault::Range { row } => row_line(
            b"deadlines",
            *row,
            &[Part::Word(b"deadline out of range\n")],
        ),
        DeadlineFault::Repeated { row, task } => repeated_line(*row, &task_name(tasks, *task)),
        DeadlineFault::NoMemory => line_of(&[Part::Word(b"no memory\n")]),
    }
}
