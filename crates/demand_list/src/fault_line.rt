// The lines of a refused demand file.
ghost use Rattle.std.specs.Prelude.{◌≡◌, ◌≤◌, [], ◌∷◌, codes, length};
ghost use Rattle.std.specs.Fmt.{decimal};
ghost use Rattle.std.specs.Option.{option_copied};
ghost use Rattle.dvs_base.specs.Parts.{name_text};
ghost use Rattle.csv_text.specs.FaultLines.{row_text};
ghost use Rattle.task_model.specs.Tasks.{names_of};
ghost use Rattle.demand_list.specs.FaultLines.{column_word, over_worst_text, demand_fault_text};

use crate::{Column, DemandFault};
use csv_text::{bad_number_line, fields_line, row_line, unknown_task_line};
use dvs_base::{Line, Name, Part, line_of, name_part};
use task_model::{TaskSet, task_name};

fn column_word(column: Column) -> &'static [u8]
    ensures text { result.now ≡ column_word column }
    ensures most { length result.now ≤ 8 }
{
    match column {
        Column::Job => b"job",
        Column::Units => b"units",
    }
}

/// The line of a demand over its worst case, with the task's name. It takes no memory.
pub fn over_worst_line(name: &Option<Name>, job: u64, units: u64, worst: u64) -> Line
    ensures { result ≡ over_worst_text (name_text name.now) job units worst }
{
    line_of(&[
        Part::Word(b"over worst: "),
        name_part(name),
        Part::Word(b" "),
        Part::Number(job),
        Part::Word(b" "),
        Part::Number(units),
        Part::Word(b" "),
        Part::Number(worst),
        Part::Word(b"\n"),
    ])
}

fn repeated_line(row: u64, name: &Option<Name>, job: u64) -> Line
    ensures { result ≡ row_text (codes "demands") row
        (codes "task " ∷ name_text name.now ∷ codes " job " ∷ decimal job ∷ codes " stands twice\n" ∷ []) }
{
    row_line(
        b"demands",
        row,
        &[
            Part::Word(b"task "),
            name_part(name),
            Part::Word(b" job "),
            Part::Number(job),
            Part::Word(b" stands twice\n"),
        ],
    )
}

/// The line of a demand file's refusal, with the tasks' names if they were read. It takes no memory.
pub fn demand_fault_line(why: &DemandFault, tasks: Option<&TaskSet>) -> Line
    ensures { result ≡ demand_fault_text (names_of (option_copied tasks.entry)) why.now }
{
    match why {
        DemandFault::Header => line_of(&[Part::Word(b"demands: wrong header\n")]),
        DemandFault::Fields { row, count } => fields_line(b"demands", *row, *count),
        DemandFault::UnknownTask { row, name } => unknown_task_line(b"demands", *row, name),
        DemandFault::BadNumber { row, column } => bad_number_line(
            b"demands",
            *row,
            column_word(*column),
        ),
        DemandFault::JobZero { row } => row_line(b"demands", *row, &[Part::Word(b"job 0\n")]),
        DemandFault::Repeated { row, task, job } => {
            repeated_line(*row, &task_name(tasks, *task), *job)
        }
        DemandFault::OverWorst {
            task,
            job,
            units,
            worst,
        } => over_worst_line(&task_name(tasks, *task), *job, *units, *worst),
        DemandFault::NoMemory => line_of(&[Part::Word(b"no memory\n")]),
    }
}
