// The lines that say why a call ended.
ghost use Rattle.std.specs.Prelude.{◌≡◌, ◌≤◌, [], ◌∷◌, codes, length};
ghost use Rattle.std.specs.Option.{option_copied};
ghost use Rattle.dvs_base.specs.Parts.{joined, name_text};
ghost use Rattle.task_model.specs.Tasks.{names_of};
ghost use Rattle.statuses.specs.StatusLines.{file_word, text_fault_text, numbers_text, demand_text, denied_text, HasOneLine, status_text};

use crate::{Denied, FileKind, Status, TextFault};
use deadline_list::deadline_fault_line;
use demand_list::{demand_fault_line, over_worst_line};
use dvs_base::{Line, MOST_JOBS, Name, Part, Short, line_of, name_part, too_many_line};
use freq_table::machine_fault_line;
use request_list::request_fault_line;
use task_model::{TaskSet, task_fault_line, task_name};
use trace_reader::trace_fault_line;
use words::word_fault_line;

fn file_word(file: FileKind) -> &'static [u8]
    ensures { result.now ≡ file_word file }
{
    match file {
        FileKind::Tasks => b"tasks",
        FileKind::Machine => b"machine",
        FileKind::Demands => b"demands",
        FileKind::Trace => b"trace",
        FileKind::Deadlines => b"deadlines",
        FileKind::Requests => b"requests",
    }
}

fn text_fault_line(why: &TextFault, tasks: Option<&TaskSet>) -> Line
    ensures { result ≡ text_fault_text (names_of (option_copied tasks.entry)) why.now }
{
    match why {
        TextFault::TooLong { file } => line_of(&[
            Part::Word(file_word(*file)),
            Part::Word(b": too long\n"),
        ]),
        TextFault::Tasks(why) => task_fault_line(why),
        TextFault::Machine(why) => machine_fault_line(why),
        TextFault::Demands(why) => demand_fault_line(why, tasks),
        TextFault::Trace(why) => trace_fault_line(why),
        TextFault::Deadlines(why) => deadline_fault_line(why, tasks),
        TextFault::Requests(why) => request_fault_line(why),
        TextFault::Server { name } => line_of(&[
            Part::Word(b"tasks: no task "),
            Part::Shown(name),
            Part::Word(b"\n"),
        ]),
    }
}

// The line that says `what` of a task, with two numbers.
fn numbers_line<'a>(what: &'a [u8], name: &'a Option<Name>, num: u128, cap: u128) -> Line
    requires { length what.now ≤ 20 }
    ensures { result ≡ numbers_text what.now (name_text name.now) num cap }
{
    line_of(&[
        Part::Word(what),
        name_part(name),
        Part::Word(b" "),
        Part::Wide(num),
        Part::Word(b" "),
        Part::Wide(cap),
        Part::Word(b"\n"),
    ])
}

// The line of a denial for a task with an offset.
fn offset_line(name: &Option<Name>) -> Line
    ensures { result ≡ joined (codes "denied offset " ∷ name_text name.now ∷ codes "\n" ∷ []) }
{
    line_of(&[
        Part::Word(b"denied offset "),
        name_part(name),
        Part::Word(b"\n"),
    ])
}

// The line of a denial for too much work due.
fn demand_line(at: u64, num: u128, cap: u128) -> Line
    ensures { result ≡ demand_text at num cap }
{
    line_of(&[
        Part::Word(b"denied demand "),
        Part::Number(at),
        Part::Word(b" "),
        Part::Wide(num),
        Part::Word(b" "),
        Part::Wide(cap),
        Part::Word(b"\n"),
    ])
}

fn denied_line(why: &Denied, tasks: Option<&TaskSet>) -> Line
    ensures { result ≡ denied_text (names_of (option_copied tasks.entry)) why.now }
{
    match why {
        Denied::Edf { num, cap } => line_of(&[
            Part::Word(b"denied edf "),
            Part::Wide(*num),
            Part::Word(b" "),
            Part::Wide(*cap),
            Part::Word(b"\n"),
        ]),
        Denied::Rm { task, num, cap } => {
            numbers_line(b"denied rm ", &task_name(tasks, *task), *num, *cap)
        }
        Denied::Offset { task } => offset_line(&task_name(tasks, *task)),
        Denied::Response { task, num, cap } => {
            numbers_line(b"misses ", &task_name(tasks, *task), *num, *cap)
        }
        Denied::Demand { at, num, cap } => demand_line(*at, *num, *cap),
        Denied::Units { num, cap } => line_of(&[
            Part::Word(b"denied units "),
            Part::Wide(*num),
            Part::Word(b" "),
            Part::Wide(*cap),
            Part::Word(b"\n"),
        ]),
    }
}

/// The line of a status that has at most one, with the names of the tasks if they were read. It takes no memory.
pub fn status_line(status: &Status, tasks: Option<&TaskSet>) -> Line
    requires { HasOneLine status.now }
    ensures { result ≡ status_text (names_of (option_copied tasks.entry)) status.now }
{
    match status {
        Status::Done => Line::new(),
        Status::NotAdmitted(why) => denied_line(why, tasks),
        Status::Words(why) => word_fault_line(why),
        Status::Load { file } => line_of(&[
            Part::Word(b"load: "),
            Part::Word(file_word(*file)),
            Part::Word(b"\n"),
        ]),
        Status::Text(why) => text_fault_line(why, tasks),
        Status::Limit { jobs } => {
            too_many_line(&Short::of(b"limit"), *jobs, &Short::of(b"jobs"), MOST_JOBS)
        }
        Status::OverWorst {
            task,
            job,
            units,
            worst,
        } => over_worst_line(&task_name(tasks, *task), *job, *units, *worst),
        Status::Differs { .. } => unreachable!(),
        Status::Write => line_of(&[Part::Word(b"write: out failed\n")]),
        Status::NoMemory => line_of(&[Part::Word(b"no memory\n")]),
    }
}
