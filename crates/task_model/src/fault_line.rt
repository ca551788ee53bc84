// The lines of a refused task file.
ghost use Rattle.std.specs.Prelude.{◌≡◌, ◌≤◌, length};
ghost use Rattle.dvs_base.specs.declared.limits.TheConstants.{NAME_BYTES};
ghost use Rattle.task_model.specs.FaultLines.{task_field_word, at_task, task_fault_text};

use crate::{Field, LONGEST_HYPERPERIOD, TaskFault};
use dvs_base::{Line, MOST_TASKS, Part, Short, line_of, settings_line, too_many_line};

fn task_field_word(field: Field) -> &'static [u8]
    ensures text { result.now ≡ task_field_word field }
    ensures most { length result.now ≤ 8 }
{
    match field {
        Field::Task => b"task",
        Field::Entry => b"entry",
        Field::Name => b"name",
        Field::Period => b"period",
        Field::Worst => b"worst",
        Field::Offset => b"offset",
    }
}

// The line of a refusal at this place: `what`, and then `which`.
fn task_line(place: u32, what: &[u8], which: &[u8]) -> Line
    requires what { length what.now ≤ NAME_BYTES }
    requires which { length which.now ≤ NAME_BYTES }
    ensures { result ≡ at_task place what.now which.now }
{
    settings_line(
        &Short::of(b"tasks"),
        &Short::of(b"task"),
        place,
        what,
        which,
    )
}

fn too_many_tasks(count: u64) -> Line
    ensures { result ≡ task_fault_text (TaskFault.TooMany count) }
{
    let tasks = Short::of(b"tasks");
    too_many_line(&tasks, count, &tasks, MOST_TASKS as u64)
}

fn same_name_line(first: u32, second: u32) -> Line
    ensures { result ≡ task_fault_text (TaskFault.SameName first second) }
{
    line_of(&[
        Part::Word(b"tasks: tasks "),
        Part::Number(first as u64),
        Part::Word(b" and "),
        Part::Number(second as u64),
        Part::Word(b" have one name\n"),
    ])
}

fn no_multiple_line() -> Line
    ensures { result ≡ task_fault_text TaskFault.Hyper }
{
    line_of(&[
        Part::Word(b"tasks: periods have no common multiple up to "),
        Part::Number(LONGEST_HYPERPERIOD),
        Part::Word(b"\n"),
    ])
}

/// The line of a task file's refusal. It takes no memory.
pub fn task_fault_line(why: &TaskFault) -> Line
    ensures { result ≡ task_fault_text why.now }
{
    match why {
        TaskFault::NotToml => line_of(&[Part::Word(b"tasks: not TOML\n")]),
        TaskFault::UnknownKey { place, key } => task_line(*place, b"unknown key ", key.as_bytes()),
        TaskFault::NoTasks => line_of(&[Part::Word(b"tasks: no tasks\n")]),
        TaskFault::TooMany { count } => too_many_tasks(*count),
        TaskFault::Missing { place, field } => {
            task_line(*place, b"missing ", task_field_word(*field))
        }
        TaskFault::Kind { place, field } => {
            task_line(*place, b"wrong kind of ", task_field_word(*field))
        }
        TaskFault::Range { place, field } => {
            task_line(*place, task_field_word(*field), b" out of range")
        }
        TaskFault::BadName { place } => line_of(&[
            Part::Word(b"tasks: task "),
            Part::Number(*place as u64),
            Part::Word(b": bad name\n"),
        ]),
        TaskFault::SameName { first, second } => same_name_line(*first, *second),
        TaskFault::Hyper => no_multiple_line(),
        TaskFault::NoMemory => line_of(&[Part::Word(b"no memory\n")]),
    }
}
