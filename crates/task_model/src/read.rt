// Reading a task file: its table, and the keys of each entry.
ghost use Rattle.std.specs.Prelude.{codes, ◌≡◌, ◌≤◌, ◌<◌, [], Some, length, IfOk, vec_len};
ghost use Rattle.toml.specs.Data.{get_member};
ghost use Rattle.toml.specs.View.{view, table_view, items_view};
ghost use Rattle.dvs_base.specs.Checks.{or_refusal, IsUnlessMemory};
ghost use Rattle.dvs_base.specs.declared.limits.TheConstants.{MOST_TASKS};
ghost use Rattle.task_model.specs.Tasks.{IsTask, hyper_of};
ghost use Rattle.task_model.specs.Limits.{AreTasks};
ghost use Rattle.task_model.specs.TaskFile.{task_fault_at, checked_name, name_at, task_of_members, task_of, place_of, tasks_from, within_hyper, tasks_of_array, tasks_of_document, task_file};

use crate::fault::{Field, TaskFault};
use crate::limits::{LATEST_OFFSET, LONGEST_PERIOD, MOST_WORK};
use crate::task::{Task, TaskSet, place_of};
use dvs_base::{
    DocumentFault, MOST_TASKS, MemberFault, Name, member_at, number_at, number_or_zero,
    read_document, text_at, unknown_key,
};
use std::alloc::Global;
use toml::{Table, Value};

fn fault_at(place: u32, field: Field, fault: MemberFault) -> TaskFault
    ensures { result ≡ task_fault_at place field fault }
{
    match fault {
        MemberFault::Missing => TaskFault::Missing { place, field },
        MemberFault::Kind => TaskFault::Kind { place, field },
        MemberFault::Range => TaskFault::Range { place, field },
    }
}

// A number of the task at this place, or the refusal for its error.
fn number_in(place: u32, field: Field, number: Result<u64, MemberFault>) -> Result<u64, TaskFault>
    ensures { result ≡ or_refusal (task_fault_at place field) number }
{
    number.map_err(|fault| fault_at(place, field, fault))
}

fn checked_name(place: u32, text: &str) -> Result<Name, TaskFault>
    ensures { result ≡ checked_name place text.now }
{
    Name::of(text.as_bytes()).ok_or(TaskFault::BadName { place })
}

fn read_name(place: u32, table: &Table) -> Result<Name, TaskFault>
    ensures { result ≡ name_at place (get_member (codes "name") (table_view table.now)) }
{
    let text = text_at(table, "name").map_err(|fault| fault_at(place, Field::Name, fault))?;
    checked_name(place, text)
}

fn read_members(place: u32, table: &Table) -> Result<Task, TaskFault>
    ensures meaning { result ≡ task_of_members place (table_view table.now) }
    ensures limits { IfOk result (λ t. IsTask t) }
{
    if let Some(key) = unknown_key(table, &["name", "period", "worst", "offset"]) {
        return Err(TaskFault::UnknownKey { place, key });
    }
    let name = read_name(place, table)?;
    let period = number_at(table, "period", 1, LONGEST_PERIOD);
    let period = number_in(place, Field::Period, period)?;
    let worst = number_at(table, "worst", 1, MOST_WORK);
    let worst = number_in(place, Field::Worst, worst)?;
    let offset = number_or_zero(table, "offset", LATEST_OFFSET);
    let offset = number_in(place, Field::Offset, offset)?;
    Ok(Task {
        name,
        period,
        worst,
        offset,
    })
}

fn read_task(place: u32, value: &Value) -> Result<Task, TaskFault>
    ensures meaning { result ≡ task_of place (view value.now) }
    ensures limits { IfOk result (λ t. IsTask t) }
{
    let table = value.as_table().ok_or(TaskFault::Kind {
        place,
        field: Field::Entry,
    })?;
    read_members(place, table)
}

// The tasks of the entries, of which there are at most `MOST_TASKS`.
fn read_entries(alloc: Global, entries: &[Value]) -> Result<Vec<Task>, TaskFault>
    requires { length entries.now ≤ MOST_TASKS }
    ensures meaning { IsUnlessMemory TaskFault.NoMemory (λ v. v.items) result (tasks_from [] (items_view entries.now)) }
    ensures limits { IfOk result (λ v. AreTasks v.items) }
    ensures count { IfOk result (λ v. vec_len v ≡ length entries.now) }
{
    let mut tasks: Vec<Task> = Vec::new(alloc);
    for entry in entries {
        let place = tasks.len() as u32 + 1;
        let task = read_task(place, entry)?;
        if let Some(first) = place_of(&tasks, task.name.as_bytes()) {
            return Err(TaskFault::SameName {
                first: first as u32 + 1,
                second: place,
            });
        }
        tasks.push(task).map_err(|_| TaskFault::NoMemory)?;
    }
    Ok(tasks)
}

// The set of these tasks, if the least common multiple of their periods is within the limit.
fn set_of(alloc: Global, tasks: Vec<Task>) -> Result<TaskSet, TaskFault>
    requires limits { AreTasks tasks.items }
    requires some { 1 ≤ vec_len tasks }
    requires few { vec_len tasks ≤ MOST_TASKS }
    ensures { IsUnlessMemory TaskFault.NoMemory (λ s. s) result (within_hyper tasks.items) }
{
    let set = TaskSet::within(alloc, tasks).map_err(|_| TaskFault::NoMemory)?;
    set.ok_or(TaskFault::Hyper)
}

fn read_array(alloc: Global, entries: &[Value]) -> Result<TaskSet, TaskFault>
    ensures { IsUnlessMemory TaskFault.NoMemory (λ s. s) result (tasks_of_array (Some (items_view entries.now))) }
{
    if entries.is_empty() {
        return Err(TaskFault::NoTasks);
    }
    if entries.len() > MOST_TASKS {
        return Err(TaskFault::TooMany {
            count: entries.len() as u64,
        });
    }
    let tasks = read_entries(alloc, entries)?;
    set_of(alloc, tasks)
}

fn read_table(alloc: Global, table: &Table) -> Result<TaskSet, TaskFault>
    ensures { IsUnlessMemory TaskFault.NoMemory (λ s. s) result (tasks_of_document (Some (table_view table.now))) }
{
    if let Some(key) = unknown_key(table, &["task"]) {
        return Err(TaskFault::UnknownKey { place: 0, key });
    }
    let value = member_at(table, "task").ok_or(TaskFault::NoTasks)?;
    let entries = value.as_array().ok_or(TaskFault::Kind {
        place: 0,
        field: Field::Task,
    })?;
    read_array(alloc, entries)
}

impl TaskSet {
    /// The tasks of the file: an array of tables under the key `task`, each with a `name`, a `period` in ticks, a
    /// `worst` case in work units and an `offset` in ticks, which is 0 if it is absent. For any other file, its
    /// first refusal, unless memory runs out.
    pub fn read(alloc: Global, bytes: &[u8]) -> Result<TaskSet, TaskFault>
        ensures { IsUnlessMemory TaskFault.NoMemory (λ s. s) result (task_file bytes.now) }
    {
        let table = match read_document(alloc, bytes) {
            Ok(table) => table,
            Err(DocumentFault::NotToml) => return Err(TaskFault::NotToml),
            Err(DocumentFault::NoMemory) => return Err(TaskFault::NoMemory),
        };
        read_table(alloc, &table)
    }
}
