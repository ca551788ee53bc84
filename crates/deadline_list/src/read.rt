// Deadline files.
ghost use Rattle.std.specs.Prelude.{◌≡◌, ◌≤◌, ◌<◌, length, IfOk};
ghost use Rattle.csv.specs.Records.{fields_of};
ghost use Rattle.csv_text.specs.Rows.{records_left};
ghost use Rattle.dvs_base.specs.Checks.{IsUnlessMemory};
ghost use Rattle.task_model.specs.Tasks.{task_at};
ghost use Rattle.deadline_list.specs.Deadlines.{AreFor};
ghost use Rattle.deadline_list.specs.DeadlineFile.{deadline_from, deadline_of_row, with_deadline, given_from, none_given, all_deadlines, given_in, deadline_file, IsAtRow, AreGiven};

use crate::{DeadlineFault, Deadlines};
use csv::{ByteRecord, Reader};
use csv_text::{next_record, rows_reader, two_fields};
use dvs_base::{NoMemory, Short, whole};
use std::alloc::Global;
use task_model::TaskSet;

/// A deadline of n ticks, if it is from 1 to the period; otherwise the refusal of this row.
pub(crate) fn deadline_from(row: u64, period: u64, n: u64) -> Result<u64, DeadlineFault>
    ensures is { result ≡ deadline_from row period n }
    ensures some { IfOk result (λ d. 1 ≤ d) }
    ensures within { IfOk result (λ d. d ≤ period) }
    ensures same { IfOk result (λ d. d ≡ n) }
{
    if n == 0 || n > period {
        return Err(DeadlineFault::Range { row });
    }
    Ok(n)
}

// The task and the deadline of a row, or the first refusal of the row.
fn read_row(tasks: &TaskSet, row: u64, fields: &ByteRecord) -> Result<(u32, u64), DeadlineFault>
    ensures row { result ≡ deadline_of_row tasks.now row (fields_of fields.now) }
    ensures task { IfOk result (λ r. r.0 < length tasks.now) }
    ensures some { IfOk result (λ r. 1 ≤ r.1) }
    ensures within { IfOk result (λ r. r.1 ≤ (task_at tasks.now r.0).period) }
{
    let count = fields.len() as u64;
    let (name, deadline) = two_fields(fields).ok_or(DeadlineFault::Fields { row, count })?;
    let task = tasks.find(name).ok_or(DeadlineFault::UnknownTask {
        row,
        name: Short::of(name),
    })?;
    let number = whole(deadline).ok_or(DeadlineFault::BadNumber { row })?;
    let deadline = deadline_from(row, tasks.task(task).period, number)?;
    Ok((task, deadline))
}

// Adds the deadline of a row, or refuses it if its task has an earlier row.
fn add_row(
    given: &mut [Option<u64>],
    tasks: &TaskSet,
    row: u64,
    task: u32,
    deadline: u64,
) -> Result<(), DeadlineFault>
    requires given { AreGiven tasks.now given.old }
    requires task { task < length tasks.now }
    requires some { 1 ≤ deadline }
    requires within { deadline ≤ (task_at tasks.now task).period }
    ensures row { IsUnlessMemory DeadlineFault.NoMemory (λ _. given.new) result
        (with_deadline given.old row task deadline) }
    ensures given { AreGiven tasks.now given.new }
{
    if given[task as usize].is_some() {
        return Err(DeadlineFault::Repeated { row, task });
    }
    given[task as usize] = Some(deadline);
    Ok(())
}

// A place for each task, without a deadline.
fn none_given(alloc: Global, tasks: &TaskSet) -> Result<Vec<Option<u64>>, NoMemory>
    ensures none { IfOk result (λ v. v.items ≡ none_given tasks.now) }
    ensures given { IfOk result (λ v. AreGiven tasks.now v.items) }
{
    let given = vec![in alloc; None; tasks.count() as usize]?;
    Ok(given)
}

// Reads the rows after the header, counted from 1, and adds their deadlines to `given`.
fn read_rows(
    reader: &mut Reader<&[u8]>,
    fields: &mut ByteRecord,
    tasks: &TaskSet,
    mut given: Vec<Option<u64>>,
) -> Result<Vec<Option<u64>>, DeadlineFault>
    requires first { IsAtRow 1 reader.old }
    requires given { AreGiven tasks.now given.items }
    ensures rows { IsUnlessMemory DeadlineFault.NoMemory (λ v. v.items) result
        (given_from tasks.now 1 given.items (records_left reader.old)) }
    ensures given { IfOk result (λ v. AreGiven tasks.now v.items) }
{
    let mut row: u64 = 1;
    while next_record(reader, fields)? {
        let (task, deadline) = read_row(tasks, row, fields)?;
        add_row(&mut given, tasks, row, task, deadline)?;
        row += 1;
    }
    Ok(given)
}

// The deadlines that the rows of a file give.
fn read_given(
    alloc: Global,
    bytes: &[u8],
    tasks: &TaskSet,
) -> Result<Vec<Option<u64>>, DeadlineFault>
    ensures rows { IsUnlessMemory DeadlineFault.NoMemory (λ v. v.items) result (given_in tasks.now bytes.now) }
    ensures given { IfOk result (λ v. AreGiven tasks.now v.items) }
{
    let mut fields = ByteRecord::new(alloc);
    let rows = rows_reader(alloc, bytes, &["task", "deadline"], &mut fields)?;
    let mut reader = rows.ok_or(DeadlineFault::Header)?;
    let given = none_given(alloc, tasks)?;
    read_rows(&mut reader, &mut fields, tasks, given)
}

// The deadline of each task: its row's, or its period if it has no row.
fn all_deadlines(
    alloc: Global,
    tasks: &TaskSet,
    given: &[Option<u64>],
) -> Result<Vec<u64>, NoMemory>
    requires { AreGiven tasks.now given.now }
    ensures deadlines { IfOk result (λ v. v.items ≡ all_deadlines tasks.now given.now) }
    ensures for_tasks { IfOk result (λ v. AreFor tasks.now v.items) }
{
    let _task_limits = tasks.as_slice();
    let mut deadlines = Vec::new(alloc);
    for i in 0..tasks.count() {
        let deadline = given[i as usize].unwrap_or(tasks.task(i).period);
        deadlines.push(deadline)?;
    }
    Ok(deadlines)
}

impl Deadlines {
    /// The deadlines of a file, in ticks; a task without a row has its period. The error is the first refusal: the
    /// header, then row by row the number of fields, the task, the number, its range, and an earlier row of the task.
    pub fn read(alloc: Global, bytes: &[u8], tasks: &TaskSet) -> Result<Deadlines, DeadlineFault>
        ensures file { IsUnlessMemory DeadlineFault.NoMemory (λ d. d) result (deadline_file tasks.now bytes.now) }
        ensures for_tasks { IfOk result (AreFor tasks.now) }
    {
        let given = read_given(alloc, bytes, tasks)?;
        let ticks = all_deadlines(alloc, tasks, &given)?;
        Ok(Deadlines { ticks })
    }
}
