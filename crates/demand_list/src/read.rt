// Reading demand files.
ghost use Rattle.std.specs.Prelude.{◌≡◌, ◌≤◌, ◌<◌, ◌^◌, length, map, IfOk, vec_len};
ghost use Rattle.csv.specs.Records.{fields_of};
ghost use Rattle.csv_text.specs.Rows.{IsDefault, AreCountedFrom, records_left};
ghost use Rattle.task_model.specs.TaskFile.{place_of};
ghost use Rattle.demand_list.specs.DemandFile.{MeansDemands, demand_of_row, demands_from, with_checked, demand_file, worst_list};

use crate::{Column, DemandFault, Demands};
use csv::{ByteRecord, Reader};
use csv_text::{next_record, rows_reader, three_fields};
use dvs_base::{NoMemory, Short, whole};
use std::alloc::Global;
use task_model::TaskSet;

// The task with this name. Rows of one task often follow each other, so the task of the row before is tried first.
fn task_named(tasks: &TaskSet, before: u32, name: &[u8]) -> Option<u32>
    requires { before < length tasks.now }
    ensures { result ≡ place_of tasks.now name.now }
{
    let _limits = tasks.as_slice();
    if tasks.task(before).name.as_bytes() == name {
        Some(before)
    } else {
        tasks.find(name)
    }
}

// The task, the job and the units of a row, checked without the rows before it.
fn read_row(
    tasks: &TaskSet,
    before: u32,
    row: u64,
    fields: &ByteRecord,
) -> Result<(u32, u64, u64), DemandFault>
    requires { before < length tasks.now }
    ensures row { result ≡ demand_of_row tasks.now row (fields_of fields.now) }
    ensures task { IfOk result (λ r. r.0 < length tasks.now) }
    ensures job { IfOk result (λ r. 1 ≤ r.1) }
{
    let count = fields.len() as u64;
    let (name, job, units) = three_fields(fields).ok_or(DemandFault::Fields { row, count })?;
    let task = task_named(tasks, before, name).ok_or(DemandFault::UnknownTask {
        row,
        name: Short::of(name),
    })?;
    let job = whole(job).ok_or(DemandFault::BadNumber {
        row,
        column: Column::Job,
    })?;
    if job == 0 {
        return Err(DemandFault::JobZero { row });
    }
    let units = whole(units).ok_or(DemandFault::BadNumber {
        row,
        column: Column::Units,
    })?;
    Ok((task, job, units))
}

// Adds a row of a file, after the checks that need the list.
fn add_checked(
    demands: &mut Demands,
    row: u64,
    task: u32,
    job: u64,
    units: u64,
) -> Result<(), DemandFault>
    requires task { task < length demands.old.worsts }
    requires job { 1 ≤ job }
    ensures worsts { demands.new.worsts ≡ demands.old.worsts }
    ensures added { MeansDemands (λ _. demands.new) result (with_checked demands.old row task job units) }
{
    let worst = demands.worsts()[task as usize];
    if worst < units {
        return Err(if demands.has_row(task, job) {
            DemandFault::Repeated { row, task, job }
        } else {
            DemandFault::OverWorst {
                task,
                job,
                units,
                worst,
            }
        });
    }
    if demands.set(task, job, units)? {
        Ok(())
    } else {
        Err(DemandFault::Repeated { row, task, job })
    }
}

// The declared worst cases of the tasks.
fn worst_cases(alloc: Global, tasks: &TaskSet) -> Result<Vec<u64>, NoMemory>
    ensures worsts { IfOk result (λ v. v.items ≡ map (λ t. t.worst) tasks.now) }
    ensures few { IfOk result (λ v. vec_len v < 2 ^ 32) }
{
    let mut worsts = Vec::new(alloc);
    for i in 0..tasks.count() {
        worsts.push(tasks.task(i).worst)?;
    }
    Ok(worsts)
}

/// The list without rows, in which every job needs its declared worst case.
pub fn worst_list(alloc: Global, tasks: &TaskSet) -> Result<Demands, NoMemory>
    ensures { IfOk result (λ demands. demands ≡ worst_list tasks.now) }
{
    let worsts = worst_cases(alloc, tasks)?;
    Demands::worst_only(alloc, &worsts)
}

// The list with the rows after the header, which count from 1.
fn read_rows(
    reader: &mut Reader<&[u8]>,
    fields: &mut ByteRecord,
    tasks: &TaskSet,
    mut demands: Demands,
) -> Result<Demands, DemandFault>
    requires default_reader { IsDefault reader.old }
    requires few { AreCountedFrom 1 reader.old }
    requires worsts { length demands.worsts ≡ length tasks.now }
    ensures worsts { IfOk result (λ d. d.worsts ≡ demands.worsts) }
    ensures rows { MeansDemands (λ d. d) result (demands_from tasks.now 1 demands (records_left reader.old)) }
{
    let mut row: u64 = 1;
    let _some = tasks.count();
    let mut before: u32 = 0;
    while next_record(reader, fields)? {
        let (task, job, units) = read_row(tasks, before, row, fields)?;
        add_checked(&mut demands, row, task, job, units)?;
        row += 1;
        before = task;
    }
    Ok(demands)
}

impl Demands {
    /// The demand list of a file: the tasks' declared worst cases, and the rows of the file, in work units without
    /// the charge. Rows for jobs beyond a run are checked too. The first refusal is returned: that of the header, and
    /// then row by row the number of fields, the task, the job, the units, an earlier row of the job, and the worst
    /// case.
    pub fn read(alloc: Global, bytes: &[u8], tasks: &TaskSet) -> Result<Demands, DemandFault>
        ensures file { MeansDemands (λ d. d) result (demand_file tasks.now bytes.now) }
        ensures worsts { IfOk result (λ d. d.worsts ≡ map (λ t. t.worst) tasks.now) }
    {
        let mut fields = ByteRecord::new(alloc);
        let rows = rows_reader(alloc, bytes, &["task", "job", "units"], &mut fields)?;
        let mut reader = rows.ok_or(DemandFault::Header)?;
        let demands = worst_list(alloc, tasks)?;
        read_rows(&mut reader, &mut fields, tasks, demands)
    }
}
