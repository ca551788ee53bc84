// The rows of a demand list, by task and job.
ghost use Rattle.std.specs.Prelude.{◌≡◌, IfOk, OnErr, Ok, true, false, not, is_some, IsTrue};
ghost use Rattle.task_model.specs.DemandRows.{demand_row, named_units};
ghost use Rattle.demand_list.specs.Demands.{rows_of, with_row};
ghost use Rattle.demand_list.specs.Kept.{AllPrecede, AreAscending};

use dvs_base::NoMemory;
use std::alloc::Global;
use std::collections::BTreeMap;

/// Units by task and job. As long as the rows come in order, each is pushed and nothing is moved.
#[derive(Drop)]
pub(crate) enum KeptRows {
    /// Each row came after the one before it.
    InOrder(Vec<((u32, u64), u64)>),
    /// Some row didn't.
    AnyOrder(BTreeMap<(u32, u64), u64>),
}

// Whether a job comes after the jobs of all rows, which ascend.
fn is_next(rows: &[((u32, u64), u64)], task: u32, job: u64) -> bool
    requires { AreAscending (rows_of rows.now) }
    ensures { IsTrue result → AllPrecede (demand_row task job 0) (rows_of rows.now) }
{
    match rows.last() {
        None => true,
        Some(last) => last.0 < (task, job),
    }
}

// The units of a job's row, if the rows ascend. If they are those of one task from its first job on, as in a
// `poll` run, the row of job k is the k-th.
fn units_in(rows: &[((u32, u64), u64)], task: u32, job: u64) -> Option<u64>
    requires { AreAscending (rows_of rows.now) }
    ensures { result ≡ named_units (rows_of rows.now) task job }
{
    let near = job.saturating_sub(1) as usize;
    if near < rows.len() && rows[near].0 == (task, job) {
        return Some(rows[near].1);
    }
    match rows.binary_search_by_key(&(task, job), |row| row.0) {
        Ok(at) => Some(rows[at].1),
        Err(_) => None,
    }
}

// The map of ascending rows.
fn map_of(alloc: Global, rows: &[((u32, u64), u64)]) -> Result<BTreeMap<(u32, u64), u64>, NoMemory>
    requires { AreAscending (rows_of rows.now) }
    ensures { IfOk result (λ map. map.entries ≡ rows.now) }
{
    let mut map = BTreeMap::new(alloc);
    for &(key, units) in rows {
        map.insert(key, units)?;
    }
    Ok(map)
}

// Adds a row for a job that has none, and returns whether it had none. A row that the job has stays.
fn add_row(
    rows: &mut BTreeMap<(u32, u64), u64>,
    task: u32,
    job: u64,
    units: u64,
) -> Result<bool, NoMemory>
    ensures answer { IfOk result (λ added. added ≡ not (is_some (named_units (rows_of rows.old.entries) task job))) }
    ensures added { result ≡ Ok true → rows_of rows.new.entries
        ≡ with_row (rows_of rows.old.entries) (demand_row task job units) }
    ensures stays { result ≡ Ok false → rows.new.entries ≡ rows.old.entries }
    ensures err { OnErr result (rows.new.entries ≡ rows.old.entries) }
{
    let earlier = rows.insert((task, job), units)?;
    let Some(kept) = earlier else {
        return Ok(true);
    };
    // The earlier row goes back. Its key is in the map, so this needs no memory.
    rows.insert((task, job), kept)?;
    Ok(false)
}

impl KeptRows {
    ghost use Rattle.demand_list.specs.Kept.{kept_rows, AscendInOrder};

    // The units of a job's row.
    pub(crate) fn units(&self, task: u32, job: u64) -> Option<u64>
        requires { AscendInOrder self.now }
        ensures { result ≡ named_units (kept_rows self.now) task job }
    {
        match self {
            KeptRows::InOrder(rows) => units_in(rows, task, job),
            KeptRows::AnyOrder(rows) => rows.get(&(task, job)).copied(),
        }
    }

    // Adds a row for a job that has none, and returns whether it had none. A row that the job has stays.
    pub(crate) fn add(&mut self, task: u32, job: u64, units: u64) -> Result<bool, NoMemory>
        requires { AscendInOrder self.old }
        ensures in_order { AscendInOrder self.new }
        ensures answer { IfOk result (λ added. added ≡ not (is_some (named_units (kept_rows self.old) task job))) }
        ensures added { result ≡ Ok true → kept_rows self.new
            ≡ with_row (kept_rows self.old) (demand_row task job units) }
        ensures stays { result ≡ Ok false → kept_rows self.new ≡ kept_rows self.old }
        ensures err { OnErr result (kept_rows self.new ≡ kept_rows self.old) }
    {
        match self {
            KeptRows::AnyOrder(rows) => add_row(rows, task, job, units),
            KeptRows::InOrder(rows) => {
                if is_next(rows, task, job) {
                    rows.push(((task, job), units))?;
                    return Ok(true);
                }
                let mut map = map_of(*rows.allocator(), rows)?;
                let added = add_row(&mut map, task, job, units)?;
                *self = KeptRows::AnyOrder(map);
                Ok(added)
            }
        }
    }
}
