// Demand lists.
ghost use Rattle.std.specs.Prelude.{◌≡◌, ◌<◌, ◌≤◌, ◌^◌, [], length, slice_index, IfOk, OnErr, Ok, None, true, false, not, is_some};
ghost use Rattle.task_model.specs.DemandRows.{demand_row, named_units};
ghost use Rattle.demand_list.specs.Demands.{units_of, IsWithinWorsts, AddsRow, with_row};

use crate::kept::KeptRows;
use dvs_base::NoMemory;
use std::alloc::Global;
use std::marker::Model;

/// What single jobs really need: the declared worst case of each task, and the units of the jobs that have a row.
/// All are work units without the charge, and no row exceeds the worst case of its task.
#[derive(Drop)]
pub struct Demands {
    worsts: Vec<u64>,
    rows: KeptRows,
}

impl Model for Demands {
    ghost use Rattle.demand_list.specs.Demands.{DemandsView};
    ghost use Rattle.demand_list.specs.Kept.{kept_rows, IsDemandList};

    ghost Value = { DemandsView };

    ghost view = { λ d. record { worsts = d.worsts.items; rows = kept_rows d.rows } };

    ghost invariant = { λ d. IsDemandList d.worsts.items d.rows };
}

impl Demands {
    /// The list without rows, in which every job needs its worst case.
    pub fn worst_only(alloc: Global, worsts: &[u64]) -> Result<Demands, NoMemory>
        requires { length worsts.now < 2 ^ 32 }
        ensures { IfOk result (λ demands. demands ≡ record { worsts = worsts.now; rows = [] }) }
    {
        let worsts = Vec::from_slice(alloc, worsts)?;
        let rows = KeptRows::InOrder(Vec::new(alloc));
        Ok(Demands { worsts, rows })
    }

    /// Adds a row for a job that has none: a task of the list, a job from 1 on, and at most the task's worst case of
    /// work units. False if the job has a row already, which stays. After NoMemory the list is as before.
    pub fn set(&mut self, task: u32, job: u64, units: u64) -> Result<bool, NoMemory>
        requires task { task < length self.old.worsts }
        requires job { 1 ≤ job }
        requires units { units ≤ slice_index self.old.worsts task }
        ensures answer { IfOk result (λ added. added ≡ not (is_some (named_units self.old.rows task job))) }
        ensures added { result ≡ Ok true → AddsRow self.old self.new (demand_row task job units) }
        ensures order { result ≡ Ok true → self.new.rows ≡ with_row self.old.rows (demand_row task job units) }
        ensures stays { result ≡ Ok false → self.new ≡ self.old }
        ensures err { OnErr result (self.new ≡ self.old) }
    {
        self.rows.add(task, job, units)
    }

    /// The declared worst cases of the tasks, which no job exceeds.
    pub fn worsts(&self) -> &[u64]
        ensures worsts { result.now ≡ self.now.worsts }
        ensures within { IsWithinWorsts self.now }
    {
        &self.worsts
    }

    // Whether a job has a row.
    pub(crate) fn has_row(&self, task: u32, job: u64) -> bool
        ensures { result ≡ is_some (named_units self.now.rows task job) }
    {
        self.rows.units(task, job).is_some()
    }

    /// The units of a job without the charge: its row's, otherwise the declared worst case.
    pub fn units(&self, task: u32, job: u64) -> u64
        requires { task < length self.now.worsts }
        ensures units { result ≡ units_of self.now task job }
        ensures low { result ≤ slice_index self.now.worsts task }
    {
        match self.rows.units(task, job) {
            Some(units) => units,
            None => self.worsts[task as usize],
        }
    }
}
