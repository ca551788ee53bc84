// Plans of the example of Pillai and Shin 2001, and of cases.
ghost use Rattle.std.specs.Prelude.{◌≡◌, IfOk, IfSome};
ghost use Rattle.governor.specs.ServedSchedulers.{ServesEdf, ServesRm};
ghost use Rattle.event_kernel.specs.Runs.{IsListOf};

use crate::case::Case;
use demand_list::Demands;
use edf_admit::{EdfFault, edf_admit};
use freq_table::Machine;
use rm_admit::{RmFault, rm_admit};
use sched_model::Admitted;
use std::alloc::Global;
use std::test::Fail;
use task_model::TaskSet;
use test_inputs::example::{PAPER_MACHINE, PAPER_TASKS};

// The task set of a file.
fn tasks_of(alloc: Global, bytes: &[u8]) -> Result<TaskSet, Fail> {
    Ok(TaskSet::read(alloc, bytes)?)
}

// The machine of a file.
fn machine_of(alloc: Global, bytes: &[u8]) -> Result<Machine, Fail> {
    Ok(Machine::read(alloc, bytes)?)
}

// The tasks of the example.
pub(crate) fn paper_tasks(alloc: Global) -> Result<TaskSet, Fail> {
    tasks_of(alloc, PAPER_TASKS)
}

// The plan of `tasks` on the example's machine under EDF.
pub(crate) fn edf_plan(alloc: Global, tasks: &TaskSet) -> Result<Admitted, Fail>
    ensures serves { IfOk result (λ plan. ServesEdf plan.scheduler) }
    ensures tasks { IfOk result (λ plan. plan.tasks ≡ tasks.now) }
{
    let machine = machine_of(alloc, PAPER_MACHINE)?;
    match edf_admit(alloc, tasks, &machine) {
        Ok(plan) => Ok(plan),
        Err(_) => Err("plan")?,
    }
}

// The plan of `tasks` on the example's machine under RM.
pub(crate) fn rm_plan(alloc: Global, tasks: &TaskSet) -> Result<Admitted, Fail>
    ensures serves { IfOk result (λ plan. ServesRm plan.scheduler) }
{
    let machine = machine_of(alloc, PAPER_MACHINE)?;
    match rm_admit(alloc, tasks, &machine) {
        Ok(plan) => Ok(plan),
        Err(_) => Err("plan")?,
    }
}

// A plan, and the demands of its jobs.
#[derive(Drop)]
pub(crate) struct Planned {
    pub(crate) plan: Admitted,
    pub(crate) demands: Demands,
}

// The plan of a case under EDF and its demands, if EDF admits it.
pub(crate) fn edf_planned(alloc: Global, case: Case<'_>) -> Result<Option<Planned>, Fail>
    ensures list { IfOk result (λ o. IfSome o (λ r. IsListOf r.plan r.demands)) }
    ensures serves { IfOk result (λ o. IfSome o (λ r. ServesEdf r.plan.scheduler)) }
{
    let tasks = tasks_of(alloc, case.tasks)?;
    let machine = machine_of(alloc, case.machine)?;
    let Ok(demands) = Demands::read(alloc, case.demands, &tasks) else {
        return Err("demands")?;
    };
    match edf_admit(alloc, &tasks, &machine) {
        Ok(plan) => Ok(Some(Planned { plan, demands })),
        Err(EdfFault::Denied { .. }) => Ok(None),
        Err(EdfFault::NoMemory) => Err("memory")?,
    }
}

// The plan of a case under RM and its demands, if RM admits it.
pub(crate) fn rm_planned(alloc: Global, case: Case<'_>) -> Result<Option<Planned>, Fail>
    ensures list { IfOk result (λ o. IfSome o (λ r. IsListOf r.plan r.demands)) }
    ensures serves { IfOk result (λ o. IfSome o (λ r. ServesRm r.plan.scheduler)) }
{
    let tasks = tasks_of(alloc, case.tasks)?;
    let machine = machine_of(alloc, case.machine)?;
    let Ok(demands) = Demands::read(alloc, case.demands, &tasks) else {
        return Err("demands")?;
    };
    match rm_admit(alloc, &tasks, &machine) {
        Ok(plan) => Ok(Some(Planned { plan, demands })),
        Err(RmFault::Denied { .. }) => Ok(None),
        Err(RmFault::NoMemory) => Err("memory")?,
    }
}
