// The test for deadlines up to the periods, and its answers.
ghost use Rattle.std.specs.Prelude.{◌≡◌, true, IfOk, OnOk, IfErr, slice_index};
ghost use Rattle.dvs_base.specs.declared.kind.Scheduler.TheVariants.{Edf};
ghost use Rattle.freq_table.specs.Tables.{lowest_pick};
ghost use Rattle.sched_model.specs.Plan.{plan_of};
ghost use Rattle.edf_demand_laws.specs.ProcessorDemand.{IsConstrainedDemand};
ghost use Rattle.deadline_list.specs.Deadlines.{AreFor};
ghost use Rattle.dvs_base.specs.Checks.{IsUnlessMemory};
ghost use Rattle.edf_demand.specs.Answers.{LooksAtDemand, IsLowestSpeed, IsConstrainDenial, ShowsCause, tested_answer};

use crate::walk::{constrained_demand, hyper_jobs};
use deadline_list::Deadlines;
use dvs_base::MOST_JOBS;
use freq_table::Machine;
use grid_fraction::Frac;
use std::alloc::Global;
use task_model::TaskSet;

/// The constrained demand, in work units per tick, not reduced, and the lowest entry that meets it, counted from 0.
#[derive(Clone, Copy, Debug, PartialEq, Eq)]
pub struct Constrained {
    pub demand: Frac,
    pub point: u32,
}

/// Why no speed is found.
#[derive(Clone, Copy, Debug, PartialEq, Eq)]
pub enum ConstrainFault {
    /// `task` is first released after tick 0. It is the first such task in file order; tasks count from 0.
    Offset { task: u32 },
    /// No task has an offset, and a hyperperiod has `count` jobs, more than 100000.
    TooManyJobs { count: u64 },
    /// There is neither an offset nor too many jobs, and the work due within `at` ticks, `num` work units, exceeds
    /// what the highest speed does in them, `cap` work units.
    Denied { at: u64, num: u128, cap: u128 },
    /// Memory ran out. No task has an offset, a hyperperiod has at most 100000 jobs, and the demand is not known.
    NoMemory,
}

/// The lowest speed at which tasks with these deadlines meet them all under EDF: the lowest that meets the greatest
/// processor demand per tick, over the absolute deadlines of one hyperperiod; of equal ones the earliest (Baruah,
/// Rosier and Howell 1990). `Offset` exactly if a task is first released after tick 0; otherwise `TooManyJobs`
/// exactly if a hyperperiod has more than 100000 jobs; and otherwise, unless memory runs out, `Denied` exactly
/// if no entry meets the demand.
pub fn constrain(
    alloc: Global,
    tasks: &TaskSet,
    deadlines: &Deadlines,
    machine: &Machine,
) -> Result<Constrained, ConstrainFault>
    requires { AreFor tasks.now deadlines.now }
    ensures answer { IsUnlessMemory ConstrainFault.NoMemory (λ c. c) result
        (tested_answer (plan_of tasks.now machine.now Edf) (slice_index deadlines.now)) }
    ensures tested { OnOk result (LooksAtDemand (plan_of tasks.now machine.now Edf)) }
    ensures demand { IfOk result (λ c.
        IsConstrainedDemand (plan_of tasks.now machine.now Edf) (slice_index deadlines.now) c.demand) }
    ensures lowest { IfOk result (λ c. lowest_pick machine.now c.demand ≡ record { index = c.point; met = true }) }
    ensures speed { IfOk result (IsLowestSpeed (plan_of tasks.now machine.now Edf) (slice_index deadlines.now)) }
    ensures denial { IfErr result (IsConstrainDenial (plan_of tasks.now machine.now Edf) (slice_index deadlines.now)) }
    ensures shown { IfErr result ShowsCause }
{
    let _task_limits = tasks.as_slice();
    let _machine_limits = machine.as_slice();
    if let Some(task) = tasks.first_offset() {
        return Err(ConstrainFault::Offset { task });
    }
    let count = hyper_jobs(tasks);
    if count > MOST_JOBS {
        return Err(ConstrainFault::TooManyJobs { count });
    }
    let Ok(demand) = constrained_demand(alloc, tasks, deadlines.ticks(), machine) else {
        return Err(ConstrainFault::NoMemory);
    };
    let pick = machine.lowest(demand);
    if pick.met {
        return Ok(Constrained {
            demand,
            point: pick.index,
        });
    }
    Err(ConstrainFault::Denied {
        at: demand.den as u64,
        num: demand.num,
        cap: u128::from(machine.top()) * demand.den,
    })
}
