// Admission of a plan.
ghost use Rattle.std.specs.Prelude.{◌≡◌, IfOk};
ghost use Rattle.sched_model.specs.Plan.{plan_of};
ghost use Rattle.statuses.specs.Steps.{IsTestStep};
ghost use Rattle.command_files.specs.Admissions.{admission, rm_status};

use dvs_base::Scheduler;
use edf_admit::{EdfFault, edf_admit};
use freq_table::Machine;
use rm_admit::{RmFault, rm_admit};
use sched_model::Admitted;
use statuses::{Denied, Status};
use std::alloc::Global;
use task_model::TaskSet;

// The plan under EDF, if its test passes.
fn admit_edf(alloc: Global, tasks: &TaskSet, machine: &Machine) -> Result<Admitted, Status>
    ensures { IsTestStep (admission (plan_of tasks.now machine.now Scheduler.Edf)) result (λ p. p) }
{
    edf_admit(alloc, tasks, machine).map_err(|why| match why {
        EdfFault::Denied { num, cap } => Status::NotAdmitted(Denied::Edf { num, cap }),
        EdfFault::NoMemory => Status::NoMemory,
    })
}

// A refusal of the test under RM as a status.
fn rm_status(why: RmFault) -> Status
    ensures { result ≡ rm_status why }
{
    match why {
        RmFault::Denied { task, num, cap } => Status::NotAdmitted(Denied::Rm { task, num, cap }),
        RmFault::NoMemory => Status::NoMemory,
    }
}

// The plan under RM, if its test passes.
fn admit_rm(alloc: Global, tasks: &TaskSet, machine: &Machine) -> Result<Admitted, Status>
    ensures { IsTestStep (admission (plan_of tasks.now machine.now Scheduler.Rm)) result (λ p. p) }
{
    rm_admit(alloc, tasks, machine).map_err(rm_status)
}

/// The plan of these tasks and this machine under a scheduler. `NotAdmitted` exactly if the scheduler's test fails,
/// with the two numbers that show it, unless memory runs out.
pub fn admit(
    alloc: Global,
    scheduler: Scheduler,
    tasks: &TaskSet,
    machine: &Machine,
) -> Result<Admitted, Status>
    ensures step { IsTestStep (admission (plan_of tasks.now machine.now scheduler)) result (λ p. p) }
    ensures same { IfOk result (λ p. p ≡ plan_of tasks.now machine.now scheduler) }
{
    match scheduler {
        Scheduler::Edf => admit_edf(alloc, tasks, machine),
        Scheduler::Rm => admit_rm(alloc, tasks, machine),
    }
}
