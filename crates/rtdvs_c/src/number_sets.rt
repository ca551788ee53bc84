// The tasks and the machine of numbers, and their tests.
ghost use Rattle.std.specs.Prelude.{◌≡◌, ◌≤◌, length, IfOk, IfErr, OnOk};
ghost use Rattle.std.specs.Result.{IsErrOf};
ghost use Rattle.dvs_base.specs.Checks.{IsUnlessMemory};
ghost use Rattle.statuses.specs.declared.status.Denied.{Denied};
ghost use Rattle.statuses.specs.Status.{IsOfFile};
ghost use Rattle.rtdvs_c.specs.NumberReplies.{numbers_of, sets_on, admission_on, ticks_on, padded, RespondsOn, FailsOn};

use crate::number_types::Settings;
use command_files::admit;
use dvs_base::{MOST_TASKS, Scheduler};
use freq_table::Machine;
use numbers::{GivenPoint, GivenTask, machine_of, tasks_of};
use rm_response::Response;
use rtdvs_top::{Status, responses_of};
use sched_model::Admitted;
use std::alloc::Global;
use task_model::TaskSet;

/// The tasks and the machine of numbers, or the status that refuses them.
#[tactic(auto, using(crate::proofs::NumberSteps::tasks_refused, crate::proofs::NumberSteps::machine_refused))]
pub(crate) fn sets_of(
    alloc: Global,
    tasks: &[GivenTask],
    points: &[GivenPoint],
    settings: &Settings,
) -> Result<(TaskSet, Machine), Status>
    ensures sets { IsUnlessMemory Status.NoMemory (λ x. (x.0, x.1)) result
        (sets_on (numbers_of tasks.now points.now settings.now)) }
    ensures one_each { IfOk result (λ x. length x.0 ≡ length tasks.now) }
    ensures of_file { IfErr result IsOfFile }
{
    let tasks = tasks_of(alloc, tasks)?;
    let machine = machine_of(alloc, settings.idle, settings.charge, points)?;
    Ok((tasks, machine))
}

/// The admitted plan of numbers under a scheduler, or the status that refuses or denies them.
#[tactic(auto, using(crate::proofs::NumberSteps::unless_memory))]
pub(crate) fn admitted_of(
    alloc: Global,
    scheduler: Scheduler,
    tasks: &[GivenTask],
    points: &[GivenPoint],
    settings: &Settings,
) -> Result<Admitted, Status>
    ensures { IsUnlessMemory Status.NoMemory (λ p. p) result
        (admission_on scheduler (numbers_of tasks.now points.now settings.now)) }
{
    let (tasks, machine) = sets_of(alloc, tasks, points, settings)?;
    admit(alloc, scheduler, &tasks, &machine)
}

// The ticks of the responses, with 0 past the last task.
fn padded(tasks: &TaskSet, response: &Response) -> [u64; MOST_TASKS]
    requires { length response.now ≡ length tasks.now }
    ensures { result ≡ padded response.now }
{
    let mut ticks = [0; MOST_TASKS];
    for i in 0..tasks.count() {
        ticks[i as usize] = response.of(i);
    }
    ticks
}

/// The responses of numbers, with 0 past the last task, or the status that refuses or denies them.
#[tactic(auto, using(crate::proofs::NumberSteps::unless_memory))]
pub(crate) fn ticks_of(
    alloc: Global,
    tasks: &[GivenTask],
    points: &[GivenPoint],
    settings: &Settings,
) -> Result<[u64; MOST_TASKS], Status>
    ensures ticks { IsUnlessMemory Status.NoMemory (λ t. t) result
        (ticks_on (numbers_of tasks.now points.now settings.now)) }
    ensures proves { OnOk result (RespondsOn (numbers_of tasks.now points.now settings.now)) }
    ensures fails { (why : Denied) → IsErrOf result (Status.NotAdmitted why)
        → FailsOn (numbers_of tasks.now points.now settings.now) why }
{
    let (tasks, machine) = sets_of(alloc, tasks, points, settings)?;
    let response = responses_of(alloc, &tasks, &machine)?;
    Ok(padded(&tasks, &response))
}
