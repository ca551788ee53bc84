// The deadlines of numbers.
ghost use Rattle.std.specs.Prelude.{◌≡◌, length, map, IfOk};
ghost use Rattle.dvs_base.specs.Checks.{IsUnlessMemory};
ghost use Rattle.deadline_list.specs.Deadlines.{AreFor};
ghost use Rattle.numbers.specs.Given.{deadlines_of_given};

use crate::given::GivenTask;
use deadline_list::{DeadlineFault, Deadlines};
use dvs_base::NoMemory;
use std::alloc::Global;
use task_model::TaskSet;

// The deadlines in ticks, as they are given.
fn given_ticks(alloc: Global, given: &[GivenTask]) -> Result<Vec<u64>, NoMemory>
    ensures { IfOk result (λ v. v.items ≡ map (λ g. g.deadline) given.now) }
{
    Ok(
        given
            .iter()
            .map(|task| task.deadline)
            .collect::<Vec<u64>>(alloc)?,
    )
}

/// The relative deadlines of tasks by their numbers, in the same order; otherwise the refusal of a deadline file that has
/// a row for each task: `Range` of the first that isn't from 1 to its task's period. It fails otherwise only if memory
/// runs out.
pub fn deadlines_of(
    alloc: Global,
    given: &[GivenTask],
    tasks: &TaskSet,
) -> Result<Deadlines, DeadlineFault>
    requires { length given.now ≡ length tasks.now }
    ensures meaning { IsUnlessMemory DeadlineFault.NoMemory (λ d. d) result (deadlines_of_given tasks.now given.now) }
    ensures for_tasks { IfOk result (AreFor tasks.now) }
{
    let ticks = given_ticks(alloc, given)?;
    Deadlines::from_ticks(ticks, tasks)
}
