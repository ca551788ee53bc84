// Deadlines from numbers of ticks.
ghost use Rattle.std.specs.Prelude.{◌≡◌, length, IfOk};
ghost use Rattle.dvs_base.specs.Checks.{IsUnlessMemory};
ghost use Rattle.deadline_list.specs.Deadlines.{AreFor};
ghost use Rattle.deadline_list.specs.DeadlineTicks.{deadlines_of_ticks, ticks_checked};

use crate::read::deadline_from;
use crate::{DeadlineFault, Deadlines};
use task_model::TaskSet;

// Checks that each number of ticks is from 1 to the period of its task; the first refusal otherwise.
fn check_ticks(ticks: &[u64], tasks: &TaskSet) -> Result<(), DeadlineFault>
    requires { length ticks.now ≡ length tasks.now }
    ensures checked { result ≡ ticks_checked tasks.now 0 ticks.now }
    ensures for_tasks { IfOk result (λ _. AreFor tasks.now ticks.now) }
{
    for i in 0..tasks.count() {
        deadline_from(u64::from(i) + 1, tasks.task(i).period, ticks[i as usize])?;
    }
    Ok(())
}

impl Deadlines {
    /// The deadlines of these numbers of ticks, one for each task in the set's order. The error is `Range` of the first
    /// that isn't from 1 to its task's period, in the row that a file of all tasks has for it. It takes no memory.
    pub fn from_ticks(ticks: Vec<u64>, tasks: &TaskSet) -> Result<Deadlines, DeadlineFault>
        requires { length ticks.items ≡ length tasks.now }
        ensures meaning { IsUnlessMemory DeadlineFault.NoMemory (λ d. d) result
            (deadlines_of_ticks tasks.now ticks.items) }
        ensures for_tasks { IfOk result (AreFor tasks.now) }
    {
        check_ticks(&ticks, tasks)?;
        Ok(Deadlines { ticks })
    }
}
