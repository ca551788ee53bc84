// The static demand of a plan (Pillai and Shin 2001).
ghost use Rattle.std.specs.Prelude.{◌≡◌, ◌≤◌, ◌<◌, length};
ghost use Rattle.dvs_base.specs.declared.kind.Scheduler.TheVariants.{Rm};
ghost use Rattle.task_model.specs.declared.limits.TheConstants.{LONGEST_PERIOD, MOST_WORK};
ghost use Rattle.task_model.specs.Tasks.{IsTaskSet};
ghost use Rattle.freq_table.specs.Tables.{IsTable};
ghost use Rattle.sched_model.specs.Plan.{plan_of};
ghost use Rattle.sched_model.specs.Tests.{IsRmFeasible};
ghost use Rattle.sched_model.specs.StaticDemand.{level_share, outweighs, heaviest, static_demand};
ghost use Rattle.sched_model.specs.Admission.{PassesTest};

use crate::order::stands_before;
use crate::sums::{level_work, total_rate};
use dvs_base::Scheduler;
use freq_table::Machine;
use grid_fraction::{Frac, greater};
use task_model::TaskSet;

// The share of its period that the level of task i asks for, in units per tick, not reduced.
fn level_share(tasks: &TaskSet, machine: &Machine, i: u32) -> Frac
    requires below { i < length tasks.now }
    requires machine { IsTable machine.now }
    requires test { IsRmFeasible (plan_of tasks.now machine.now Rm) }
    ensures value { result ≡ level_share (plan_of tasks.now machine.now Rm) i }
    ensures low_num { result.num ≤ MOST_WORK }
    ensures some_den { 1 ≤ result.den }
    ensures low_den { result.den ≤ LONGEST_PERIOD }
{
    Frac {
        num: level_work(tasks, machine, i),
        den: u128::from(tasks.task(i).period),
    }
}

// Whether the level of task j asks for a greater share of its period than that of task i, or for the same share and
// task j comes before task i in RM order.
fn outweighs(tasks: &TaskSet, machine: &Machine, j: u32, i: u32) -> bool
    requires first { j < length tasks.now }
    requires second { i < length tasks.now }
    requires machine { IsTable machine.now }
    requires test { IsRmFeasible (plan_of tasks.now machine.now Rm) }
    ensures { result ≡ outweighs (plan_of tasks.now machine.now Rm) j i }
{
    let first = level_share(tasks, machine, j);
    let second = level_share(tasks, machine, i);
    greater(first, second) || (!greater(second, first) && stands_before(tasks, j, i))
}

// The task whose level asks for the greatest share of its period; of equal ones the first in RM order.
fn heaviest(tasks: &TaskSet, machine: &Machine) -> u32
    requires tasks { IsTaskSet tasks.now }
    requires machine { IsTable machine.now }
    requires test { IsRmFeasible (plan_of tasks.now machine.now Rm) }
    ensures value { result ≡ heaviest (plan_of tasks.now machine.now Rm) }
    ensures below { result < length tasks.now }
{
    let mut found = 0;
    for i in 1..tasks.count() {
        if outweighs(tasks, machine, i, found) {
            found = i;
        }
    }
    found
}

// The static demand of a task set that passes the scheduler's test, in units per tick, not reduced.
pub(crate) fn static_demand(tasks: &TaskSet, machine: &Machine, scheduler: Scheduler) -> Frac
    requires tasks { IsTaskSet tasks.now }
    requires machine { IsTable machine.now }
    requires test { PassesTest scheduler (plan_of tasks.now machine.now scheduler) }
    ensures { result ≡ static_demand (plan_of tasks.now machine.now scheduler) }
{
    match scheduler {
        Scheduler::Edf => Frac {
            num: total_rate(tasks, machine),
            den: u128::from(tasks.hyper()),
        },
        Scheduler::Rm => level_share(tasks, machine, heaviest(tasks, machine)),
    }
}
