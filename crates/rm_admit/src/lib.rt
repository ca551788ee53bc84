//! Admission under RM: whether the highest speed does the work that each task and those before it can ask for in one
//! of its periods (Pillai and Shin 2001, their static test at the ratio 1). Callers may rely on `Denied` exactly
//! if the test fails, with the first task in RM order that fails it and the two numbers that show it, and on a
//! plan that passes the test. The test itself takes no memory, so `NoMemory` comes only if it passes.
#![tactic(auto)]

ghost use Rattle.std.specs.Prelude.{◌≡◌, ◌*◌, ◌<◌, ◌↔◌, IsTrue, IfOk, OnOk, IfErr, length, MatchOption};
ghost use Rattle.dvs_base.specs.declared.kind.Scheduler.TheVariants.{Rm};
ghost use Rattle.sched_model.specs.Plan.{plan_of, period, top_speed};
ghost use Rattle.sched_model.specs.Tests.{IsRmFeasible};
ghost use Rattle.rm_admit.specs.Denials.{IsOverloaded, IsFirstOverloaded, IsRmDenial};

use dvs_base::Scheduler;
use freq_table::Machine;
use sched_model::{Admitted, earlier_of, level_work};
use std::alloc::Global;
use task_model::TaskSet;

/// Why a task set isn't admitted under RM.
#[derive(Clone, Copy, Debug, PartialEq, Eq)]
pub enum RmFault {
    /// The work that `task` and those before it can ask for in one period of `task`, `num` work units, exceeds what
    /// the highest speed does in it, `cap` work units. It is the first such task in RM order; tasks count from 0.
    Denied { task: u32, num: u128, cap: u128 },
    /// Memory ran out. The test passed.
    NoMemory,
}

// The work that the highest speed does in one period of task i, in work units.
fn capacity(tasks: &TaskSet, machine: &Machine, i: u32) -> u128
    requires { i < length tasks.now }
    ensures { result ≡ (let p = plan_of tasks.now machine.now Rm in top_speed p * period p i) }
{
    u128::from(machine.top()) * u128::from(tasks.task(i).period)
}

// Whether task i fails the test.
fn is_overloaded(tasks: &TaskSet, machine: &Machine, i: u32) -> bool
    requires { i < length tasks.now }
    ensures { IsTrue result ↔ IsOverloaded (plan_of tasks.now machine.now Rm) i }
{
    level_work(tasks, machine, i) > capacity(tasks, machine, i)
}

// The first task in RM order that fails the test, if any.
fn first_overloaded(tasks: &TaskSet, machine: &Machine) -> Option<u32>
    ensures { let p = plan_of tasks.now machine.now Rm in MatchOption result (IsRmFeasible p) (IsFirstOverloaded p) }
{
    let mut first = None;
    for i in 0..tasks.count() {
        if is_overloaded(tasks, machine, i) {
            first = Some(earlier_of(tasks, first, i));
        }
    }
    first
}

/// The plan of `tasks` on `machine` under RM. For each task the sum of `ceil(Pi/Pj)*Cj`, over it and the tasks before
/// it, is at most `fm*Pi`. `Denied` exactly if it is more for some task.
pub fn rm_admit(alloc: Global, tasks: &TaskSet, machine: &Machine) -> Result<Admitted, RmFault>
    ensures plan { IfOk result (λ plan. plan ≡ plan_of tasks.now machine.now Rm) }
    ensures test { OnOk result (IsRmFeasible (plan_of tasks.now machine.now Rm)) }
    ensures denial { IfErr result (IsRmDenial (plan_of tasks.now machine.now Rm)) }
{
    match first_overloaded(tasks, machine) {
        Some(task) => Err(RmFault::Denied {
            task,
            num: level_work(tasks, machine, task),
            cap: capacity(tasks, machine, task),
        }),
        None => Admitted::with(alloc, tasks, machine, Scheduler::Rm).map_err(|_| RmFault::NoMemory),
    }
}
