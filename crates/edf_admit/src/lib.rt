//! Admission under EDF: whether the highest speed does the work of every hyperperiod (Liu and Layland 1973; Pillai and
//! Shin 2001, their static test at the ratio 1).
//! Callers may rely on `Denied` exactly if the test fails, with the two numbers that show it, and on a plan that
//! passes the test. The test itself takes no memory, so `NoMemory` comes only if it passes.
#![tactic(auto)]

ghost use Rattle.std.specs.Prelude.{◌≡◌, IfOk, OnOk, IfErr};
ghost use Rattle.dvs_base.specs.declared.kind.Scheduler.TheVariants.{Edf};
ghost use Rattle.sched_model.specs.Plan.{plan_of};
ghost use Rattle.sched_model.specs.Tests.{IsEdfFeasible};
ghost use Rattle.edf_admit.specs.Denials.{IsEdfDenial};

use dvs_base::Scheduler;
use freq_table::Machine;
use sched_model::{Admitted, total_rate};
use std::alloc::Global;
use task_model::TaskSet;

/// Why a task set isn't admitted under EDF.
#[derive(Clone, Copy, Debug, PartialEq, Eq)]
pub enum EdfFault {
    /// The work of one hyperperiod, `num` work units, exceeds what the highest speed does in it, `cap` work units.
    Denied { num: u128, cap: u128 },
    /// Memory ran out. The test passed.
    NoMemory,
}

/// The plan of `tasks` on `machine` under EDF. The sum of `Ci*(H/Pi)` is at most `fm*H`.
/// `Denied` exactly if it is more.
pub fn edf_admit(alloc: Global, tasks: &TaskSet, machine: &Machine) -> Result<Admitted, EdfFault>
    ensures plan { IfOk result (λ plan. plan ≡ plan_of tasks.now machine.now Edf) }
    ensures test { OnOk result (IsEdfFeasible (plan_of tasks.now machine.now Edf)) }
    ensures denial { IfErr result (IsEdfDenial (plan_of tasks.now machine.now Edf)) }
{
    let num = total_rate(tasks, machine);
    let cap = u128::from(machine.top()) * u128::from(tasks.hyper());
    if num > cap {
        return Err(EdfFault::Denied { num, cap });
    }
    Admitted::with(alloc, tasks, machine, Scheduler::Edf).map_err(|_| EdfFault::NoMemory)
}
