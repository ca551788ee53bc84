// What the processor does for the loads of a search.
ghost use Rattle.std.specs.Prelude.{◌≡◌, ◌≤◌, ◌<◌, ◌+◌, ◌-◌, ◌*◌};
ghost use Rattle.dvs_base.specs.declared.kind.Scheduler.TheVariants.{Rm};
ghost use Rattle.dvs_base.specs.Widths.{u64_end};
ghost use Rattle.task_model.specs.declared.limits.TheConstants.{LONGEST_PERIOD};
ghost use Rattle.sched_model.specs.Plan.{plan_of};
ghost use Rattle.rm_response.specs.Supplies.{IsFull};

use crate::inputs::{Search, Supply};
use freq_table::Machine;
use task_model::TaskSet;

// The whole processor at the highest speed.
pub(crate) fn full_supply(tasks: &TaskSet, machine: &Machine) -> Supply
    ensures { IsFull (plan_of tasks.now machine.now Rm) result }
{
    let _task_limits = tasks.as_slice();
    let _machine_limits = machine.as_slice();
    Supply {
        speed: machine.top(),
        hyper: tasks.hyper(),
        units: u128::from(machine.top()) * u128::from(tasks.hyper()),
    }
}

// The most that a supply does in `ticks` ticks, in work units.
pub(crate) fn most_in(supply: Supply, ticks: u64) -> u128
    requires { ticks ≤ LONGEST_PERIOD }
    ensures value { result ≡ supply.speed * ticks }
    ensures low { result ≤ u64_end }
{
    u128::from(supply.speed) * u128::from(ticks)
}

impl Search {
    // A search with one supply.
    pub(crate) fn by(supply: Supply) -> Search
        ensures whole { result.whole ≡ supply }
        ensures low { result.low ≡ supply }
        ensures tail { result.tail ≡ 0 }
    {
        Search {
            whole: supply,
            low: supply,
            tail: 0,
        }
    }

    // What the low supply does less than the whole one in `ticks` ticks, in work units, rounded down.
    pub(crate) fn lack(self, ticks: u64) -> u128
        requires { ticks ≤ LONGEST_PERIOD }
        ensures most { result * self.whole.hyper ≤ (self.whole.units - self.low.units) * ticks }
        ensures next { (self.whole.units - self.low.units) * ticks < (result + 1) * self.whole.hyper }
        ensures low { result ≤ u64_end }
    {
        (self.whole.units - self.low.units) * u128::from(ticks) / u128::from(self.whole.hyper)
    }
}
