// Loads: tasks whose jobs count beside other work, in the order in which the search takes them away.
ghost use Rattle.std.specs.Prelude.{◌≡◌, ◌≤◌, ◌<◌, ◌^◌, IfSome, length, take, All, slice_index_or};
ghost use Rattle.dvs_base.specs.declared.kind.Scheduler.TheVariants.{Rm};
ghost use Rattle.dvs_base.specs.declared.limits.TheConstants.{MOST_TASKS};
ghost use Rattle.task_model.specs.declared.limits.TheConstants.{LONGEST_PERIOD};
ghost use Rattle.sched_model.specs.Plan.{plan_of};
ghost use Rattle.rm_response.specs.declared.inputs.Load.{Load};
ghost use Rattle.rm_response.specs.Loads.{held, work_of, rates_of, IsLoadOf};

use crate::inputs::Load;
use freq_table::Machine;
use sched_model::{rate, worst};
use task_model::TaskSet;

// Task j as a load.
pub(crate) fn load_of(tasks: &TaskSet, machine: &Machine, j: u32) -> Load
    requires { j < length tasks.now }
    ensures { IsLoadOf (plan_of tasks.now machine.now Rm) j result }
{
    let _task_limits = tasks.as_slice();
    Load {
        period: tasks.task(j).period,
        worst: worst(tasks, machine, j),
        rate: rate(tasks, machine, j),
    }
}

// The work of the jobs of a load that `ticks` ticks can hold, in work units.
pub(crate) fn held(load: Load, ticks: u64) -> u128
    requires { ticks ≤ LONGEST_PERIOD }
    ensures value { result ≡ held ticks load }
    ensures low { result ≤ 2 ^ 101 }
{
    u128::from(ticks.div_ceil(load.period)) * u128::from(load.worst)
}

// The work that the loads can ask for in `ticks` ticks, in work units.
pub(crate) fn work_of(loads: &[Load], ticks: u64) -> u128
    requires ticks { ticks ≤ LONGEST_PERIOD }
    requires few { length loads.now ≤ MOST_TASKS }
    ensures value { result ≡ work_of loads.now ticks }
    ensures low { result ≤ 2 ^ 107 }
{
    let mut sum = 0;
    for load in loads {
        sum += held(*load, ticks);
    }
    sum
}

// The work of the loads in one hyperperiod, in work units.
pub(crate) fn rates_of(loads: &[Load]) -> u128
    requires { length loads.now ≤ MOST_TASKS }
    ensures value { result ≡ rates_of loads.now }
    ensures low { result ≤ 2 ^ 115 }
{
    let mut sum = 0;
    for load in loads {
        sum += load.rate;
    }
    sum
}

// The place among loads for one with the worst case `worst` that has the response `response`: after those with greater
// worst cases, up to the first whose period is below the response.
pub(crate) fn place_among(loads: &[Load], worst: u64, response: u64) -> usize
    ensures within { result ≤ length loads.now }
    ensures long { All (λ x. response ≤ x.period) (take result loads.now) }
{
    for (k, other) in loads.iter().enumerate() {
        if other.period < response || other.worst <= worst {
            return k;
        }
    }
    loads.len()
}

// The place of the first load with this period, if there is one.
pub(crate) fn place_of(loads: &[Load], period: u64) -> Option<usize>
    ensures place { IfSome result (λ k. k < length loads.now) }
    ensures same { IfSome result (λ k. (d : Load) → (slice_index_or loads.now k d).period ≡ period) }
{
    for (k, load) in loads.iter().enumerate() {
        if load.period == period {
            return Some(k);
        }
    }
    None
}
