// The sums that the tests of admission compare.
ghost use Rattle.std.specs.Prelude.{◌≡◌, ◌≤◌, ◌<◌, ◌*◌, ◌^◌, length};
ghost use Rattle.grid_fraction.specs.Numbers.{ceil_div};
ghost use Rattle.dvs_base.specs.declared.kind.Scheduler.TheVariants.{Edf, Rm};
ghost use Rattle.sched_model.specs.Plan.{plan_of, period, worst, rate};
ghost use Rattle.sched_model.specs.Tests.{total_rate, level_work};

use crate::order::stands_before;
use freq_table::Machine;
use grid_fraction::up;
use task_model::TaskSet;

/// `Ci`, the worst case of task `i` with the charge for two switches of speed, in work units. It takes no memory.
pub fn worst(tasks: &TaskSet, machine: &Machine, i: u32) -> u64
    requires { i < length tasks.now }
    ensures value { result ≡ worst (plan_of tasks.now machine.now Edf) i }
    ensures low { result ≤ 2 ^ 61 }
{
    tasks.task(i).worst + machine.job_charge()
}

/// The work of task `i` in one hyperperiod in work units, each job at its charged worst case. It takes no memory.
pub fn rate(tasks: &TaskSet, machine: &Machine, i: u32) -> u128
    requires { i < length tasks.now }
    ensures value { result ≡ rate (plan_of tasks.now machine.now Edf) i }
    ensures low { result ≤ 2 ^ 109 }
{
    let jobs = tasks.hyper() / tasks.task(i).period;
    u128::from(worst(tasks, machine, i)) * u128::from(jobs)
}

/// The work of one hyperperiod in work units, each job at its charged worst case: the sum of `Ci*(H/Pi)`
/// (Liu and Layland 1973).
pub fn total_rate(tasks: &TaskSet, machine: &Machine) -> u128
    ensures { result ≡ total_rate (plan_of tasks.now machine.now Edf) }
{
    let mut sum = 0;
    for i in 0..tasks.count() {
        sum += rate(tasks, machine, i);
    }
    sum
}

// The work of the jobs of task j that are released in one period of task i, the first at its start, in work units.
fn demanded(tasks: &TaskSet, machine: &Machine, i: u32, j: u32) -> u128
    requires of { i < length tasks.now }
    requires by { j < length tasks.now }
    ensures value { result ≡ (let p = plan_of tasks.now machine.now Rm in
        ceil_div (period p i) (period p j) * worst p j) }
    ensures low { result ≤ 2 ^ 101 }
{
    let jobs = up(u128::from(tasks.task(i).period), tasks.task(j).period);
    jobs * u128::from(worst(tasks, machine, j))
}

/// `Si`, the work in work units that task `i` and the tasks before it in RM order can ask for in one period of task
/// `i`: the sum of `ceil(Pi/Pj)*Cj` (Pillai and Shin 2001).
pub fn level_work(tasks: &TaskSet, machine: &Machine, i: u32) -> u128
    requires { i < length tasks.now }
    ensures { result ≡ level_work (plan_of tasks.now machine.now Rm) i }
{
    let mut sum = demanded(tasks, machine, i, i);
    for j in 0..tasks.count() {
        if stands_before(tasks, j, i) {
            sum += demanded(tasks, machine, i, j);
        }
    }
    sum
}
