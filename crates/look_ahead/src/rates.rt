// The rates of the tasks.
ghost use Rattle.std.specs.Prelude.{◌≡◌, ◌<◌, IfOk};
ghost use Rattle.grid_fraction.specs.Numbers.{list_below};
ghost use Rattle.sched_model.specs.Plan.{count, rate};

use dvs_base::NoMemory;
use sched_model::Admitted;
use std::alloc::Global;

// The rate of a task: the work units of its jobs in a hyperperiod, each at its worst case.
fn rate(plan: &Admitted, task: u32) -> u128
    requires { task < count plan.now }
    ensures { result ≡ rate plan.now task }
{
    u128::from(plan.worst(task)) * u128::from(plan.hyper() / plan.period(task))
}

// The rate of each task, by its number.
pub(crate) fn rates_of(alloc: Global, plan: &Admitted) -> Result<Vec<u128>, NoMemory>
    ensures { IfOk result (λ v. v.items ≡ list_below (count plan.now) (rate plan.now)) }
{
    let mut rates = Vec::new(alloc);
    for task in 0..plan.count() {
        rates.push(rate(plan, task))?;
    }
    Ok(rates)
}
