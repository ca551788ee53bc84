// The earliest deadline in a state.
ghost use Rattle.std.specs.Prelude.{◌≡◌};
ghost use Rattle.sched_model.specs.States.{IsOfPlan, earliest_in};

use sched_model::{Admitted, State};

/// The earliest deadline of the tasks' latest jobs, in ticks.
pub fn earliest_deadline(plan: &Admitted, view: &State) -> u64
    requires { IsOfPlan plan.now view.now }
    ensures { result ≡ earliest_in plan.now view.entry.now }
{
    let _admitted = plan.scheduler();
    let mut least = view.rows[0].deadline;
    for i in 1..view.rows.len() {
        least = least.min(view.rows[i].deadline);
    }
    least
}
