// The allotments in a state, and what is left of them.
ghost use Rattle.std.specs.Prelude.{◌≡◌, ◌<◌, ◌≤◌, ◌-◌, if◌then◌else◌, length};
ghost use Rattle.grid_fraction.specs.Numbers.{sum_below};
ghost use Rattle.dvs_base.specs.declared.kind.Scheduler.TheVariants.{Rm};
ghost use Rattle.sched_model.specs.Plan.{count};
ghost use Rattle.sched_model.specs.StaticDemand.{static_speed};
ghost use Rattle.sched_model.specs.States.{row_at, IsOfPlan};
ghost use Rattle.governor.specs.Steps.{wleft_at, IsAtDecision};
ghost use Rattle.cc_rm_laws.specs.Allotments.{base_of, allotted_units, had_since_mark, allotment_left_in};

use sched_model::{Admitted, State};

// The speed of the lowest entry that meets the static demand, in work units per tick.
pub(crate) fn static_speed(plan: &Admitted) -> u64
    requires { plan.now.scheduler ≡ Rm }
    ensures { result ≡ static_speed plan.now }
{
    let pick = plan.machine().lowest(plan.static_demand());
    plan.machine().point(pick.index).speed
}

// What the job of task i might still need at the mark, in work units.
fn base_of(view: &State, i: u32) -> u64
    requires { i < length view.now.base }
    ensures { result ≡ base_of view.entry.now i }
{
    view.base[i as usize]
}

// What is left of `allotted` work units of task i: 0 if its job is complete.
fn left_of(view: &State, i: u32, allotted: u128) -> u128
    requires task { i < length view.now.rows }
    requires base { wleft_at view.now i ≤ base_of view.now i }
    ensures { result ≡ (if (row_at view.entry.now i).done then 0 else allotted - had_since_mark view.entry.now i) }
{
    if view.rows[i as usize].done {
        return 0;
    }
    let had = base_of(view, i) - view.worst_left(i);
    allotted.saturating_sub(u128::from(had))
}

// What is left of all allotments in work units, where `units` are handed out in RM order.
pub(crate) fn left_in_all(plan: &Admitted, view: &State, units: u128) -> u128
    requires of { IsOfPlan plan.now view.now }
    requires decision { IsAtDecision plan.now view.now }
    requires units { units ≡ allotted_units plan.now view.now }
    ensures { result ≡ sum_below (count plan.now) (allotment_left_in plan.now view.entry.now) }
{
    let mut rest = units;
    let mut sum = 0;
    for k in 0..plan.count() {
        let i = plan.ranked(k);
        let allotted = rest.min(u128::from(base_of(view, i)));
        rest -= allotted;
        sum += left_of(view, i, allotted);
    }
    sum
}
