// The demand, by a walk over the tasks from the last in EDF order to the first.
ghost use Rattle.std.specs.Prelude.{◌≡◌, ◌+◌, ◌*◌, ◌-◌, ◌/◌, ◌<◌, ◌≤◌, ◌^◌};
ghost use Rattle.grid_fraction.specs.Numbers.{ceil_div};
ghost use Rattle.task_model.specs.declared.limits.TheConstants.{LONGEST_PERIOD, LONGEST_HYPERPERIOD};
ghost use Rattle.sched_model.specs.Plan.{count, hyper, rate, top_speed};
ghost use Rattle.sched_model.specs.AheadDemand.{slack};
ghost use Rattle.sched_model.specs.States.{IsOfPlan, earliest_in};
ghost use Rattle.sched_model.specs.Tests.{total_rate};
ghost use Rattle.governor.specs.ServedSchedulers.{ServesEdf};
ghost use Rattle.governor.specs.Steps.{wleft_at, IsAtDecision};
ghost use Rattle.look_ahead_laws.specs.Ahead.{ahead_demand, deadline_at};
ghost use Rattle.look_ahead.specs.Counters.{Keeps};
ghost use Rattle.look_ahead.specs.Walk.{next_spare, next_first};

use crate::LookAhead;
use grid_fraction::{Frac, mul_down, up};
use sched_model::{Admitted, State};

// The walk so far: the work units that the highest speed does in a hyperperiod beyond all rates, and those that have to
// run before the earliest deadline.
#[derive(Clone, Copy)]
struct Totals {
    spare: u128,
    first: u128,
}

// A task's latest job: the task's rate, the work units that the job may still need, and the ticks from the earliest
// deadline to its own.
#[derive(Clone, Copy)]
struct Pending {
    rate: u128,
    left: u64,
    slack: u64,
}

// `n / d`, rounded up; a short division if `n` fits in 64 bits.
fn up_short(n: u128, d: u64) -> u128
    requires { 1 ≤ d }
    ensures { result ≡ ceil_div n d }
{
    if n > u128::from(u64::MAX) {
        return up(n, d);
    }
    u128::from((n as u64).div_ceil(d))
}

// The work units that the highest speed does in a hyperperiod beyond the rates of all tasks.
fn spare_of(plan: &Admitted) -> u128
    requires { ServesEdf plan.now.scheduler }
    ensures { result ≡ top_speed plan.now * hyper plan.now - total_rate plan.now }
{
    u128::from(plan.machine().top()) * u128::from(plan.hyper()) - plan.static_demand().num
}

// For a job that may need `left` units and is due `slack` ticks after the earliest deadline, where the highest speed
// has `spare` units in a hyperperiod for it: the units that can't be put off, and what the rate of the others leaves of
// `spare`.
fn spread(spare: u128, left: u64, slack: u64, hyper: u64) -> Totals
    requires some { 0 < slack }
    requires grid { 0 < hyper }
    requires spare { spare ≤ 2 ^ 68 }
    requires soon { slack ≤ LONGEST_PERIOD }
    requires low { hyper ≤ LONGEST_HYPERPERIOD }
    ensures first { result.first ≡ left - spare * slack / hyper }
    ensures spare { result.spare ≡ spare - ceil_div ((left - result.first) * hyper) slack }
{
    let whole = up_short(u128::from(left) * u128::from(hyper), slack);
    if whole <= spare {
        return Totals {
            spare: spare - whole,
            first: 0,
        };
    }
    let room = mul_down(spare, slack, hyper);
    let first = u128::from(left).saturating_sub(room);
    let rates = up_short((u128::from(left) - first) * u128::from(hyper), slack);
    Totals {
        spare: spare - rates,
        first,
    }
}

// The walk after one more task.
fn step(hyper: u64, job: Pending, totals: Totals) -> Totals
    requires grid { 0 < hyper }
    requires low { hyper ≤ LONGEST_HYPERPERIOD }
    requires soon { job.slack ≤ LONGEST_PERIOD }
    requires fits { totals.spare + job.rate ≤ 2 ^ 68 }
    requires small { totals.first ≤ 2 ^ 67 }
    ensures spare { result.spare ≡ next_spare hyper job.rate job.left job.slack totals.spare }
    ensures first { result.first ≡ next_first hyper job.rate job.left job.slack totals.spare totals.first }
{
    if job.slack == 0 {
        let first = totals.first + u128::from(job.left);
        return Totals { first, ..totals };
    }
    let spare = totals.spare + job.rate;
    if job.left == 0 {
        return Totals { spare, ..totals };
    }
    let part = spread(spare, job.left, job.slack, hyper);
    Totals {
        spare: part.spare,
        first: totals.first + part.first,
    }
}

impl LookAhead {
    // The earliest deadline in ticks: that of the first task in EDF order.
    fn earliest_deadline(&self, plan: &Admitted, view: &State) -> u64
        requires of { IsOfPlan plan.now view.now }
        requires counters { Keeps self.now.left.items self.now.order.items self.now.rates.items plan.now view.now }
        ensures { result ≡ earliest_in plan.now view.entry.now }
    {
        let _admitted = plan.scheduler();
        view.rows[self.order[0] as usize].deadline
    }

    // The latest job of a task, if the earliest deadline is `soonest`.
    fn pending(&self, plan: &Admitted, view: &State, soonest: u64, task: u32) -> Pending
        requires of { IsOfPlan plan.now view.now }
        requires counters { Keeps self.now.left.items self.now.order.items self.now.rates.items plan.now view.now }
        requires soonest { soonest ≡ earliest_in plan.now view.now }
        requires task { task < count plan.now }
        ensures rate { result.rate ≡ rate plan.now task }
        ensures left { result.left ≡ wleft_at view.entry.now task }
        ensures slack { result.slack ≡ slack plan.now (deadline_at view.entry.now) task }
    {
        Pending {
            rate: self.rates[task as usize],
            left: self.left[task as usize],
            slack: view.rows[task as usize].deadline - soonest,
        }
    }

    // The demand of look-ahead in work units per tick, not reduced: what can't be put off past the earliest deadline,
    // over the time up to it (Pillai and Shin 2001).
    pub(crate) fn demand(&self, plan: &Admitted, view: &State) -> Frac
        requires of { IsOfPlan plan.now view.now }
        requires counters { Keeps self.now.left.items self.now.order.items self.now.rates.items plan.now view.now }
        requires decision { IsAtDecision plan.now view.now }
        ensures { result ≡ ahead_demand plan.now view.entry.now }
    {
        let _admitted = plan.scheduler();
        let soonest = self.earliest_deadline(plan, view);
        let hyper = plan.hyper();
        let mut totals = Totals {
            spare: spare_of(plan),
            first: 0,
        };
        for k in (0..self.order.len()).rev() {
            let job = self.pending(plan, view, soonest, self.order[k]);
            totals = step(hyper, job, totals);
        }
        Frac {
            num: totals.first,
            den: u128::from(soonest - view.now),
        }
    }
}
