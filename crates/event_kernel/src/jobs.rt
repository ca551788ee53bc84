// The jobs of a run: how many there are, what each needs, and which is the latest of a task.
ghost use Rattle.std.specs.Prelude.{◌≡◌, ◌-◌, ◌<◌, ◌≤◌, ◌^◌, IfOk, IfSome, [], length};
ghost use Rattle.dvs_base.specs.declared.limits.TheConstants.{MOST_TICKS};
ghost use Rattle.grid_fraction.specs.Numbers.{ceil_div};
ghost use Rattle.sched_model.specs.Plan.{count, period, offset};
ghost use Rattle.sched_model.specs.Jobs.{released_jobs};
ghost use Rattle.sched_model.specs.States.{row_at};
ghost use Rattle.event_kernel.specs.Current.{latest_demands};
ghost use Rattle.event_kernel.specs.Runs.{demands_of, IsListOf};
ghost use Rattle.event_kernel.specs.Segment.{holder_at};

use crate::progress::Setting;
use demand_list::Demands;
use dvs_base::NoMemory;
use sched_model::{Admitted, Holder, State};
use std::alloc::Global;

/// The number of a task's jobs that are released before tick `ticks`.
pub fn jobs_below(plan: &Admitted, task: u32, ticks: u64) -> u64
    requires task { task < count plan.now }
    requires ticks { ticks ≤ MOST_TICKS }
    ensures jobs { result ≡ ceil_div (ticks - offset plan.now task) (period plan.now task) }
    ensures low { result ≤ 2 ^ 41 }
{
    let _admitted = plan.scheduler();
    let span = ticks.saturating_sub(plan.offset(task));
    span.div_ceil(plan.period(task))
}

/// The number of jobs of all tasks that are released before tick `ticks`.
pub fn count_jobs(plan: &Admitted, ticks: u64) -> u64
    requires { ticks ≤ MOST_TICKS }
    ensures { result ≡ released_jobs plan.now ticks }
{
    let mut count = 0;
    for task in 0..plan.count() {
        count += jobs_below(plan, task, ticks);
    }
    count
}

/// A plan's demand list without rows: every job needs its worst case. It fails only if memory runs out.
pub fn worst_demands(alloc: Global, plan: &Admitted) -> Result<Demands, NoMemory>
    ensures list { IfOk result (IsListOf plan.now) }
    ensures rows { IfOk result (λ d. d.rows ≡ []) }
{
    let mut worsts = Vec::new(alloc);
    for task in 0..plan.count() {
        worsts.push(plan.declared(task))?;
    }
    Demands::worst_only(alloc, &worsts)
}

/// The demand of a job from job 1 on, in work units, with twice the charge.
pub(crate) fn demand(plan: &Admitted, demands: &Demands, task: u32, job: u64) -> u64
    requires list { IsListOf plan.now demands.now }
    requires task { task < count plan.now }
    requires job { 1 ≤ job }
    ensures { result ≡ demands_of plan.now demands.now task job }
{
    let _within = demands.worsts();
    demands.units(task, job) + plan.machine().job_charge()
}

/// The work units that a task's latest job still needs, from the demands of the latest jobs.
pub(crate) fn lacking(_set: &Setting<'_>, state: &State, needs: &[u64], task: u32) -> u64
    requires needs { needs.now ≡ latest_demands _set.now state.now }
    requires rows { length state.now.rows ≡ count _set.now.plan.now }
    requires task { task < count _set.now.plan.now }
    requires within { (row_at state.now task).used
        ≤ demands_of _set.now.plan.now _set.now.demands.now task (row_at state.now task).job }
    ensures { result ≡ demands_of _set.now.plan.now _set.now.demands.now task (row_at state.entry.now task).job
        - (row_at state.entry.now task).used }
{
    needs[task as usize] - state.rows[task as usize].used
}

/// The holder that is the latest job of the task `first`; nobody if it is `None`.
pub(crate) fn holder_of(state: &State, first: Option<u32>) -> Holder
    requires { IfSome first (λ i. i < length state.now.rows) }
    ensures { result ≡ holder_at state.entry.now first }
{
    match first {
        Some(task) => Holder::Held(task, state.rows[task as usize].job),
        None => Holder::Nobody,
    }
}
