// The walk over the absolute deadlines of one hyperperiod. The tasks are in a queue by their next absolute deadlines.
ghost use Rattle.std.specs.Prelude.{ℕ, ◌≡◌, ◌+◌, ◌<◌, ◌≤◌, length, slice_index, nat_eq, IfOk};
ghost use Rattle.dvs_base.specs.declared.kind.Scheduler.TheVariants.{Edf};
ghost use Rattle.grid_fraction.specs.Numbers.{least_below, sum_where};
ghost use Rattle.sched_model.specs.Plan.{plan_of, worst};
ghost use Rattle.dvs_base.specs.declared.limits.TheConstants.{MOST_JOBS};
ghost use Rattle.task_model.specs.declared.limits.TheConstants.{LONGEST_HYPERPERIOD};
ghost use Rattle.edf_demand_laws.specs.Constrained.{IsConstrained};
ghost use Rattle.edf_demand_laws.specs.ProcessorDemand.{IsConstrainedDemand};
ghost use Rattle.edf_demand.specs.Answers.{hyper_jobs};
ghost use Rattle.edf_demand.specs.Walk.{due_of, IsCalendar, IsQueueOf, Moved, TakesFirst};

use dvs_base::NoMemory;
use freq_table::Machine;
use grid_fraction::{Frac, greater};
use ready_queue::{ByDue, Entry, Queue};
use sched_model::worst;
use std::alloc::Global;
use task_model::TaskSet;

// The number of jobs in one hyperperiod.
pub(crate) fn hyper_jobs(tasks: &TaskSet) -> u64
    ensures { result ≡ hyper_jobs tasks.now }
{
    let mut jobs = 0;
    for i in 0..tasks.count() {
        jobs += tasks.hyper() / tasks.task(i).period;
    }
    jobs
}

// A queue of the tasks by their first absolute deadlines, which are the relative ones.
fn first_deadlines(
    alloc: Global,
    tasks: &TaskSet,
    deadlines: &[u64],
) -> Result<Queue<ByDue>, NoMemory>
    requires one_each { length deadlines.now ≡ length tasks.now }
    requires some { (i : ℕ) → i < length tasks.now → 1 ≤ slice_index deadlines.now i }
    ensures queue { IfOk result (IsQueueOf tasks.now) }
    ensures deadlines { IfOk result (λ q.
        (i : ℕ) → i < length tasks.now → due_of q.entries i ≡ slice_index deadlines.now i) }
{
    let mut next = Queue::new(alloc, tasks.count(), ByDue)?;
    for task in 0..tasks.count() {
        next.insert(Entry {
            task,
            due: deadlines[task as usize],
            period: tasks.task(task).period,
        });
    }
    Ok(next)
}

// The earliest of the tasks' next deadlines, in ticks.
fn earliest(next: &Queue<ByDue>) -> u64
    requires { IsCalendar next.now }
    ensures { result ≡ least_below next.now.limit (due_of next.now.entries) }
{
    match next.first() {
        Some(job) => job.due,
        None => 0,
    }
}

// Takes the first job: its task's next deadline is a period later. Returns its work in work units.
#[tactic(auto, using(crate::proofs::Calendars::front))]
fn take_first(next: &mut Queue<ByDue>, tasks: &TaskSet, machine: &Machine) -> u64
    requires queue { IsQueueOf tasks.now next.old }
    requires low { least_below next.old.limit (due_of next.old.entries) ≤ LONGEST_HYPERPERIOD }
    ensures queue { IsQueueOf tasks.now next.new }
    ensures taken { TakesFirst (plan_of tasks.now machine.now Edf) (due_of next.old.entries) (due_of next.new.entries)
        result }
{
    let Some(job) = next.first() else {
        return 0;
    };
    let period = tasks.task(job.task).period;
    next.replace_first(Entry {
        task: job.task,
        due: job.due + period,
        period,
    });
    worst(tasks, machine, job.task)
}

// Takes the jobs that are due at `now`: the next deadline of each of their tasks is a period later.
// Returns their work in work units.
fn take_due(next: &mut Queue<ByDue>, tasks: &TaskSet, machine: &Machine, now: u64) -> u128
    requires queue { IsQueueOf tasks.now next.old }
    requires first { now ≡ least_below next.old.limit (due_of next.old.entries) }
    requires low { now ≤ LONGEST_HYPERPERIOD }
    ensures queue { IsQueueOf tasks.now next.new }
    ensures later { Moved (plan_of tasks.now machine.now Edf) (due_of next.old.entries) now (due_of next.new.entries) }
    ensures work { result ≡ (let p = plan_of tasks.now machine.now Edf in
        sum_where (length tasks.now) (λ i. nat_eq (due_of next.old.entries i) now) (worst p)) }
{
    let _task_limits = tasks.as_slice();
    let _machine_limits = machine.as_slice();
    let mut work = 0;
    while earliest(next) == now {
        work += u128::from(take_first(next, tasks, machine));
    }
    work
}

// The constrained demand of these deadlines in work units per tick, not reduced. The only error is `NoMemory`.
pub(crate) fn constrained_demand(
    alloc: Global,
    tasks: &TaskSet,
    deadlines: &[u64],
    machine: &Machine,
) -> Result<Frac, NoMemory>
    requires one_each { length deadlines.now ≡ length tasks.now }
    requires deadlines { IsConstrained (plan_of tasks.now machine.now Edf) (slice_index deadlines.now) }
    requires few { hyper_jobs tasks.now ≤ MOST_JOBS }
    ensures { IfOk result (λ d. IsConstrainedDemand (plan_of tasks.now machine.now Edf) (slice_index deadlines.now) d) }
{
    let _task_limits = tasks.as_slice();
    let _machine_limits = machine.as_slice();
    let mut next = first_deadlines(alloc, tasks, deadlines)?;
    let mut work = 0;
    let mut busiest = Frac { num: 0, den: 1 };
    let mut now = earliest(&next);
    while now <= tasks.hyper() {
        work += take_due(&mut next, tasks, machine, now);
        let here = Frac {
            num: work,
            den: u128::from(now),
        };
        if greater(here, busiest) {
            busiest = here;
        }
        now = earliest(&next);
    }
    Ok(busiest)
}
