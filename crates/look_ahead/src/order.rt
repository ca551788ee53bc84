// The tasks in EDF order.
ghost use Rattle.std.specs.Prelude.{◌≡◌, IfOk, map};
ghost use Rattle.grid_fraction.specs.Numbers.{list_below};
ghost use Rattle.sched_model.specs.Plan.{count, offset};
ghost use Rattle.sched_model.specs.States.{opening, after_release, CanRelease};
ghost use Rattle.look_ahead_laws.specs.Ahead.{deadline_at, edf_order};
ghost use Rattle.look_ahead.specs.Counters.{stands_before_due};

use dvs_base::NoMemory;
use sched_model::{Admitted, State};
use std::alloc::Global;

// Each task's offset in ticks, at which its job 0 is due, and its number.
fn offsets_of(alloc: Global, plan: &Admitted) -> Result<Vec<(u64, u32)>, NoMemory>
    ensures { IfOk result (λ v. v.items ≡ list_below (count plan.now) (λ i. (offset plan.now i, i))) }
{
    let mut offsets = Vec::new(alloc);
    for task in 0..plan.count() {
        offsets.push((plan.offset(task), task))?;
    }
    Ok(offsets)
}

// The task numbers of the pairs, in their order.
fn tasks_of(alloc: Global, offsets: &[(u64, u32)]) -> Result<Vec<u32>, NoMemory>
    ensures { IfOk result (λ v. v.items ≡ map (λ k. k.1) offsets.now) }
{
    let numbers: Vec<u32> = offsets.iter().map(|first| first.1).collect(alloc)?;
    Ok(numbers)
}

// The tasks in EDF order before the first release.
pub(crate) fn opening_order(alloc: Global, plan: &Admitted) -> Result<Vec<u32>, NoMemory>
    ensures { IfOk result (λ v. v.items ≡ edf_order plan.now (opening plan.now)) }
{
    let mut offsets = offsets_of(alloc, plan)?;
    offsets.sort_unstable();
    tasks_of(alloc, &offsets)
}

// The deadline of a task's latest job; 0 if the task has no row.
fn deadline_of(view: &State, task: u32) -> u64
    ensures { result ≡ deadline_at view.entry.now task }
{
    match view.rows.get(task as usize) {
        Some(row) => row.deadline,
        None => 0,
    }
}

// Whether `task` comes before `other` in EDF order if `other` is due at tick `due`.
fn stands_before_due(view: &State, task: u32, other: u32, due: u64) -> bool
    ensures { result ≡ stands_before_due (deadline_at view.entry.now) other due task }
{
    let deadline = deadline_of(view, task);
    deadline < due || (deadline == due && task < other)
}

// Moves the task whose next job is released to its place in EDF order.
pub(crate) fn move_to_place(order: &mut [u32], plan: &Admitted, view: &State, task: u32)
    requires can { CanRelease plan.now view.now task }
    requires order { order.old ≡ edf_order plan.now view.now }
    ensures { order.new ≡ edf_order plan.now (after_release plan.now view.entry.now task) }
{
    let due = view.rows[task as usize].deadline + plan.period(task);
    for k in 0..order.len() - 1 {
        let next = order[k + 1];
        if order[k] == task && stands_before_due(view, next, task, due) {
            order[k] = next;
            order[k + 1] = task;
        }
    }
}
