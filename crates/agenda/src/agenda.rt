// The ready jobs and the calendar of a state, and what each job may still need.
ghost use Rattle.std.specs.Prelude.{◌≡◌, ◌≢◌, ◌<◌, ℕ, true, IfOk, IfNone, IfSome};
ghost use Rattle.sched_model.specs.Plan.{count};
ghost use Rattle.sched_model.specs.States.{row_at, opening, after_run, after_finish, after_mark, CanRelease, CanRun, IsOfPlan, earliest_in};
ghost use Rattle.agenda.specs.Agenda.{IsFirstUndone, IsFirstDue, NonePast, with_next_job};

use crate::Ready;
use dvs_base::NoMemory;
use ready_queue::{ByDue, Entry, Queue};
use sched_model::{Admitted, State};
use std::alloc::Global;

/// The incomplete latest jobs in the scheduler's order, each task with its next release, and the work units that each
/// task's latest job may still need, which are the bases of a mark.
#[derive(Drop)]
pub struct Agenda {
    pub ready: Ready,
    pub calendar: Queue<ByDue>,
    pub left: Vec<u64>,
}

impl Agenda {
    ghost use Rattle.agenda.specs.Stands.{Stands};

    /// The agenda of the state before the first release. All memory is taken here. The only error is `NoMemory`.
    pub fn new(alloc: Global, plan: &Admitted) -> Result<Agenda, NoMemory>
        ensures { IfOk result (Stands plan.now (opening plan.now)) }
    {
        let ready = Ready::new(alloc, plan.scheduler(), plan.count())?;
        let mut calendar = Queue::new(alloc, plan.count(), ByDue)?;
        for task in 0..plan.count() {
            calendar.insert(Entry {
                task,
                due: plan.offset(task),
                period: plan.period(task),
            });
        }
        let left = vec![in alloc; 0; plan.count() as usize]?;
        Ok(Agenda {
            ready,
            calendar,
            left,
        })
    }

    /// The first task in the scheduler's order whose job is incomplete; `None` if all jobs are complete.
    pub fn first_ready(&self, _plan: &Admitted, _state: &State) -> Option<u32>
        requires { Stands _plan.now _state.now self.now }
        ensures none { IfNone result ((k : ℕ) → k < count _plan.now → (row_at _state.entry.now k).done ≡ true) }
        ensures first { IfSome result (λ i. IsFirstUndone _plan.now _state.entry.now (count _plan.now) i) }
    {
        Some(self.ready.first()?.task)
    }

    /// The earliest next release of the tasks, in ticks.
    pub fn next_release(&self, plan: &Admitted, state: &State) -> u64
        requires { Stands plan.now state.now self.now }
        ensures { result ≡ earliest_in plan.now state.entry.now }
    {
        let _admitted = plan.scheduler();
        match self.calendar.first() {
            Some(e) => e.due,
            None => 0,
        }
    }

    /// The first task in file order that is to be released now; `None` if there is none.
    pub fn first_due(&self, plan: &Admitted, state: &State) -> Option<u32>
        requires stand { Stands plan.now state.now self.now }
        requires past { NonePast plan.now state.now }
        ensures none { IfNone result
            ((k : ℕ) → k < count plan.now → (row_at state.entry.now k).deadline ≢ state.entry.now.now) }
        ensures due { IfSome result (λ i. IsFirstDue plan.now state.entry.now i) }
    {
        match self.calendar.first() {
            Some(e) if e.due == state.now => Some(e.task),
            _ => None,
        }
    }

    /// Updates the agenda for the release of the next job of `task`, the first that is due. `done` says whether the
    /// job is complete at once, since it needs no units.
    pub fn renew(&mut self, plan: &Admitted, state: &State, task: u32, done: bool)
        requires stand { Stands plan.now state.now self.old }
        requires past { NonePast plan.now state.now }
        requires due { IsFirstDue plan.now state.now task }
        requires can { CanRelease plan.now state.now task }
        ensures { Stands plan.now (with_next_job plan.now state.entry.now task done) self.new }
    {
        let period = plan.period(task);
        let row = state.rows[task as usize];
        let next = Entry {
            task,
            due: row.deadline + period,
            period,
        };
        let _first = self.calendar.first();
        self.calendar.replace_first(next);
        if !done {
            self.ready.insert(next);
            self.left[task as usize] = row.worst;
        }
    }

    /// Updates the agenda for `units` more work units of the incomplete job of `task`.
    pub fn serve(&mut self, _plan: &Admitted, _state: &State, task: u32, units: u64)
        requires stand { Stands _plan.now _state.now self.old }
        requires can { CanRun _state.now task units }
        ensures { Stands _plan.now (after_run _state.entry.now task units) self.new }
    {
        self.left[task as usize] -= units;
    }

    /// Updates the agenda for the completion of the job of `task`, the first incomplete one in the scheduler's order.
    pub fn complete(&mut self, plan: &Admitted, state: &State, task: u32)
        requires stand { Stands plan.now state.now self.old }
        requires of { IsOfPlan plan.now state.now }
        requires first { IsFirstUndone plan.now state.now (count plan.now) task }
        ensures { Stands plan.now (after_finish state.entry.now task) self.new }
    {
        self.ready.take_first();
        self.left[task as usize] = 0;
    }

    /// Marks this tick, as `State::mark` does, by one copy.
    pub fn mark(&self, _plan: &Admitted, state: &mut State)
        requires { Stands _plan.now state.old self.now }
        ensures marked { state.new ≡ after_mark state.old }
        ensures stand { Stands _plan.now state.new self.now }
    {
        state.base_at = state.now;
        state.base.copy_from_slice(&self.left);
    }
}
