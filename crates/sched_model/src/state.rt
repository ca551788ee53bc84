// The state of a run.
ghost use Rattle.std.specs.Prelude.{◌≡◌, ◌<◌, ◌≤◌, IfOk, length};
ghost use Rattle.sched_model.specs.States.{opening_row, opening, after_release, after_run, after_finish, after_advance, after_mark, row_at, row_wleft, CanRelease, CanRun, CanFinish};

use crate::Admitted;
use dvs_base::NoMemory;
use std::alloc::Global;
use std::marker::Model;

/// A task's part of a run's state: its latest job with its deadline in ticks, the work units that the job has had,
/// whether it is complete, and the charged worst case in work units.
#[derive(Clone, Copy, Debug, PartialEq, Eq)]
pub struct Row {
    pub deadline: u64,
    pub job: u64,
    pub used: u64,
    pub done: bool,
    pub worst: u64,
}

/// The state of a run: the tick, a row for each task, the tick of the last mark, and what each job might still need at
/// the mark, in work units.
#[derive(Drop)]
pub struct State {
    pub now: u64,
    pub rows: Vec<Row>,
    pub base_at: u64,
    pub base: Vec<u64>,
}

impl Model for State {
    ghost use Rattle.sched_model.specs.States.{StateView, IsStateOf};

    ghost Value = { StateView };

    ghost view = { λ s. record { now = s.now; rows = s.rows.items; base_at = s.base_at; base = s.base.items } };

    ghost invariant = { λ s. IsStateOf (record { now = s.now; rows = s.rows.items; base_at = s.base_at; base = s.base.items }) };
}

// The row of job 0, which is complete and due at the first release.
fn opening_row(offset: u64, worst: u64) -> Row
    ensures { result ≡ opening_row offset worst }
{
    Row {
        deadline: offset,
        job: 0,
        used: 0,
        done: true,
        worst,
    }
}

// The work units that the job of a row may still need at most; 0 if it is complete.
fn worst_left(row: Row) -> u64
    requires { row.used ≤ row.worst }
    ensures { result ≡ row_wleft row }
{
    if row.done { 0 } else { row.worst - row.used }
}

impl State {
    /// The state before the first release: each row has job 0, which is complete and due at its task's first release.
    /// The only error is `NoMemory`.
    pub fn new(alloc: Global, plan: &Admitted) -> Result<State, NoMemory>
        ensures { IfOk result (λ s. s ≡ opening plan.now) }
    {
        let mut rows = Vec::new(alloc);
        let mut base = Vec::new(alloc);
        for i in 0..plan.count() {
            let row = opening_row(plan.offset(i), plan.worst(i));
            rows.push(row)?;
            base.push(0)?;
        }
        Ok(State {
            now: 0,
            rows,
            base_at: 0,
            base,
        })
    }

    /// The work units that a task's job may still need at most; 0 if it is complete.
    pub fn worst_left(&self, task: u32) -> u64
        requires { task < length self.now.rows }
        ensures { result ≡ row_wleft (row_at self.entry.now task) }
    {
        worst_left(self.rows[task as usize])
    }

    /// Releases the next job of a task: its number grows by 1 and the deadline by the period; it has had no units and
    /// is incomplete. Before the call the row is complete and due now, and both sums fit in 64 bits.
    pub fn release(&mut self, plan: &Admitted, task: u32)
        requires { CanRelease plan.now self.old task }
        ensures { self.new ≡ after_release plan.now self.old task }
    {
        let period = plan.period(task);
        let row = self.rows[task as usize];
        self.rows[task as usize] = Row {
            deadline: row.deadline + period,
            job: row.job + 1,
            used: 0,
            done: false,
            worst: row.worst,
        };
    }

    /// Adds `units` work units to what the task's incomplete job has had, which is at most its worst case afterwards.
    pub fn run(&mut self, task: u32, units: u64)
        requires { CanRun self.old task units }
        ensures { self.new ≡ after_run self.old task units }
    {
        let row = self.rows[task as usize];
        self.rows[task as usize] = Row {
            used: row.used + units,
            ..row
        };
    }

    /// Completes the task's job, which wasn't complete before.
    pub fn finish(&mut self, task: u32)
        requires { CanFinish self.old task }
        ensures { self.new ≡ after_finish self.old task }
    {
        let row = self.rows[task as usize];
        self.rows[task as usize] = Row { done: true, ..row };
    }

    /// Moves time on to the tick `to`, which isn't in the past.
    pub fn advance(&mut self, to: u64)
        requires { self.old.now ≤ to }
        ensures { self.new ≡ after_advance self.old to }
    {
        self.now = to;
    }

    /// Marks this tick: `base_at` is this tick, and each base is the work units that the row's job may still need at
    /// most.
    pub fn mark(&mut self)
        ensures { self.new ≡ after_mark self.old }
    {
        self.base_at = self.now;
        for i in 0..self.rows.len() {
            let row = self.rows[i];
            self.base[i] = worst_left(row);
        }
    }
}
