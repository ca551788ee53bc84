// The ready jobs, in the order of a scheduler.
ghost use Rattle.std.specs.Prelude.{◌≡◌, ◌<◌, [], ◌∷◌, IfOk, IfSome, MatchOption, slice_get};
ghost use Rattle.ready_queue.specs.Entries.{IsAbsent, with_entry, ComesFirst};
ghost use Rattle.agenda.specs.Agenda.{before_of};

use dvs_base::{NoMemory, Scheduler};
use ready_queue::{ByDue, ByPeriod, Entry, Queue};
use std::alloc::Global;
use std::marker::Model;

#[derive(Drop)]
enum Ordered {
    Edf(Queue<ByDue>),
    Rm(Queue<ByPeriod>),
}

/// The ready jobs in order: by the deadline under EDF, by the period under RM.
#[derive(Drop)]
pub struct Ready {
    ordered: Ordered,
}

impl Model for Ready {
    ghost use Rattle.agenda.specs.Agenda.{ReadyView};
    ghost use Rattle.agenda.specs.Ready.{ready_of};

    ghost Value = { ReadyView };

    ghost view = { λ r. ready_of r.ordered };
}

impl Ready {
    /// A ready queue for the tasks below `n`, without jobs. All memory is taken here. The only error is `NoMemory`.
    pub fn new(alloc: Global, scheduler: Scheduler, n: u32) -> Result<Ready, NoMemory>
        ensures { IfOk result (λ r. r ≡ record { scheduler = scheduler; limit = n; entries = [] }) }
    {
        let ordered = match scheduler {
            Scheduler::Edf => Ordered::Edf(Queue::new(alloc, n, ByDue)?),
            Scheduler::Rm => Ordered::Rm(Queue::new(alloc, n, ByPeriod)?),
        };
        Ok(Ready { ordered })
    }

    /// Adds the job of a task that is not in the queue.
    pub fn insert(&mut self, e: Entry)
        requires task { e.task < self.old.limit }
        requires absent { IsAbsent e.task self.old.entries }
        ensures { self.new
            ≡ record self.old { entries = with_entry (before_of self.old.scheduler) e self.old.entries } }
    {
        match &mut self.ordered {
            Ordered::Edf(queue) => queue.insert(e),
            Ordered::Rm(queue) => queue.insert(e),
        }
    }

    /// The job that comes before all others; `None` exactly if there is no job.
    pub fn first(&self) -> Option<Entry>
        ensures value { result ≡ slice_get self.now.entries 0 }
        ensures first { IfSome result (λ e. ComesFirst (before_of self.now.scheduler) e self.now.entries) }
    {
        match &self.ordered {
            Ordered::Edf(queue) => queue.first(),
            Ordered::Rm(queue) => queue.first(),
        }
    }

    /// Takes out and returns the job that comes before all others; `None` exactly if there is no job.
    pub fn take_first(&mut self) -> Option<Entry>
        ensures entries { MatchOption result ((self.old.entries ≡ []) × (self.new.entries ≡ []))
            (λ e. self.old.entries ≡ e ∷ self.new.entries) }
        ensures first { IfSome result (λ e. ComesFirst (before_of self.old.scheduler) e self.old.entries) }
        ensures out { IfSome result (λ e. IsAbsent e.task self.new.entries) }
        ensures same { self.new ≡ record self.old { entries = self.new.entries } }
    {
        match &mut self.ordered {
            Ordered::Edf(queue) => queue.take_first(),
            Ordered::Rm(queue) => queue.take_first(),
        }
    }
}
