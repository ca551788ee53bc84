// The parts of a run: what stays, and what changes.
ghost use Rattle.event_kernel.specs.Runs.{IsSound};

use crate::notes::SpanNotes;
use crate::span_trace::SpanTrace;
use agenda::Agenda;
use demand_list::Demands;
use dvs_base::NoMemory;
use governor::Governor;
use sched_model::{Admitted, State};
use std::alloc::Global;

/// What stays in a run: the plan, the demands of its jobs, and the number of its ticks, which are within their limits.
#[derive(Clone, Copy)]
pub struct Setting<'a> {
    pub plan: &'a Admitted,
    pub demands: &'a Demands,
    pub ticks: u64,
    ghost sound: { IsSound (record { plan = plan.now; demands = demands.now; ticks = ticks }) },
}

/// What changes in a run: the state; the governor's counters, the agenda and the demand of each task's latest job, which
/// follow the state; and the trace of the latest span.
#[derive(Drop)]
pub struct Progress<G: Governor> {
    pub governor: G,
    pub state: State,
    pub agenda: Agenda,
    pub needs: Vec<u64>,
    pub trace: SpanTrace,
}

impl<G: Governor> Progress<G> {
    ghost use Rattle.std.specs.Prelude.{◌≡◌, ◌≤◌, IfOk};
    ghost use Rattle.sched_model.specs.States.{opening, after_advance};
    ghost use Rattle.event_kernel.specs.Current.{IsCurrent};
    ghost use Rattle.event_kernel.specs.declared.progress.Setting.{Setting};

    /// A run before its first tick, with room for the notes of a span. It fails only if memory runs out.
    pub(crate) fn new(alloc: Global, set: &Setting<'_>, governor: G) -> Result<Self, NoMemory>
        requires { G.stands governor set.now.plan.now (opening set.now.plan.now) }
        ensures state { IfOk result (λ x. x.state ≡ opening set.now.plan.now) }
        ensures current { IfOk result (λ x. IsCurrent G.stands set.now x) }
    {
        let state = State::new(alloc, set.plan)?;
        let agenda = Agenda::new(alloc, set.plan)?;
        let needs = vec![in alloc; 0; set.plan.count() as usize]?;
        let trace = SpanTrace::new(SpanNotes::new(alloc)?);
        Ok(Progress {
            governor,
            state,
            agenda,
            needs,
            trace,
        })
    }

    /// The tick that the run has reached.
    pub(crate) fn now(&self) -> u64
        ensures { result ≡ self.entry.now.state.now }
    {
        self.state.now
    }

    /// Moves time on to the tick `to`, which isn't in the past.
    pub(crate) fn advance(&mut self, to: u64)
        requires { self.old.state.now ≤ to }
        ensures state { self.new.state ≡ after_advance self.old.state to }
        ensures current { (set : Setting) → IsCurrent G.stands set self.old → IsCurrent G.stands set self.new }
        ensures trace { self.new.trace ≡ self.old.trace }
    {
        self.state.advance(to);
    }
}
