// The ticks of a span before its last one.
ghost use Rattle.std.specs.Prelude.{◌≡◌, ◌≤◌, IfSome};
ghost use Rattle.sched_model.specs.States.{CanRun};
ghost use Rattle.event_kernel.specs.Segment.{IsFirst};
ghost use Rattle.event_kernel.specs.Current.{IsCurrent};
ghost use Rattle.event_kernel.specs.Tickwork.{gives};
ghost use Rattle.event_kernel.specs.Settings.{IsInSpan, AreQuiet, next_event};

use crate::in_force::InForce;
use crate::jobs::{holder_of, lacking};
use crate::progress::{Progress, Setting};
use crate::span::Walk;
use crate::span_trace::Moment;
use governor::Governor;

impl<G: Governor> Progress<G> {
    // The number of ticks before the span's last one, by the next release or the end of the run.
    fn quiet_ticks(&self, set: &Setting<'_>, force: InForce, first: Option<u32>, event: u64) -> u64
        requires event { event ≡ next_event set.now self.now.state }
        requires at { IsInSpan set.now G.demand force self.now.state.now self.now.state self.now.trace }
        requires first { IsFirst set.now.plan.now self.now.state first }
        requires current { IsCurrent G.stands set.now self.now }
        ensures { AreQuiet set.now force self.now.state first result }
    {
        let state = &self.state;
        let most = event - 1 - state.now;
        match first {
            Some(task) => most.min((lacking(set, state, &self.needs, task) - 1) / force.speed),
            None => most,
        }
    }

    // Runs `units` of the first incomplete job, which stays incomplete; if there is none, nothing changes.
    fn serve_first(&mut self, set: &Setting<'_>, first: Option<u32>, units: u64)
        requires can { IfSome first (λ i. CanRun self.old.state i units) }
        requires first { IsFirst set.now.plan.now self.old.state first }
        requires current { IsCurrent G.stands set.now self.old }
        ensures state { self.new.state ≡ gives self.old.state first units }
        ensures current { IsCurrent G.stands set.now self.new }
        ensures trace { self.new.trace ≡ self.old.trace }
    {
        if let Some(task) = first {
            self.serve(set, task, units, false);
        }
    }

    /// Runs all ticks of a span before its last one in one step, unless the walk is by ticks: no job is released or
    /// completed in them, so one job has all their units, or they are idle.
    pub(crate) fn stay(&mut self, walk: Walk, set: &Setting<'_>, force: InForce, event: u64)
        requires event { event ≡ next_event set.now self.old.state }
        requires at { IsInSpan set.now G.demand force self.old.state.now self.old.state self.old.trace }
        requires current { IsCurrent G.stands set.now self.old }
        ensures in_span { IsInSpan set.now G.demand force self.new.state.now self.new.state self.new.trace }
        ensures later { self.old.state.now ≤ self.new.state.now }
        ensures event { event ≡ next_event set.now self.new.state }
        ensures current { IsCurrent G.stands set.now self.new }
    {
        if let Walk::Ticks = walk {
            return;
        }
        let plan = set.plan;
        let now = self.now();
        let first = self.agenda.first_ready(plan, &self.state);
        let quiet = self.quiet_ticks(set, force, first, event);
        if quiet == 0 {
            return;
        }
        let state = &self.state;
        let units = quiet * force.speed;
        let holder = holder_of(state, first);
        let moment = Moment { plan, state, force };
        self.trace.enter(moment, holder, units);
        self.serve_first(set, first, units);
        self.advance(now + quiet);
    }
}
