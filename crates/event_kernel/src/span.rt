// A span: the ticks from one decision to the next.
ghost use Rattle.std.specs.Prelude.{◌-◌, ◌<◌, ◌≤◌, length};
ghost use Rattle.event_kernel.specs.Current.{IsCurrent};
ghost use Rattle.event_kernel.specs.Settings.{IsBetween, IsInSpan, HasWalked, IsMetBy, AddsNotes};

use crate::in_force::InForce;
use crate::progress::{Progress, Setting};
use crate::span_trace::Moment;
use governor::Governor;

/// How a span's ticks are run: all but the last in one step, or one by one.
#[derive(Clone, Copy)]
pub enum Walk {
    Events,
    Ticks,
}

impl<G: Governor> Progress<G> {
    // Runs the ticks of a span by this walk, up to the next decision or the end.
    fn walk_span(&mut self, walk: Walk, set: &Setting<'_>, force: InForce)
        requires at { IsInSpan set.now G.demand force self.old.state.now self.old.state self.old.trace }
        requires current { IsCurrent G.stands set.now self.old }
        ensures walked { HasWalked set.now G.demand force (self.new.state.now - 1) self.new.state self.new.trace }
        ensures current { IsCurrent G.stands set.now self.new }
    {
        let release = self.agenda.next_release(set.plan, &self.state);
        let event = set.ticks.min(release);
        self.stay(walk, set, force, event);
        loop {
            let completed = self.work(set, force);
            if completed || self.now() == event {
                return;
            }
        }
    }

    /// Runs one span: its releases, its decision, and the ticks up to the next decision or the end. The trace has its
    /// notes then. The entry that was in force.
    pub(crate) fn span(&mut self, walk: Walk, set: &Setting<'_>) -> u32
        requires between { IsBetween set.now G.demand self.old.state }
        requires early { self.old.state.now < set.now.ticks }
        requires met { IsMetBy set.now G.demand self.old.state.now }
        requires current { IsCurrent G.stands set.now self.old }
        ensures between { IsBetween set.now G.demand self.new.state }
        ensures later { self.old.state.now < self.new.state.now }
        ensures limit { self.new.state.now ≤ set.now.ticks }
        ensures current { IsCurrent G.stands set.now self.new }
        ensures notes { AddsNotes set.now G.demand self.old.state.now self.new.state.now self.new.trace.notes }
        ensures entry { result < length set.now.plan.now.machine.points }
    {
        let force = self.begin(set);
        self.walk_span(walk, set, force);
        let plan = set.plan;
        let state = &self.state;
        self.trace.close(Moment { plan, state, force });
        force.index
    }
}
