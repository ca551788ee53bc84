// The releases and the decision of a boundary.
ghost use Rattle.std.specs.Prelude.{◌≡◌, ◌<◌, [], ◌∷◌, ◌++◌};
ghost use Rattle.freq_table.specs.Tables.{lowest_entry};
ghost use Rattle.sched_model.specs.States.{CanRelease, IsOfPlan};
ghost use Rattle.agenda.specs.Agenda.{NonePast, IsFirstDue, with_next_job};
ghost use Rattle.sched_model.specs.Notes.{all_release_notes};
ghost use Rattle.governor.specs.Steps.{IsAtDecision};
ghost use Rattle.event_kernel.specs.SpanNotes.{kept_notes};
ghost use Rattle.event_kernel.specs.Runs.{demands_of};
ghost use Rattle.event_kernel.specs.Segment.{with_notes, force_at};
ghost use Rattle.event_kernel.specs.Current.{IsCurrent};
ghost use Rattle.event_kernel.specs.Boundary.{needs_nothing, opening_notes, speed_note};
ghost use Rattle.event_kernel.specs.Settings.{IsAtBoundary, IsBetween, IsInSpan, IsMetBy, state_at};

use crate::in_force::InForce;
use crate::jobs::demand;
use crate::notes::SpanNotes;
use crate::progress::{Progress, Setting};
use dvs_base::{Note, Pos};
use governor::Governor;
use sched_model::{Admitted, State};

// Makes one decision and adds its note; the entry that it puts in force.
fn decide<G: Governor>(
    plan: &Admitted,
    governor: &G,
    state: &State,
    notes: &mut SpanNotes,
) -> InForce
    requires of { IsOfPlan plan.now state.now }
    requires counters { G.stands governor.now plan.now state.now }
    requires decision { IsAtDecision plan.now state.now }
    ensures note { notes.new ≡ kept_notes (notes.old
        ++ speed_note plan.now state.entry.now.now (G.demand plan.now state.entry.now) ∷ []) }
    ensures force { result ≡ force_at plan.now state.entry.now.now
        (lowest_entry plan.now.machine (G.demand plan.now state.entry.now)) }
{
    let choice = governor.choose(plan, state);
    let point = plan.machine().point(choice.index);
    notes.push(Note::Speed {
        tick: state.now,
        speed: point.speed,
        num: choice.demand.num,
        den: choice.demand.den,
    });
    InForce {
        from: state.now,
        index: choice.index,
        speed: point.speed,
    }
}

impl<G: Governor> Progress<G> {
    // Releases a task's next job, and completes it if its demand is 0.
    fn release_one(&mut self, set: &Setting<'_>, task: u32)
        requires past { NonePast set.now.plan.now self.old.state }
        requires due { IsFirstDue set.now.plan.now self.old.state task }
        requires can { CanRelease set.now.plan.now self.old.state task }
        requires current { IsCurrent G.stands set.now self.old }
        ensures trace { self.new.trace ≡ with_notes self.old.trace
            (opening_notes (demands_of set.now.plan.now set.now.demands.now) self.old.state task) }
        ensures state { self.new.state ≡ with_next_job set.now.plan.now self.old.state task
            (needs_nothing (demands_of set.now.plan.now set.now.demands.now) self.old.state task) }
        ensures current { IsCurrent G.stands set.now self.new }
    {
        let state = &self.state;
        let now = state.now;
        let job = state.rows[task as usize].job + 1;
        self.trace.notes.push(Note::Release {
            tick: now,
            task,
            job,
        });
        let needs = demand(set.plan, set.demands, task, job);
        let complete = needs == 0;
        self.needs[task as usize] = needs;
        self.governor.released(set.plan, &self.state, task);
        self.agenda.renew(set.plan, &self.state, task, complete);
        self.state.release(set.plan, task);
        if complete {
            self.governor.finished(set.plan, &self.state, task);
            self.state.finish(task);
            let at = Pos {
                tick: now,
                offset: 0,
            };
            self.trace.notes.push(Note::Done {
                at,
                task,
                job,
                used: 0,
            });
        }
    }

    // Releases every job that is due now, in the order of the tasks, and sets the mark if there was one.
    fn release_all(&mut self, set: &Setting<'_>)
        requires at { IsAtBoundary set.now G.demand self.old.state }
        requires none { self.old.trace.notes ≡ [] }
        requires current { IsCurrent G.stands set.now self.old }
        ensures trace { self.new.trace ≡ with_notes self.old.trace
            (all_release_notes set.now.plan.now (demands_of set.now.plan.now set.now.demands.now) self.old.state.now) }
        ensures state { self.new.state ≡ state_at set.now G.demand self.old.state.now }
        ensures current { IsCurrent G.stands set.now self.new }
    {
        let mut any = false;
        while let Some(task) = self.agenda.first_due(set.plan, &self.state) {
            self.release_one(set, task);
            any = true;
        }
        if any {
            self.governor.settled(set.plan, &self.state);
            self.agenda.mark(set.plan, &mut self.state);
        }
    }

    /// Begins a span: its releases, then its decision. The entry in force in it, with the span's first tick.
    pub(crate) fn begin(&mut self, set: &Setting<'_>) -> InForce
        requires between { IsBetween set.now G.demand self.old.state }
        requires early { self.old.state.now < set.now.ticks }
        requires met { IsMetBy set.now G.demand self.old.state.now }
        requires current { IsCurrent G.stands set.now self.old }
        ensures begun { IsInSpan set.now G.demand result self.new.state.now self.new.state self.new.trace }
        ensures from { result.from ≡ self.old.state.now }
        ensures same { self.new.state.now ≡ self.old.state.now }
        ensures current { IsCurrent G.stands set.now self.new }
    {
        self.trace.clear();
        self.release_all(set);
        decide(set.plan, &self.governor, &self.state, &mut self.trace.notes)
    }
}
