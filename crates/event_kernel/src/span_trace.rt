// The notes of a span so far, and its open segment.
ghost use Rattle.std.specs.Prelude.{◌≡◌, []};
ghost use Rattle.sched_model.specs.declared.holder.Holder.TheVariants.{Nobody, Held};
ghost use Rattle.event_kernel.specs.Segment.{after_idle, after_segment, is_turn, after_units, ended_trace, new_trace, with_notes, written_notes, CanAdd, CanEnter};

use crate::in_force::InForce;
use crate::notes::SpanNotes;
use crate::segment::Segment;
use dvs_base::Note;
use energy::energy_of;
use sched_model::{Admitted, Holder, State};

/// A span so far: its open segment, and all notes before it.
#[derive(Drop)]
pub struct SpanTrace {
    pub segment: Segment,
    pub notes: SpanNotes,
}

/// What a segment's notes are computed from: the plan, the state at its end, and the entry in force.
#[derive(Clone, Copy)]
pub struct Moment<'a> {
    pub plan: &'a Admitted,
    pub state: &'a State,
    pub force: InForce,
}

fn turns(trace: &SpanTrace, holder: Holder) -> bool
    ensures { result ≡ is_turn trace.now holder }
{
    trace.segment.units > 0 && trace.segment.holder != holder
}

impl SpanTrace {
    /// A trace with these notes and no segment yet.
    pub(crate) fn new(notes: SpanNotes) -> SpanTrace
        ensures { result ≡ new_trace notes }
    {
        SpanTrace {
            segment: Segment::none(),
            notes,
        }
    }

    /// Removes the notes and the segment.
    pub(crate) fn clear(&mut self)
        ensures { self.new ≡ new_trace [] }
    {
        self.segment = Segment::none();
        self.notes.clear();
    }

    // Adds the note of an idle segment.
    fn add_idle(&mut self, moment: Moment<'_>)
        requires can { CanAdd moment.plan.now moment.state.now moment.force self.old }
        requires idle { self.old.segment.holder ≡ Nobody }
        ensures { self.new ≡ with_notes self.old (written_notes moment.entry.plan.now
            moment.entry.state.now moment.entry.force self.old) }
    {
        let force = moment.force;
        let Segment { start, units, .. } = self.segment;
        self.notes.push(Note::Idle {
            from: force.position(start),
            to: force.position(start + units),
            units,
            energy: energy_of(moment.plan.machine(), force.index, units, true),
        });
    }

    // Adds the note of a job's segment, and that of the job's completion if its row is done.
    fn add_run(&mut self, moment: Moment<'_>, task: u32, job: u64)
        requires can { CanAdd moment.plan.now moment.state.now moment.force self.old }
        requires held { self.old.segment.holder ≡ Held task job }
        ensures { self.new ≡ with_notes self.old (written_notes moment.entry.plan.now
            moment.entry.state.now moment.entry.force self.old) }
    {
        let force = moment.force;
        let Segment { start, units, .. } = self.segment;
        let end = force.position(start + units);
        self.notes.push(Note::Run {
            from: force.position(start),
            to: end,
            task,
            job,
            units,
            energy: energy_of(moment.plan.machine(), force.index, units, false),
        });
        let state = moment.state;
        let row = state.rows[task as usize];
        if row.done {
            self.notes.push(Note::Done {
                at: end,
                task,
                job,
                used: row.used,
            });
        }
    }

    // Adds the notes of the open segment, and begins the holder's next one.
    fn add_segment(&mut self, moment: Moment<'_>)
        requires { CanAdd moment.plan.now moment.state.now moment.force self.old }
        ensures { self.new ≡ after_segment moment.entry.plan.now moment.entry.state.now moment.entry.force self.old }
    {
        match self.segment.holder {
            Holder::Nobody => self.add_idle(moment),
            Holder::Held(task, job) => self.add_run(moment, task, job),
        }
        self.segment.pass();
    }

    /// Adds units of a holder. If another holder's segment is open, its notes are added first.
    pub(crate) fn enter(&mut self, moment: Moment<'_>, holder: Holder, units: u64)
        requires { CanEnter moment.plan.now moment.state.now moment.force units self.old }
        ensures { self.new ≡ after_units moment.entry.plan.now moment.entry.state.now
            moment.entry.force holder units self.old }
    {
        if turns(self, holder) {
            self.add_segment(moment);
        }
        self.segment.holder = holder;
        self.segment.units += units;
    }

    /// Adds units in which nobody runs, if there are any.
    pub(crate) fn idle(&mut self, moment: Moment<'_>, units: u64)
        requires { CanEnter moment.plan.now moment.state.now moment.force units self.old }
        ensures { self.new ≡ after_idle moment.entry.plan.now moment.entry.state.now moment.entry.force units self.old }
    {
        if units > 0 {
            self.enter(moment, Holder::Nobody, units);
        }
    }

    /// Adds the notes of the segment that is open at the end of a span.
    pub(crate) fn close(&mut self, moment: Moment<'_>)
        requires { CanAdd moment.plan.now moment.state.now moment.force self.old }
        ensures { self.new ≡ ended_trace moment.entry.plan.now moment.entry.state.now moment.entry.force self.old }
    {
        if self.segment.units > 0 {
            self.add_segment(moment);
        }
    }
}
