// What a listener hears of a run.
use dvs_base::{Note, Totals};
use event_kernel::{Listener, Stopped};
use std::alloc::{AllocError, Global};

// The most notes that are kept.
const MOST_NOTES: usize = 1024;

// The notes of a run, as many as there is room for, and their number.
#[derive(Drop)]
pub(crate) struct HeardNotes {
    pub(crate) notes: Vec<Note>,
    pub(crate) count: usize,
}

impl HeardNotes {
    pub(crate) fn new(alloc: Global) -> Result<HeardNotes, AllocError> {
        let none = Note::End {
            ticks: 0,
            run: 0,
            idle: 0,
        };
        Ok(HeardNotes {
            notes: vec![in alloc; none; MOST_NOTES]?,
            count: 0,
        })
    }

    // The notes, if there was room for all of them.
    pub(crate) fn all(&self) -> Option<&[Note]> {
        self.notes.get(..self.count)
    }
}

impl Listener for HeardNotes {
    ghost heard = { λ a n b. Unit {0} };

    ghost balked = { λ a n b. Unit {0} };

    ghost stops = { λ a. 0 };

    fn hear(&mut self, note: &Note) -> Result<(), Stopped> {
        if let Some(place) = self.notes.get_mut(self.count) {
            *place = *note;
        }
        self.count = self.count.saturating_add(1);
        Ok(())
    }
}

// The totals of some notes, added one by one.
pub(crate) fn totals_of(notes: &[Note]) -> Totals {
    let mut totals = Totals {
        run: 0,
        idle: 0,
        released: 0,
        finished: 0,
        decisions: 0,
    };
    for note in notes {
        match note {
            Note::Release { .. } => totals.released = totals.released.saturating_add(1),
            Note::Speed { .. } => totals.decisions = totals.decisions.saturating_add(1),
            Note::Run { energy, .. } => totals.run = totals.run.saturating_add(*energy),
            Note::Idle { energy, .. } => totals.idle = totals.idle.saturating_add(*energy),
            Note::Done { .. } => totals.finished = totals.finished.saturating_add(1),
            Note::End { .. } => {}
        }
    }
    totals
}
