// The notes of one span.
ghost use Rattle.std.specs.Prelude.{◌≡◌, ◌<◌, ◌++◌, ◌∷◌, [], OnOk, IfOk, length};
ghost use Rattle.event_kernel.specs.SpanNotes.{kept_notes, HandsOut, CanBook, all_booked};

use crate::{Listener, Stopped};
use dvs_base::{MOST_TASKS, NoMemory, Note};
use energy::Account;
use std::alloc::Global;
use std::marker::Model;

/// The most notes of a span: for each task a release, a segment and two completions; a decision; and one more segment
/// with a completion.
pub const MOST_NOTES: usize = 4 * MOST_TASKS + 3;

/// The notes of one span, in order. There is room for `MOST_NOTES` of them, and no span has more; any further note is
/// dropped.
#[derive(Drop)]
pub struct SpanNotes {
    notes: Vec<Note>,
}

impl Model for SpanNotes {
    ghost use Rattle.std.specs.Prelude.{◌≤◌, List, vec_len, vec_capacity};
    ghost use Rattle.dvs_base.specs.declared.note.Note.{Note as NoteOf};
    ghost use Rattle.event_kernel.specs.declared.notes.TheConstants.{MOST_NOTES};

    ghost Value = { List NoteOf };

    ghost view = { λ s. s.notes.items };

    ghost invariant = { λ s. record { few : vec_len s.notes ≤ MOST_NOTES; room : MOST_NOTES ≤ vec_capacity s.notes } };
}

impl SpanNotes {
    /// No notes, with room for those of a span. It fails only if memory runs out.
    pub(crate) fn new(alloc: Global) -> Result<SpanNotes, NoMemory>
        ensures { IfOk result (λ s. s ≡ []) }
    {
        let notes = Vec::with_capacity(alloc, MOST_NOTES)?;
        Ok(SpanNotes { notes })
    }

    /// Removes all notes.
    pub(crate) fn clear(&mut self)
        ensures { self.new ≡ [] }
    {
        self.notes.clear();
    }

    /// Adds a note if there is room.
    pub(crate) fn push(&mut self, note: Note)
        ensures { self.new ≡ kept_notes (self.old ++ note ∷ []) }
    {
        if self.notes.len() < MOST_NOTES {
            self.notes.push_reserved(note);
        }
    }

    /// Hands each note to a listener, and then adds it to the account under the entry `point`. `Stopped` comes only
    /// if the listener stopped.
    pub(crate) fn tell<L: Listener>(
        &self,
        point: u32,
        account: &mut Account,
        to: &mut L,
    ) -> Result<(), Stopped>
        requires point { point < length account.old.by_point }
        requires room { CanBook account.old self.now point }
        ensures booked { OnOk result (account.new ≡ all_booked account.old self.entry.now point) }
        ensures told { HandsOut L.heard L.balked L.stops to.old to.new self.entry.now result }
    {
        for note in self.notes.iter() {
            to.hear(note)?;
            account.add(note, point);
        }
        Ok(())
    }
}
