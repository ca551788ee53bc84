// The listener of a run.
ghost use Rattle.std.specs.Prelude.{ℕ, ◌≤◌, OnOk, OnErr};
ghost use Rattle.dvs_base.specs.declared.note.Note.{Note as NoteOf};
ghost use Rattle.dvs_base.specs.Outside.{Rose};

use dvs_base::{Failed, Note};

/// The listener accepts no more notes.
#[derive(Clone, Copy, Debug, PartialEq, Eq)]
pub struct Stopped;

impl From<Failed> for Stopped {
    fn from(_e: Failed) -> Stopped {
        Stopped
    }
}

/// Hears the notes of a run, one by one.
pub trait Listener {
    /// It accepted the note and became the second listener.
    ghost heard: { Self → NoteOf → Self → Type 0 };

    /// It stopped at the note and became the second listener.
    ghost balked: { Self → NoteOf → Self → Type 0 };

    /// How often it has stopped. The count never falls.
    ghost stops: { Self → ℕ };

    /// Hears one note. `Stopped` comes only if the count of stops rose.
    fn hear(&mut self, note: &Note) -> Result<(), Stopped>
        ensures heard { OnOk result (heard self.old note.now self.new) }
        ensures balked { OnErr result (balked self.old note.now self.new) }
        ensures later { stops self.old ≤ stops self.new }
        ensures rose { OnErr result (Rose (stops self.old) (stops self.new)) };
}
