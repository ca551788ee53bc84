// A listener that compares notes with those of a trace.
ghost use Rattle.std.specs.Prelude.{◌≡◌, ◌∷◌, Some};
ghost use Rattle.replay.specs.Comparison.{IsOther};

use dvs_base::Note;
use event_kernel::{Listener, Stopped};

/// Compares each note that it hears with the next one of a trace, and stops at the first unequal one.
#[derive(Drop)]
pub(crate) struct Compared<'a> {
    /// The notes of the trace from the next one on.
    pub(crate) rest: &'a [Note],
    /// The note heard in place of the trace's next one, once the run was stopped.
    pub(crate) wanted: Option<Note>,
    /// How often it stopped a run.
    pub(crate) stops: u64,
}

impl<'a> Listener for Compared<'a> {
    ghost heard = { λ a n b. a.rest.now ≡ n ∷ b.rest.now };

    ghost balked = { λ a n b. IsOther n a.rest.now × (b.rest.now ≡ a.rest.now) × (b.wanted ≡ Some n) };

    ghost stops = { λ a. a.stops };

    fn hear(&mut self, note: &Note) -> Result<(), Stopped> {
        match self.rest.split_first() {
            Some((next, rest)) if next == note => {
                self.rest = rest;
                Ok(())
            }
            _ => {
                self.wanted = Some(*note);
                self.stops = self.stops.saturating_add(1);
                Err(Stopped)
            }
        }
    }
}
