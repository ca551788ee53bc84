// Traces, and why a text is not one.
ghost use Rattle.std.specs.Prelude.{◌≡◌};
ghost use Rattle.trace_reader.specs.declared.trace.TraceFault.TheVariants as fault;

use dvs_base::{NoMemory, Note, Version};
use std::marker::Model;
use trace_text::PlanLine;

/// A trace: its version, its plan and its notes, the last of which ends it.
#[derive(Drop)]
pub struct Trace {
    pub version: Version,
    pub plan: PlanLine,
    pub notes: Vec<Note>,
}

impl Model for Trace {
    ghost use Rattle.trace_reader.specs.Traces.{TraceView};

    ghost Value = { TraceView };

    ghost view = { λ t. record { version = t.version; plan = t.plan; notes = t.notes.items } };
}

/// The error in a line of a text.
#[derive(Clone, Copy, Debug, PartialEq, Eq)]
pub enum TraceKind {
    /// The first line names none of the versions that are read.
    Version,
    /// The second line is not a plan line.
    Plan,
    /// The line begins with none of the words, or has another number of fields than its word.
    Word,
    /// A number, a position or a fraction isn't spelled as one.
    Number,
    /// A name is not that of a task.
    Task,
    /// The line is missing: no line feed is left, and no `end` line came.
    NoEnd,
    /// There are bytes after the `end` line.
    AfterEnd,
    /// The line has more than `LONGEST_LINE` bytes before its line feed.
    TooLong,
    /// The line is the 800001st.
    TooMany,
    /// The line isn't that of the task in its place.
    TaskLine,
    /// The energies of the tasks aren't in file order between the notes and the `end` line.
    Order,
    /// The energy of a task isn't the sum over its runs.
    Share,
}

/// Why a text isn't read: the first line that is refused, counted from 1, or memory that ran out.
#[derive(Clone, Copy, Debug, PartialEq, Eq)]
pub enum TraceFault {
    Refused { line: u64, kind: TraceKind },
    /// Memory ran out.
    NoMemory,
}

impl From<NoMemory> for TraceFault {
    ghost from_gives = { λ _ e. e ≡ fault.NoMemory };

    fn from(_e: NoMemory) -> TraceFault {
        TraceFault::NoMemory
    }
}
