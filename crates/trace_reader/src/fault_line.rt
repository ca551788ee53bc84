// The line of a refused trace.
ghost use Rattle.std.specs.Prelude.{◌≡◌};
ghost use Rattle.trace_reader.specs.FaultLines.{trace_kind_word, trace_fault_text};

use crate::{TraceFault, TraceKind};
use dvs_base::{Line, Part, line_of};

fn trace_kind_word(kind: TraceKind) -> &'static [u8]
    ensures { result.now ≡ trace_kind_word kind }
{
    match kind {
        TraceKind::Version => b"version",
        TraceKind::Plan => b"plan",
        TraceKind::Word => b"word",
        TraceKind::Number => b"number",
        TraceKind::Task => b"task",
        TraceKind::NoEnd => b"no end",
        TraceKind::AfterEnd => b"after end",
        TraceKind::TooLong => b"too long",
        TraceKind::TooMany => b"too many lines",
        TraceKind::TaskLine => b"task line",
        TraceKind::Order => b"order",
        TraceKind::Share => b"share",
    }
}

/// The line of a trace's refusal. It takes no memory.
pub fn trace_fault_line(why: &TraceFault) -> Line
    ensures { result ≡ trace_fault_text why.now }
{
    match why {
        TraceFault::Refused { line, kind } => line_of(&[
            Part::Word(b"trace: line "),
            Part::Number(*line),
            Part::Word(b": "),
            Part::Word(trace_kind_word(*kind)),
            Part::Word(b"\n"),
        ]),
        TraceFault::NoMemory => line_of(&[Part::Word(b"no memory\n")]),
    }
}
