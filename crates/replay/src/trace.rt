// A trace, written in either version.
ghost use Rattle.std.specs.Prelude.{◌≡◌, ◌≤◌, flat_map, length};
ghost use Rattle.dvs_base.specs.WritesText.{WritesText};
ghost use Rattle.sched_model.specs.Plan.{count, names};
ghost use Rattle.trace_writer.specs.RunText.{task_texts};
ghost use Rattle.trace_text.specs.TraceText.{text_of_lines};
ghost use Rattle.trace_reader.specs.Traces.{IsTrace, text_of};
ghost use Rattle.trace_writer.specs.UnnotedLines.{WritesUnnoted};
ghost use Rattle.replay.specs.NotePuts.{sums_before, lines_with};

use dvs_base::{Failed, Line, Note, Sink, Version, put_line};
use sched_model::Admitted;
use trace_reader::{Trace, task_energies};
use trace_text::write_note;
use trace_writer::{Head, put_head, put_sums};

// Puts the lines before that of a note: those of the energies of the tasks before the end of the run, otherwise nothing.
fn put_sums_before<W: Sink>(
    head: Head<'_>,
    energies: &[u128],
    note: &Note,
    out: &mut W,
) -> Result<(), Failed>
    requires { count head.plan.now ≤ length energies.now }
    ensures { WritesUnnoted (W.shows out.old) (W.shows out.new)
        (sums_before head.entry.version head.entry.plan.now energies.now note.now) result }
{
    match *note {
        Note::End { .. } => put_sums(head, energies, out),
        _ => Ok(()),
    }
}

// Puts the lines of a note: those before its own, and its own, which is written into `line`.
fn put_lines<W: Sink>(
    head: Head<'_>,
    energies: &[u128],
    note: &Note,
    line: &mut Line,
    out: &mut W,
) -> Result<(), Failed>
    requires { count head.plan.now ≤ length energies.now }
    ensures { WritesText (W.shows out.old) (W.shows out.new)
        (text_of_lines (lines_with head.entry.version head.entry.plan.now energies.now note.now)) result }
{
    put_sums_before(head, energies, note, out)?;
    line.clear();
    write_note(line, note, head.plan.names());
    put_line(line, out)
}

// Puts the lines of notes, by the energies of the tasks.
fn put_notes<W: Sink>(
    head: Head<'_>,
    energies: &[u128],
    notes: &[Note],
    out: &mut W,
) -> Result<(), Failed>
    requires { count head.plan.now ≤ length energies.now }
    ensures { WritesText (W.shows out.old) (W.shows out.new) (text_of_lines
        (flat_map (lines_with head.entry.version head.entry.plan.now energies.now) notes.now)) result }
{
    let mut line = Line::new();
    for note in notes {
        put_lines(head, energies, note, &mut line, out)?;
    }
    Ok(())
}

/// Writes the text of a trace of an admitted plan in this version, one `put` a line. It takes no memory. `Failed` comes
/// only if the sink's count of faults rose, with a first part of the text put.
pub fn put_trace<W: Sink>(
    plan: &Admitted,
    trace: &Trace,
    version: Version,
    out: &mut W,
) -> Result<(), Failed>
    requires scheduler { trace.now.plan.scheduler ≡ plan.now.scheduler }
    requires trace { IsTrace (names plan.now) (task_texts plan.now) (record trace.now { version = version }) }
    ensures { WritesText (W.shows out.old) (W.shows out.new)
        (text_of (names plan.now) (task_texts plan.now) (record trace.now { version = version })) result }
{
    let _admitted = plan.scheduler();
    let energies = task_energies(&trace.notes);
    let head = Head {
        version,
        governor: trace.plan.governor,
        plan,
        ticks: trace.plan.ticks,
    };
    put_head(head, out)?;
    put_notes(head, &energies, &trace.notes, out)
}
