// The lines of a trace: its head, the energies of the tasks, and a note's.
ghost use Rattle.std.specs.Prelude.{◌≡◌, ◌<◌, ◌≤◌, [], ◌∷◌, if◌then◌else◌, length};
ghost use Rattle.dvs_base.specs.Parts.{name_of};
ghost use Rattle.sched_model.specs.Plan.{count, names, task, period, offset};
ghost use Rattle.trace_text.specs.TraceLines.{plan_text};
ghost use Rattle.trace_text.specs.TraceText.{version_line, task_text, share_text, unnoted_line, line_of_note, has_task_lines, for_tasks, head_lines};
ghost use Rattle.probes.specs.Outputs.{outputs_of};
ghost use Rattle.trace_writer.specs.Lines.{WritesLines};
ghost use Rattle.trace_writer.specs.RunText.{task_texts};
ghost use Rattle.trace_writer.specs.UnnotedLines.{WritesUnnoted, sum_lines};

use dvs_base::{Failed, GovernorKind, Line, Name, Note, Sink, Version, put_line};
use probes::{Probe, tell_all};
use sched_model::Admitted;
use trace_text::{
    PlanLine, TaskLine, has_task_lines, write_head, write_note, write_share, write_task,
    write_version,
};

/// What the head of a trace says.
#[derive(Clone, Copy)]
pub struct Head<'a> {
    pub version: Version,
    pub governor: GovernorKind,
    pub plan: &'a Admitted,
    pub ticks: u64,
}

// Puts the line of a trace's version.
fn put_version<W: Sink>(version: Version, out: &mut W) -> Result<(), Failed>
    ensures { WritesUnnoted (W.shows out.old) (W.shows out.new) (unnoted_line (version_line version) ∷ []) result }
{
    let mut line = Line::new();
    write_version(&mut line, version);
    put_line(&line, out)
}

// Puts the line of a trace's plan.
fn put_plan<W: Sink>(head: Head<'_>, out: &mut W) -> Result<(), Failed>
    ensures { WritesUnnoted (W.shows out.old) (W.shows out.new)
        (unnoted_line (plan_text head.entry.plan.now.scheduler head.entry.governor head.entry.ticks) ∷ []) result }
{
    let mut line = Line::new();
    write_head(
        &mut line,
        PlanLine {
            scheduler: head.plan.scheduler(),
            governor: head.governor,
            ticks: head.ticks,
        },
    );
    put_line(&line, out)
}

// Puts the line of a task: its name, its period, its offset and its declared worst case.
fn put_task<W: Sink>(plan: &Admitted, i: u32, out: &mut W) -> Result<(), Failed>
    requires { i < count plan.now }
    ensures { WritesUnnoted (W.shows out.old) (W.shows out.new) (unnoted_line (task_text (name_of (names plan.now) i)
        (period plan.now i) (offset plan.now i) (task plan.now i).worst) ∷ []) result }
{
    let mut line = Line::new();
    let task = TaskLine {
        period: plan.period(i),
        offset: plan.offset(i),
        worst: plan.declared(i),
    };
    write_task(&mut line, &plan.names()[i as usize], task);
    put_line(&line, out)
}

// Puts the line of a task's energy, with its name.
fn put_share<W: Sink>(plan: &Admitted, i: u32, energy: u128, out: &mut W) -> Result<(), Failed>
    requires { i < count plan.now }
    ensures { WritesUnnoted (W.shows out.old) (W.shows out.new)
        (unnoted_line (share_text (name_of (names plan.now) i) energy) ∷ []) result }
{
    let mut line = Line::new();
    write_share(&mut line, &plan.names()[i as usize], energy);
    put_line(&line, out)
}

// The number of lines for the tasks: one for each in a version that has such lines, and none in another.
fn count_task_lines(version: Version, plan: &Admitted) -> u32
    ensures number { result ≡ (if has_task_lines version then count plan.now else 0) }
    ensures most { result ≤ count plan.now }
{
    if has_task_lines(version) {
        plan.count()
    } else {
        0
    }
}

// Puts a line for each task in a version that has such lines, and nothing in another.
fn put_tasks<W: Sink>(version: Version, plan: &Admitted, out: &mut W) -> Result<(), Failed>
    ensures { WritesUnnoted (W.shows out.old) (W.shows out.new) (for_tasks version (task_texts plan.now)) result }
{
    for i in 0..count_task_lines(version, plan) {
        put_task(plan, i, out)?;
    }
    Ok(())
}

/// Puts the lines before the notes: the version, the plan, and those of the tasks. `Failed` comes only if the sink
/// failed at one of them.
pub fn put_head<W: Sink>(head: Head<'_>, out: &mut W) -> Result<(), Failed>
    ensures { WritesUnnoted (W.shows out.old) (W.shows out.new)
        (head_lines head.entry.version head.entry.plan.now.scheduler head.entry.governor head.entry.ticks
        (task_texts head.entry.plan.now)) result }
{
    put_version(head.version, out)?;
    put_plan(head, out)?;
    put_tasks(head.version, head.plan, out)
}

/// Puts a line with each task's energy in a version that has such lines, and nothing in another. `energies` has one for
/// each task, in the unit of a note's energy. `Failed` comes only if the sink failed at one of the lines.
pub fn put_sums<W: Sink>(head: Head<'_>, energies: &[u128], out: &mut W) -> Result<(), Failed>
    requires { count head.plan.now ≤ length energies.now }
    ensures { WritesUnnoted (W.shows out.old) (W.shows out.new)
        (sum_lines head.entry.version head.entry.plan.now energies.now) result }
{
    for i in 0..count_task_lines(head.version, head.plan) {
        put_share(head.plan, i, energies[i as usize], out)?;
    }
    Ok(())
}

/// Puts the line of a note, which is written into `line`, and then tells the probes the note. `Failed` comes only if the
/// sink failed at the line; then no probe is told.
#[inline]
pub fn tell_note<W: Sink, P: Probe>(
    note: &Note,
    names: &[Name],
    line: &mut Line,
    out: &mut W,
    probes: &mut Vec<P>,
) -> Result<(), Failed>
    ensures { WritesLines (outputs_of W.shows P.seen out.old probes.old) (outputs_of W.shows P.seen out.new probes.new)
        (line_of_note names.now note.now ∷ []) result }
{
    line.clear();
    write_note(line, note, names);
    put_line(line, out)?;
    tell_all(probes, note);
    Ok(())
}
