// The lines of a trace.
ghost use Rattle.std.specs.Prelude.{◌≡◌, ◌+◌, ◌≤◌, ◌++◌, [], ◌∷◌, codes, length};
ghost use Rattle.std.specs.Fmt.{decimal};
ghost use Rattle.std.specs.Option.{option_copied};
ghost use Rattle.dvs_base.specs.Parts.{part_text, most_bytes, fraction_text, name_text, position_text};
ghost use Rattle.dvs_base.specs.declared.limits.TheConstants.{LINE_BYTES, NAME_BYTES, POSITION_BYTES};
ghost use Rattle.trace_text.specs.declared.limits.TheConstants.{JOB_BYTES, NOTE_LINE_BYTES};
ghost use Rattle.trace_text.specs.TraceLines.{line, run_fields, idle_fields, done_fields, fields_with, note_text, plan_text, scheduler_word, governor_word};

use dvs_base::{
    GovernorKind, Line, Name, Note, Part, Pos, Scheduler, line_of, push_name, push_number,
    push_position, push_ratio, push_wide, push_word,
};

/// The plan of a trace: the scheduler, the governor and the number of ticks.
#[derive(Clone, Copy, Debug, PartialEq, Eq)]
pub struct PlanLine {
    pub scheduler: Scheduler,
    pub governor: GovernorKind,
    pub ticks: u64,
}

// The ends of a segment: where it begins and where it ends.
#[derive(Clone, Copy)]
struct Span {
    from: Pos,
    to: Pos,
}

/// The word of a scheduler in a plan line: `edf` or `rm`.
pub fn scheduler_word(scheduler: Scheduler) -> &'static [u8]
    ensures { result.now ≡ scheduler_word scheduler }
{
    match scheduler {
        Scheduler::Edf => b"edf",
        Scheduler::Rm => b"rm",
    }
}

/// The word of a governor in a plan line: `none`, `static`, `cc` or `la`.
pub fn governor_word(governor: GovernorKind) -> &'static [u8]
    ensures { result.now ≡ governor_word governor }
{
    match governor {
        GovernorKind::Plain => b"none",
        GovernorKind::Fixed => b"static",
        GovernorKind::Cycle => b"cc",
        GovernorKind::Ahead => b"la",
    }
}

/// Writes the plan line of a trace.
pub fn write_head(line: &mut Line, plan: PlanLine)
    requires { line.old ≡ [] }
    ensures { line.new ≡ plan_text plan.scheduler plan.governor plan.ticks }
{
    *line = line_of(&[
        Part::Word(b"plan "),
        Part::Word(scheduler_word(plan.scheduler)),
        Part::Word(b" "),
        Part::Word(governor_word(plan.governor)),
        Part::Word(b" "),
        Part::Number(plan.ticks),
        Part::Word(b"\n"),
    ]);
}

// Appends a position as `tick:offset`. Most positions are at the beginning of a tick, so their `:0` is a word.
#[inline]
fn push_at(to: &mut Line, pos: Pos)
    requires { length to.old + POSITION_BYTES ≤ LINE_BYTES }
    ensures text { to.new ≡ to.old ++ position_text pos }
    ensures most { length to.new ≤ length to.old + POSITION_BYTES }
{
    if pos.offset > 0 {
        push_position(to, pos);
        return;
    }
    push_number(to, pos.tick);
    push_word(to, b":0");
}

// Appends a name, or nothing if there is none.
#[inline]
fn push_task(to: &mut Line, name: Option<&Name>)
    requires { length to.old + NAME_BYTES ≤ LINE_BYTES }
    ensures text { to.new ≡ to.old ++ name_text (option_copied name.entry) }
    ensures most { length to.new ≤ length to.old + NAME_BYTES }
{
    match name {
        Some(name) => push_name(to, name),
        None => {}
    }
}

// Appends the name of a task, a space, and the number of the job.
#[inline]
fn push_job(to: &mut Line, name: Option<&Name>, job: u64)
    requires { length to.old + JOB_BYTES ≤ LINE_BYTES }
    ensures text { to.new ≡ to.old ++ name_text (option_copied name.entry) ++ codes " " ++ decimal job }
    ensures most { length to.new ≤ length to.old + JOB_BYTES }
{
    push_task(to, name);
    push_word(to, b" ");
    push_number(to, job);
}

fn push_release(to: &mut Line, tick: u64, name: Option<&Name>, job: u64)
    requires empty { to.old ≡ [] }
    ensures text { to.new
        ≡ line (codes "release" ∷ decimal tick ∷ name_text (option_copied name.entry) ∷ decimal job ∷ []) }
    ensures most { length to.new ≤ NOTE_LINE_BYTES }
{
    push_word(to, b"release ");
    push_number(to, tick);
    push_word(to, b" ");
    push_job(to, name, job);
    push_word(to, b"\n");
}

fn push_speed(to: &mut Line, tick: u64, speed: u64, num: u128, den: u128)
    requires empty { to.old ≡ [] }
    ensures text { to.new ≡ line (codes "speed" ∷ decimal tick ∷ decimal speed ∷ fraction_text num den ∷ []) }
    ensures most { length to.new ≤ NOTE_LINE_BYTES }
{
    push_word(to, b"speed ");
    push_number(to, tick);
    push_word(to, b" ");
    push_number(to, speed);
    push_word(to, b" ");
    push_ratio(to, num, den);
    push_word(to, b"\n");
}

// The work units of a segment and its energy are a pair.
fn push_run(to: &mut Line, span: Span, name: Option<&Name>, job: u64, spent: (u64, u128))
    requires empty { to.old ≡ [] }
    ensures text { to.new
        ≡ line (run_fields span.from span.to (name_text (option_copied name.entry)) job spent.0 spent.1) }
    ensures most { length to.new ≤ NOTE_LINE_BYTES }
{
    push_word(to, b"run ");
    push_at(to, span.from);
    push_word(to, b" ");
    push_at(to, span.to);
    push_word(to, b" ");
    push_job(to, name, job);
    push_word(to, b" ");
    push_number(to, spent.0);
    push_word(to, b" ");
    push_wide(to, spent.1);
    push_word(to, b"\n");
}

fn push_idle(to: &mut Line, span: Span, units: u64, energy: u128)
    requires empty { to.old ≡ [] }
    ensures text { to.new ≡ line (idle_fields span.from span.to units energy) }
    ensures most { length to.new ≤ NOTE_LINE_BYTES }
{
    push_word(to, b"idle ");
    push_at(to, span.from);
    push_word(to, b" ");
    push_at(to, span.to);
    push_word(to, b" ");
    push_number(to, units);
    push_word(to, b" ");
    push_wide(to, energy);
    push_word(to, b"\n");
}

fn push_done(to: &mut Line, at: Pos, name: Option<&Name>, job: u64, used: u64)
    requires empty { to.old ≡ [] }
    ensures text { to.new ≡ line (done_fields at (name_text (option_copied name.entry)) job used) }
    ensures most { length to.new ≤ NOTE_LINE_BYTES }
{
    push_word(to, b"done ");
    push_at(to, at);
    push_word(to, b" ");
    push_job(to, name, job);
    push_word(to, b" ");
    push_number(to, used);
    push_word(to, b"\n");
}

fn push_end(to: &mut Line, ticks: u64, run: u128, idle: u128)
    requires empty { to.old ≡ [] }
    ensures text { to.new ≡ line (codes "end" ∷ decimal ticks ∷ decimal run ∷ decimal idle ∷ []) }
    ensures most { length to.new ≤ NOTE_LINE_BYTES }
{
    push_word(to, b"end ");
    push_number(to, ticks);
    push_word(to, b" ");
    push_wide(to, run);
    push_word(to, b" ");
    push_wide(to, idle);
    push_word(to, b"\n");
}

// Appends the line of a note, with its task's name.
fn push_note(to: &mut Line, note: &Note, name: Option<&Name>)
    requires empty { to.old ≡ [] }
    ensures text { to.new ≡ line (fields_with (name_text (option_copied name.entry)) note.now) }
    ensures most { length to.new ≤ NOTE_LINE_BYTES }
{
    match *note {
        Note::Release { tick, job, .. } => push_release(to, tick, name, job),
        Note::Speed {
            tick,
            speed,
            num,
            den,
        } => push_speed(to, tick, speed, num, den),
        Note::Run {
            from,
            to: until,
            job,
            units,
            energy,
            ..
        } => push_run(to, Span { from, to: until }, name, job, (units, energy)),
        Note::Idle {
            from,
            to: until,
            units,
            energy,
        } => push_idle(to, Span { from, to: until }, units, energy),
        Note::Done { at, job, used, .. } => push_done(to, at, name, job, used),
        Note::End { ticks, run, idle } => push_end(to, ticks, run, idle),
    }
}

/// Writes the line of a note, with its line feed, at most [`NOTE_LINE_BYTES`](crate::NOTE_LINE_BYTES) bytes. The name of a task without one is empty.
#[tactic(auto, unfolding(crate::specs::TraceLines::note_text))]
pub fn write_note(line: &mut Line, note: &Note, names: &[Name])
    requires { line.old ≡ [] }
    ensures { line.new ≡ note_text names.now note.now }
{
    let name = note.task().and_then(|task| names.get(task as usize));
    push_note(line, note, name);
}

/// The line of a note, with its line feed, and with this name for its task. It takes no memory.
pub fn note_line(note: &Note, name: Option<&Name>) -> Line
    ensures text { result ≡ line (fields_with (name_text (option_copied name.entry)) note.now) }
    ensures most { length result ≤ NOTE_LINE_BYTES }
{
    let mut text = Line::new();
    push_note(&mut text, note, name);
    text
}
