// Whether the notes of a trace are those of a schedule.
ghost use Rattle.std.specs.Prelude.{◌≡◌, ◌≤◌, ◌<◌, ◌-◌, ◌^◌, ℕ, List, Ok, IfOk, IfErr, IsErrOf, ◌∷◌, length};
ghost use Rattle.dvs_base.specs.declared.note.Note.{Note as NoteOf};
ghost use Rattle.std.specs.List.{AllByRecursion};
ghost use Rattle.dvs_base.specs.Checks.{IsUnlessMemory};
ghost use Rattle.dvs_base.specs.declared.limits.TheConstants.{MOST_JOBS, MOST_TASKS, MOST_TICKS};
ghost use Rattle.task_model.specs.DemandRows.{DemandRow};
ghost use Rattle.sched_model.specs.Plan.{count};
ghost use Rattle.sched_model.specs.Jobs.{released_jobs};
ghost use Rattle.sched_model.specs.States.{opening};
ghost use Rattle.sched_model.specs.Totals.{totals_of};
ghost use Rattle.governor.specs.Schedule.{ask_of};
ghost use Rattle.event_kernel.specs.Runs.{notes_of_run};
ghost use Rattle.trace_reader.specs.Traces.{IsEnded};
ghost use Rattle.replay_laws.specs.OwnList.{AreNotesFor, HasSameNotes};
ghost use Rattle.replay.specs.Comparison.{line_of, differs, comparison};
ghost use Rattle.replay.specs.Replays.{NamesTask, replay_of, IsCause, IsReplayed, IsFirstDifference};
ghost use Rattle.replay.specs.SameTexts.{HasSameTextBy, HasSameText};

use crate::ReplayFault;
use crate::compared::Compared;
use crate::ends::{first_over, fixed_demands};
use dvs_base::{Note, Totals, Version};
use event_kernel::Kernel;
use governor::Governor;
use sched_model::Admitted;
use std::alloc::Global;
use trace_reader::Trace;
use trace_text::has_task_lines;

// The line of a note of a trace, counted from 1, by the note's place from 0.
fn line_of(version: Version, tasks: u32, place: u64, note: &Note) -> u64
    requires tasks { tasks ≤ MOST_TASKS }
    requires place { place < 2 ^ 63 }
    ensures { result ≡ line_of version tasks place note.now }
{
    match (has_task_lines(version), note) {
        (false, _) => place + 3,
        (true, Note::End { .. }) => place + 3 + 2 * tasks as u64,
        (true, _) => place + 3 + tasks as u64,
    }
}

// The refusal of a trace at the first note of `rest`, its last notes: the schedule has `wanted` there.
fn differs(tasks: u32, trace: &Trace, rest: &[Note], wanted: Note) -> ReplayFault
    requires tasks { tasks ≤ MOST_TASKS }
    requires some { 0 < length rest.now }
    ensures { (found : NoteOf) (more : List NoteOf) → rest.now ≡ found ∷ more
        → result ≡ differs tasks trace.now (length trace.now.notes - length rest.now) wanted found }
{
    let place = trace.notes.len().saturating_sub(rest.len()) as u64;
    let found = rest[0];
    let line = line_of(trace.version, tasks, place, &found);
    ReplayFault::Differs {
        line,
        wanted,
        found,
    }
}

// Runs the kernel and compares its notes with those of a trace.
fn compare<G: Governor>(
    kernel: Kernel<'_, G>,
    plan: &Admitted,
    trace: &Trace,
) -> Result<Totals, ReplayFault>
    requires plan { kernel.plan ≡ plan.now }
    requires ended { IsEnded trace.now.notes }
    ensures { result ≡ comparison (count plan.now) trace.now (notes_of_run G.demand kernel.entry) }
{
    let _admitted = plan.scheduler();
    let mut compared = Compared {
        rest: &trace.notes,
        wanted: None,
        stops: 0,
    };
    if let Ok(totals) = kernel.drive(&mut compared) {
        return Ok(totals);
    }
    match compared.wanted {
        Some(wanted) => Err(differs(plan.count(), trace, compared.rest, wanted)),
        None => unreachable!(),
    }
}

// The totals of a trace that passes its replay, otherwise the refusal.
fn check<G: Governor>(
    alloc: Global,
    plan: &Admitted,
    trace: &Trace,
    governor: G,
) -> Result<Totals, ReplayFault>
    requires some_ticks { 1 ≤ trace.now.plan.ticks }
    requires low_ticks { trace.now.plan.ticks ≤ MOST_TICKS }
    requires tasks { AllByRecursion (NamesTask (count plan.now)) trace.now.notes }
    requires ended { IsEnded trace.now.notes }
    requires stands { G.stands governor plan.now (opening plan.now) }
    ensures { IsUnlessMemory ReplayFault.NoMemory (λ totals. totals) result
        (replay_of plan.now (ask_of G.demand plan.now) trace.now) }
{
    if let Some(why) = first_over(plan, &trace.notes) {
        return Err(why);
    }
    let demands = fixed_demands(alloc, plan, &trace.notes)?;
    let kernel = Kernel::new(alloc, plan, &demands, governor, trace.plan.ticks)?;
    compare(kernel, plan, trace)
}

/// The totals of a trace whose notes are those of the governor's schedule for the demands that the notes fix.
///
/// The first `Done` of a job fixes its demand: the units used, or twice the charge if that is more. A job without one
/// has its worst case, and `Done` of job 0 fixes nothing. The refusals come in this order: `OverWorst` at the first `Done`
/// whose units exceed the worst case of its task; `TooManyJobs` if more than `MOST_JOBS` jobs would be released;
/// `Differs` at the first unequal note, with its line. `NoMemory` if memory ran out.
pub fn replay<G: Governor>(
    alloc: Global,
    plan: &Admitted,
    trace: &Trace,
    governor: G,
) -> Result<Totals, ReplayFault>
    requires scheduler { trace.now.plan.scheduler ≡ plan.now.scheduler }
    requires kind { trace.now.plan.governor ≡ G.the_kind }
    requires some_ticks { 1 ≤ trace.now.plan.ticks }
    requires low_ticks { trace.now.plan.ticks ≤ MOST_TICKS }
    requires tasks { AllByRecursion (NamesTask (count plan.now)) trace.now.notes }
    requires ended { IsEnded trace.now.notes }
    requires stands { G.stands governor plan.now (opening plan.now) }

    // The answer is the one stated, refusals too, unless memory ran out.
    ensures answer { IsUnlessMemory ReplayFault.NoMemory (λ totals. totals) result
        (replay_of plan.now (ask_of G.demand plan.now) trace.now) }

    // At Ok the notes are those of the schedule for the demand list that they fix. Within the limit on jobs, notes of
    // the schedule for some demand list are refused only if memory ran out.
    ensures own_list { IfOk result (λ totals. IsReplayed plan.now (ask_of G.demand plan.now) trace.now totals) }
    ensures some_list { (rows : List DemandRow)
        → AreNotesFor plan.now (ask_of G.demand plan.now) trace.now.plan.ticks trace.now.notes rows
        → released_jobs plan.now trace.now.plan.ticks ≤ MOST_JOBS
        → IsUnlessMemory ReplayFault.NoMemory (λ totals. totals) result (Ok (totals_of trace.now.notes)) }

    // The schedules for two demand lists have the same notes, and the same text, exactly if each job that completes
    // needs the same by both lists, and each other released job needs more by the second list than it has had.
    ensures same_notes { HasSameNotes plan.now (ask_of G.demand plan.now) }
    ensures same_text { HasSameTextBy plan.now (ask_of G.demand plan.now) G.the_kind }
    // So do the runs under the published demand of each governor, if they are within the limits.
    ensures same_published { HasSameText plan.now }

    // A refusal shows its cause, and a difference is the first one.
    ensures shown { IfErr result IsCause }
    ensures differs { (line : ℕ) (wanted found : NoteOf)
        → IsErrOf result (ReplayFault.Differs line wanted found)
        → IsFirstDifference plan.now (ask_of G.demand plan.now) trace.now line wanted found }
{
    let _admitted = plan.scheduler();
    check(alloc, plan, trace, governor)
}
