// A trace compared with the schedule for the demands that it fixes, and what `replay` and `migrate` prepare.
ghost use Rattle.command_files.specs.GivenFiles.{ForFiles};
ghost use Rattle.statuses.specs.Steps.{Gives, IsTestStep};
ghost use Rattle.command_files.specs.Meanings.{tasks_at};
ghost use Rattle.std.specs.Prelude.{Some, ◌≡◌, map, IfOk, ◌<◌, length};
ghost use Rattle.dvs_base.specs.Checks.{IsUnlessMemory};
ghost use Rattle.trace_reader.specs.Traces.{IsTrace};
ghost use Rattle.words.specs.Commands.{traced};
ghost use Rattle.words.specs.Shown.{shown_trace};
ghost use Rattle.command_files.specs.Loads.{IsLoadStep, one_file, later_files};
ghost use Rattle.rtdvs_top.specs.Trace.{task_names, task_line, lines_of_tasks, trace_of, trace_at, traced_of, replay_status, totals_at, replayed_text, IsMigratable};
ghost use Rattle.rtdvs_top.specs.Prepared.{IsComparable, IsPrepareStep, ForFilesWith};

use crate::at_pair::at_pair;
use crate::prepared::Prepared;
use crate::{FileKind, Status};
use command_files::{admit, load_file, load_machine};
use dvs_base::{Line, Name, NoMemory, Part, Shelf, Totals, line_of};
use governor::Publishing;
use replay::{ReplayFault, replay};
use sched_model::Admitted;
use std::alloc::Global;
use task_model::TaskSet;
use trace_reader::{Trace, TraceFault, read_any};
use trace_text::TaskLine;
use words::command::{TraceUse, TraceWords};

// The names of tasks.
fn task_names(alloc: Global, tasks: &TaskSet) -> Result<Vec<Name>, NoMemory>
    ensures { IfOk result (λ v. v.items ≡ task_names tasks.now) }
{
    let mut names = Vec::new(alloc);
    for i in 0..tasks.count() {
        names.push(tasks.task(i).name)?;
    }
    Ok(names)
}

/// The task lines of version 2 of a trace, one for each task.
pub(crate) fn task_lines(alloc: Global, tasks: &TaskSet) -> Result<Vec<TaskLine>, NoMemory>
    ensures { IfOk result (λ v. v.items ≡ map task_line tasks.now) }
{
    let mut lines = Vec::new(alloc);
    for i in 0..tasks.count() {
        let task = tasks.task(i);
        let line = TaskLine {
            period: task.period,
            offset: task.offset,
            worst: task.worst,
        };
        lines.push(line)?;
    }
    Ok(lines)
}

// The trace of a text for these tasks.
fn read_trace(alloc: Global, bytes: &[u8], tasks: &TaskSet) -> Result<Trace, TraceFault>
    ensures read { IsUnlessMemory TraceFault.NoMemory (λ t. t) result (trace_of tasks.now bytes.now) }
    ensures trace { IfOk result (IsTrace (task_names tasks.now) (lines_of_tasks tasks.now)) }
{
    let _limits = tasks.as_slice();
    let names = task_names(alloc, tasks)?;
    let lines = task_lines(alloc, tasks)?;
    read_any(alloc, bytes, &names, &lines)
}

// The trace of a file, of either version.
fn load_trace<S: Shelf>(
    alloc: Global,
    name: &str,
    tasks: &TaskSet,
    shelf: &mut S,
) -> Result<Trace, Status>
    ensures step { ForFiles (S.shows shelf.old) (S.shows shelf.new) (IsLoadStep (one_file FileKind.Trace name.now
        (trace_at tasks.now name.now)) (S.shows shelf.old) (S.shows shelf.new) result (λ t. t)) }
    ensures trace { IfOk result (IsTrace (task_names tasks.now) (lines_of_tasks tasks.now)) }
{
    let bytes = load_file(alloc, FileKind::Trace, name, shelf)?;
    Ok(read_trace(alloc, &bytes, tasks)?)
}

// The admitted plan and the trace of `replay` or `migrate`, after its tasks were read.
fn load_traced<S: Shelf>(
    alloc: Global,
    words: &TraceWords<'_>,
    tasks: &TaskSet,
    shelf: &mut S,
) -> Result<(Admitted, Trace), Status>
    ensures step { ForFiles (S.shows shelf.old) (S.shows shelf.new) (λ files. IsLoadStep
        (later_files files (traced (shown_trace words.now)) (traced_of (shown_trace words.now) tasks.now))
        (S.shows shelf.old) (S.shows shelf.new) result (λ x. (x.0, x.1)) files) }
    ensures compared { IfOk result (λ x. IsComparable x.0 x.1) }
{
    let machine = load_machine(alloc, words.machine, shelf)?;
    let trace = load_trace(alloc, words.trace, tasks, shelf)?;
    let plan = admit(alloc, trace.plan.scheduler, tasks, &machine)?;
    Ok((plan, trace))
}

// A refusal of a replay as a status.
fn replay_status(why: ReplayFault) -> Status
    ensures { result ≡ replay_status why }
{
    match why {
        ReplayFault::OverWorst {
            task,
            job,
            used,
            worst,
        } => Status::OverWorst {
            task,
            job,
            units: used,
            worst,
        },
        ReplayFault::TooManyJobs { count } => Status::Limit { jobs: count },
        ReplayFault::Differs {
            line,
            wanted,
            found,
        } => Status::Differs {
            line,
            wanted,
            found,
        },
        ReplayFault::NoMemory => Status::NoMemory,
    }
}

// The totals of a trace, compared with the schedule under governor `G`.
fn compare_governed<G: Publishing>(
    alloc: Global,
    plan: &Admitted,
    trace: &Trace,
) -> Result<Totals, Status>
    requires trace { IsComparable plan.now trace.now }
    requires kind { trace.now.plan.governor ≡ G.the_kind }
    requires serves { G.serves plan.now.scheduler }
    ensures step { IsTestStep (totals_at (plan.now, trace.now)) result (λ totals. totals) }
    ensures migratable { IfOk result (λ totals. IsMigratable plan.now trace.now) }
{
    let _admitted = plan.scheduler();
    let governor = G::made(alloc, plan)?;
    replay(alloc, plan, trace, governor).map_err(replay_status)
}

/// The totals of a trace, compared with the schedule under the governor of its pair.
pub(crate) fn compare_pair(alloc: Global, plan: &Admitted, trace: &Trace) -> Result<Totals, Status>
    requires trace { IsComparable plan.now trace.now }
    ensures step { IsTestStep (totals_at (plan.now, trace.now)) result (λ totals. totals) }
    ensures migratable { IfOk result (λ totals. IsMigratable plan.now trace.now) }
{
    at_pair!(
        plan.scheduler(),
        trace.plan.governor,
        compare_governed,
        [],
        alloc,
        plan,
        trace
    )
}

// The line of a replay.
fn replayed_line(totals: Totals) -> Line
    ensures text { result ≡ replayed_text totals }
    ensures some { 0 < length result }
{
    line_of(&[
        Part::Word(b"replayed "),
        Part::Number(totals.released),
        Part::Word(b" "),
        Part::Number(totals.finished),
        Part::Word(b" "),
        Part::Wide(totals.run),
        Part::Word(b" "),
        Part::Wide(totals.idle),
        Part::Word(b"\n"),
    ])
}

/// What `replay` or `migrate` prepares, after its tasks were read. The whole trace is compared before anything is put.
pub(crate) fn prepare_trace<'a, S: Shelf>(
    alloc: Global,
    words: &TraceWords<'_>,
    tasks: &'a TaskSet,
    shelf: &mut S,
) -> Result<Prepared<'a>, Status>
    ensures { ForFilesWith (S.shows shelf.old) (S.shows shelf.new)
        (λ files. Gives files (tasks_at words.now.tasks.now) tasks.now)
        (IsPrepareStep (S.shows shelf.old) (S.shows shelf.new) (traced (shown_trace words.now)) (Some tasks.now) result) }
{
    let (plan, trace) = load_traced(alloc, words, tasks, shelf)?;
    let _admitted = plan.scheduler();
    let totals = compare_pair(alloc, &plan, &trace)?;
    match words.asked {
        TraceUse::Replay => Ok(Prepared::Line(replayed_line(totals))),
        TraceUse::Migrate => Ok(Prepared::Migrated(plan, trace)),
    }
}
