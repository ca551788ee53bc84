// The answer of `constrain`, the test of deadlines below the periods.
ghost use Rattle.command_files.specs.GivenFiles.{ForFiles};
ghost use Rattle.statuses.specs.Steps.{Gives, IsTestStep};
ghost use Rattle.command_files.specs.Meanings.{tasks_at};
ghost use Rattle.std.specs.Prelude.{Some, ◌≡◌, ◌<◌, length, slice_index, IfOk, OnOk, IfErr};
ghost use Rattle.command_files.specs.Loads.{IsLoadStep, one_file};
ghost use Rattle.dvs_base.specs.declared.kind.Scheduler.TheVariants.{Edf};
ghost use Rattle.sched_model.specs.Plan.{plan_of};
ghost use Rattle.deadline_list.specs.Deadlines.{AreFor};
ghost use Rattle.words.specs.Commands.{constrain as constrain_of};
ghost use Rattle.words.specs.Shown.{shown_constrain};
ghost use Rattle.statuses.specs.Status.{IsOfFile};
ghost use Rattle.rtdvs_top.specs.Constrain.{deadlines_at, constrained_text, constrained_on, constrain_with, KeepsDeadlines};
ghost use Rattle.rtdvs_top.specs.Prepared.{RefusesBy, IsPrepareStep, ForFilesWith};

use crate::prepared::Prepared;
use crate::{Denied, FileKind, Status};
use command_files::{load_file, load_machine};
use dvs_base::{Line, Part, Shelf, line_of};
use edf_demand::{ConstrainFault, Constrained, Deadlines, constrain};
use freq_table::Machine;
use std::alloc::Global;
use task_model::TaskSet;
use words::command::ConstrainWords;

// The relative deadlines of a file.
fn load_deadlines<S: Shelf>(
    alloc: Global,
    name: &str,
    tasks: &TaskSet,
    shelf: &mut S,
) -> Result<Deadlines, Status>
    ensures step { ForFiles (S.shows shelf.old) (S.shows shelf.new) (IsLoadStep (one_file FileKind.Deadlines name.now
        (deadlines_at tasks.now name.now))
        (S.shows shelf.old) (S.shows shelf.new) result (λ v. v)) }
    ensures each { IfOk result (AreFor tasks.now) }
    ensures of_file { IfErr result IsOfFile }
{
    let bytes = load_file(alloc, FileKind::Deadlines, name, shelf)?;
    Ok(Deadlines::read(alloc, &bytes, tasks)?)
}

// The line of the speed that was found.
fn constrained_line(machine: &Machine, found: Constrained) -> Line
    requires { found.point < length machine.now.points }
    ensures text { result ≡ constrained_text machine.now found }
    ensures some { 0 < length result }
{
    let point = machine.point(found.point);
    line_of(&[
        Part::Word(b"constrained "),
        Part::Ratio(found.demand.num, found.demand.den),
        Part::Word(b" "),
        Part::Number(point.speed),
        Part::Word(b"\n"),
    ])
}

/// The lowest speed for tasks with these deadlines on a machine, with their demand; or the status of a task with an
/// offset, of too many jobs, or of a demand that the highest speed doesn't meet.
pub fn constrained_of(
    alloc: Global,
    tasks: &TaskSet,
    deadlines: &Deadlines,
    machine: &Machine,
) -> Result<Constrained, Status>
    requires { AreFor tasks.now deadlines.now }
    ensures step { IsTestStep (constrained_on tasks.now machine.now deadlines.now) result (λ c. c) }
    ensures point { IfOk result (λ c. c.point < length machine.now.points) }
    ensures proves { OnOk result (KeepsDeadlines (plan_of tasks.now machine.now Edf) (slice_index deadlines.now)) }
    ensures fails { IfErr result (RefusesBy (plan_of tasks.now machine.now Edf) (slice_index deadlines.now)) }
{
    let _entries = machine.as_slice();
    constrain(alloc, tasks, deadlines, machine).map_err(|why| match why {
        ConstrainFault::Offset { task } => Status::NotAdmitted(Denied::Offset { task }),
        ConstrainFault::TooManyJobs { count } => Status::Limit { jobs: count },
        ConstrainFault::Denied { at, num, cap } => {
            Status::NotAdmitted(Denied::Demand { at, num, cap })
        }
        ConstrainFault::NoMemory => Status::NoMemory,
    })
}

// The line of the lowest speed for tasks with these deadlines on a machine.
#[tactic(auto, unfolding(crate::specs::Constrain::constrain_with))]
fn lowest_line(
    alloc: Global,
    tasks: &TaskSet,
    deadlines: &Deadlines,
    machine: &Machine,
) -> Result<Line, Status>
    requires { AreFor tasks.now deadlines.now }
    ensures step { IsTestStep (constrain_with tasks.now machine.now deadlines.now) result (λ l. l) }
    ensures some { IfOk result (λ l. 0 < length l) }
    ensures proves { OnOk result (KeepsDeadlines (plan_of tasks.now machine.now Edf) (slice_index deadlines.now)) }
    ensures fails { IfErr result (RefusesBy (plan_of tasks.now machine.now Edf) (slice_index deadlines.now)) }
{
    let found = constrained_of(alloc, tasks, deadlines, machine)?;
    Ok(constrained_line(machine, found))
}

/// What `constrain` prepares, after its tasks were read.
pub(crate) fn prepare_constrain<'a, S: Shelf>(
    alloc: Global,
    words: &ConstrainWords<'_>,
    tasks: &'a TaskSet,
    shelf: &mut S,
) -> Result<Prepared<'a>, Status>
    ensures { ForFilesWith (S.shows shelf.old) (S.shows shelf.new)
        (λ files. Gives files (tasks_at words.now.tasks.now) tasks.now)
        (IsPrepareStep (S.shows shelf.old) (S.shows shelf.new) (constrain_of (shown_constrain words.now)) (Some tasks.now) result) }
{
    let machine = load_machine(alloc, words.machine, shelf)?;
    let deadlines = load_deadlines(alloc, words.deadlines, tasks, shelf)?;
    Ok(Prepared::Line(lowest_line(alloc, tasks, &deadlines, &machine)?))
}
