// The answer to a command: its tasks are read, it prepares the rest, and that is put.
ghost use Rattle.command_files.specs.GivenFiles.{ForFiles};
ghost use Rattle.std.specs.Prelude.{◌≡◌};
ghost use Rattle.words.specs.Commands.{IsReadyCommand, asks_probes};
ghost use Rattle.words.specs.Shown.{shown_command};
ghost use Rattle.probes.specs.Outputs.{outputs_of};
ghost use Rattle.statuses.specs.Status.{Leaves, LeavesProbes};
ghost use Rattle.rtdvs_top.specs.Prepared.{IsAnswered, IsTasksStep, views_of, status_of_put};

use crate::Status;
use crate::prepare::prepare;
use crate::put::put;
use command_files::load_tasks;
use dvs_base::{Shelf, Sink};
use probes::Probe;
use std::alloc::Global;
use task_model::TaskSet;
use words::command::Command;

// The tasks of a command, if it names a file of them.
fn load_its_tasks<S: Shelf>(
    alloc: Global,
    command: &Command<'_>,
    shelf: &mut S,
) -> Result<Option<TaskSet>, Status>
    ensures { ForFiles (S.shows shelf.old) (S.shows shelf.new)
        (IsTasksStep (S.shows shelf.old) (S.shows shelf.new) (shown_command command.now) result) }
{
    match command.tasks() {
        Some(name) => Ok(Some(load_tasks(alloc, name, shelf)?)),
        None => Ok(None),
    }
}

// The status of a put: `Done`, or that with which it failed.
fn status_of_put(wrote: Result<(), Status>) -> Status
    ensures { result ≡ status_of_put wrote }
{
    match wrote {
        Ok(()) => Status::Done,
        Err(status) => status,
    }
}

/// Answers a command: its status, and its tasks if they were read. If the command is refused nothing is put.
pub(crate) fn answer_command<S: Shelf, W: Sink, P: Probe>(
    alloc: Global,
    command: &Command<'_>,
    shelf: &mut S,
    out: &mut W,
    probes: &mut Vec<P>,
) -> (Status, Option<TaskSet>)
    requires { IsReadyCommand (shown_command command.now) }
    ensures answered { ForFiles (S.shows shelf.old) (S.shows shelf.new) (IsAnswered (shown_command command.now)
        (views_of (S.shows shelf.old) (outputs_of W.shows P.seen out.old probes.old))
        (views_of (S.shows shelf.new) (outputs_of W.shows P.seen out.new probes.new)) result.0 result.1) }
    ensures leaves { Leaves result.0 out.old out.new }
    ensures kept { LeavesProbes (asks_probes (shown_command command.now)) result.0 probes.old probes.new }
{
    let tasks = match load_its_tasks(alloc, command, shelf) {
        Ok(tasks) => tasks,
        Err(status) => return (status, None),
    };
    match prepare(alloc, command, tasks.as_ref(), shelf) {
        Ok(prepared) => (status_of_put(put(alloc, prepared, out, probes)), tasks),
        Err(status) => (status, tasks),
    }
}
