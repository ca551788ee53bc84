// What a command prepares: its files loaded and read, its tests made.
ghost use Rattle.std.specs.Option.{option_copied};
ghost use Rattle.std.specs.Prelude.{None};
ghost use Rattle.words.specs.Commands.{IsReadyCommand, tasks_name};
ghost use Rattle.words.specs.Shown.{shown_command};
ghost use Rattle.rtdvs_top.specs.Prepared.{AreTasksAt, IsPrepareStep, ForFilesWith};

use crate::Status;
use crate::admit::prepare_admit;
use crate::constrain::prepare_constrain;
use crate::generated::prepare_workload;
use crate::least::prepare_least;
use crate::poll::prepare_poll;
use crate::prepared::Prepared;
use crate::response::prepare_response;
use crate::run::prepare_run;
use crate::trace::prepare_trace;
use dvs_base::Shelf;
use std::alloc::Global;
use task_model::TaskSet;
use words::command::{Command, CommandWords};

/// What a command prepares before anything is put, after its tasks were read.
pub(crate) fn prepare<'a, S: Shelf>(
    alloc: Global,
    command: &Command<'_>,
    tasks: Option<&'a TaskSet>,
    shelf: &mut S,
) -> Result<Prepared<'a>, Status>
    requires ready { IsReadyCommand (shown_command command.now) }
    requires tasks { AreTasksAt None (tasks_name (shown_command command.now)) (option_copied tasks) }
    ensures { ForFilesWith (S.shows shelf.old) (S.shows shelf.new)
        (λ files. AreTasksAt files (tasks_name (shown_command command.now)) (option_copied tasks.entry))
        (IsPrepareStep (S.shows shelf.old) (S.shows shelf.new) (shown_command command.now)
        (option_copied tasks.entry) result) }
{
    match (command.words(), tasks) {
        (CommandWords::Run(words), Some(tasks)) => prepare_run(alloc, &words, tasks, shelf),
        (CommandWords::Admit(words), Some(tasks)) => prepare_admit(alloc, &words, tasks, shelf),
        (CommandWords::Traced(words), Some(tasks)) => prepare_trace(alloc, &words, tasks, shelf),
        (CommandWords::Response(words), Some(tasks)) => {
            prepare_response(alloc, &words, tasks, shelf)
        }
        (CommandWords::Constrain(words), Some(tasks)) => {
            prepare_constrain(alloc, &words, tasks, shelf)
        }
        (CommandWords::Poll(words), Some(tasks)) => prepare_poll(alloc, &words, tasks, shelf),
        (CommandWords::Workload { seed }, None) => prepare_workload(alloc, seed),
        (CommandWords::Least(words), None) => prepare_least(alloc, &words, shelf),
        _ => unreachable!(),
    }
}
