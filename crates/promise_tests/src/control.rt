// What a command prepares if memory runs out at once.
ghost use Rattle.std.specs.Option.{option_copied};
ghost use Rattle.std.specs.Prelude.{None, Err};
ghost use Rattle.words.specs.Commands.{IsReadyCommand, tasks_name};
ghost use Rattle.words.specs.Shown.{shown_command};
ghost use Rattle.rtdvs_top.specs.Prepared.{AreTasksAt, IsPrepareStep, ForFilesWith};

use dvs_base::Shelf;
use rtdvs_top::Status;
use task_model::TaskSet;
use words::command::{Command, CommandWords};

/// Prepares nothing, with the clause of `prepare` of the crate `rtdvs_top`: each command may answer out of memory.
/// No answer is by hand here, as none is there. So a must-fail edit that answers at once in an arm of `prepare` is
/// refused for its answer.
pub fn prepare_nothing<S: Shelf>(
    command: &Command<'_>,
    tasks: Option<&TaskSet>,
    shelf: &mut S,
) -> Status
    requires ready { IsReadyCommand (shown_command command.now) }
    requires tasks { AreTasksAt None (tasks_name (shown_command command.now)) (option_copied tasks) }
    ensures { ForFilesWith (S.shows shelf.old) (S.shows shelf.new)
        (λ files. AreTasksAt files (tasks_name (shown_command command.now)) (option_copied tasks.entry))
        (IsPrepareStep (S.shows shelf.old) (S.shows shelf.new) (shown_command command.now)
        (option_copied tasks.entry) (Err result)) }
{
    match (command.words(), tasks) {
        (CommandWords::Run(_), Some(_)) => Status::NoMemory,
        (CommandWords::Admit(_), Some(_)) => Status::NoMemory,
        (CommandWords::Traced(_), Some(_)) => Status::NoMemory,
        (CommandWords::Response(_), Some(_)) => Status::NoMemory,
        (CommandWords::Constrain(_), Some(_)) => Status::NoMemory,
        (CommandWords::Poll(_), Some(_)) => Status::NoMemory,
        (CommandWords::Workload { .. }, None) => Status::NoMemory,
        (CommandWords::Least(_), None) => Status::NoMemory,
        _ => unreachable!(),
    }
}
