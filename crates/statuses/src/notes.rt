// What goes to `notes` at the end of a call.
ghost use Rattle.std.specs.Prelude.{map};
ghost use Rattle.std.specs.Option.{option_copied};
ghost use Rattle.task_model.specs.Tasks.{names_of};
ghost use Rattle.statuses.specs.StatusLines.{status_text};
ghost use Rattle.statuses.specs.Noted.{NotedAs, noted_text};

use crate::Status;
use crate::difference::put_difference;
use crate::probe_line::put_probes;
use crate::refusal::status_line;
use dvs_base::{Sink, put_line};
use probes::Probe;
use task_model::TaskSet;

/// Puts the lines of a status to `notes`, with the names of the tasks if they were read. After the first put that
/// fails no more is put.
pub fn note_status<E: Sink>(status: &Status, tasks: Option<&TaskSet>, notes: &mut E)
    ensures { NotedAs (E.shows notes.old) (E.shows notes.new)
        (status_text (names_of (option_copied tasks.entry)) status.now) }
{
    match *status {
        Status::Done => {}
        Status::Differs {
            line,
            wanted,
            found,
        } => {
            let _ = put_difference(line, wanted, found, tasks, notes);
        }
        _ => {
            let line = status_line(status, tasks);
            let _ = put_line(&line, notes);
        }
    }
}

/// Puts to `notes` how a command ended: the probes' lines if they were told and it is done, otherwise those of its
/// status.
pub fn note_end<E: Sink, P: Probe>(
    told: bool,
    status: &Status,
    tasks: Option<&TaskSet>,
    probes: &[P],
    notes: &mut E,
)
    ensures { NotedAs (E.shows notes.old) (E.shows notes.new)
        (noted_text told (names_of (option_copied tasks.entry)) (map P.seen probes.now)
        status.now) }
{
    match status {
        Status::Done if told => put_probes(probes, tasks, notes),
        status => note_status(status, tasks, notes),
    }
}
