// The answer of `response`, the exact test under RM.
ghost use Rattle.statuses.specs.Steps.{Gives, IsTestStep};
ghost use Rattle.command_files.specs.Meanings.{tasks_at};
ghost use Rattle.std.specs.Prelude.{Some, ◌≡◌, ◌<◌, length, IfOk, OnOk};
ghost use Rattle.std.specs.Result.{IsErrOf};
ghost use Rattle.dvs_base.specs.WritesText.{WritesText};
ghost use Rattle.sched_model.specs.Plan.{plan_of};
ghost use Rattle.words.specs.Commands.{response as response_of};
ghost use Rattle.words.specs.Shown.{shown_response};
ghost use Rattle.statuses.specs.declared.status.Denied.{Denied};
ghost use Rattle.rtdvs_top.specs.Prepared.{IsPrepareStep, ForFilesWith};
ghost use Rattle.rtdvs_top.specs.Response.{responses_on, response_text, responses_text, Responds, FailsToRespond};

use crate::prepared::Prepared;
use crate::{Denied, Status};
use command_files::load_machine;
use dvs_base::{Failed, Line, Part, Scheduler, Shelf, Sink, line_of, put_line};
use freq_table::Machine;
use rm_response::{Response, ResponseFault, rm_response};
use std::alloc::Global;
use task_model::TaskSet;
use words::command::ResponseWords;

/// The responses of tasks under RM on a machine, or the status of a task with an offset or without a response.
pub fn responses_of(alloc: Global, tasks: &TaskSet, machine: &Machine) -> Result<Response, Status>
    ensures step { IsTestStep (responses_on tasks.now machine.now) result (λ r. r) }
    ensures one_each { IfOk result (λ r. length r ≡ length tasks.now) }
    ensures proves { OnOk result (Responds (plan_of tasks.now machine.now Scheduler.Rm)) }
    ensures fails { (why : Denied) → IsErrOf result (Status.NotAdmitted why)
        → FailsToRespond (plan_of tasks.now machine.now Scheduler.Rm) why }
{
    rm_response(alloc, tasks, machine).map_err(|why| match why {
        ResponseFault::Offset { task } => Status::NotAdmitted(Denied::Offset { task }),
        ResponseFault::Misses { task, num, cap } => {
            Status::NotAdmitted(Denied::Response { task, num, cap })
        }
        ResponseFault::NoMemory => Status::NoMemory,
    })
}

// The line of a task: its name, and its response in ticks.
fn response_line(tasks: &TaskSet, response: &Response, i: u32) -> Line
    requires task { i < length tasks.now }
    requires one_each { length response.now ≡ length tasks.now }
    ensures text { result ≡ response_text tasks.now response.now i }
    ensures some { 0 < length result }
{
    line_of(&[
        Part::Word(b"response "),
        Part::Named(&tasks.task(i).name),
        Part::Word(b" "),
        Part::Number(response.of(i)),
        Part::Word(b"\n"),
    ])
}

/// Puts the lines of all tasks, in file order.
pub(crate) fn put_responses<W: Sink>(
    tasks: &TaskSet,
    response: &Response,
    out: &mut W,
) -> Result<(), Failed>
    requires { length response.now ≡ length tasks.now }
    ensures { WritesText (W.shows out.old) (W.shows out.new) (responses_text tasks.now response.now) result }
{
    for i in 0..tasks.count() {
        let line = response_line(tasks, response, i);
        put_line(&line, out)?;
    }
    Ok(())
}

/// What `response` prepares, after its tasks were read.
pub(crate) fn prepare_response<'a, S: Shelf>(
    alloc: Global,
    words: &ResponseWords<'_>,
    tasks: &'a TaskSet,
    shelf: &mut S,
) -> Result<Prepared<'a>, Status>
    ensures { ForFilesWith (S.shows shelf.old) (S.shows shelf.new)
        (λ files. Gives files (tasks_at words.now.tasks.now) tasks.now)
        (IsPrepareStep (S.shows shelf.old) (S.shows shelf.new) (response_of (shown_response words.now)) (Some tasks.now) result) }
{
    let machine = load_machine(alloc, words.machine, shelf)?;
    let response = responses_of(alloc, tasks, &machine)?;
    Ok(Prepared::Responses(tasks, response))
}
