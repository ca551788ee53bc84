// What `admit` prepares.
ghost use Rattle.statuses.specs.Steps.{Gives};
ghost use Rattle.command_files.specs.Meanings.{tasks_at};
ghost use Rattle.std.specs.Prelude.{Some, ◌≡◌, ◌<◌, length};
ghost use Rattle.words.specs.Commands.{admit as admit_of};
ghost use Rattle.words.specs.Shown.{shown_admit};
ghost use Rattle.rtdvs_top.specs.Admit.{admitted_text};
ghost use Rattle.rtdvs_top.specs.Prepared.{IsPrepareStep, ForFilesWith};

use crate::Status;
use crate::prepared::Prepared;
use command_files::{admit, load_machine};
use dvs_base::{Line, Part, Shelf, line_of};
use sched_model::Admitted;
use std::alloc::Global;
use task_model::TaskSet;
use trace_text::scheduler_word;
use words::command::AdmitWords;

/// What `admit` prepares, after its tasks were read.
pub(crate) fn prepare_admit<'a, S: Shelf>(
    alloc: Global,
    words: &AdmitWords<'_>,
    tasks: &'a TaskSet,
    shelf: &mut S,
) -> Result<Prepared<'a>, Status>
    ensures { ForFilesWith (S.shows shelf.old) (S.shows shelf.new)
        (λ files. Gives files (tasks_at words.now.tasks.now) tasks.now)
        (IsPrepareStep (S.shows shelf.old) (S.shows shelf.new) (admit_of (shown_admit words.now)) (Some tasks.now) result) }
{
    let machine = load_machine(alloc, words.machine, shelf)?;
    let plan = admit(alloc, words.scheduler, tasks, &machine)?;
    let _admitted = plan.scheduler();
    Ok(Prepared::Line(admitted_line(&plan)))
}

/// The line of an admission.
pub(crate) fn admitted_line(plan: &Admitted) -> Line
    ensures text { result ≡ admitted_text plan.now }
    ensures some { 0 < length result }
{
    let demand = plan.static_demand();
    let pick = plan.machine().lowest(demand);
    let point = plan.machine().point(pick.index);
    line_of(&[
        Part::Word(b"admitted "),
        Part::Word(scheduler_word(plan.scheduler())),
        Part::Word(b" "),
        Part::Ratio(demand.num, demand.den),
        Part::Word(b" "),
        Part::Number(point.speed),
        Part::Word(b"\n"),
    ])
}
