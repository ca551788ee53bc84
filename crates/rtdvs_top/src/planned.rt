// What the run that the words ask for is made of.
ghost use Rattle.std.specs.Prelude.{IfOk};
ghost use Rattle.words.specs.Commands.{IsReady, run as run_of};
ghost use Rattle.words.specs.Shown.{shown_run};
ghost use Rattle.command_files.specs.GivenFiles.{ForFiles};
ghost use Rattle.command_files.specs.Loads.{IsLoadStep, later_files};
ghost use Rattle.rtdvs_top.specs.PlannedRuns.{prepared_of, IsReadyRun};
ghost use Rattle.event_kernel.specs.Runs.{run_for};

use crate::Status;
use command_files::{admit, load_demands, load_machine};
use demand_list::Demands;
use dvs_base::Shelf;
use sched_model::Admitted;
use std::alloc::Global;
use task_model::TaskSet;
use words::command::RunWords;

/// The admitted plan and the demands of `run`, after its tasks were read: the machine is loaded and read, then the
/// demands, and the plan is tested. The status is that of the first of these steps that fails.
pub(crate) fn load_planned<S: Shelf>(
    alloc: Global,
    words: &RunWords<'_>,
    tasks: &TaskSet,
    shelf: &mut S,
) -> Result<(Admitted, Demands), Status>
    requires { IsReady (shown_run words.now) }
    ensures step { ForFiles (S.shows shelf.old) (S.shows shelf.new) (λ files. IsLoadStep
        (later_files files (run_of (shown_run words.now)) (prepared_of (shown_run words.now) tasks.now))
        (S.shows shelf.old) (S.shows shelf.new) result (λ x. (x.0, x.1)) files) }
    ensures ready { IfOk result (λ x. IsReadyRun words.now.governor (run_for x.0 x.1 words.now.ticks)) }
{
    let machine = load_machine(alloc, words.machine, shelf)?;
    let demands = load_demands(alloc, words.demands, tasks, shelf)?;
    let plan = admit(alloc, words.scheduler, tasks, &machine)?;
    let _admitted = plan.scheduler();
    let _worsts = demands.worsts();
    Ok((plan, demands))
}
