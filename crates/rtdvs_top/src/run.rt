// What `run` prepares, and the run of an admitted plan.
ghost use Rattle.std.specs.Prelude.{◌≡◌, Some};
ghost use Rattle.statuses.specs.Steps.{Gives};
ghost use Rattle.command_files.specs.Meanings.{tasks_at};
ghost use Rattle.words.specs.Commands.{IsReady, run as run_of};
ghost use Rattle.words.specs.Shown.{shown_run};
ghost use Rattle.rtdvs_top.specs.Prepared.{IsPrepareStep, ForFilesWith, IsPutStep, status_of_put, status_of_writing};
ghost use Rattle.rtdvs_top.specs.PlannedRuns.{IsRunnable};
ghost use Rattle.rtdvs_top.specs.declared.prepared.Prepared.TheVariants as prepared;
ghost use Rattle.event_kernel.specs.Runs.{run_for};

use crate::Status;
use crate::planned::load_planned;
use crate::prepared::{Prepared, ReadyRun};
use dvs_base::{Shelf, Sink};
use event_kernel::{Kernel, KernelFault};
use governor::Publishing;
use probes::Probe;
use std::alloc::Global;
use task_model::TaskSet;
use words::command::RunWords;

/// What `run` prepares, after its tasks were read.
pub(crate) fn prepare_run<'a, S: Shelf>(
    alloc: Global,
    words: &RunWords<'_>,
    tasks: &'a TaskSet,
    shelf: &mut S,
) -> Result<Prepared<'a>, Status>
    requires ready { IsReady (shown_run words.now) }
    ensures { ForFilesWith (S.shows shelf.old) (S.shows shelf.new)
        (λ files. Gives files (tasks_at words.now.tasks.now) tasks.now)
        (IsPrepareStep (S.shows shelf.old) (S.shows shelf.new) (run_of (shown_run words.now)) (Some tasks.now) result) }
{
    let (plan, demands) = load_planned(alloc, words, tasks, shelf)?;
    Ok(Prepared::Trace(ReadyRun {
        plan,
        demands,
        ticks: words.ticks,
        governor: words.governor,
        version: words.version,
        probes: words.probes,
    }))
}

/// How a put ends: `Write` if it failed.
pub(crate) fn ended<T: Drop, E: Drop>(wrote: Result<T, E>) -> Result<(), Status>
    ensures { status_of_put result ≡ status_of_writing wrote }
{
    match wrote {
        Ok(_) => Ok(()),
        Err(_) => Err(Status::Write),
    }
}

/// Writes the trace of a run under governor `G`. The probes are told its notes if they are asked for, and otherwise left
/// as they are.
pub(crate) fn run_governed<G: Publishing, W: Sink, P: Probe>(
    alloc: Global,
    run: &ReadyRun,
    out: &mut W,
    probes: &mut Vec<P>,
) -> Result<(), Status>
    requires run { IsRunnable (run_for run.now.plan run.now.demands run.now.ticks) }
    requires serves { G.serves run.now.plan.scheduler }
    ensures { run.now.governor ≡ G.the_kind → IsPutStep W.shows P.seen (out.old, probes.old) (out.new, probes.new)
        (prepared.Trace run.now) (status_of_put result) }
{
    let _worsts = run.demands.worsts();
    let _admitted = run.plan.scheduler();
    let governor = G::made(alloc, &run.plan)?;
    let kernel = match Kernel::new(alloc, &run.plan, &run.demands, governor, run.ticks) {
        Ok(kernel) => kernel,
        Err(KernelFault::TooManyJobs { count }) => return Err(Status::Limit { jobs: count }),
        Err(KernelFault::NoMemory) => return Err(Status::NoMemory),
    };
    if run.probes {
        return ended(kernel.run(out, probes, run.version));
    }
    let mut none: Vec<P> = Vec::new(alloc);
    ended(kernel.run(out, &mut none, run.version))
}
