// The runs of a generated workload under each governor that serves EDF, and their lines.
ghost use Rattle.std.specs.Prelude.{◌≡◌, ◌≤◌, ⊤, IfOk, ◌<◌, [], length, IfErr, None, Some, Ok};
ghost use Rattle.sched_model.specs.States.{opening};
ghost use Rattle.sched_model.specs.Totals.{totals_of};
ghost use Rattle.sched_model.specs.Jobs.{released_jobs};
ghost use Rattle.dvs_base.specs.declared.limits.TheConstants.{MOST_JOBS};
ghost use Rattle.event_kernel.specs.Runs.{IsListOf, notes_of_run, run_for};
ghost use Rattle.rtdvs_top.specs.Prepared.{IsSmall, IsPrepared};
ghost use Rattle.rtdvs_top.specs.PlannedRuns.{IsRunnable};
ghost use Rattle.rtdvs_top.specs.Generated.{workload_plan, workload_demands, run_totals, edf_totals, workload_totals, head_text, totals_text, workload_text};
ghost use Rattle.words.specs.Commands.{workload as workload_of};
ghost use Rattle.dvs_base.specs.WritesText.{WritesText};

use crate::Status;
use crate::at_pair::{CcEdf, Full, LookAhead, Static};
use crate::prepared::{EdfTotals, Prepared, Workload};
use demand_list::Demands;
use dvs_base::{
    Failed, GovernorKind, Line, Name, NoMemory, Note, Part, Scheduler, Sink, Totals, VoidSink,
    line_of, put_line, put_two,
};
use edf_admit::{EdfFault, edf_admit};
use event_kernel::{Kernel, KernelFault, Listener, Stopped};
use governor::{Governor, Publishing};
use sched_model::Admitted;
use std::alloc::Global;
use trace_text::{governor_word, write_note};
use workload::make;

// The admitted plan of the generated tasks, and the demands of their jobs. It fails only if memory runs out.
fn workload_plan(alloc: Global, made: Workload) -> Result<(Admitted, Demands), NoMemory>
    requires { IsSmall made }
    ensures plan { IfOk result (λ x. x.0 ≡ workload_plan made.seed made.tasks) }
    ensures demands { IfOk result (λ x. x.1 ≡ workload_demands made.seed made.tasks) }
    ensures list { IfOk result (λ x. IsListOf x.0 x.1) }
    // The kernel's limit on jobs isn't exceeded.
    ensures jobs { IfOk result (λ x. released_jobs x.0 made.ticks ≤ MOST_JOBS) }
{
    let (set, machine, demands) = make(alloc, made.seed, made.tasks)?;
    match edf_admit(alloc, &set, &machine) {
        Ok(plan) => Ok((plan, demands)),
        Err(EdfFault::Denied { .. }) => unreachable!(),
        Err(EdfFault::NoMemory) => Err(NoMemory),
    }
}

// Puts each note's line into a sink that keeps nothing.
struct VoidWriter<'a> {
    sink: VoidSink,
    names: &'a [Name],
}

impl<'a> Listener for VoidWriter<'a> {
    ghost heard = { λ a n b. ⊤ };

    ghost balked = { λ a n b. ⊤ };

    ghost stops = { λ a. 0 };

    fn hear(&mut self, note: &Note) -> Result<(), Stopped> {
        let mut line = Line::new();
        write_note(&mut line, note, self.names);
        match self.sink.put(line.as_bytes()) {
            Ok(()) => Ok(()),
            Err(_) => unreachable!(),
        }
    }
}

// Runs a kernel, puts the lines of its notes into a sink that keeps nothing, and returns the totals.
fn written_totals<G: Governor>(kernel: Kernel<'_, G>, names: &[Name]) -> Totals
    ensures { result ≡ totals_of (notes_of_run G.demand kernel.entry) }
{
    let mut writer = VoidWriter {
        sink: VoidSink::new(),
        names,
    };
    let told = kernel.drive(&mut writer);
    let VoidWriter { sink: _, names: _ } = writer;
    told.unwrap()
}

// The totals of a run of `ticks` ticks under a governor whose counters are right for the opening state of its plan.
fn totals_from_opening<G: Governor>(
    alloc: Global,
    plan: &Admitted,
    demands: &Demands,
    governor: G,
    ticks: u64,
) -> Result<Totals, NoMemory>
    requires run { IsRunnable (run_for plan.now demands.now ticks) }
    requires stands { G.stands governor plan.now (opening plan.now) }
    requires few { released_jobs plan.now ticks ≤ MOST_JOBS }
    ensures { IfOk result (λ t. t ≡ totals_of (notes_of_run G.demand (run_for plan.now demands.now ticks))) }
{
    match Kernel::new(alloc, plan, demands, governor, ticks) {
        Ok(kernel) => Ok(written_totals(kernel, plan.names())),
        Err(KernelFault::TooManyJobs { .. }) => unreachable!(),
        Err(KernelFault::NoMemory) => Err(NoMemory),
    }
}

// The totals of a run of `ticks` ticks under governor `G`.
fn governed_totals<G: Publishing>(
    alloc: Global,
    plan: &Admitted,
    demands: &Demands,
    ticks: u64,
) -> Result<Totals, NoMemory>
    requires run { IsRunnable (run_for plan.now demands.now ticks) }
    requires serves { G.serves plan.now.scheduler }
    requires few { released_jobs plan.now ticks ≤ MOST_JOBS }
    ensures { IfOk result (λ t. t ≡ run_totals plan.now demands.now ticks G.the_kind) }
{
    let _worsts = demands.worsts();
    let _admitted = plan.scheduler();
    let governor = G::made(alloc, plan)?;
    totals_from_opening(alloc, plan, demands, governor, ticks)
}

// The totals of the runs of a plan of EDF under each governor that serves it. It fails only if memory runs out.
fn edf_totals(
    alloc: Global,
    plan: &Admitted,
    demands: &Demands,
    ticks: u64,
) -> Result<EdfTotals, NoMemory>
    requires run { IsRunnable (run_for plan.now demands.now ticks) }
    requires edf { plan.now.scheduler ≡ Scheduler.Edf }
    requires few { released_jobs plan.now ticks ≤ MOST_JOBS }
    ensures { IfOk result (λ t. t ≡ edf_totals plan.now demands.now ticks) }
{
    Ok(EdfTotals {
        full: governed_totals::<Full>(alloc, plan, demands, ticks)?,
        fixed: governed_totals::<Static>(alloc, plan, demands, ticks)?,
        cycle: governed_totals::<CcEdf>(alloc, plan, demands, ticks)?,
        ahead: governed_totals::<LookAhead>(alloc, plan, demands, ticks)?,
    })
}

/// The totals of the runs of a workload under each governor that serves EDF. It fails only if memory runs out.
pub(crate) fn workload_totals(alloc: Global, made: Workload) -> Result<EdfTotals, NoMemory>
    requires { IsSmall made }
    ensures { IfOk result (λ t. t ≡ workload_totals made.seed made.tasks made.ticks) }
{
    let (plan, demands) = workload_plan(alloc, made)?;
    edf_totals(alloc, &plan, &demands, made.ticks)
}

// The number of tasks of a generated workload.
const TASKS: u32 = 32;

// The number of ticks of each run of a generated workload.
const TICKS: u64 = 50000;

// The first line: the seed, the tasks and the ticks.
fn head_line(made: Workload) -> Line
    ensures text { result ≡ head_text made.seed made.tasks made.ticks }
    ensures some { 0 < length result }
{
    line_of(&[
        Part::Word(b"workload "),
        Part::Number(made.seed),
        Part::Word(b" "),
        Part::Number(u64::from(made.tasks)),
        Part::Word(b" "),
        Part::Number(made.ticks),
        Part::Word(b"\n"),
    ])
}

// The line of a governor: the totals of a run under it.
fn totals_line(governor: GovernorKind, totals: Totals) -> Line
    ensures text { result ≡ totals_text governor totals }
    ensures some { 0 < length result }
{
    line_of(&[
        Part::Word(governor_word(governor)),
        Part::Word(b" "),
        Part::Number(totals.released),
        Part::Word(b" "),
        Part::Number(totals.finished),
        Part::Word(b" "),
        Part::Number(totals.decisions),
        Part::Word(b" "),
        Part::Wide(totals.run),
        Part::Word(b" "),
        Part::Wide(totals.idle),
        Part::Word(b"\n"),
    ])
}

/// Puts the lines of a workload whose runs have these totals: the first line, and one for each governor.
pub(crate) fn put_workload<W: Sink>(
    made: Workload,
    totals: &EdfTotals,
    out: &mut W,
) -> Result<(), Failed>
    requires { totals.now ≡ workload_totals made.seed made.tasks made.ticks }
    ensures { WritesText (W.shows out.old) (W.shows out.new) (workload_text made.seed made.tasks made.ticks) result }
{
    put_line(&head_line(made), out)?;
    let full = totals_line(GovernorKind::Plain, totals.full);
    let fixed = totals_line(GovernorKind::Fixed, totals.fixed);
    put_two(&full, &fixed, out)?;
    let cycle = totals_line(GovernorKind::Cycle, totals.cycle);
    let ahead = totals_line(GovernorKind::Ahead, totals.ahead);
    put_two(&cycle, &ahead, out)
}

/// What `workload` prepares: a generated workload, and the totals of its runs under each governor that serves EDF.
pub(crate) fn prepare_workload<'a>(alloc: Global, seed: u64) -> Result<Prepared<'a>, Status>
    ensures prepared { IfOk result (IsPrepared (Some []) (workload_of seed) None) }
    ensures refused { IfErr result (λ s. s ≡ Status.NoMemory) }
{
    let made = Workload {
        seed,
        tasks: TASKS,
        ticks: TICKS,
    };
    let totals = workload_totals(alloc, made)?;
    Ok(Prepared::Workload(made, totals))
}
