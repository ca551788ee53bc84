// Traces that a kernel writes to a sink in memory and shows to probes, each worked out by hand; and the jobs that a
// kernel takes.
ghost use Rattle.std.specs.Prelude.{◌≤◌};
ghost use Rattle.sched_model.specs.States.{opening};
ghost use Rattle.event_kernel.specs.Runs.{IsListOf};
ghost use Rattle.dvs_base.specs.declared.limits.TheConstants.{MOST_TICKS};

use crate::case::Case;
use crate::plans::{edf_plan, edf_planned, paper_tasks};
use crate::runs::Setup;
use cc_edf::CcEdf;
use demand_list::Demands;
use dvs_base::{FailAt, MemSink, Totals, Version};
use event_kernel::{Kernel, KernelFault, WriteFault};
use governor::Governor;
use probes::{Rule, What};
use static_gov::Full;
use std::alloc::Global;
use std::test::Fail;
use task_model::TaskSet;
use test_inputs::example::{
    NO_DEMANDS, NONE_TRACE, PAPER_MACHINE, PAPER_TASKS, TWO_TASKS, TWO_TRACE_2,
};
use test_inputs::{Asked, of_all_tasks, probes_of, shown, tallies_of};

const PAPER_AT_WORST: Case = Case {
    tasks: PAPER_TASKS,
    machine: PAPER_MACHINE,
    demands: NO_DEMANDS,
    words: "",
};

const TWO_AT_WORST: Case = Case {
    tasks: TWO_TASKS,
    machine: PAPER_MACHINE,
    demands: NO_DEMANDS,
    words: "",
};

// A probe of completions, and one of the units of the second task.
fn two_probes() -> [Asked; 2] {
    [
        Asked::Count(of_all_tasks(What::Dones, None)),
        Asked::Table(Rule {
            what: What::Units,
            task: Some(1),
            limit: None,
        }),
    ]
}

// A run: its totals or its error, the sink with its trace, and the tallies of the probes that stayed.
#[derive(Drop)]
struct WrittenRun {
    ended: Result<Totals, WriteFault>,
    out: MemSink,
    tallies: Vec<u64>,
}

// The run of a plan under a governor with two probes, if these puts fail.
fn written<G: Governor>(
    alloc: Global,
    setup: &Setup<'_>,
    governor: G,
    failing: &[FailAt],
    version: Version,
) -> Result<WrittenRun, Fail>
    requires list { IsListOf setup.now.plan.now setup.now.demands.now }
    requires some_ticks { 1 ≤ setup.now.ticks }
    requires low_ticks { setup.now.ticks ≤ MOST_TICKS }
    requires stands { G.stands governor setup.now.plan.now (opening setup.now.plan.now) }
{
    let mut probes = probes_of!(alloc, &two_probes());
    let mut out = MemSink::new(alloc, 4096, failing)?;
    let kernel = Kernel::new(alloc, setup.plan, setup.demands, governor, setup.ticks)?;
    let ended = kernel.run(&mut out, &mut probes, version);
    let tallies = tallies_of(alloc, &mut probes)?;
    Ok(WrittenRun {
        ended,
        out,
        tallies,
    })
}

// The run of the example at the highest speed, if these puts fail.
fn paper_run(alloc: Global, failing: &[FailAt]) -> Result<WrittenRun, Fail> {
    let planned = edf_planned(alloc, PAPER_AT_WORST)?.ok_or("plan")?;
    let setup = Setup::of(&planned, PAPER_AT_WORST, 16);
    let governor = Full::new(alloc, &planned.plan)?;
    written(alloc, &setup, governor, failing, Version::One)
}

// The run of two tasks, one of which is late, under cycle-conserving EDF.
fn two_tasks_run(alloc: Global) -> Result<WrittenRun, Fail> {
    let planned = edf_planned(alloc, TWO_AT_WORST)?.ok_or("plan")?;
    let setup = Setup::of(&planned, TWO_AT_WORST, 8);
    let governor = CcEdf::new(alloc, &planned.plan)?;
    written(alloc, &setup, governor, &[], Version::Two)
}

#[test]
fn a_run_tells_its_probes(rt: HostRuntime) -> Result<(), Fail> {
    let run = paper_run(rt.alloc(), &[])?;
    assert_eq!(rt; shown(run.out.bytes()), NONE_TRACE);
    let totals = run.ended?;
    assert_eq!(rt; (totals.run, totals.finished), (1_400_000_000_000, 6));
    assert_eq!(rt; run.tallies.as_slice(), [6, 24].as_slice());
    Ok(())
}

// The first completion is line 8.
#[test]
fn no_note_is_heard_whose_put_fails(rt: HostRuntime) -> Result<(), Fail> {
    let run = paper_run(rt.alloc(), &[FailAt { call: 8, taken: 3 }])?;
    assert_eq!(rt; (run.ended, run.out.faults()), (Err(WriteFault), 1));
    assert!(rt; run.out.bytes().ends_with(b"\ndon"));
    assert_eq!(rt; (run.tallies.len(), run.tallies.first()), (2, Some(&0)));
    Ok(())
}

#[test]
fn a_run_in_version_2(rt: HostRuntime) -> Result<(), Fail> {
    let run = two_tasks_run(rt.alloc())?;
    assert_eq!(rt; run.tallies.as_slice(), [3, 6].as_slice());
    assert_eq!(rt; shown(run.out.bytes()), TWO_TRACE_2);
    Ok(())
}

// The error of a kernel for these tasks and ticks under EDF, if any.
fn refused_jobs(alloc: Global, tasks: &TaskSet, ticks: u64) -> Result<Option<KernelFault>, Fail>
    requires some_ticks { 1 ≤ ticks }
    requires low_ticks { ticks ≤ MOST_TICKS }
{
    let plan = edf_plan(alloc, tasks)?;
    let Ok(demands) = Demands::read(alloc, NO_DEMANDS, tasks) else {
        return Err("demands")?;
    };
    let full = Full::new(alloc, &plan)?;
    Ok(Kernel::new(alloc, &plan, &demands, full, ticks).err())
}

#[test]
fn a_kernel_takes_at_most_max_jobs(rt: HostRuntime) -> Result<(), Fail> {
    let tasks = paper_tasks(rt.alloc())?;
    let refused = [
        refused_jobs(rt.alloc(), &tasks, 1_000_000)?,
        refused_jobs(rt.alloc(), &tasks, 300_000)?,
    ];
    assert_eq!(rt;
        refused,
        [Some(KernelFault::TooManyJobs { count: 296_429 }), None]
    );
    Ok(())
}
