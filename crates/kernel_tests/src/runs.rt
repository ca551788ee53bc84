// Runs of a plan under each governor, from event to event or tick by tick.
ghost use Rattle.std.specs.Prelude.{◌≡◌};
ghost use Rattle.sched_model.specs.States.{opening};
ghost use Rattle.governor.specs.ServedSchedulers.{ServesEdf, ServesRm};
ghost use Rattle.event_kernel.specs.Runs.{IsListOf};

use crate::case::Case;
use crate::heard::HeardNotes;
use crate::plans::Planned;
use cc_edf::CcEdf;
use cc_rm::CcRm;
use demand_list::Demands;
use dvs_base::{GovernorKind, Totals};
use event_kernel::Kernel;
use governor::Governor;
use look_ahead::LookAhead;
use sched_model::Admitted;
use static_gov::{Full, Static};
use std::alloc::Global;
use std::test::Fail;

// The most ticks of a run.
const MOST_RUN: u64 = 1024;

// A plan and its demands, the number of ticks that it runs, and its name in messages.
#[derive(Clone, Copy)]
pub(crate) struct Setup<'a> {
    pub(crate) name: &'a str,
    pub(crate) plan: &'a Admitted,
    pub(crate) demands: &'a Demands,
    pub(crate) ticks: u64,
}

impl<'a> Setup<'a> {
    // The runs of a case with this plan and these demands.
    pub(crate) fn of(planned: &'a Planned, case: Case<'a>, ticks: u64) -> Setup<'a>
        ensures plan { result.plan.now ≡ planned.now.plan }
        ensures demands { result.demands.now ≡ planned.now.demands }
        ensures ticks { result.ticks ≡ ticks }
    {
        Setup {
            name: case.words,
            plan: &planned.plan,
            demands: &planned.demands,
            ticks,
        }
    }
}

// How a kernel goes through a run: from event to event, or tick by tick.
#[derive(Clone, Copy)]
pub(crate) enum Walk {
    Events,
    Ticks,
}

// What a run says: the kind of its governor, its notes and its totals.
#[derive(Drop)]
pub(crate) struct HeardRun {
    pub(crate) kind: GovernorKind,
    pub(crate) heard: HeardNotes,
    pub(crate) totals: Totals,
}

// The run of a plan under a governor, on this walk.
fn run_under<G: Governor>(
    alloc: Global,
    setup: &Setup<'_>,
    governor: G,
    walk: Walk,
) -> Result<HeardRun, Fail>
    requires list { IsListOf setup.now.plan.now setup.now.demands.now }
    requires stands { G.stands governor setup.now.plan.now (opening setup.now.plan.now) }
{
    let ticks = setup.ticks;
    if ticks == 0 || ticks > MOST_RUN {
        return Err("ticks")?;
    }
    let kind = governor.kind();
    let mut heard = HeardNotes::new(alloc)?;
    let kernel = Kernel::new(alloc, setup.plan, setup.demands, governor, ticks)?;
    let totals = match walk {
        Walk::Events => kernel.drive(&mut heard)?,
        Walk::Ticks => kernel.tick_drive(&mut heard)?,
    };
    Ok(HeardRun {
        kind,
        heard,
        totals,
    })
}

// The run of a plan under the governor of this kind that serves EDF.
pub(crate) fn edf_run(
    alloc: Global,
    setup: &Setup<'_>,
    kind: GovernorKind,
    walk: Walk,
) -> Result<HeardRun, Fail>
    requires list { IsListOf setup.now.plan.now setup.now.demands.now }
    requires serves { ServesEdf setup.now.plan.now.scheduler }
{
    let plan = setup.plan;
    match kind {
        GovernorKind::Plain => run_under(alloc, setup, Full::new(alloc, plan)?, walk),
        GovernorKind::Fixed => run_under(alloc, setup, Static::new(alloc, plan)?, walk),
        GovernorKind::Cycle => run_under(alloc, setup, CcEdf::new(alloc, plan)?, walk),
        GovernorKind::Ahead => run_under(alloc, setup, LookAhead::new(alloc, plan)?, walk),
    }
}

// The run of a plan under the governor of this kind that serves RM.
pub(crate) fn rm_run(
    alloc: Global,
    setup: &Setup<'_>,
    kind: GovernorKind,
    walk: Walk,
) -> Result<HeardRun, Fail>
    requires list { IsListOf setup.now.plan.now setup.now.demands.now }
    requires serves { ServesRm setup.now.plan.now.scheduler }
{
    let plan = setup.plan;
    match kind {
        GovernorKind::Plain => run_under(alloc, setup, Full::new(alloc, plan)?, walk),
        GovernorKind::Fixed => run_under(alloc, setup, Static::new(alloc, plan)?, walk),
        GovernorKind::Cycle => run_under(alloc, setup, CcRm::new(alloc, plan)?, walk),
        GovernorKind::Ahead => Err("la serves only EDF")?,
    }
}
