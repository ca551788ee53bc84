// The choice of each governor at the first decision of the example of Pillai and Shin 2001, with 4 units for a
// millisecond at full speed. The demands are computed by hand.
ghost use Rattle.std.specs.Prelude.{◌≡◌};
ghost use Rattle.sched_model.specs.States.{opening, IsOfPlan};
ghost use Rattle.governor.specs.ServedSchedulers.{ServesEdf, ServesRm};
ghost use Rattle.governor.specs.Steps.{IsAtDecision};

use crate::plans::{edf_plan, paper_tasks, rm_plan};
use cc_edf::CcEdf;
use cc_rm::CcRm;
use dvs_base::GovernorKind;
use governor::{Choice, Governor};
use grid_fraction::Frac;
use look_ahead::LookAhead;
use sched_model::{Admitted, State};
use static_gov::{Full, Static};
use std::alloc::{AllocGlobal, Global};
use std::process::Abort;
use std::test::Fail;

// Releases the first job of each task without an offset, and marks the tick if there is one.
fn release_all<G: Governor>(plan: &Admitted, governor: &mut G, state: &mut State)
    requires state { state.old ≡ opening plan.now }
    requires counters { G.stands governor.old plan.now state.old }
    ensures of { IsOfPlan plan.now state.new }
    ensures decision { IsAtDecision plan.now state.new }
    ensures counters { G.stands governor.new plan.now state.new }
{
    let _admitted = plan.scheduler();
    let mut any = false;
    for task in 0..plan.count() {
        if plan.offset(task) == 0 {
            governor.released(plan, state, task);
            state.release(plan, task);
            any = true;
        }
    }
    if any {
        governor.settled(plan, state);
        state.mark();
    }
}

// The choice of a governor at the first decision.
fn first_choice<G: Governor>(
    alloc: Global,
    plan: &Admitted,
    mut governor: G,
) -> Result<Choice, Fail>
    requires { G.stands governor plan.now (opening plan.now) }
{
    let mut state = State::new(alloc, plan)?;
    release_all(plan, &mut governor, &mut state);
    Ok(governor.choose(plan, &state))
}

// A choice whose speed meets the demand, which is `num` over `den`.
fn choice(index: u32, num: u128, den: u128) -> Choice {
    Choice {
        index,
        met: true,
        demand: Frac { num, den },
    }
}

// The first choice of the governor of this kind that serves EDF.
fn edf_choice(alloc: Global, plan: &Admitted, kind: GovernorKind) -> Result<Choice, Fail>
    requires { ServesEdf plan.now.scheduler }
{
    match kind {
        GovernorKind::Plain => first_choice(alloc, plan, Full::new(alloc, plan)?),
        GovernorKind::Fixed => first_choice(alloc, plan, Static::new(alloc, plan)?),
        GovernorKind::Cycle => first_choice(alloc, plan, CcEdf::new(alloc, plan)?),
        GovernorKind::Ahead => first_choice(alloc, plan, LookAhead::new(alloc, plan)?),
    }
}

// The first choice of the governor of this kind that serves RM.
fn rm_choice(alloc: Global, plan: &Admitted, kind: GovernorKind) -> Result<Choice, Fail>
    requires { ServesRm plan.now.scheduler }
{
    match kind {
        GovernorKind::Plain => first_choice(alloc, plan, Full::new(alloc, plan)?),
        GovernorKind::Fixed => first_choice(alloc, plan, Static::new(alloc, plan)?),
        GovernorKind::Cycle => first_choice(alloc, plan, CcRm::new(alloc, plan)?),
        GovernorKind::Ahead => Err("la serves only EDF")?,
    }
}

// The first choice of each governor that serves EDF is the expected one.
fn expect_edf_choices(rt: &(impl Abort + AllocGlobal), plan: &Admitted) -> Result<(), Fail>
    requires { ServesEdf plan.now.scheduler }
{
    for (kind, want) in [
        (GovernorKind::Plain, choice(2, 4, 1)),
        (GovernorKind::Fixed, choice(1, 836, 280)),
        (GovernorKind::Cycle, choice(1, 836, 280)),
        (GovernorKind::Ahead, choice(1, 21, 8)),
    ] {
        assert_eq!(rt; edf_choice(rt.alloc(), plan, kind)?, want, "{kind:?}");
    }
    Ok(())
}

#[test]
fn first_choices_under_edf(rt: HostRuntime) -> Result<(), Fail> {
    let plan = edf_plan(rt.alloc(), &paper_tasks(rt.alloc())?)?;
    expect_edf_choices(&rt, &plan)
}

// The first choice of each governor that serves RM is the expected one.
fn expect_rm_choices(rt: &(impl Abort + AllocGlobal), plan: &Admitted) -> Result<(), Fail>
    requires { ServesRm plan.now.scheduler }
{
    for (kind, want) in [
        (GovernorKind::Plain, choice(2, 4, 1)),
        (GovernorKind::Fixed, choice(2, 52, 14)),
        (GovernorKind::Cycle, choice(2, 28, 8)),
    ] {
        assert_eq!(rt; rm_choice(rt.alloc(), plan, kind)?, want, "{kind:?}");
    }
    Ok(())
}

#[test]
fn first_choices_under_rm(rt: HostRuntime) -> Result<(), Fail> {
    let plan = rm_plan(rt.alloc(), &paper_tasks(rt.alloc())?)?;
    expect_rm_choices(&rt, &plan)
}
