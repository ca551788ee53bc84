// The ends of jobs in a trace's notes, and the demands that they fix.
ghost use Rattle.std.specs.Prelude.{◌≡◌, [], OnOk, IfOk, None};
ghost use Rattle.std.specs.List.{AllByRecursion};
ghost use Rattle.sched_model.specs.Plan.{count};
ghost use Rattle.sched_model.specs.Jobs.{demand_of};
ghost use Rattle.event_kernel.specs.Runs.{IsListOf};
ghost use Rattle.replay_laws.specs.FixedDemands.{fixed_before, fixed_of};
ghost use Rattle.replay_laws.specs.OwnList.{IsFit};
ghost use Rattle.replay.specs.Replays.{NamesTask, over_in, first_over, Fixes};

use crate::ReplayFault;
use demand_list::Demands;
use dvs_base::{NoMemory, Note};
use event_kernel::worst_demands;
use sched_model::Admitted;
use std::alloc::Global;

// The refusal of a `Done` note whose units exceed the worst case of its task.
fn over_in(plan: &Admitted, note: &Note) -> Option<ReplayFault>
    requires { NamesTask (count plan.now) note.now }
    ensures { result ≡ over_in plan.now note.now }
{
    let Note::Done {
        task,
        job,
        used,
        ..
    } = *note
    else {
        return None;
    };
    let worst = plan.worst(task);
    if used > worst {
        Some(ReplayFault::OverWorst {
            task,
            job,
            used,
            worst,
        })
    } else {
        None
    }
}

/// The refusal of the first `Done` note whose units exceed the worst case of its task.
pub(crate) fn first_over(plan: &Admitted, notes: &[Note]) -> Option<ReplayFault>
    requires { AllByRecursion (NamesTask (count plan.now)) notes.now }
    ensures { result ≡ first_over plan.now notes.now }
{
    for note in notes {
        if let Some(why) = over_in(plan, note) {
            return Some(why);
        }
    }
    None
}

// Adds what a note fixes: `Done` of a job that has no row fixes its units, without the charge.
fn fix(plan: &Admitted, note: &Note, demands: &mut Demands) -> Result<(), NoMemory>
    requires task { NamesTask (count plan.now) note.now }
    requires fit { IsFit plan.now note.now }
    requires list { IsListOf plan.now demands.old }
    ensures list { OnOk result (IsListOf plan.now demands.new) }
    ensures rows { OnOk result (Fixes (fixed_before plan.now note.now []) demands.old demands.new) }
{
    if let Note::Done {
        task,
        job,
        used,
        ..
    } = *note
    {
        if job > 0 {
            let charged = plan.machine().job_charge();
            demands.set(task, job, used.saturating_sub(charged))?;
        }
    }
    Ok(())
}

/// The demand list that notes fix; no `Done` exceeds the worst case of its task. It fails only if memory runs out.
pub(crate) fn fixed_demands(
    alloc: Global,
    plan: &Admitted,
    notes: &[Note],
) -> Result<Demands, NoMemory>
    requires tasks { AllByRecursion (NamesTask (count plan.now)) notes.now }
    requires fit { first_over plan.now notes.now ≡ None }
    ensures list { IfOk result (IsListOf plan.now) }
    ensures fixed { IfOk result (λ d. demand_of plan.now d.rows ≡ demand_of plan.now (fixed_of plan.now notes.now)) }
{
    let mut demands = worst_demands(alloc, plan)?;
    for note in notes {
        fix(plan, note, &mut demands)?;
    }
    Ok(demands)
}
