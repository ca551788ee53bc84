//! What a kernel asks of a governor, and the laws that each governor keeps.
//!
//! A governor has a published demand, and two conditions on the states of a run. From only the laws of these two
//! every deadline of its schedule is met.
#![tactic(auto)]

ghost use Rattle.std.specs.Prelude.{◌≡◌, ℕ, ◌≤◌, IfOk};
ghost use Rattle.dvs_base.specs.declared.kind.GovernorKind.{GovernorKind as KindOf};
ghost use Rattle.freq_table.specs.Tables.{lowest_entry, lowest_pick};
ghost use Rattle.sched_model.specs.Plan.{Plan};
ghost use Rattle.sched_model.specs.States.{StateView, opening, after_release, after_run, after_finish, after_mark, after_advance, IsOfPlan, CanRelease, CanRun, CanFinish};
ghost use Rattle.governor.specs.Meanings.{Serving, OwnDemand, Condition, EntryCondition};
ghost use Rattle.governor.specs.Steps.{IsAtDecision};
ghost use Rattle.governor.specs.Laws.{GovernorLaws};
ghost use Rattle.governor.specs.Schedule.{PublishingLaws};

mod choice;
mod deadline;

pub use choice::{Choice, chosen};
pub use deadline::earliest_deadline;
use dvs_base::{GovernorKind, NoMemory};
use sched_model::{Admitted, State};
use std::alloc::Global;

/// A rule for the speed. No call takes memory.
pub trait Governor: Drop {
    /// The governor's kind.
    ghost the_kind: { KindOf };

    /// The schedulers that the governor serves.
    ghost serves: { Serving };

    /// The governor's published demand, in units per tick.
    ghost demand: { OwnDemand };

    /// The condition on a state at a boundary; in a calm state every due job is complete.
    ghost calm: { Condition };

    /// The condition on a state and the entry in force; a legal tick keeps it.
    ghost safe: { EntryCondition };

    /// The governor's counters are right for this plan and state.
    ghost stands: { Self → Plan → StateView → Type 0 };

    /// The kind of this governor.
    fn kind(&self) -> GovernorKind
        ensures { result ≡ the_kind };

    /// Announces `State::release` of a task, before the state changes.
    fn released(&mut self, plan: &Admitted, view: &State, task: u32)
        requires of { IsOfPlan plan.now view.now }
        requires counters { stands self.old plan.now view.now }
        requires can { CanRelease plan.now view.now task }
        ensures { stands self.new plan.now (after_release plan.now view.entry.now task) };

    /// Announces `State::run` of `units` work units of a task, before the state changes.
    fn ran(&mut self, plan: &Admitted, view: &State, task: u32, units: u64)
        requires of { IsOfPlan plan.now view.now }
        requires counters { stands self.old plan.now view.now }
        requires can { CanRun view.now task units }
        ensures { stands self.new plan.now (after_run view.entry.now task units) };

    /// Announces `State::finish` of a task's job, before the state changes.
    fn finished(&mut self, plan: &Admitted, view: &State, task: u32)
        requires of { IsOfPlan plan.now view.now }
        requires counters { stands self.old plan.now view.now }
        requires can { CanFinish view.now task }
        ensures { stands self.new plan.now (after_finish view.entry.now task) };

    /// Announces `State::mark`, before the state changes.
    fn settled(&mut self, plan: &Admitted, view: &State)
        requires of { IsOfPlan plan.now view.now }
        requires counters { stands self.old plan.now view.now }
        ensures { stands self.new plan.now (after_mark view.entry.now) };

    /// The choice at a decision: the published demand in units per tick, the lowest entry that meets it, otherwise the
    /// highest, and whether that entry meets it.
    fn choose(&self, plan: &Admitted, view: &State) -> Choice
        requires of { IsOfPlan plan.now view.now }
        requires counters { stands self.now plan.now view.now }
        requires decision { IsAtDecision plan.now view.now }
        ensures demand { result.demand ≡ demand plan.now view.entry.now }
        ensures index { result.index ≡ lowest_entry plan.now.machine (demand plan.now view.entry.now) }
        ensures met { result.met ≡ (lowest_pick plan.now.machine (demand plan.now view.entry.now)).met };

    /// A governor whose counters are right for a state of a plan serves the plan's scheduler.
    ghost serves_plan: { (g : Self) (plan : Plan) (s : StateView) → stands g plan s → serves plan.scheduler };

    /// The counters stay right while only time passes.
    ghost waits: { (g : Self) (plan : Plan) (s : StateView) (to : ℕ) → s.now ≤ to → stands g plan s → stands g plan (after_advance s to) };

    /// The laws of the two conditions and the demand.
    ghost laws: { GovernorLaws the_kind serves demand calm safe };
}

/// A governor that is chosen by its kind: it is made for a plan, and its demand is the published one of its kind.
pub trait Publishing: Governor {
    /// The governor for a plan whose scheduler it serves, before the first release. The only error is `NoMemory`.
    fn made(alloc: Global, plan: &Admitted) -> Result<Self, NoMemory>
        requires { Self.serves plan.now.scheduler }
        ensures { IfOk result (λ g. Self.stands g plan.now (opening plan.now)) };

    /// On each schedule the governor's demand is the published one of its kind, so its schedule is that of the kind.
    ghost publishing: { PublishingLaws Self.the_kind Self.serves Self.demand };
}
