//! The governor reserve: one speed for a plan, the lowest that meets the static demand and a tenth of it, or the highest
//! if none does.
//!
//! It serves both schedulers, keeps nothing that a run changes, and takes no memory. Every deadline of its schedule is
//! met, and its entry is never below that of static. Its kind is `Fixed`, so the `plan` line of its trace has the word
//! `static`. Its demand is not the published one of that kind, so it has no impl of `Publishing`, and `replay` compares
//! its trace with the schedule of static.
#![tactic(auto)]

ghost use Rattle.std.specs.Prelude.{◌≡◌, ◌≤◌, true};
ghost use Rattle.dvs_base.specs.declared.kind.GovernorKind.TheVariants.{Fixed};
ghost use Rattle.freq_table.specs.Tables.{lowest_entry, lowest_pick};
ghost use Rattle.sched_model.specs.StaticDemand.{static_demand};
ghost use Rattle.sched_model.specs.States.{opening, IsOfPlan};
ghost use Rattle.governor.specs.Steps.{IsAtDecision};
ghost use Rattle.governor.specs.ServedSchedulers.{ServesBoth};
ghost use Rattle.governor.specs.Speeds.{unchanging};
ghost use Rattle.governor.specs.OneSpeed.{CalmAt, SafeAt};
ghost use Rattle.reserve_gov.specs.Reserved.{reserved_demand, reserved_speed};
ghost use Rattle.reserve_gov.specs.ReserveLaws.{reserve_laws};

use dvs_base::GovernorKind;
use governor::{Choice, Governor, chosen};
use grid_fraction::{Frac, up};
use sched_model::{Admitted, State};

/// The governor reserve, made for a plan.
#[derive(Drop)]
pub struct Reserve {
    demand: Frac,
}

impl Reserve {
    /// The governor for a plan, before the first release. Its demand is the static one and a tenth of it, the numerator
    /// rounded up, and at most the highest speed.
    #[tactic(auto, using(crate::specs::ReserveLaws::static_low))]
    pub fn new(plan: &Admitted) -> Reserve
        ensures { ⟦<Reserve as Governor>⟧.stands result plan.now (opening plan.now) }
    {
        let least = plan.static_demand();
        let top = u128::from(plan.machine().top());
        let wanted = least.num + up(least.num, 10);
        Reserve {
            demand: Frac {
                num: wanted.min(top * least.den),
                den: least.den,
            },
        }
    }
}

impl Governor for Reserve {
    ghost the_kind = { Fixed };

    ghost serves = { ServesBoth };

    ghost demand = { unchanging reserved_demand };

    ghost calm = { CalmAt reserved_speed };

    ghost safe = { SafeAt reserved_speed };

    ghost stands = { λ g plan s. g.demand ≡ reserved_demand plan };

    ghost serves_plan = { λ g plan s stands. tt };

    ghost waits = { λ g plan s to later stands. stands };

    ghost laws = { reserve_laws };

    fn kind(&self) -> GovernorKind {
        GovernorKind::Fixed
    }

    fn released(&mut self, _plan: &Admitted, _view: &State, _task: u32) {}

    fn ran(&mut self, _plan: &Admitted, _view: &State, _task: u32, _units: u64) {}

    fn finished(&mut self, _plan: &Admitted, _view: &State, _task: u32) {}

    fn settled(&mut self, _plan: &Admitted, _view: &State) {}

    /// The lowest entry that meets the reserved demand. Each choice meets it, and none is below that of static.
    #[tactic(auto, using(crate::specs::ReserveLaws::reserved_den, crate::specs::ReserveLaws::above_static))]
    fn choose(&self, plan: &Admitted, _view: &State) -> Choice
        requires of { IsOfPlan plan.now _view.now }
        requires counters { self.now.demand ≡ reserved_demand plan.now }
        requires decision { IsAtDecision plan.now _view.now }
        ensures demand { result.demand ≡ reserved_demand plan.now }
        ensures index { result.index ≡ lowest_entry plan.now.machine (reserved_demand plan.now) }
        ensures met { result.met ≡ (lowest_pick plan.now.machine (reserved_demand plan.now)).met }
        ensures always { result.met ≡ true }
        ensures not_below_static { lowest_entry plan.now.machine (static_demand plan.now) ≤ result.index }
    {
        chosen(plan, self.demand)
    }
}
