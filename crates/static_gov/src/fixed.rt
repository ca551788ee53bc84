// The governor `static`.
ghost use Rattle.std.specs.Prelude.{◌≡◌, true, IfOk, IsOk};
ghost use Rattle.dvs_base.specs.declared.kind.GovernorKind.TheVariants.{Fixed};
ghost use Rattle.freq_table.specs.Tables.{lowest_entry, lowest_pick};
ghost use Rattle.sched_model.specs.StaticDemand.{static_demand};
ghost use Rattle.sched_model.specs.States.{opening, IsOfPlan};
ghost use Rattle.governor.specs.Steps.{IsAtDecision};
ghost use Rattle.governor.specs.ServedSchedulers.{ServesBoth};
ghost use Rattle.governor.specs.Speeds.{unchanging, fixed_speed};
ghost use Rattle.governor.specs.Worst.{MeetsAtWorst};
ghost use Rattle.governor.specs.OneSpeed.{CalmAt, SafeAt};
ghost use Rattle.governor.proofs.OneSpeedLaws.{pairs_fixed, static_laws};
ghost use Rattle.governor.proofs.Worst.{fixed_publishing};
ghost use Rattle.static_gov.specs.StaticSpeed.{IsLowestEnough};

use dvs_base::{GovernorKind, NoMemory};
use governor::{Choice, Governor, Publishing, chosen};
use grid_fraction::Frac;
use sched_model::{Admitted, State};
use std::alloc::Global;

/// The governor `static`: the lowest speed that meets the scheduler's static demand (Pillai and Shin 2001).
#[derive(Drop)]
pub struct Static {
    demand: Frac,
}

impl Static {
    /// The governor for a plan, before the first release. It takes no memory and never fails.
    /// With every job at its worst case its schedule meets every deadline, for each number of ticks. At each lower speed
    /// the scheduler's test fails, and under EDF some job then misses its deadline.
    pub fn new(_alloc: Global, plan: &Admitted) -> Result<Static, NoMemory>
        ensures made { IsOk result }
        ensures stands { IfOk result (λ g. ⟦<Static as Governor>⟧.stands g plan.now (opening plan.now)) }
        ensures worst { MeetsAtWorst plan.now }
        ensures lowest { IsLowestEnough plan.now (lowest_entry plan.now.machine (static_demand plan.now)) }
    {
        let _admitted = plan.scheduler();
        Ok(Static {
            demand: plan.static_demand(),
        })
    }
}

impl Governor for Static {
    ghost the_kind = { Fixed };

    ghost serves = { ServesBoth };

    ghost demand = { unchanging static_demand };

    ghost calm = { CalmAt fixed_speed };

    ghost safe = { SafeAt fixed_speed };

    ghost stands = { λ g plan s. g.demand ≡ static_demand plan };

    ghost serves_plan = { λ g plan s stands. tt };

    ghost waits = { λ g plan s to later stands. stands };

    ghost laws = { static_laws pairs_fixed };

    fn kind(&self) -> GovernorKind {
        GovernorKind::Fixed
    }

    fn released(&mut self, _plan: &Admitted, _view: &State, _task: u32) {}

    fn ran(&mut self, _plan: &Admitted, _view: &State, _task: u32, _units: u64) {}

    fn finished(&mut self, _plan: &Admitted, _view: &State, _task: u32) {}

    fn settled(&mut self, _plan: &Admitted, _view: &State) {}

    /// The published demand and the lowest entry that meets it. Some entry always meets it: the plan is admitted.
    #[tactic(auto, using(governor::proofs::Fits::static_met, sched_model::proofs::StaticShare::static_den))]
    fn choose(&self, plan: &Admitted, _view: &State) -> Choice
        requires of { IsOfPlan plan.now _view.now }
        requires counters { self.now.demand ≡ static_demand plan.now }
        requires decision { IsAtDecision plan.now _view.now }
        ensures demand { result.demand ≡ static_demand plan.now }
        ensures index { result.index ≡ lowest_entry plan.now.machine (static_demand plan.now) }
        ensures met { result.met ≡ (lowest_pick plan.now.machine (static_demand plan.now)).met }
        ensures always { result.met ≡ true }
    {
        chosen(plan, self.demand)
    }
}

impl Publishing for Static {
    ghost publishing = { fixed_publishing };

    fn made(alloc: Global, plan: &Admitted) -> Result<Static, NoMemory> {
        Static::new(alloc, plan)
    }
}
