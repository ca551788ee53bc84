// The governor `none`.
ghost use Rattle.std.specs.Prelude.{◌≡◌, true, IfOk, IsOk};
ghost use Rattle.dvs_base.specs.declared.kind.GovernorKind.TheVariants.{Plain};
ghost use Rattle.freq_table.specs.Tables.{lowest_entry, lowest_pick};
ghost use Rattle.sched_model.specs.Plan.{top_speed};
ghost use Rattle.sched_model.specs.StaticDemand.{full_demand};
ghost use Rattle.sched_model.specs.States.{opening, IsOfPlan};
ghost use Rattle.governor.specs.Steps.{IsAtDecision};
ghost use Rattle.governor.specs.ServedSchedulers.{ServesBoth};
ghost use Rattle.governor.specs.Speeds.{unchanging};
ghost use Rattle.governor.specs.OneSpeed.{CalmAt, SafeAt};
ghost use Rattle.governor.proofs.OneSpeedLaws.{pairs_plain, full_laws};
ghost use Rattle.governor.proofs.Worst.{plain_publishing};

use dvs_base::{GovernorKind, NoMemory};
use governor::{Choice, Governor, Publishing, chosen};
use grid_fraction::Frac;
use sched_model::{Admitted, State};
use std::alloc::Global;

/// The governor `none`: always the highest speed.
#[derive(Drop)]
pub struct Full {
    counters: (),
}

impl Full {
    /// The governor for a plan, before the first release. It takes no memory and never fails.
    pub fn new(_alloc: Global, plan: &Admitted) -> Result<Full, NoMemory>
        ensures made { IsOk result }
        ensures stands { IfOk result (λ g. ⟦<Full as Governor>⟧.stands g plan.now (opening plan.now)) }
    {
        let _tasks = plan.count();
        Ok(Full { counters: () })
    }
}

impl Governor for Full {
    ghost the_kind = { Plain };

    ghost serves = { ServesBoth };

    ghost demand = { unchanging full_demand };

    ghost calm = { CalmAt top_speed };

    ghost safe = { SafeAt top_speed };

    ghost stands = { λ g plan s. Unit {0} };

    ghost serves_plan = { λ g plan s stands. tt };

    ghost waits = { λ g plan s to later stands. stands };

    ghost laws = { full_laws pairs_plain };

    fn kind(&self) -> GovernorKind {
        GovernorKind::Plain
    }

    fn released(&mut self, _plan: &Admitted, _view: &State, _task: u32) {}

    fn ran(&mut self, _plan: &Admitted, _view: &State, _task: u32, _units: u64) {}

    fn finished(&mut self, _plan: &Admitted, _view: &State, _task: u32) {}

    fn settled(&mut self, _plan: &Admitted, _view: &State) {}

    /// The published demand, which is the highest speed itself, and the entry with it.
    fn choose(&self, plan: &Admitted, _view: &State) -> Choice
        requires of { IsOfPlan plan.now _view.now }
        requires decision { IsAtDecision plan.now _view.now }
        ensures demand { result.demand ≡ full_demand plan.now }
        ensures index { result.index ≡ lowest_entry plan.now.machine (full_demand plan.now) }
        ensures met { result.met ≡ (lowest_pick plan.now.machine (full_demand plan.now)).met }
        ensures always { result.met ≡ true }
    {
        let demand = Frac {
            num: u128::from(plan.machine().top()),
            den: 1,
        };
        chosen(plan, demand)
    }
}

impl Publishing for Full {
    ghost publishing = { plain_publishing };

    fn made(alloc: Global, plan: &Admitted) -> Result<Full, NoMemory> {
        Full::new(alloc, plan)
    }
}
