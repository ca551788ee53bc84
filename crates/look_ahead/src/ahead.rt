// The governor of look-ahead.
ghost use Rattle.std.specs.Prelude.{◌≡◌, IfOk};
ghost use Rattle.dvs_base.specs.declared.kind.GovernorKind.TheVariants.{Ahead};
ghost use Rattle.freq_table.specs.Tables.{lowest_entry, lowest_pick};
ghost use Rattle.sched_model.specs.States.{opening, IsOfPlan};
ghost use Rattle.governor.specs.Steps.{IsAtDecision};
ghost use Rattle.governor.specs.ServedSchedulers.{ServesEdf};
ghost use Rattle.look_ahead_laws.specs.Ahead.{ahead_demand, AheadCalm, AheadSafe};
ghost use Rattle.look_ahead_laws.specs.SpreadEquations.{HasSpread, IsDemandOfSpread, RatesFit};
ghost use Rattle.look_ahead.specs.Counters.{Keeps};
ghost use Rattle.look_ahead_laws.proofs.AheadLaws.{ahead_laws};
ghost use Rattle.look_ahead_laws.proofs.AheadPublished.{ahead_publishing};

use crate::order::{move_to_place, opening_order};
use crate::rates::rates_of;
use dvs_base::{GovernorKind, NoMemory};
use governor::{Choice, Governor, Publishing, chosen};
use sched_model::{Admitted, State};
use std::alloc::Global;

/// The governor of look-ahead EDF: the lowest speed that does by the earliest deadline what can't be put off past it
/// (Pillai and Shin 2001).
#[derive(Drop)]
pub struct LookAhead {
    pub(crate) left: Vec<u64>,
    pub(crate) order: Vec<u32>,
    pub(crate) rates: Vec<u128>,
}

impl LookAhead {
    /// The governor for a plan under EDF, before the first release. The only error is `NoMemory`.
    pub fn new(alloc: Global, plan: &Admitted) -> Result<LookAhead, NoMemory>
        requires { ServesEdf plan.now.scheduler }
        ensures stands { IfOk result (λ g. ⟦<LookAhead as Governor>⟧.stands g plan.now (opening plan.now)) }
    {
        let order = opening_order(alloc, plan)?;
        let rates = rates_of(alloc, plan)?;
        let left = vec![in alloc; 0; plan.count() as usize]?;
        Ok(LookAhead { left, order, rates })
    }
}

impl Governor for LookAhead {
    ghost the_kind = { Ahead };

    ghost serves = { ServesEdf };

    ghost demand = { ahead_demand };

    ghost calm = { AheadCalm };

    ghost safe = { AheadSafe };

    ghost stands = { λ g plan s. Keeps g.left.items g.order.items g.rates.items plan s };

    ghost serves_plan = { λ g plan s stands. stands.served };

    ghost waits = { λ g plan s to le it. record {
      served = it.served;
      left_is = it.left_is;
      order_is = it.order_is;
      rates_are = it.rates_are;
    } };

    ghost laws = { ahead_laws };

    fn kind(&self) -> GovernorKind {
        GovernorKind::Ahead
    }

    fn released(&mut self, plan: &Admitted, view: &State, task: u32) {
        self.left[task as usize] = view.rows[task as usize].worst;
        move_to_place(&mut self.order, plan, view, task);
    }

    fn ran(&mut self, _plan: &Admitted, _view: &State, task: u32, units: u64) {
        self.left[task as usize] -= units;
    }

    fn finished(&mut self, _plan: &Admitted, _view: &State, task: u32) {
        self.left[task as usize] = 0;
    }

    fn settled(&mut self, _plan: &Admitted, _view: &State) {}

    /// The published demand, and the lowest entry that meets it, otherwise the highest. By equations over all tasks at
    /// once, each task puts off some work units past the earliest deadline, at a rate that they then need. For each
    /// solution the demand is the sum of what is not put off, and the rate of each task, with those of the tasks
    /// after it and before it, is within what the highest speed does in a hyperperiod.
    fn choose(&self, plan: &Admitted, view: &State) -> Choice
        requires of { IsOfPlan plan.now view.now }
        requires counters { Keeps self.now.left.items self.now.order.items self.now.rates.items plan.now view.now }
        requires decision { IsAtDecision plan.now view.now }
        ensures demand { result.demand ≡ ahead_demand plan.now view.entry.now }
        ensures index { result.index ≡ lowest_entry plan.now.machine (ahead_demand plan.now view.entry.now) }
        ensures met { result.met ≡ (lowest_pick plan.now.machine (ahead_demand plan.now view.entry.now)).met }
        ensures spread_exists { HasSpread plan.now view.entry.now }
        ensures spread_demand { IsDemandOfSpread plan.now view.entry.now }
        ensures rates_fit { RatesFit plan.now view.entry.now }
    {
        chosen(plan, self.demand(plan, view))
    }
}

impl Publishing for LookAhead {
    ghost publishing = { ahead_publishing };

    fn made(alloc: Global, plan: &Admitted) -> Result<LookAhead, NoMemory> {
        LookAhead::new(alloc, plan)
    }
}
