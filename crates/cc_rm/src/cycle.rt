// Cycle-conserving RM.
ghost use Rattle.std.specs.Prelude.{◌≡◌, ◌-◌, ◌<◌, ◌≤◌, true, IfOk, slice_index, slice_set, length};
ghost use Rattle.std.proofs.lemmas.Option.{IfSome_then};
ghost use Rattle.dvs_base.specs.declared.kind.Scheduler.TheVariants.{Rm};
ghost use Rattle.dvs_base.specs.declared.kind.GovernorKind.TheVariants.{Cycle};
ghost use Rattle.freq_table.specs.Tables.{lowest_entry, lowest_pick};
ghost use Rattle.sched_model.specs.StaticDemand.{static_speed};
ghost use Rattle.sched_model.specs.States.{opening, IsOfPlan};
ghost use Rattle.governor.specs.Steps.{IsAtDecision};
ghost use Rattle.governor.specs.ServedSchedulers.{ServesRm};
ghost use Rattle.governor.specs.Worst.{MeetsAtWorst};
ghost use Rattle.cc_rm_laws.specs.Allotments.{rm_cycle_demand};
ghost use Rattle.cc_rm_laws.specs.Conditions.{CcRmCalm, CcRmSafe};
ghost use Rattle.cc_rm_laws.proofs.CcRmLaws.{cc_rm_laws};
ghost use Rattle.cc_rm_laws.proofs.RmCyclePublished.{cycle_publishing};
ghost use Rattle.cc_rm.specs.Counters.{AreCounters, allotments_after};

use crate::allotments::{left_in_all, static_speed};
use crate::counters::{Allotments, allot};
use dvs_base::{GovernorKind, NoMemory};
use governor::{Choice, Governor, Publishing, chosen, earliest_deadline};
use grid_fraction::Frac;
use sched_model::{Admitted, State};
use std::alloc::Global;

/// Cycle-conserving RM: the speed does what is left of the allotments of the last release in the time up to the
/// earliest deadline (Pillai and Shin 2001).
#[derive(Drop)]
pub struct CcRm {
    static_speed: u64,
    // What is left of each task's allotment, and of all of them. `allotments` is `None` before the first mark, and
    // from a release to the next mark.
    rests: Vec<u128>,
    allotments: Option<Allotments>,
}

impl CcRm {
    /// The governor for a plan under RM, before the first release. The only error is `NoMemory`.
    /// The worst static schedule, with which the allotments are compared, meets every deadline.
    pub fn new(alloc: Global, plan: &Admitted) -> Result<CcRm, NoMemory>
        requires { plan.now.scheduler ≡ Rm }
        ensures stands { IfOk result (λ g. ⟦<CcRm as Governor>⟧.stands g plan.now (opening plan.now)) }
        ensures worst { MeetsAtWorst plan.now }
    {
        let _admitted = plan.scheduler();
        let rests = vec![in alloc; 0; plan.count() as usize]?;
        Ok(CcRm {
            static_speed: static_speed(plan),
            rests,
            allotments: None,
        })
    }

    // Lowers what is left of a task's allotment to `rest` work units, and what is left of all allotments with it.
    fn lower(&mut self, task: u32, rest: u128)
        requires task { task < length self.old.rests.items }
        requires less { rest ≤ slice_index self.old.rests.items task }
        ensures speed { self.new.static_speed ≡ self.old.static_speed }
        ensures rests { self.new.rests.items ≡ slice_set self.old.rests.items task rest }
        ensures left { self.new.allotments ≡
            allotments_after (slice_index self.old.rests.items task - rest) self.old.allotments }
    {
        let used = self.rests[task as usize] - rest;
        self.rests[task as usize] = rest;
        if let Some(all) = self.allotments {
            self.allotments = Some(Allotments {
                left: all.left.saturating_sub(used),
                ..all
            });
        }
    }

    // The published demand from only the state, in work units per tick, not reduced.
    fn demand_of(&self, plan: &Admitted, view: &State) -> Frac
        requires of { IsOfPlan plan.now view.now }
        requires speed { self.now.static_speed ≡ static_speed plan.now }
        requires decision { IsAtDecision plan.now view.now }
        ensures { result ≡ rm_cycle_demand plan.now view.entry.now }
    {
        let _admitted = plan.scheduler();
        let first = earliest_deadline(plan, view);
        let units = u128::from(first - view.base_at) * u128::from(self.static_speed);
        Frac {
            num: left_in_all(plan, view, units),
            den: u128::from(first - view.now),
        }
    }

    // The published demand at a decision, in work units per tick, not reduced.
    fn demand(&self, plan: &Admitted, view: &State) -> Frac
        requires of { IsOfPlan plan.now view.now }
        requires counters { AreCounters self.now.static_speed self.now.rests.items self.now.allotments
            plan.now view.now }
        requires decision { IsAtDecision plan.now view.now }
        ensures { result ≡ rm_cycle_demand plan.now view.entry.now }
    {
        match self.allotments {
            Some(all) => Frac {
                num: all.left,
                den: u128::from(all.first.saturating_sub(view.now)),
            },
            None => self.demand_of(plan, view),
        }
    }
}

impl Governor for CcRm {
    ghost the_kind = { Cycle };

    ghost serves = { ServesRm };

    ghost demand = { rm_cycle_demand };

    ghost calm = { CcRmCalm };

    ghost safe = { CcRmSafe };

    ghost stands = { λ g plan s. AreCounters g.static_speed g.rests.items g.allotments plan s };

    ghost serves_plan = { λ g plan s stands. stands.served };

    ghost waits = { λ g plan s to later stands. record {
      served = stands.served;
      speed_is = stands.speed_is;
      one_each = stands.one_each;
      allotted = IfSome_then g.allotments stands.allotted
          (λ all of. record {
            rests_are = of.rests_are;
            left_is = of.left_is;
            first_is = of.first_is;
            within = of.within;
          });
    } };

    ghost laws = { cc_rm_laws };

    fn kind(&self) -> GovernorKind {
        GovernorKind::Cycle
    }

    fn released(&mut self, _plan: &Admitted, _view: &State, _task: u32) {
        self.allotments = None;
    }

    fn ran(&mut self, _plan: &Admitted, _view: &State, task: u32, units: u64) {
        let rest = self.rests[task as usize].saturating_sub(u128::from(units));
        self.lower(task, rest);
    }

    fn finished(&mut self, _plan: &Admitted, _view: &State, task: u32) {
        self.lower(task, 0);
    }

    fn settled(&mut self, plan: &Admitted, view: &State) {
        let first = earliest_deadline(plan, view);
        let units = u128::from(first.saturating_sub(view.now)) * u128::from(self.static_speed);
        let left = allot(&mut self.rests, plan, view, units);
        self.allotments = Some(Allotments { first, left });
    }

    /// The published demand, and the lowest entry that meets it, otherwise the highest. In a calm state the entry meets
    /// the demand: what is left of the allotments fits at the static speed.
    fn choose(&self, plan: &Admitted, view: &State) -> Choice
        requires of { IsOfPlan plan.now view.now }
        requires counters { AreCounters self.now.static_speed self.now.rests.items self.now.allotments
            plan.now view.now }
        requires decision { IsAtDecision plan.now view.now }
        ensures demand { result.demand ≡ rm_cycle_demand plan.now view.entry.now }
        ensures index { result.index ≡ lowest_entry plan.now.machine (rm_cycle_demand plan.now view.entry.now) }
        ensures met { result.met ≡ (lowest_pick plan.now.machine (rm_cycle_demand plan.now view.entry.now)).met }
        ensures calm { CcRmCalm plan.now view.entry.now → result.met ≡ true }
    {
        chosen(plan, self.demand(plan, view))
    }
}

impl Publishing for CcRm {
    ghost publishing = { cycle_publishing };

    fn made(alloc: Global, plan: &Admitted) -> Result<CcRm, NoMemory> {
        CcRm::new(alloc, plan)
    }
}
