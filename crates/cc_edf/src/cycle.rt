// The governor of cycle-conserving EDF.
ghost use Rattle.std.specs.Prelude.{◌≡◌, ◌≤◌, ◌<◌, true, IfOk, length, slice_set};
ghost use Rattle.dvs_base.specs.declared.kind.GovernorKind.TheVariants.{Cycle};
ghost use Rattle.freq_table.specs.Tables.{lowest_entry, lowest_pick};
ghost use Rattle.sched_model.specs.Plan.{count};
ghost use Rattle.sched_model.specs.CycleDemand.{rate_for};
ghost use Rattle.sched_model.specs.States.{opening, row_at, IsOfPlan};
ghost use Rattle.governor.specs.ServedSchedulers.{ServesEdf};
ghost use Rattle.cc_edf_laws.specs.Cycle.{edf_cycle_demand, sum_charged, Counts};
ghost use Rattle.cc_edf_laws.specs.Conditions.{CycleCalm, CycleSafe};
ghost use Rattle.cc_edf_laws.proofs.CycleLaws.{cycle_laws};
ghost use Rattle.cc_edf_laws.proofs.EdfCyclePublished.{cycle_publishing};

use dvs_base::{GovernorKind, NoMemory};
use governor::{Choice, Governor, Publishing, chosen};
use grid_fraction::Frac;
use sched_model::{Admitted, Row, State};
use std::alloc::Global;

/// The governor of cycle-conserving EDF: the lowest speed that meets the sum of the tasks' rates, where a complete job
/// counts with the units that it had (Pillai and Shin 2001).
#[derive(Drop)]
pub struct CcEdf {
    rates: Vec<u128>,
    sum: u128,
}

// The row of a task in a state.
fn row_of(view: &State, task: u32) -> Row
    requires { task < length view.now.rows }
    ensures { result ≡ row_at view.entry.now task }
{
    view.rows[task as usize]
}

impl CcEdf {
    /// The governor for a plan under EDF, before the first release. The only error is `NoMemory`.
    pub fn new(alloc: Global, plan: &Admitted) -> Result<CcEdf, NoMemory>
        requires { ServesEdf plan.now.scheduler }
        ensures stands { IfOk result (λ g. ⟦<CcEdf as Governor>⟧.stands g plan.now (opening plan.now)) }
    {
        let rates = vec![in alloc; 0; plan.count() as usize]?;
        Ok(CcEdf { rates, sum: 0 })
    }

    // Charges a task with `units` work units: its rate and the sum of the rates change.
    fn charge(&mut self, plan: &Admitted, view: &State, task: u32, units: u64)
        requires of { IsOfPlan plan.now view.now }
        requires counters { Counts self.old.rates.items self.old.sum plan.now view.now }
        requires task { task < count plan.now }
        requires within { units ≤ (row_at view.now task).worst }
        ensures rates { self.new.rates.items ≡ slice_set self.old.rates.items task (rate_for plan.now task units) }
        ensures sum { self.new.sum ≡ sum_charged plan.now self.old.rates.items self.old.sum task units }
    {
        let _admitted = plan.scheduler();
        let rate = u128::from(units) * u128::from(plan.hyper() / plan.period(task));
        let old = self.rates[task as usize];
        self.sum = self.sum - old + rate;
        self.rates[task as usize] = rate;
    }

    // The published demand: the sum of the rates over the hyperperiod, in work units per tick, not reduced.
    fn sum_of_rates(&self, plan: &Admitted, _view: &State) -> Frac
        requires { Counts self.now.rates.items self.now.sum plan.now _view.now }
        ensures { result ≡ edf_cycle_demand plan.now _view.entry.now }
    {
        Frac {
            num: self.sum,
            den: u128::from(plan.hyper()),
        }
    }
}

impl Governor for CcEdf {
    ghost the_kind = { Cycle };

    ghost serves = { ServesEdf };

    ghost demand = { edf_cycle_demand };

    ghost calm = { CycleCalm };

    ghost safe = { CycleSafe };

    ghost stands = { λ g plan s. Counts g.rates.items g.sum plan s };

    ghost serves_plan = { λ g plan s stands. stands.served };

    ghost waits = { λ g plan s to later stands. record { served = stands.served; one_each = stands.one_each; rate_is = stands.rate_is; sum_is = stands.sum_is } };

    ghost laws = { cycle_laws };

    fn kind(&self) -> GovernorKind {
        GovernorKind::Cycle
    }

    fn released(&mut self, plan: &Admitted, view: &State, task: u32) {
        let row = row_of(view, task);
        self.charge(plan, view, task, row.worst);
    }

    fn ran(&mut self, _plan: &Admitted, _view: &State, _task: u32, _units: u64) {}

    fn finished(&mut self, plan: &Admitted, view: &State, task: u32) {
        let row = row_of(view, task);
        self.charge(plan, view, task, row.used);
    }

    fn settled(&mut self, _plan: &Admitted, _view: &State) {}

    /// The published demand and the lowest entry that meets it. Some entry always does: no charge exceeds the worst
    /// case, and the plan is admitted.
    fn choose(&self, plan: &Admitted, view: &State) -> Choice
        requires of { IsOfPlan plan.now view.now }
        requires counters { Counts self.now.rates.items self.now.sum plan.now view.now }
        ensures demand { result.demand ≡ edf_cycle_demand plan.now view.entry.now }
        ensures index { result.index ≡ lowest_entry plan.now.machine (edf_cycle_demand plan.now view.entry.now) }
        ensures met { result.met ≡ (lowest_pick plan.now.machine (edf_cycle_demand plan.now view.entry.now)).met }
        ensures always { result.met ≡ true }
    {
        chosen(plan, self.sum_of_rates(plan, view))
    }
}

impl Publishing for CcEdf {
    ghost publishing = { cycle_publishing };

    fn made(alloc: Global, plan: &Admitted) -> Result<CcEdf, NoMemory> {
        CcEdf::new(alloc, plan)
    }
}
