// A governor's answer at a decision.
ghost use Rattle.std.specs.Prelude.{◌≡◌};
ghost use Rattle.freq_table.specs.Tables.{lowest_entry, lowest_pick};
ghost use Rattle.sched_model.specs.Admission.{IsAdmitted};
ghost use Rattle.governor.specs.Laws.{HasLowDen};

use grid_fraction::Frac;
use sched_model::Admitted;

/// A governor's answer at a decision: the entry of the machine's table, whether its speed meets the demand, and the
/// published demand in units per tick, not reduced.
#[derive(Clone, Copy, Debug, PartialEq, Eq)]
pub struct Choice {
    pub index: u32,
    pub met: bool,
    pub demand: Frac,
}

/// The choice for a demand in units per tick, with a denominator from 1 to 2^64: the lowest entry whose speed meets
/// it, otherwise the highest.
pub fn chosen(plan: &Admitted, demand: Frac) -> Choice
    requires { IsAdmitted plan.now → HasLowDen demand }
    ensures demand { result.demand ≡ demand }
    ensures index { result.index ≡ lowest_entry plan.now.machine demand }
    ensures met { result.met ≡ (lowest_pick plan.now.machine demand).met }
    ensures admitted { IsAdmitted plan.now }
{
    let pick = plan.machine().lowest(demand);
    Choice {
        index: pick.index,
        met: pick.met,
        demand,
    }
}
