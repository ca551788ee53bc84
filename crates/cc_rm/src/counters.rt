// The counters: what is left of the allotments of the last mark.
ghost use Rattle.std.specs.Prelude.{◌≡◌, length};
ghost use Rattle.grid_fraction.specs.Numbers.{sum_below};
ghost use Rattle.sched_model.specs.Plan.{count};
ghost use Rattle.sched_model.specs.States.{after_mark, IsOfPlan};
ghost use Rattle.cc_rm_laws.specs.Allotments.{allotted_units, allotment_left_in};
ghost use Rattle.cc_rm.specs.Counters.{AreRests};

use sched_model::{Admitted, State};

/// The allotments of a mark: the deadline in ticks up to which they were made, and the work units left of them all.
#[derive(Clone, Copy)]
pub(crate) struct Allotments {
    pub(crate) first: u64,
    pub(crate) left: u128,
}

/// Hands out `units` work units in RM order, to each task at most what its job may still need. Writes the units of
/// each task to `rests` and returns their sum.
pub(crate) fn allot(rests: &mut [u128], plan: &Admitted, view: &State, units: u128) -> u128
    requires of { IsOfPlan plan.now view.now }
    requires one_each { length rests.old ≡ count plan.now }
    requires units { units ≡ allotted_units plan.now (after_mark view.now) }
    ensures one_each { length rests.new ≡ count plan.now }
    ensures rests { AreRests rests.new plan.now (after_mark view.entry.now) }
    ensures sum { result ≡ sum_below (count plan.now) (allotment_left_in plan.now (after_mark view.entry.now)) }
{
    let mut rest = units;
    let mut sum = 0;
    for k in 0..plan.count() {
        let i = plan.ranked(k);
        if view.rows[i as usize].done {
            rests[i as usize] = 0;
        } else {
            let given = rest.min(u128::from(view.worst_left(i)));
            rests[i as usize] = given;
            rest -= given;
            sum += given;
        }
    }
    sum
}
