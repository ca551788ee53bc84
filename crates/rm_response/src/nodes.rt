// The node of a search for some loads: relaxed loads that count before the first load is taken away.
ghost use Rattle.std.specs.Prelude.{◌≡◌, ◌≤◌, ◌<◌, IsTrue, IfSome, length, take, All};
ghost use Rattle.dvs_base.specs.declared.limits.TheConstants.{MOST_TASKS};
ghost use Rattle.rm_response.specs.declared.relaxed.TheConstants.{MOST_HEAVY};
ghost use Rattle.rm_response.specs.Loads.{AreInTurn, AreInTurnTo, AreLoads, HasRate};
ghost use Rattle.rm_response.specs.Fits.{FindsFit, IsNode, IsRelaxed};

use crate::inputs::{Load, Search, Span, Supply};
use crate::left::Left;
use crate::relaxed::{MOST_HEAVY, Relaxed};
use crate::search::fitting;
use dvs_base::MOST_TASKS;

// One of the ticks of a load's period into which `rest` units fit beside the work of other loads, if any.
fn fitting_period(supply: Supply, load: &Load, others: &[Load], rest: u128) -> Option<u64>
    requires { AreLoads supply others.now }
    ensures { FindsFit supply others.now rest 1 load.now.period result }
{
    let period = Span {
        first: 1,
        last: load.period,
    };
    fitting(supply, Left::of(others, &[]), rest, period)
}

// Whether loads can be taken away in turn.
fn are_in_turn(supply: Supply, loads: &[Load]) -> bool
    requires few { length loads.now ≤ MOST_TASKS }
    requires rates { All (HasRate supply.hyper) loads.now }
    ensures { IsTrue result → AreInTurn supply loads.now }
{
    let Some((load, others)) = loads.split_first() else {
        return true;
    };
    let job = u128::from(load.worst);
    are_in_turn(supply, others) && fitting_period(supply, load, others, job).is_some()
}

// The place of the greatest worst case among the loads that are not marked, the first of equal ones.
fn heaviest(loads: &[Load], marks: &[bool]) -> Option<usize>
    requires { length loads.now ≤ length marks.now }
    ensures { IfSome result (λ k. k < length loads.now) }
{
    let mut place = None;
    let mut worst = 0;
    for (k, load) in loads.iter().enumerate() {
        if !marks[k] && load.worst > worst {
            place = Some(k);
            worst = load.worst;
        }
    }
    place
}

// Marks of the loads of greatest worst case, `MOST_HEAVY` of them.
fn marked(loads: &[Load]) -> [bool; MOST_TASKS]
    requires { length loads.now ≤ MOST_TASKS }
    ensures { length result ≡ MOST_TASKS }
{
    let mut marks = [false; MOST_TASKS];
    for _ in 0..MOST_HEAVY {
        if let Some(k) = heaviest(loads, &marks) {
            marks[k] = true;
        }
    }
    marks
}

// The number of the last loads from the first that the low supply doesn't serve within its period, if the whole one does
// all that the low one lacks of it in that period.
fn tail_of(search: Search, loads: &[Load]) -> usize
    requires loads { AreLoads search.whole loads.now }
    ensures { AreInTurnTo result search.low loads.now }
{
    let Some((load, others)) = loads.split_first() else {
        return 0;
    };
    let rest = u128::from(load.worst) + search.lack(load.period) + 1;
    if fitting_period(search.whole, load, others, rest).is_none() {
        return loads.len();
    }
    tail_of(search, others)
}

// Relaxed loads: those that are marked count with their jobs, at most `MOST_HEAVY` of them, in their order. There are
// none if the rates of the others leave nothing.
fn relaxed_by(supply: Supply, loads: &[Load], marks: &[bool]) -> Option<Relaxed>
    requires marked { length loads.now ≤ length marks.now }
    requires rates { All (HasRate supply.hyper) loads.now }
    ensures few { IfSome result (λ r. r.count ≤ MOST_HEAVY) }
    ensures hyper { IfSome result (λ r. r.supply.hyper ≡ supply.hyper) }
    ensures relaxed { IfSome result (λ r. IsRelaxed supply loads.now r.supply.units (take r.count r.loads)) }
{
    let mut heavy = Relaxed::empty(supply).loads;
    let mut count = 0;
    let mut units = supply.units;
    for (k, load) in loads.iter().enumerate() {
        if count < MOST_HEAVY && marks[k] {
            heavy[count] = *load;
            count += 1;
            continue;
        }
        units = units.saturating_sub(load.rate);
    }
    if units == 0 {
        return None;
    }
    let left = Supply {
        speed: supply.speed,
        hyper: supply.hyper,
        units,
    };
    Some(Relaxed {
        supply: left,
        loads: heavy,
        count,
        tail: 0,
    })
}

// A node whose marked loads count with their jobs, unless the rates of the others leave nothing.
fn node_by(supply: Supply, loads: &[Load], marks: &[bool]) -> Option<Relaxed>
    requires many { MOST_HEAVY < length loads.now }
    requires marked { length loads.now ≤ length marks.now }
    requires rates { All (HasRate supply.hyper) loads.now }
    ensures { IfSome result (IsNode supply loads.now) }
{
    let relaxed = relaxed_by(supply, loads, marks)?;
    if !are_in_turn(supply, relaxed.heavy()) {
        return None;
    }
    let search = Search {
        whole: supply,
        low: relaxed.supply,
        tail: 0,
    };
    let tail = tail_of(search, relaxed.heavy());
    Some(Relaxed {
        supply: relaxed.supply,
        loads: relaxed.loads,
        count: relaxed.count,
        tail,
    })
}

// The node for loads: those of greatest worst case count with their jobs. Loads that are `MOST_HEAVY` or fewer have none.
pub(crate) fn node_of(supply: Supply, loads: &[Load]) -> Relaxed
    requires few { length loads.now ≤ MOST_TASKS }
    requires rates { All (HasRate supply.hyper) loads.now }
    ensures { IsNode supply loads.now result }
{
    if loads.len() <= MOST_HEAVY {
        return Relaxed::empty(supply);
    }
    node_by(supply, loads, &marked(loads)).unwrap_or(Relaxed::empty(supply))
}
