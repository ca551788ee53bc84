// The least energy and its certificate.
ghost use Rattle.std.specs.Prelude.{◌≡◌, ◌*◌, ◌≤◌, ◌<◌, ◌↔◌, IsTrue, IfOk, OnOk, IfErr, MatchOption};
ghost use Rattle.freq_table.specs.Tables.{highest_speed};
ghost use Rattle.dvs_base.specs.declared.limits.TheConstants.{MOST_TICKS};
ghost use Rattle.energy_bound.specs.Schedules.{SchedulesCostTheirTicks, IsLeast};
ghost use Rattle.energy_bound.specs.Corners.{last_corner, Holds, IsFirstPartner, HasNoPartner};
ghost use Rattle.energy_bound.specs.FirstPairs.{least_energy_of};
ghost use Rattle.energy_bound.specs.Certificates.{IsOver, least_of, IsCertificate, IsFirstCertificate};

use crate::corner::{corner_with, holds, nth_corner};
use freq_table::Machine;

/// The least energy for a number of work units in a number of ticks, in units times millivolts squared times
/// thousandths. Over `rounds` repetitions of the ticks, `low_ticks` ticks at the corner with `low` units a tick and
/// `high_ticks` at the one with `high` do the units and cost `energy`. `unit_price` and `tick_price`, below 0 if
/// `tick_minus`, are prices that show that nothing costs less.
#[derive(Clone, Copy, Debug, PartialEq, Eq)]
pub struct Least {
    pub rounds: u64,
    pub low: u64,
    pub low_ticks: u64,
    pub high: u64,
    pub high_ticks: u64,
    pub energy: u128,
    pub unit_price: u128,
    pub tick_minus: bool,
    pub tick_price: u128,
}

/// The units, `num`, are more than the highest speed does in the ticks, `cap` units.
#[derive(Clone, Copy, Debug, PartialEq, Eq)]
pub struct Over {
    pub num: u128,
    pub cap: u128,
}

// The certificate of corners `a` and `b`, which hold.
fn least_of(machine: &Machine, units: u64, ticks: u64, a: u32, b: u32) -> Least
    requires holds { Holds machine.now units ticks a b }
    requires low_ticks { ticks ≤ MOST_TICKS }
    ensures { result ≡ least_of machine.now units ticks a b }
{
    let _limits = machine.as_slice();
    let low = nth_corner(machine, a);
    let high = nth_corner(machine, b);
    let low_ticks = ticks * high.units - units;
    let high_ticks = units - ticks * low.units;
    let up = low.cost * u128::from(high.units);
    let down = high.cost * u128::from(low.units);
    Least {
        rounds: high.units - low.units,
        low: low.units,
        low_ticks,
        high: high.units,
        high_ticks,
        energy: u128::from(high_ticks) * high.cost + u128::from(low_ticks) * low.cost,
        unit_price: high.cost - low.cost,
        tick_minus: up < down,
        tick_price: up.abs_diff(down),
    }
}

// The first corner that holds with corner `a`, which is slower.
fn first_partner(machine: &Machine, units: u64, ticks: u64, a: u32) -> Option<u32>
    requires last { a < last_corner machine.now }
    requires low_ticks { ticks ≤ MOST_TICKS }
    ensures { MatchOption result (HasNoPartner machine.now units ticks a) (IsFirstPartner machine.now units ticks a) }
{
    let _limits = machine.as_slice();
    for b in a + 1..machine.count() + 1 {
        if holds(machine, units, ticks, a, b) {
            return Some(b);
        }
    }
    None
}

/// The least energy for `units` work units in `ticks` ticks, at most 2^40, with its certificate: that of the corners
/// that hold with the least low speed, and then the least high one. `Over` exactly if the units are more than the
/// highest speed does in the ticks, with these two numbers.
pub fn least_energy(machine: &Machine, units: u64, ticks: u64) -> Result<Least, Over>
    requires { ticks ≤ MOST_TICKS }
    ensures answer { result ≡ least_energy_of machine.now units ticks }
    ensures over { IfErr result (IsOver machine.now units ticks) }
    ensures within { OnOk result (units ≤ ticks * highest_speed machine.now) }
    ensures first { IfOk result (IsFirstCertificate machine.now units ticks) }
    ensures certificate { IfOk result (IsCertificate machine.now units ticks) }
    // No choice and no schedule costs less, and over `rounds` repetitions some choice costs no more.
    ensures least { IfOk result (IsLeast machine.now units ticks) }
{
    let _limits = machine.as_slice();
    let num = u128::from(units);
    let cap = u128::from(ticks) * u128::from(machine.top());
    if num > cap {
        return Err(Over { num, cap });
    }
    for a in 0..machine.count() {
        if let Some(b) = first_partner(machine, units, ticks, a) {
            return Ok(least_of(machine, units, ticks, a, b));
        }
    }
    unreachable!()
}

/// Whether an answer is the certificate of two corners that hold for `units` work units in `ticks` ticks, at most
/// 2^40. Every `Ok` of [`least_energy`] is one.
pub fn check(machine: &Machine, units: u64, ticks: u64, given: &Least) -> bool
    requires { ticks ≤ MOST_TICKS }
    ensures exact { IsTrue result ↔ IsCertificate machine.now units ticks given.now }
    // Then no choice and no schedule costs less than the answer, which some choice over `rounds` repetitions reaches.
    ensures least { IsTrue result → IsLeast machine.now units ticks given.now }
    // Each schedule on this machine is a choice for each tick: its segments' energies add up to its ticks' costs.
    ensures costs { SchedulesCostTheirTicks machine.now }
{
    let _limits = machine.as_slice();
    match (
        corner_with(machine, given.low),
        corner_with(machine, given.high),
    ) {
        (Some(a), Some(b)) => {
            holds(machine, units, ticks, a, b) && *given == least_of(machine, units, ticks, a, b)
        }
        _ => false,
    }
}
