// The corners of a machine: an idle tick at the first entry, and a full tick at each entry.
ghost use Rattle.std.specs.Prelude.{◌≡◌, ◌≤◌, ◌<◌, ◌*◌, ◌↔◌, ℕ, IsTrue, MatchOption};
ghost use Rattle.freq_table.specs.declared.limits.TheConstants.{TOP_SPEED};
ghost use Rattle.dvs_base.specs.declared.limits.TheConstants.{MOST_TICKS};
ghost use Rattle.sched_model.specs.Notes.{most_unit_energy};
ghost use Rattle.energy_bound.specs.Corners.{corner_units, corner_cost, last_corner, HasUnits, IsAbove, IsSupporting, Holds};

use energy::energy_of;
use freq_table::Machine;

/// A corner: its units, and its cost.
#[derive(Clone, Copy)]
pub(crate) struct Corner {
    pub units: u64,
    pub cost: u128,
    ghost low_units: { units ≤ TOP_SPEED },
    ghost low_cost: { cost ≤ most_unit_energy * TOP_SPEED },
}

/// Corner `k`: an idle tick at the first entry for 0, and from 1 on a full tick at entry `k - 1`.
pub(crate) fn nth_corner(machine: &Machine, k: u32) -> Corner
    requires { k ≤ last_corner machine.now }
    ensures units { result.units ≡ corner_units machine.now k }
    ensures cost { result.cost ≡ corner_cost machine.now k }
{
    let _limits = machine.as_slice();
    if k == 0 {
        Corner {
            units: 0,
            cost: energy_of(machine, 0, machine.point(0).speed, true),
        }
    } else {
        let units = machine.point(k - 1).speed;
        Corner {
            units,
            cost: energy_of(machine, k - 1, units, false),
        }
    }
}

/// The number of the corner with `units` units, if there is one.
pub(crate) fn corner_with(machine: &Machine, units: u64) -> Option<u32>
    ensures { MatchOption result ((k : ℕ) → HasUnits machine.now units k → ⊥) (HasUnits machine.now units) }
{
    let _limits = machine.as_slice();
    for k in 0..machine.count() + 1 {
        if nth_corner(machine, k).units == units {
            return Some(k);
        }
    }
    None
}

// Whether a corner lies on or above the line through two others.
fn is_above(low: Corner, high: Corner, corner: Corner) -> bool
    requires slower { low.units ≤ high.units }
    requires cheaper { low.cost ≤ high.cost }
    ensures { IsTrue result ↔ IsAbove low.units low.cost high.units high.cost corner.units corner.cost }
{
    let line = (high.cost - low.cost) * u128::from(corner.units)
        + low.cost * u128::from(high.units);
    let point = u128::from(high.units - low.units) * corner.cost
        + high.cost * u128::from(low.units);
    line <= point
}

// Whether no corner lies below the line through corners `a` and `b`.
fn is_supporting(machine: &Machine, a: u32, b: u32) -> bool
    requires order { a < b }
    requires last { b ≤ last_corner machine.now }
    ensures { IsTrue result ↔ IsSupporting machine.now a b }
{
    let _limits = machine.as_slice();
    let low = nth_corner(machine, a);
    let high = nth_corner(machine, b);
    for k in 0..machine.count() + 1 {
        if !is_above(low, high, nth_corner(machine, k)) {
            return false;
        }
    }
    true
}

/// Whether corners `a` and `b` hold for `units` units in `ticks` ticks.
pub(crate) fn holds(machine: &Machine, units: u64, ticks: u64, a: u32, b: u32) -> bool
    requires low { a ≤ last_corner machine.now }
    requires high { b ≤ last_corner machine.now }
    requires low_ticks { ticks ≤ MOST_TICKS }
    ensures { IsTrue result ↔ Holds machine.now units ticks a b }
{
    let _limits = machine.as_slice();
    if a >= b {
        return false;
    }
    if units < ticks * nth_corner(machine, a).units {
        return false;
    }
    if units > ticks * nth_corner(machine, b).units {
        return false;
    }
    is_supporting(machine, a, b)
}
