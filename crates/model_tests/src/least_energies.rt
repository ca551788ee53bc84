// The least energies of worked machines.
ghost use Rattle.std.specs.Prelude.{◌≤◌};
ghost use Rattle.dvs_base.specs.declared.limits.TheConstants.{MOST_TICKS};

use dvs_base::MOST_TICKS;
use energy_bound::{Least, Over, check, least_energy};
use freq_table::Machine;
use std::alloc::Global;
use std::process::Abort;
use std::test::Fail;

const THREE_SPEEDS: &str =
    "point = [{speed = 2, millivolts = 3000}, {speed = 3, millivolts = 4000}, {speed = 4, millivolts = 5000}]";

const COSTLY_MIDDLE: &str =
    "point = [{speed = 2, millivolts = 3000}, {speed = 3, millivolts = 5000}, {speed = 4, millivolts = 5000}]";

const ONE_SPEED: &str = "point = [{speed = 2, millivolts = 3000}]";

const ONE_VOLTAGE: &str =
    "point = [{speed = 2, millivolts = 3000}, {speed = 4, millivolts = 3000}]";

const COSTLY_IDLE: &str = "idle = 1000\npoint = [{speed = 2, millivolts = 3000}]";

const AT_THE_LIMITS: &str =
    "idle = 1000\npoint = [{speed = 1, millivolts = 1}, {speed = 1000000, millivolts = 20000}]";

fn machine_of(alloc: Global, text: &str) -> Result<Machine, Fail> {
    Ok(Machine::read(alloc, text.as_bytes()).ok().ok_or("machine")?)
}

const ROW: Least = Least {
    rounds: 1,
    low: 2,
    low_ticks: 8,
    high: 3,
    high_ticks: 8,
    energy: 528000000000,
    unit_price: 30000000000,
    tick_minus: true,
    tick_price: 42000000000,
};

// The least energy of `units` units in `ticks` ticks on the machine of a file is this answer, and it passes the check.
fn is_least(
    rt: &(impl Abort + AllocGlobal),
    machine: &str,
    units: u64,
    ticks: u64,
    want: Least,
) -> Result<(), Fail>
    requires { ticks ≤ MOST_TICKS }
{
    let machine = machine_of(rt.alloc(), machine)?;
    assert_eq!(rt; least_energy(&machine, units, ticks), Ok(want));
    assert_eq!(rt; check(&machine, units, ticks, &want), true);
    Ok(())
}

// The units are more than the machine of a file can do in the ticks.
fn is_over(
    rt: &(impl Abort + AllocGlobal),
    machine: &str,
    units: u64,
    ticks: u64,
    over: Over,
) -> Result<(), Fail>
    requires { ticks ≤ MOST_TICKS }
{
    let machine = machine_of(rt.alloc(), machine)?;
    assert_eq!(rt; least_energy(&machine, units, ticks), Err(over));
    Ok(())
}

// An answer for `units` units in 16 ticks at three speeds fails the check.
fn fails(rt: &(impl Abort + AllocGlobal), units: u64, given: &Least) -> Result<(), Fail> {
    let machine = machine_of(rt.alloc(), THREE_SPEEDS)?;
    assert_eq!(rt; check(&machine, units, 16, given), false);
    Ok(())
}

#[test]
fn idles_and_runs_at_the_lowest_speed(rt: HostRuntime) -> Result<(), Fail> {
    let want = Least {
        rounds: 2,
        low: 0,
        low_ticks: 4,
        high: 2,
        high_ticks: 28,
        energy: 504000000000,
        unit_price: 18000000000,
        tick_minus: false,
        tick_price: 0,
    };
    is_least(&rt, THREE_SPEEDS, 28, 16, want)
}

#[test]
fn mixes_two_speeds(rt: HostRuntime) -> Result<(), Fail> {
    is_least(&rt, THREE_SPEEDS, 40, 16, ROW)?;
    let dearer = Least {
        unit_price: 30000000001,
        ..ROW
    };
    fails(&rt, 40, &dearer)?;
    fails(&rt, 41, &ROW)
}

const ONE_HIGHER: &[Least] = &[
    Least { rounds: 2, ..ROW },
    Least { low: 3, ..ROW },
    Least {
        low_ticks: 9,
        ..ROW
    },
    Least { high: 4, ..ROW },
    Least {
        high_ticks: 9,
        ..ROW
    },
    Least {
        energy: 528000000001,
        ..ROW
    },
    Least {
        unit_price: 30000000001,
        ..ROW
    },
    Least {
        tick_price: 42000000001,
        ..ROW
    },
    Least {
        tick_minus: false,
        ..ROW
    },
];

#[test]
fn a_number_one_higher_fails_the_check(rt: HostRuntime) -> Result<(), Fail> {
    is_least(&rt, THREE_SPEEDS, 40, 16, ROW)?;
    for given in ONE_HIGHER {
        fails(&rt, 40, given)?;
    }
    Ok(())
}

const ONE_LOWER: &[Least] = &[
    Least { rounds: 0, ..ROW },
    Least { low: 1, ..ROW },
    Least {
        low_ticks: 7,
        ..ROW
    },
    Least { high: 2, ..ROW },
    Least {
        high_ticks: 7,
        ..ROW
    },
    Least {
        energy: 527999999999,
        ..ROW
    },
    Least {
        unit_price: 29999999999,
        ..ROW
    },
    Least {
        tick_price: 41999999999,
        ..ROW
    },
];

#[test]
fn a_number_one_lower_fails_the_check(rt: HostRuntime) -> Result<(), Fail> {
    for given in ONE_LOWER {
        fails(&rt, 40, given)?;
    }
    Ok(())
}

// 48 units are full ticks at the middle speed, so the pairs below and above it both hold; the answer is the lower one.
#[test]
fn two_pairs_pass_the_check_where_both_hold(rt: HostRuntime) -> Result<(), Fail> {
    let lower = Least {
        rounds: 1,
        low: 2,
        low_ticks: 0,
        high: 3,
        high_ticks: 16,
        energy: 768000000000,
        unit_price: 30000000000,
        tick_minus: true,
        tick_price: 42000000000,
    };
    let upper = Least {
        rounds: 1,
        low: 3,
        low_ticks: 16,
        high: 4,
        high_ticks: 0,
        energy: 768000000000,
        unit_price: 52000000000,
        tick_minus: true,
        tick_price: 108000000000,
    };
    is_least(&rt, THREE_SPEEDS, 48, 16, lower)?;
    let machine = machine_of(rt.alloc(), THREE_SPEEDS)?;
    assert!(rt; check(&machine, 48, 16, &upper));
    Ok(())
}

#[test]
fn no_units_and_one_entry(rt: HostRuntime) -> Result<(), Fail> {
    let none = Least {
        rounds: 2,
        low: 0,
        low_ticks: 32,
        high: 2,
        high_ticks: 0,
        energy: 0,
        unit_price: 18000000000,
        tick_minus: false,
        tick_price: 0,
    };
    is_least(&rt, THREE_SPEEDS, 0, 16, none)?;
    is_least(&rt, ONE_SPEED, 0, 16, none)?;
    let most = Least {
        low_ticks: 0,
        high_ticks: 32,
        energy: 576000000000,
        ..none
    };
    is_least(&rt, ONE_SPEED, 32, 16, most)?;
    is_over(&rt, ONE_SPEED, 33, 16, Over { num: 33, cap: 32 })
}

// A unit costs the same at both speeds, so three corners are on one line.
#[test]
fn equal_costs_of_a_unit(rt: HostRuntime) -> Result<(), Fail> {
    let few = Least {
        rounds: 2,
        low: 0,
        low_ticks: 12,
        high: 2,
        high_ticks: 20,
        energy: 360000000000,
        unit_price: 18000000000,
        tick_minus: false,
        tick_price: 0,
    };
    let many = Least {
        rounds: 4,
        low: 0,
        low_ticks: 24,
        high: 4,
        high_ticks: 40,
        energy: 1440000000000,
        unit_price: 36000000000,
        tick_minus: false,
        tick_price: 0,
    };
    is_least(&rt, ONE_VOLTAGE, 20, 16, few)?;
    is_least(&rt, ONE_VOLTAGE, 40, 16, many)
}

#[test]
fn too_many_units(rt: HostRuntime) -> Result<(), Fail> {
    is_over(&rt, THREE_SPEEDS, 65, 16, Over { num: 65, cap: 64 })?;
    let full = Least {
        rounds: 1,
        low: 3,
        low_ticks: 0,
        high: 4,
        high_ticks: 16,
        energy: 1600000000000,
        unit_price: 52000000000,
        tick_minus: true,
        tick_price: 108000000000,
    };
    is_least(&rt, THREE_SPEEDS, 64, 16, full)
}

#[test]
fn passes_over_a_costly_entry(rt: HostRuntime) -> Result<(), Fail> {
    let want = Least {
        rounds: 2,
        low: 2,
        low_ticks: 16,
        high: 4,
        high_ticks: 16,
        energy: 1888000000000,
        unit_price: 82000000000,
        tick_minus: true,
        tick_price: 128000000000,
    };
    is_least(&rt, COSTLY_MIDDLE, 48, 16, want)
}

#[test]
fn nothing_is_saved_where_idling_costs_all(rt: HostRuntime) -> Result<(), Fail> {
    let want = Least {
        rounds: 2,
        low: 0,
        low_ticks: 1,
        high: 2,
        high_ticks: 1,
        energy: 36000000000,
        unit_price: 0,
        tick_minus: false,
        tick_price: 36000000000,
    };
    is_least(&rt, COSTLY_IDLE, 1, 1, want)
}

#[test]
fn numbers_at_the_limits(rt: HostRuntime) -> Result<(), Fail> {
    let want = Least {
        rounds: 999999,
        low: 1,
        low_ticks: 1,
        high: 1000000,
        high_ticks: 1099510528264372223,
        energy: 439804211305748889200000000000001000,
        unit_price: 399999999999999000,
        tick_minus: true,
        tick_price: 399999999000000000,
    };
    is_least(&rt, AT_THE_LIMITS, 1099511627775999999, MOST_TICKS, want)?;
    let over = Over {
        num: 1099511627776000001,
        cap: 1099511627776000000,
    };
    is_over(&rt, AT_THE_LIMITS, 1099511627776000001, MOST_TICKS, over)
}
