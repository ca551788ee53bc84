// The energy of a segment.
ghost use Rattle.std.specs.Prelude.{◌≡◌, ◌*◌, ◌<◌, ◌≤◌, ◌^◌, length};
ghost use Rattle.sched_model.specs.Notes.{most_unit_energy};
ghost use Rattle.energy.specs.Segments.{segment_energy, thousandths};

use freq_table::Machine;

// What a unit costs, in thousandths.
fn thousandths(machine: &Machine, idle: bool) -> u64
    ensures { result ≡ thousandths machine.now idle }
{
    if idle { machine.idle() } else { 1000 }
}

/// The energy of a segment of `units` units at an entry of the table: the units times the square of the millivolts,
/// times 1000 if a job runs in it, and times the machine's idle share if it is idle.
pub fn energy_of(machine: &Machine, point: u32, units: u64, idle: bool) -> u128
    requires point { point < length machine.now.points }
    requires units { units < 2 ^ 63 }
    ensures value { result ≡ segment_energy machine.now point units idle }
    ensures most { result ≤ most_unit_energy * units }
{
    let _limits = machine.as_slice();
    let millivolts = machine.point(point).millivolts;
    let unit = millivolts * millivolts * thousandths(machine, idle);
    u128::from(units) * u128::from(unit)
}
