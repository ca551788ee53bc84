// The machine of numbers.
ghost use Rattle.std.specs.Prelude.{◌≡◌, ◌≤◌, ◌<◌, [], length, IfOk, vec_len};
ghost use Rattle.freq_table.specs.declared.limits.TheConstants.{MOST_POINTS};
ghost use Rattle.freq_table.specs.Tables.{IsPoint};
ghost use Rattle.freq_table.specs.Limits.{ArePoints};
ghost use Rattle.freq_table.specs.MachineFile.{MeansMachine, may_follow, last_of};
ghost use Rattle.numbers.specs.Given.{machine_number, given_point, given_points_from, given_points, machine_of_given};

use crate::given::GivenPoint;
use freq_table::{
    MOST_CHARGE, MOST_IDLE, MOST_MILLIVOLTS, MOST_POINTS, Machine, MachineFault, MachineField,
    Point, TOP_SPEED,
};
use std::alloc::Global;

// A number of the machine, or of the point at this place, if it is within its limits.
fn machine_number(
    place: u32,
    field: MachineField,
    least: u64,
    most: u64,
    n: u64,
) -> Result<u64, MachineFault>
    ensures { result ≡ machine_number place field least most n }
{
    if least <= n && n <= most {
        Ok(n)
    } else {
        Err(MachineFault::Range { place, field })
    }
}

// The point at this place of its numbers.
fn point_of(place: u32, given: GivenPoint) -> Result<Point, MachineFault>
    ensures meaning { result ≡ given_point place given }
    ensures limits { IfOk result (λ x. IsPoint x) }
{
    let speed = machine_number(place, MachineField::Speed, 1, TOP_SPEED, given.speed)?;
    let field = MachineField::Millivolts;
    let millivolts = machine_number(place, field, 1, MOST_MILLIVOLTS, given.millivolts)?;
    Ok(Point { speed, millivolts })
}

// Whether the point may follow these: its speed is above the last one's, and its voltage is not below.
fn may_follow(points: &[Point], x: Point) -> bool
    ensures { result ≡ may_follow (last_of points.now) x }
{
    match points.last() {
        Some(before) => before.speed < x.speed && before.millivolts <= x.millivolts,
        None => true,
    }
}

// The points of these numbers, of which there are at most `MOST_POINTS`.
fn read_points(alloc: Global, given: &[GivenPoint]) -> Result<Vec<Point>, MachineFault>
    requires { length given.now ≤ MOST_POINTS }
    ensures meaning { MeansMachine (λ v. v.items) result (given_points_from [] given.now) }
    ensures limits { IfOk result (λ v. ArePoints v.items) }
    ensures count { IfOk result (λ v. vec_len v ≡ length given.now) }
{
    let mut points: Vec<Point> = Vec::new(alloc);
    for one in given {
        let place = points.len() as u32 + 1;
        let point = point_of(place, *one)?;
        if !may_follow(&points, point) {
            return Err(MachineFault::NotRising { place });
        }
        points.push(point).map_err(|_| MachineFault::NoMemory)?;
    }
    Ok(points)
}

// The points of these numbers, of any length.
fn points_of(alloc: Global, given: &[GivenPoint]) -> Result<Vec<Point>, MachineFault>
    ensures meaning { MeansMachine (λ v. v.items) result (given_points given.now) }
    ensures limits { IfOk result (λ v. ArePoints v.items) }
    ensures some { IfOk result (λ v. 1 ≤ vec_len v) }
    ensures few { IfOk result (λ v. vec_len v ≤ MOST_POINTS) }
{
    if given.is_empty() {
        return Err(MachineFault::NoPoints);
    }
    if given.len() > MOST_POINTS {
        return Err(MachineFault::TooMany {
            count: given.len() as u64,
        });
    }
    read_points(alloc, given)
}

/// The machine with these numbers: what an idle unit costs, in thousandths of a running one, what a switch of speed
/// costs, in work units, and the points, in this order. Otherwise the refusal of a file of such a machine: first `idle`,
/// at most 1000; then `charge`, at most 1000000; then the number of points, 1 to 32; and then of each point the speed, 1
/// to 1000000 units per tick, the voltage, 1 to 20000 millivolts, and whether the speed rises and the voltage doesn't
/// fall. It fails otherwise only if memory runs out.
pub fn machine_of(
    alloc: Global,
    idle: u64,
    charge: u64,
    given: &[GivenPoint],
) -> Result<Machine, MachineFault>
    ensures { MeansMachine (λ m. m) result (machine_of_given idle charge given.now) }
{
    let idle = machine_number(0, MachineField::Idle, 0, MOST_IDLE, idle)?;
    let charge = machine_number(0, MachineField::Charge, 0, MOST_CHARGE, charge)?;
    let points = points_of(alloc, given)?;
    Machine::of(alloc, idle, charge, &points).map_err(|_| MachineFault::NoMemory)
}
