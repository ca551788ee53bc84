// Reading a machine file: its settings, its table, and the keys of each entry.
ghost use Rattle.std.specs.Prelude.{codes, ◌≡◌, ◌≤◌, ◌<◌, [], Some, length, IfOk, vec_len};
ghost use Rattle.std.specs.Option.{option_copied};
ghost use Rattle.toml.specs.Data.{get_member};
ghost use Rattle.toml.specs.View.{view, table_view, items_view};
ghost use Rattle.dvs_base.specs.Checks.{or_refusal};
ghost use Rattle.freq_table.specs.declared.limits.TheConstants.{MOST_POINTS};
ghost use Rattle.freq_table.specs.Tables.{IsPoint};
ghost use Rattle.freq_table.specs.Limits.{ArePoints};
ghost use Rattle.freq_table.specs.MachineFile.{MeansMachine, machine_fault_at, point_of_members, point_of, may_follow, last_of, points_from, points_of_array, points_at, table_of_document, machine_file};

use crate::fault::{MachineFault, MachineField};
use crate::limits::{MOST_CHARGE, MOST_IDLE, MOST_MILLIVOLTS, MOST_POINTS, TOP_SPEED};
use crate::machine::{Machine, Point};
use dvs_base::{
    DocumentFault, MemberFault, member_at, number_at, number_or_zero, read_document, unknown_key,
};
use std::alloc::Global;
use toml::{Table, Value};

fn fault_at(place: u32, field: MachineField, fault: MemberFault) -> MachineFault
    ensures { result ≡ machine_fault_at place field fault }
{
    match fault {
        MemberFault::Missing => MachineFault::Missing { place, field },
        MemberFault::Kind => MachineFault::Kind { place, field },
        MemberFault::Range => MachineFault::Range { place, field },
    }
}

// A number of the document or of the point at this place, or the refusal for its error.
fn number_in(
    place: u32,
    field: MachineField,
    number: Result<u64, MemberFault>,
) -> Result<u64, MachineFault>
    ensures { result ≡ or_refusal (machine_fault_at place field) number }
{
    number.map_err(|fault| fault_at(place, field, fault))
}

fn read_members(place: u32, table: &Table) -> Result<Point, MachineFault>
    ensures meaning { result ≡ point_of_members place (table_view table.now) }
    ensures limits { IfOk result (λ x. IsPoint x) }
{
    if let Some(key) = unknown_key(table, &["speed", "millivolts"]) {
        return Err(MachineFault::UnknownKey { place, key });
    }
    let speed = number_at(table, "speed", 1, TOP_SPEED);
    let speed = number_in(place, MachineField::Speed, speed)?;
    let millivolts = number_at(table, "millivolts", 1, MOST_MILLIVOLTS);
    let millivolts = number_in(place, MachineField::Millivolts, millivolts)?;
    Ok(Point { speed, millivolts })
}

fn read_point(place: u32, value: &Value) -> Result<Point, MachineFault>
    ensures meaning { result ≡ point_of place (view value.now) }
    ensures limits { IfOk result (λ x. IsPoint x) }
{
    let table = value.as_table().ok_or(MachineFault::Kind {
        place,
        field: MachineField::Entry,
    })?;
    read_members(place, table)
}

// Whether the point may follow these: its speed is above the last one's, and its voltage is not below.
fn may_follow(points: &[Point], x: Point) -> bool
    ensures { result ≡ may_follow (last_of points.now) x }
{
    match points.last() {
        Some(before) => before.speed < x.speed && before.millivolts <= x.millivolts,
        None => true,
    }
}

// The points of the entries, of which there are at most `MOST_POINTS`.
fn read_entries(alloc: Global, entries: &[Value]) -> Result<Vec<Point>, MachineFault>
    requires { length entries.now ≤ MOST_POINTS }
    ensures meaning { MeansMachine (λ v. v.items) result (points_from [] (items_view entries.now)) }
    ensures limits { IfOk result (λ v. ArePoints v.items) }
    ensures count { IfOk result (λ v. vec_len v ≡ length entries.now) }
{
    let mut points: Vec<Point> = Vec::new(alloc);
    for entry in entries {
        let place = points.len() as u32 + 1;
        let point = read_point(place, entry)?;
        if !may_follow(&points, point) {
            return Err(MachineFault::NotRising { place });
        }
        points.push(point).map_err(|_| MachineFault::NoMemory)?;
    }
    Ok(points)
}

fn read_array(alloc: Global, entries: &[Value]) -> Result<Vec<Point>, MachineFault>
    ensures meaning { MeansMachine (λ v. v.items) result (points_of_array (Some (items_view entries.now))) }
    ensures limits { IfOk result (λ v. ArePoints v.items) }
    ensures some { IfOk result (λ v. 1 ≤ vec_len v) }
    ensures few { IfOk result (λ v. vec_len v ≤ MOST_POINTS) }
{
    if entries.is_empty() {
        return Err(MachineFault::NoPoints);
    }
    if entries.len() > MOST_POINTS {
        return Err(MachineFault::TooMany {
            count: entries.len() as u64,
        });
    }
    read_entries(alloc, entries)
}

fn read_points(alloc: Global, table: &Table) -> Result<Vec<Point>, MachineFault>
    ensures meaning { MeansMachine (λ v. v.items) result
        (points_at (get_member (codes "point") (table_view table.now))) }
    ensures limits { IfOk result (λ v. ArePoints v.items) }
    ensures some { IfOk result (λ v. 1 ≤ vec_len v) }
    ensures few { IfOk result (λ v. vec_len v ≤ MOST_POINTS) }
{
    let value = member_at(table, "point").ok_or(MachineFault::NoPoints)?;
    let entries = value.as_array().ok_or(MachineFault::Kind {
        place: 0,
        field: MachineField::Point,
    })?;
    read_array(alloc, entries)
}

fn read_table(alloc: Global, table: &Table) -> Result<Machine, MachineFault>
    ensures { MeansMachine (λ m. m) result (table_of_document (Some (table_view table.now))) }
{
    if let Some(key) = unknown_key(table, &["charge", "idle", "point"]) {
        return Err(MachineFault::UnknownKey { place: 0, key });
    }
    let idle = number_or_zero(table, "idle", MOST_IDLE);
    let idle = number_in(0, MachineField::Idle, idle)?;
    let charge = number_or_zero(table, "charge", MOST_CHARGE);
    let charge = number_in(0, MachineField::Charge, charge)?;
    let points = read_points(alloc, table)?;
    Ok(Machine::from_points(points, idle, charge))
}

impl Machine {
    /// The machine of the file: an array of tables under the key `point`, each with a `speed` in work units per tick
    /// and its `millivolts`, and the numbers `idle` and `charge`, which are 0 if they are absent. For any other
    /// file, its first refusal, unless memory runs out.
    pub fn read(alloc: Global, bytes: &[u8]) -> Result<Machine, MachineFault>
        ensures { MeansMachine (λ m. m) result (machine_file bytes.now) }
    {
        let table = match read_document(alloc, bytes) {
            Ok(table) => table,
            Err(DocumentFault::NotToml) => return Err(MachineFault::NotToml),
            Err(DocumentFault::NoMemory) => return Err(MachineFault::NoMemory),
        };
        read_table(alloc, &table)
    }
}
