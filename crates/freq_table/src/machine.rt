// A machine: its table of speeds, its idle share and its charge.
ghost use Rattle.std.specs.Prelude.{◌≡◌, ◌<◌, ◌≤◌, ◌*◌, length, vec_len, IfOk};
ghost use Rattle.dvs_base.specs.Widths.{u64_end};
ghost use Rattle.freq_table.specs.declared.limits.TheConstants.{MOST_POINTS, MOST_IDLE, MOST_CHARGE};
ghost use Rattle.freq_table.specs.Tables.{Table, point_at, highest_speed, lowest_pick, job_charge, IsTable};
ghost use Rattle.freq_table.specs.Limits.{ArePoints};

use dvs_base::NoMemory;
use grid_fraction::{Frac, meets};
use std::alloc::Global;
use std::marker::Model;

/// An entry of the table: the speed in work units per tick, and the voltage in millivolts.
#[derive(Clone, Copy, Debug, PartialEq, Eq)]
pub struct Point {
    pub speed: u64,
    pub millivolts: u64,
}

/// The entry that a demand picks, and whether its speed meets the demand.
#[derive(Clone, Copy, Debug, PartialEq, Eq)]
pub struct Pick {
    pub index: u32,
    pub met: bool,
}

/// A processor: its table of speeds, which rise, and the costs of idling and of a switch of speed.
#[derive(Drop)]
pub struct Machine {
    points: Vec<Point>,
    idle: u64,
    charge: u64,
}

impl Model for Machine {
    ghost use Rattle.freq_table.specs.Tables.{Table, IsTable};

    ghost Value = { Table };

    ghost view = { λ m. record { points = m.points.items; idle = m.idle; charge = m.charge } };

    ghost invariant = { λ m. IsTable (record { points = m.points.items; idle = m.idle; charge = m.charge }) };
}

impl Machine {
    pub(crate) fn from_points(points: Vec<Point>, idle: u64, charge: u64) -> Machine
        requires limits { ArePoints points.items }
        requires some { 1 ≤ vec_len points }
        requires few { vec_len points ≤ MOST_POINTS }
        requires idle { idle ≤ MOST_IDLE }
        requires charge { charge ≤ MOST_CHARGE }
        ensures { result ≡ (record { points = points.items; idle = idle; charge = charge }) }
    {
        Machine {
            points,
            idle,
            charge,
        }
    }

    /// The machine with these numbers and points. It fails only if memory runs out.
    pub fn of(alloc: Global, idle: u64, charge: u64, points: &[Point]) -> Result<Machine, NoMemory>
        requires { IsTable (record { points = points.now; idle = idle; charge = charge }) }
        ensures { IfOk result (λ m. m ≡ (record { points = points.now; idle = idle; charge = charge })) }
    {
        let points = Vec::from_slice(alloc, points)?;
        Ok(Machine::from_points(points, idle, charge))
    }

    /// A copy equal to this machine, within the limits that every machine keeps. It fails only if memory runs out.
    pub fn copy(&self, alloc: Global) -> Result<Machine, NoMemory>
        ensures equal { IfOk result (λ m. m ≡ self.now) }
        ensures limits { IfOk result (λ m. IsTable m) }
    {
        Machine::of(alloc, self.idle, self.charge, &self.points)
    }

    /// The first entry whose speed meets the demand, with `met` true; if none does, the last, with `met` false.
    pub fn lowest(&self, d: Frac) -> Pick
        requires some { 1 ≤ d.den }
        requires fits { d.den ≤ u64_end }
        ensures { result ≡ lowest_pick self.now d }
    {
        for (i, point) in self.points.iter().enumerate() {
            if meets(point.speed, d) {
                return Pick {
                    index: i as u32,
                    met: true,
                };
            }
        }
        Pick {
            index: self.points.len() as u32 - 1,
            met: false,
        }
    }

    /// How many entries the table has, 1 to 32.
    pub fn count(&self) -> u32
        ensures { result ≡ length self.now.points }
    {
        self.points.len() as u32
    }

    /// The entry with this number, counted from 0.
    pub fn point(&self, i: u32) -> Point
        requires { i < length self.now.points }
        ensures { result ≡ point_at self.now i }
    {
        self.points[i as usize]
    }

    /// The entries, in their order, and the limits that every machine keeps.
    pub fn as_slice(&self) -> &[Point]
        ensures points { result.now ≡ self.now.points }
        ensures limits { IsTable self.now }
    {
        &self.points
    }

    /// The highest speed in units per tick.
    pub fn top(&self) -> u64
        ensures { result ≡ highest_speed self.now }
    {
        self.points[self.points.len() - 1].speed
    }

    /// What an idle unit costs, in thousandths of a running unit at the same entry.
    pub fn idle(&self) -> u64
        ensures idle { result ≡ self.now.idle }
        ensures low { result ≤ MOST_IDLE }
    {
        self.idle
    }

    /// The work units that a switch of speed costs.
    pub fn charge(&self) -> u64
        ensures charge { result ≡ self.now.charge }
        ensures low { result ≤ MOST_CHARGE }
    {
        self.charge
    }

    /// The work units that each job is charged with, for two switches of speed.
    pub fn job_charge(&self) -> u64
        ensures charge { result ≡ job_charge self.now }
        ensures low { result ≤ 2 * MOST_CHARGE }
    {
        2 * self.charge
    }
}
