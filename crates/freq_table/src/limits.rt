// The limits of machines.

/// The most entries of a table.
pub const MOST_POINTS: usize = 32;

/// The highest speed of an entry, in work units per tick.
pub const TOP_SPEED: u64 = 1_000_000;

/// The highest voltage of an entry, in millivolts.
pub const MOST_MILLIVOLTS: u64 = 20_000;

/// The most that an idle unit may cost, in thousandths of a running unit at the same entry.
pub const MOST_IDLE: u64 = 1000;

/// The most that a switch of speed may cost, in work units.
pub const MOST_CHARGE: u64 = 1_000_000;
