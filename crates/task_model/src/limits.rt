// The limits of tasks.

/// The longest period, in ticks.
pub const LONGEST_PERIOD: u64 = 1 << 40;

/// The most work that a task may declare as its worst case, in work units.
pub const MOST_WORK: u64 = 1 << 60;

/// The latest first release of a task, in ticks.
pub const LATEST_OFFSET: u64 = 1 << 40;

/// The longest hyperperiod of a set, in ticks.
pub const LONGEST_HYPERPERIOD: u64 = 1 << 48;
