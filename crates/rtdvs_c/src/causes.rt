// Why numbers are refused, or denied by a test: the causes of a refusal.

/// There is no refusal.
pub const NO_CAUSE: u64 = 0;

/// There are no tasks.
pub const NO_TASKS: u64 = 1;

/// There are more than 64 tasks.
pub const TOO_MANY_TASKS: u64 = 2;

/// A period is not 1 to 2^40 ticks.
pub const PERIOD: u64 = 3;

/// A worst case is not 1 to 2^60 work units.
pub const WORST_CASE: u64 = 4;

/// An offset is above 2^40 ticks.
pub const OFFSET: u64 = 5;

/// The least common multiple of the periods is above 2^48 ticks.
pub const HYPERPERIOD: u64 = 6;

/// The share of an idle unit is above 1000 thousandths.
pub const IDLE: u64 = 7;

/// The charge is above 1000000 work units.
pub const CHARGE: u64 = 8;

/// There are no points.
pub const NO_POINTS: u64 = 9;

/// There are more than 32 points.
pub const TOO_MANY_POINTS: u64 = 10;

/// A speed is not 1 to 1000000 work units per tick.
pub const SPEED: u64 = 11;

/// A voltage is not 1 to 20000 millivolts.
pub const MILLIVOLTS: u64 = 12;

/// A speed is not above that of the point before, or a voltage is below it.
pub const NOT_RISING: u64 = 13;

/// The number of the scheduler is neither 0, EDF, nor 1, RM.
pub const SCHEDULER: u64 = 14;

/// The test under EDF: the work of a hyperperiod, against what the highest speed does in it.
pub const EDF_TEST: u64 = 15;

/// The test under RM: the work that a task's level asks for in its period, against what the highest speed does in it.
pub const RM_TEST: u64 = 16;

/// The exact test under RM: a task has an offset.
pub const FIRST_RELEASE: u64 = 17;

/// The exact test under RM: a task has no response. The work is that of its level in its period.
pub const NO_RESPONSE: u64 = 18;

/// Deadlines below the periods: the work due within some ticks, against what the highest speed does in them.
pub const DEMAND: u64 = 19;

/// More units than the highest speed does in the ticks.
pub const UNITS: u64 = 20;

/// The ticks of a least energy are not 1 to 2^40.
pub const TICKS: u64 = 21;

/// A relative deadline is not 1 tick to its task's period.
pub const DEADLINE: u64 = 22;

/// Deadlines below the periods: the jobs of a hyperperiod, against the most.
pub const JOBS: u64 = 23;

/// The number of EDF among the schedulers.
pub const EDF: u64 = 0;

/// The number of RM among the schedulers.
pub const RM: u64 = 1;

/// The exit status if the number of the scheduler is none.
pub const NO_SCHEDULER: u8 = 2;

/// The exit status if the ticks of a least energy are out of range.
pub const NO_TICKS: u8 = 2;
