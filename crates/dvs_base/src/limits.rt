// The limits of task sets, runs and files.

/// The most tasks of a set.
pub const MOST_TASKS: usize = 64;

/// The most ticks of a run.
pub const MOST_TICKS: u64 = 1 << 40;

/// The most jobs that a run may release.
pub const MOST_JOBS: u64 = 100_000;

/// The most bytes of a task, machine or demand file: 16 MiB.
pub const LONGEST_FILE: u64 = 1 << 24;

/// The most bytes of a trace file: 256 MiB.
pub const LONGEST_TRACE: u64 = 1 << 28;

/// The most lines of a trace.
pub const MOST_LINES: u64 = 800_000;

/// The most bytes of a line that is written, with its line feed.
pub const LINE_BYTES: usize = 256;

/// The most bytes of a line of a trace, without its line feed.
pub const LONGEST_LINE: usize = LINE_BYTES - 1;

/// The most bytes of a task's name, and of a text from outside as it is shown.
pub const NAME_BYTES: usize = 32;

/// The most digits of a number below 2^64.
pub const NUMBER_BYTES: usize = 20;

/// The most digits of a number below 2^128.
pub const WIDE_BYTES: usize = 39;

/// The most bytes of a position, `tick:offset`.
pub const POSITION_BYTES: usize = 2 * NUMBER_BYTES + 1;

/// The most bytes of a fraction, `num/den`.
pub const RATIO_BYTES: usize = 2 * WIDE_BYTES + 1;
