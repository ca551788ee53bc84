// The most bytes of a note's line, and of its parts.
use dvs_base::{NAME_BYTES, NUMBER_BYTES, POSITION_BYTES, WIDE_BYTES};

/// The most bytes of a task's name and the number of a job, with a space between them.
pub(crate) const JOB_BYTES: usize = NAME_BYTES + 1 + NUMBER_BYTES;

/// The most bytes of the line of a note, with its line feed: that of a `run` line.
pub const NOTE_LINE_BYTES: usize = 2 * POSITION_BYTES + JOB_BYTES + NUMBER_BYTES + WIDE_BYTES + 9;
