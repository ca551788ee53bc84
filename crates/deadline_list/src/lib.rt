//! Relative deadlines of tasks: from their file, and from numbers of ticks.
//!
//! Callers may rely on every list to have one deadline for each task of its set, from 1 to the task's period.
#![tactic(auto)]

mod deadlines;
mod fault;
mod fault_line;
mod read;
mod ticks;

pub use deadlines::Deadlines;
pub use fault::DeadlineFault;
pub use fault_line::deadline_fault_line;
