//! Task sets, their deadlines and machines from numbers: what a caller gives without a file.
//!
//! Callers may rely on the same limits, in the same order of checks, with the same refusals as those of the files, and
//! on the set, the deadlines and the machine to be those of `specs/Given.antt`.
#![tactic(auto)]

mod deadlines;
mod given;
mod machine;
mod tasks;

pub use deadlines::deadlines_of;
pub use given::{GivenPoint, GivenTask};
pub use machine::machine_of;
pub use tasks::tasks_of;
