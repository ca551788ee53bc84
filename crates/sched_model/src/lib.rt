//! The model of a plan and its schedule, and the state of a run.
//! `specs/` goes from the plan to the notes of its schedule: jobs, ticks, priority, decisions, published demands, the
//! tests of admission, the schedule, its segments, notes and deadlines. The text of a trace is in `trace_text`.
//! Callers may rely on an `Admitted` plan being within the limits and passing its scheduler's test, on each call of
//! `State` changing exactly what it says, and on a plan having exactly one schedule of each length.
#![tactic(auto)]

mod holder;
mod order;
mod plan;
mod state;
mod static_demand;
mod sums;

pub use holder::Holder;
pub use order::{earlier_of, numbers_in_order, rm_order, stands_before};
pub use plan::Admitted;
pub use state::{Row, State};
pub use sums::{level_work, rate, total_rate, worst};
