//! Replays a trace: whether its notes are those of a governor's schedule, and at which line they first differ. Writes a
//! trace in either version.
//!
//! A trace fixes the demand of each job whose end it has; each other job has its worst case. The kernel runs the plan
//! for these demands into a listener that compares note by note and stops at the first unequal one, so no second trace
//! is built. Callers may rely on this: a trace of the schedule for some demand list is never found to differ. Which
//! demand lists have schedules with the same text is in `specs/SameTexts.antt`.
#![tactic(auto)]

mod check;
mod compared;
mod ends;
mod fault;
mod trace;

pub use check::replay;
pub use fault::ReplayFault;
pub use trace::put_trace;
