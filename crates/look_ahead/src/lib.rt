//! The governor of look-ahead EDF (Pillai and Shin 2001).
//!
//! At a decision it puts off as much work as it can past the earliest deadline, and asks for the speed that does the
//! rest by then. It serves only EDF. It keeps what each job may still need, the tasks in EDF order and the rate of
//! each task, so that a decision is one walk over the tasks. No call but `LookAhead::new` takes memory.
//! Callers may rely on its demand being the published one, which may exceed the highest speed, and on every deadline
//! of its schedules being met.
#![tactic(auto)]

mod ahead;
mod order;
mod rates;
mod walk;

pub use ahead::LookAhead;
