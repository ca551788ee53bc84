//! The governor of cycle-conserving EDF (Pillai and Shin 2001).
//!
//! It serves only EDF. It keeps each task's rate and their sum: the worst case while the task's job is incomplete,
//! and then what the job had. No call but `CcEdf::new` takes memory. Its published demand is the sum of the rates
//! over the hyperperiod, each choice meets its demand, and every deadline of its schedules is met.
#![tactic(auto)]

mod cycle;

pub use cycle::CcEdf;
