//! Cycle-conserving RM (Pillai and Shin 2001): at each release as many units as the static speed does up to the
//! earliest deadline are allotted to the tasks in RM order, and the speed does what is left of them in the rest of the
//! time.
//!
//! It serves only RM. It keeps what is left of each allotment and their sum: they are made at a mark and fall as jobs
//! run and complete. No call but `CcRm::new` takes memory. Its published demand is the definition's, each choice in a
//! calm state meets it, and every deadline of its schedules is met.
#![tactic(auto)]

mod allotments;
mod counters;
mod cycle;

pub use cycle::CcRm;
