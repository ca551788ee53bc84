//! Generated workloads: tasks, a machine and demands from a seed.
//!
//! [`make`] draws everything from one stream of numbers, so equal seeds give equal workloads. Each task's worst case
//! is within its share of the highest speed.
//! Callers may rely on the workload to be that of `specs/Workload.antt`, and on its tasks to pass the test under EDF.
#![tactic(auto)]

mod draws;
mod made;

pub use made::make;
