//! Tests of the crates that write a trace, read it and replay it: `trace_writer`, `trace_reader` and `replay`, one module
//! a crate.
#![tactic(auto)]

#[cfg(test)]
mod plans;
#[cfg(test)]
mod reading;
#[cfg(test)]
mod replaying;
#[cfg(test)]
mod writing;
