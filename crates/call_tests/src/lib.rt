//! Tests of the program through its one public call that go through many cases by a loop: each load and each put
//! fails in turn, inputs are cut or too large, and there are traces of generated plans, and probes. Calls that are
//! one case each are data of `stored_calls`. [`changed`] is a change of one byte, and [`twice::twice`] makes two calls
//! over one shelf. The other functions here say no more than that a call was made and ended as expected.
#![tactic(auto)]

#[cfg(test)]
mod call;
mod change;
#[cfg(test)]
mod hostile;
#[cfg(test)]
mod trace;
pub mod twice;

pub use change::{changed, other_byte};
