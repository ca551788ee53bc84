//! The least energy for a number of work units in a number of ticks, with a certificate that can be checked by itself.
//!
//! A choice for a tick is an entry of the machine's table and a number of units within its speed. [`least_energy`]
//! finds two corners, which are full ticks or an idle one, whose mix costs the least; [`check`] tests such an answer
//! alone. Callers may rely on an answer that passes `check` as a bound for every choice and for every schedule, and on
//! the bound to be reached over `rounds` repetitions. No call takes memory.
#![tactic(auto)]

mod corner;
mod least;

pub use least::{Least, Over, check, least_energy};
