//! Inputs that the crates of tests share, and the comparison of what a call left with what was expected. The promises
//! of the program are in `rtdvs_top`.
#![tactic(auto)]

mod asked;
mod draws;
mod ending;
pub mod example;
mod given;

pub use asked::{Asked, CountProbe, Probe, TableProbe, tallies_of};
pub use draws::Draws;
pub use ending::{Ending, Outcome, first_part, replaced, shown};
pub use given::{of_all_tasks, words_of};
