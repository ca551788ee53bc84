//! The energy of segments, and accounts of a run's energy.
//!
//! A unit costs the square of the millivolts in force, times 1000 if a job runs and times the machine's idle share
//! if none does. An [`Account`] is told the notes of a run with the entry in force at each.
//! Callers may rely on its sums and counts to be those over the notes told, and on every call but `Account::new` to
//! take no memory.
#![tactic(auto)]

mod account;
mod segment;

pub use account::Account;
pub use segment::energy_of;
