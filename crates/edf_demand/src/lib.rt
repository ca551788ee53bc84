//! Deadlines up to the periods under EDF at one constant speed: the lowest speed that meets them all, by the
//! processor demand (Baruah, Rosier and Howell 1990).
//!
//! `constrain` goes once over the jobs of one hyperperiod, at most 100000, each a step of a queue of the tasks.
//! Callers may rely on its speed meeting every deadline in every schedule within the worst cases, for any number of
//! ticks, and on each lower speed missing one at worst. A denial comes exactly if its cause holds, unless memory
//! runs out: `Offset`, then `TooManyJobs`, then `Denied`.
#![tactic(auto)]

mod lowest_speed;
mod walk;

pub use deadline_list::{DeadlineFault, Deadlines};
pub use lowest_speed::{ConstrainFault, Constrained, constrain};
