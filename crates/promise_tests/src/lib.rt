//! Users of the top call: each function makes one call, and says of it what a user would say. Each clause follows from
//! one promise of `rtdvs`, so a promise that says less is refused here. [`control::prepare_nothing`] shows that what a
//! command prepares may always end with out of memory.
#![tactic(auto)]

pub mod control;
pub mod files;
pub mod notes;
pub mod shelves;
pub mod status;
