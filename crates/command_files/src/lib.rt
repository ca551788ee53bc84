//! The files that a command names, loaded and read; and their plan, admitted.
//!
//! Callers may rely on each load to give what the shelf's file means, or the status that ends the command, and to show
//! which loads were made.
#![tactic(auto)]

mod admission;
mod files;

pub use admission::admit;
pub use files::{load_demands, load_file, load_machine, load_tasks};
