//! What single jobs really need, in work units without the charge.
//!
//! A demand list has the declared worst case of each task and rows for single jobs, read from a file or set one by
//! one. A row never exceeds its task's worst case, and a job without a row needs its worst case. A file is read record
//! by record, so that a list takes the memory of its rows and not of the text.
#![tactic(auto)]

mod demands;
mod fault;
mod fault_line;
mod kept;
mod read;

pub use demands::Demands;
pub use fault::{Column, DemandFault};
pub use fault_line::{demand_fault_line, over_worst_line};
pub use read::worst_list;
