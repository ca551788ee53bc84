//! Exact admission under RM at the highest speed by response times (Joseph and Pandya 1986).
//!
//! Callers may rely on each response being exactly the definition's: the least tick at which the task's first job is
//! complete when all jobs have their worst cases. If there are responses, every deadline is met under RM with the
//! governor `none`, for all demands. The error is `Offset` exactly if some task has an offset, and otherwise
//! `Misses` exactly if some task has no response, with the first such task in RM order and the two numbers that
//! show it.
#![tactic(auto)]

mod earlier;
mod inputs;
mod left;
mod loads;
mod nodes;
mod relaxed;
mod response;
mod search;
mod supply;

pub use response::{Response, ResponseFault, rm_response};
