//! Task sets: independent periodic tasks within the limits, read from TOML, made from a list and written back.
//! Callers may rely on every set to have 1 to 64 tasks within their limits, distinct names, and a least common
//! multiple of the periods of at most 2^48; on `read` to refuse exactly what `specs/TaskFile.antt` refuses, with that
//! refusal; and on every call without an allocator to take no memory.
#![tactic(auto)]

mod fault;
mod fault_line;
mod limits;
mod read;
mod task;
mod write;

pub use fault::{Field, TaskFault};
pub use fault_line::task_fault_line;
pub use limits::{LATEST_OFFSET, LONGEST_HYPERPERIOD, LONGEST_PERIOD, MOST_WORK};
pub use task::{Task, TaskSet, task_name};
