//! The kernel: it runs an admitted plan under a governor and hands a listener every note of the schedule.
//!
//! It is generic over the governor and learns each demand from `choose` alone. A listener hears all notes, in order;
//! if it stops, it has heard a proper prefix of them. `Kernel::run` is the run with a listener that writes each note's
//! line by `trace_writer` and then gives the note to probes.
#![tactic(auto)]

mod boundary;
mod ending;
mod in_force;
mod jobs;
mod kernel;
mod listener;
mod notes;
mod progress;
mod quiet;
mod segment;
mod span;
mod span_trace;
mod teller;
mod tick;

pub use jobs::{count_jobs, jobs_below, worst_demands};
pub use kernel::{Kernel, KernelFault};
pub use listener::{Listener, Stopped};
pub use teller::WriteFault;
