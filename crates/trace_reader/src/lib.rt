//! Reading the text of a trace of either version.
//!
//! The reader takes exactly the texts of a trace, and for any other text it returns the first error.
#![tactic(auto)]

mod fault_line;
mod fields;
mod head;
mod line;
mod parts;
mod read;
mod shares;
mod text_line;
mod trace;

pub use fault_line::trace_fault_line;
pub use read::{read_any, read_trace};
pub use shares::task_energies;
pub use trace::{Trace, TraceFault, TraceKind};
