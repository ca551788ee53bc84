//! How a call ends: its status, and the lines that go to `notes` at its end.
//!
//! Callers may rely on `note_end` to put the lines of the status, or those of the probes after a run that was told to
//! them and is done. If a put fails nothing more is put.
#![tactic(auto)]

mod difference;
mod notes;
mod probe_line;
mod refusal;
mod refused;
mod status;

pub use notes::{note_end, note_status};
pub use refusal::status_line;
pub use status::{Denied, FileKind, Status, TextFault};
