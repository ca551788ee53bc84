//! Writes the trace of a run, line by line, into a sink, and tells probes its notes.
//!
//! Each line is one `put`. Callers may rely on this: if a line fails, the lines before it were put whole, the line
//! itself in part, and nothing after it. No call takes memory. `specs/RunText.antt` has the lines of a run and its text.
#![tactic(auto)]

mod write;

pub use write::{Head, put_head, put_sums, tell_note};
