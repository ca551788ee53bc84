//! The text of a trace: what it is, in either version, and its lines as they are written.
//!
//! `specs/TraceText.antt` has the lines of a trace, their order and its text. Each call appends exactly the line that
//! the format gives, with its line feed, and takes no memory.
#![tactic(auto)]

mod limits;
mod versions;
mod write;

pub use limits::NOTE_LINE_BYTES;
pub use versions::{TaskLine, has_task_lines, write_share, write_task, write_version};
pub use write::{PlanLine, governor_word, note_line, scheduler_word, write_head, write_note};
