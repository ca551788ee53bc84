//! All that the program does: the words are read, files loaded and read, a task set admitted, and its run written.
//!
//! Callers may rely on `rtdvs` to answer exactly what `specs/Promises.antt` says for the words and the files, to
//! give the cause of each refusal, and to meet every deadline of a run that it writes. That each put has one line is
//! tested, not proved. `responses_of` and `constrained_of` give the exact tests' answers without their texts.
#![tactic(auto)]

mod admit;
mod answer;
mod at_pair;
mod constrain;
mod generated;
mod least;
mod planned;
mod poll;
mod prepare;
mod prepared;
mod put;
mod response;
mod run;
mod top;
mod trace;

pub use constrain::constrained_of;
pub use response::responses_of;
pub use statuses::{Denied, FileKind, Status, TextFault};
pub use top::rtdvs;
