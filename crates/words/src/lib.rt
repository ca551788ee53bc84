//! The words of a command: its name, and then its options in any order, each at most once.
//!
//! [`read_words`] returns the command, or the first error from left to right with its place; it allocates no memory.
//! What the words mean is one definition, `command_of` in `specs/Reading.antt`, over the table in `specs/Table.antt`. A
//! new command is a row of that table, a variant, and the record of what its words name ([`Command::words`]).
#![tactic(auto)]

mod build;
pub mod command;
mod fault_line;
mod given;
mod read;
mod table;
mod ticks;
mod value;

pub use command::{Command, Opt, WordFault};
pub use fault_line::word_fault_line;
pub use read::read_words;
pub use table::option_word;
