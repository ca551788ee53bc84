//! Tests of the crates that read and write text: `dvs_base`, `trace_text` and `words`, one module a crate.
#![tactic(auto)]

#[cfg(test)]
mod base;
#[cfg(test)]
mod command_words;
#[cfg(test)]
mod trace_lines;
#[cfg(test)]
mod trickling;
