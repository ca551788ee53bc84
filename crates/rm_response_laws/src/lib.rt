//! The laws of exact response times under RM at the highest speed (Joseph and Pandya 1986).
//!
//! A busy stretch of a level is no longer than its task's response, so tasks that have a response meet their
//! deadlines, for all demands of their jobs. With every job at its worst case a first job takes exactly its task's
//! response. The crate has only lemmas: `rm_response` states them as clauses of its call.
#![tactic(auto)]
