//! Tests of the crates of runs, one module a crate: `ready_queue`, `agenda` and `poll_server`.
#![tactic(auto)]

#[cfg(test)]
mod agendas;
#[cfg(test)]
mod queues;
#[cfg(test)]
mod serving;
