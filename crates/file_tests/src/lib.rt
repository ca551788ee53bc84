//! Tests of the crates of files, one module a crate: `task_model`, `freq_table`, `demand_list`, `deadline_list` and
//! `request_list`; and of `workload` and `probes`.
#![tactic(auto)]

#[cfg(test)]
mod counting;
#[cfg(test)]
mod deadlines;
#[cfg(test)]
mod demands;
#[cfg(test)]
mod machines;
#[cfg(test)]
mod requests;
#[cfg(test)]
mod tasks;
#[cfg(test)]
mod workloads;
