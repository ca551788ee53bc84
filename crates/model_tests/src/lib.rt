//! Tests of the crates that compute from tasks and machines, one module a crate: `grid_fraction`, `sched_model`,
//! `energy`, `energy_bound`, `rm_response` and `edf_demand`; the two admissions share one.
#![tactic(auto)]

#[cfg(test)]
mod accounts;
#[cfg(test)]
mod admissions;
#[cfg(test)]
mod deadlines;
#[cfg(test)]
mod fractions;
#[cfg(test)]
mod least_energies;
#[cfg(test)]
mod plans;
#[cfg(test)]
mod random_responses;
#[cfg(test)]
mod responses;
