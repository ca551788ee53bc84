//! Tests of the kernel and of the governors. Runs of the kernel are compared with its walk over ticks, with ticks and
//! traces that are worked out by hand, and each governor's first choice with its demand.
#![tactic(auto)]

#[cfg(test)]
mod by_ticks;
#[cfg(test)]
mod case;
#[cfg(test)]
mod choices;
#[cfg(test)]
mod generator;
#[cfg(test)]
mod heard;
#[cfg(test)]
mod kernel_runs;
#[cfg(test)]
mod plans;
#[cfg(test)]
mod reserve;
#[cfg(test)]
mod runs;
#[cfg(test)]
mod worked_ticks;
