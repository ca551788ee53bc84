// The values of the options that were given.
use crate::ticks::Ticks;
use dvs_base::{GovernorKind, Scheduler, Version};

/// The value of each option that was given, within its rule.
#[derive(Clone, Copy, Debug, Default, PartialEq, Eq)]
pub struct Given<'a> {
    pub tasks: Option<&'a str>,
    pub machine: Option<&'a str>,
    pub demands: Option<&'a str>,
    pub trace: Option<&'a str>,
    pub deadlines: Option<&'a str>,
    pub requests: Option<&'a str>,
    pub server: Option<&'a str>,
    pub scheduler: Option<Scheduler>,
    pub governor: Option<GovernorKind>,
    pub ticks: Option<Ticks>,
    pub seed: Option<u64>,
    pub units: Option<u64>,
    pub probes: Option<bool>,
    pub format: Option<Version>,
}

/// The scheduler, the governor and the number of ticks of a run.
#[derive(Clone, Copy, Debug, PartialEq, Eq)]
pub struct Timed {
    pub scheduler: Scheduler,
    pub governor: GovernorKind,
    pub ticks: Ticks,
}
