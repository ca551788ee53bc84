// What a command prepares before anything is put.

use demand_list::Demands;
use dvs_base::{GovernorKind, Line, Totals, Version};
use energy_bound::Least;
use poll_server::Served;
use request_list::Requests;
use rm_response::Response;
use sched_model::Admitted;
use std::marker::Model;
use task_model::TaskSet;
use trace_reader::Trace;

/// A run that is to be written: an admitted plan, the demands of its jobs, the number of ticks, the governor, the version
/// of the text, and whether the probes are told its notes.
#[derive(Drop)]
pub(crate) struct ReadyRun {
    pub(crate) plan: Admitted,
    pub(crate) demands: Demands,
    pub(crate) ticks: u64,
    pub(crate) governor: GovernorKind,
    pub(crate) version: Version,
    pub(crate) probes: bool,
}

/// A polling server: a task of an admitted plan, and the requests that it serves.
#[derive(Drop)]
pub(crate) struct Polling {
    pub(crate) plan: Admitted,
    pub(crate) server: u32,
    pub(crate) requests: Requests,
}

impl Model for Polling {
    ghost use Rattle.poll_server.specs.ServerJobs.{ServerView, server_of};

    ghost Value = { ServerView };

    ghost view = { λ p. server_of p.plan p.server p.requests };

    ghost invariant = { λ p. Unit {0} };
}

/// A workload: the seed that it is generated from, its number of tasks, and the ticks of each run.
#[derive(Clone, Copy)]
pub(crate) struct Workload {
    pub(crate) seed: u64,
    pub(crate) tasks: u32,
    pub(crate) ticks: u64,
}

/// The totals of the runs under each governor that serves EDF.
#[derive(Clone, Copy)]
pub(crate) struct EdfTotals {
    pub(crate) full: Totals,
    pub(crate) fixed: Totals,
    pub(crate) cycle: Totals,
    pub(crate) ahead: Totals,
}

/// What a command prepares before anything is put; `'a` is that of its tasks.
#[derive(Drop)]
pub(crate) enum Prepared<'a> {
    /// The run whose trace `run` writes.
    Trace(ReadyRun),
    /// The plan and the trace that `migrate` writes in version 2.
    Migrated(Admitted, Trace),
    /// The line of `admit`, `replay` or `constrain`.
    Line(Line),
    /// The responses of the tasks.
    Responses(&'a TaskSet, Response),
    Polled(Polling, Served),
    Least(Least),
    /// A generated workload, and the totals of its runs.
    Workload(Workload, EdfTotals),
}
