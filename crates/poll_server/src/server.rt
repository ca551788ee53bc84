// A polling server.
ghost use Rattle.std.specs.Prelude.{◌≡◌, ◌+◌, ◌<◌, ◌≤◌};
ghost use Rattle.dvs_base.specs.declared.limits.TheConstants.{MOST_JOBS};
ghost use Rattle.sched_model.specs.Plan.{count};
ghost use Rattle.task_model.specs.declared.limits.TheConstants.{MOST_WORK};
ghost use Rattle.poll_server.specs.ServerJobs.{budget, job_release};

use request_list::Request;
use sched_model::Admitted;
use std::marker::Model;

/// A polling server: a task of a plan, and the requests that it serves.
#[derive(Drop)]
pub(crate) struct Server<'a> {
    pub(crate) plan: &'a Admitted,
    pub(crate) task: u32,
    pub(crate) requests: &'a [Request],
}

impl<'a> Model for Server<'a> {
    ghost use Rattle.poll_server.specs.ServerJobs.{ServerView, server_of};

    ghost Value = { ServerView };

    ghost view = { λ s. server_of s.plan.now s.task s.requests.now };

    ghost invariant = { λ s. Unit {0} };
}

impl<'a> Server<'a> {
    /// The most work units that one job takes.
    pub(crate) fn budget(&self) -> u64
        requires { self.now.task < count self.now.plan }
        ensures budget { result ≡ budget self.now }
        ensures low { result ≤ MOST_WORK }
    {
        let _admitted = self.plan.scheduler();
        self.plan.declared(self.task)
    }

    /// The tick at which the job after the first `jobs` ones is released.
    pub(crate) fn release_after(&self, jobs: u64) -> u64
        requires task { self.now.task < count self.now.plan }
        requires few { jobs ≤ MOST_JOBS }
        ensures { result ≡ job_release self.now (jobs + 1) }
    {
        self.plan.offset(self.task) + jobs * self.plan.period(self.task)
    }
}
