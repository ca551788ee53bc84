// What the jobs of a server take.
ghost use Rattle.std.specs.Prelude.{◌≡◌, ◌+◌, ◌<◌, ◌≤◌, IfOk};
ghost use Rattle.dvs_base.specs.declared.limits.TheConstants.{MOST_JOBS};
ghost use Rattle.request_list.specs.Requests.{AreRequests};
ghost use Rattle.sched_model.specs.Plan.{count};
ghost use Rattle.poll_server.specs.ServerJobs.{arrived_units, taken_units};
ghost use Rattle.poll_server.specs.Walks.{HasPassed, StandsAfter, IsServable};

use crate::server::Server;
use demand_list::Demands;
use dvs_base::NoMemory;
use event_kernel::worst_demands;
use std::alloc::Global;

/// What is counted after some jobs of a server: the next request that hasn't arrived, the units of the requests before
/// it, and the units that the jobs took.
#[derive(Drop)]
pub(crate) struct Waiting {
    pub(crate) next: usize,
    pub(crate) arrived: u128,
    pub(crate) taken: u128,
}

impl Waiting {
    // Passes the requests that arrive at or before a tick.
    fn arrive(&mut self, server: &Server<'_>, tick: u64)
        requires requests { AreRequests server.now.requests }
        requires passed { HasPassed server.now tick self.old }
        ensures passed { HasPassed server.now tick self.new }
        ensures arrived { self.new.arrived ≡ arrived_units server.now tick }
        ensures taken { self.new.taken ≡ self.old.taken }
    {
        while self.next < server.requests.len() && server.requests[self.next].arrival <= tick {
            self.arrived += u128::from(server.requests[self.next].units);
            self.next += 1;
        }
    }

    /// The units that the next job takes, which is released after the first `jobs` jobs.
    pub(crate) fn take(&mut self, server: &Server<'_>, jobs: u64) -> u64
        requires task { server.now.task < count server.now.plan }
        requires requests { AreRequests server.now.requests }
        requires few { jobs < MOST_JOBS }
        requires stands { StandsAfter server.now jobs self.old }
        ensures taken { result ≡ taken_units server.now (jobs + 1) }
        ensures stands { StandsAfter server.now (jobs + 1) self.new }
    {
        self.arrive(server, server.release_after(jobs));
        let waiting = self.arrived.saturating_sub(self.taken);
        let units = waiting.min(u128::from(server.budget())) as u64;
        self.taken += u128::from(units);
        units
    }
}

/// The demand list in which the first `jobs` jobs of a server take what waits for them, and every other job needs its
/// worst case.
pub(crate) fn polled_demands(
    alloc: Global,
    server: &Server<'_>,
    jobs: u64,
) -> Result<Demands, NoMemory>
    requires task { server.now.task < count server.now.plan }
    requires requests { AreRequests server.now.requests }
    requires few { jobs ≤ MOST_JOBS }
    ensures { IfOk result (IsServable server.now jobs) }
{
    let _admitted = server.plan.scheduler();
    let mut demands = worst_demands(alloc, server.plan)?;
    let mut waiting = Waiting {
        next: 0,
        arrived: 0,
        taken: 0,
    };
    for job in 0..jobs {
        demands.set(server.task, job + 1, waiting.take(server, job))?;
    }
    Ok(demands)
}
