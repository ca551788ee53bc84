// A run of a polling server.
ghost use Rattle.std.specs.Prelude.{◌≡◌, ◌<◌, ◌≤◌, ℕ, IfOk, OnOk, IsErrOf};
ghost use Rattle.dvs_base.specs.declared.limits.TheConstants.{MOST_JOBS, MOST_TICKS};
ghost use Rattle.sched_model.specs.Plan.{count};
ghost use Rattle.sched_model.specs.Jobs.{released_jobs};
ghost use Rattle.sched_model.specs.States.{opening};
ghost use Rattle.poll_server.specs.ServerJobs.{server_of};
ghost use Rattle.poll_server.specs.Bound.{HaveJobs, KeepsBound};
ghost use Rattle.poll_server.specs.Polled.{IsPolled, polled_notes};
ghost use Rattle.poll_server.specs.EachOutcome.{served_of};

use crate::ends::Ends;
use crate::outcomes::{Jobs, outcomes};
use crate::server::Server;
use crate::taking::polled_demands;
use crate::{PollFault, Served};
use dvs_base::MOST_JOBS;
use event_kernel::{Kernel, count_jobs, jobs_below};
use governor::Governor;
use request_list::Requests;
use sched_model::Admitted;
use std::alloc::Global;

/// Runs a plan for 1 to 2^40 ticks, in which the jobs of the task `server` serve requests; returns the outcome of each
/// request and the totals of the run.
///
/// A job of the server takes at its release what waits, up to the task's declared worst case, and needs that with the
/// charge; all other jobs need their worst cases. A request is served if the job that takes its last unit is done.
/// `TooManyJobs`, with their number, exactly if more than `MOST_JOBS` jobs are released below `ticks`; `NoMemory`
/// if memory ran out.
#[tactic(auto, using(crate::proofs::PolledRun::server_jobs))]
pub fn poll<G: Governor>(
    alloc: Global,
    plan: &Admitted,
    server: u32,
    requests: &Requests,
    governor: G,
    ticks: u64,
) -> Result<Served, PollFault>
    requires server { server < count plan.now }
    requires stands { G.stands governor plan.now (opening plan.now) }
    requires some_ticks { 1 ≤ ticks }
    requires low_ticks { ticks ≤ MOST_TICKS }

    // The answer is this function of the arguments.
    ensures served { IfOk result (λ r. r ≡ served_of G.demand (server_of plan.now server requests.now) ticks) }

    // Each request is served exactly if its job is done in the governor's schedule within the run, at that position.
    ensures outcomes { IfOk result (IsPolled (server_of plan.now server requests.now)
        (polled_notes G.demand (server_of plan.now server requests.now) ticks)) }

    // Each request has a job, and a later request never has an earlier one.
    ensures in_order { HaveJobs (server_of plan.now server requests.now) }

    // A request with backlog B is served by the deadline of the ceil(B/Q)-th job released at or after its arrival, if
    // that deadline lies within the run; Q is the budget.
    ensures bound { IfOk result (KeepsBound (server_of plan.now server requests.now) ticks) }

    // `TooManyJobs` exactly if more than `MOST_JOBS` jobs are released, with their number.
    ensures few { OnOk result (released_jobs plan.now ticks ≤ MOST_JOBS) }
    ensures many { (n : ℕ) → IsErrOf result (PollFault.TooManyJobs n)
        → (n ≡ released_jobs plan.now ticks) × (MOST_JOBS < n) }
    ensures memory { IsErrOf result PollFault.NoMemory → released_jobs plan.now ticks ≤ MOST_JOBS }
{
    let _admitted = plan.scheduler();
    let own = Server {
        plan,
        task: server,
        requests: requests.as_slice(),
    };
    let count = count_jobs(plan, ticks);
    if count > MOST_JOBS {
        return Err(PollFault::TooManyJobs { count });
    }
    let jobs = jobs_below(plan, server, ticks);
    let demands = polled_demands(alloc, &own, jobs)?;
    let mut ends = Ends::of(alloc, server, jobs)?;
    let kernel = Kernel::new(alloc, plan, &demands, governor, ticks)?;
    let totals = kernel.drive(&mut ends).unwrap();
    let list = outcomes(
        alloc,
        &Jobs {
            server: &own,
            count: jobs,
            ends: &ends,
        },
    )?;
    Ok(Served::of(list, totals))
}
