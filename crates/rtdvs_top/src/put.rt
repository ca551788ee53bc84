// The put of what a command prepared.
ghost use Rattle.rtdvs_top.specs.Prepared.{IsPutStep, IsPuttable, status_of_put};

use crate::Status;
use crate::at_pair::at_pair;
use crate::generated::put_workload;
use crate::least::put_least;
use crate::poll::put_polled;
use crate::prepared::Prepared;
use crate::response::put_responses;
use crate::run::{ended, run_governed};
use dvs_base::{Sink, Version, put_line};
use probes::Probe;
use replay::put_trace;
use std::alloc::Global;

/// Puts what a command prepared. It reads no file, and takes memory only before the first put. `Write` if a put
/// failed; a run may end with `Limit` or `NoMemory` before it puts anything.
pub(crate) fn put<W: Sink, P: Probe>(
    alloc: Global,
    prepared: Prepared<'_>,
    out: &mut W,
    probes: &mut Vec<P>,
) -> Result<(), Status>
    requires { IsPuttable prepared }
    ensures { IsPutStep W.shows P.seen (out.old, probes.old) (out.new, probes.new) prepared.entry
        (status_of_put result) }
{
    match prepared {
        Prepared::Trace(run) => at_pair!(
            run.plan.scheduler(),
            run.governor,
            run_governed,
            [W, P],
            alloc,
            &run,
            out,
            probes
        ),
        Prepared::Migrated(plan, trace) => ended(put_trace(&plan, &trace, Version::Two, out)),
        Prepared::Line(line) => ended(put_line(&line, out)),
        Prepared::Responses(tasks, response) => ended(put_responses(tasks, &response, out)),
        Prepared::Polled(polling, served) => ended(put_polled(&polling, &served, out)),
        Prepared::Least(least) => ended(put_least(&least, out)),
        Prepared::Workload(made, totals) => ended(put_workload(made, &totals, out)),
    }
}
