// Replays of whole traces and of changed ones, under the highest speed.
use crate::plans::edf_plan;
use dvs_base::{GovernorKind, Note, Pos, Totals};
use replay::{ReplayFault, replay};
use sched_model::Admitted;
use static_gov::Full;
use std::alloc::Global;
use std::test::Fail;
use test_inputs::example::{PAPER_MACHINE, PAPER_TASKS};
use trace_reader::read_trace;

// The example's trace at the highest speed: the lines up to the first segment, the first end of a job, and the others.
const HEAD: &[u8] =
    b"trace 1\nplan edf none 16\nrelease 0 t1 1\nrelease 0 t2 1\nrelease 0 t3 1\nspeed 0 4 4/1\n";

const FIRST: &[u8] = b"run 0:0 3:0 t1 1 12 300000000000\n";

const FIRST_END: &[u8] = b"done 3:0 t1 1 12\n";

const OTHERS: &[u8] =
    b"speed 3 4 4/1\nrun 3:0 6:0 t2 1 12 300000000000\ndone 6:0 t2 1 12\nspeed 6 4 4/1\nrun 6:0 7:0 t3 1 4 100000000000\ndone 7:0 t3 1 4\nspeed 7 4 4/1\nidle 7:0 8:0 4 0\nrelease 8 t1 2\nspeed 8 4 4/1\nrun 8:0 10:0 t1 2 8 200000000000\nrelease 10 t2 2\nspeed 10 4 4/1\nrun 10:0 11:0 t1 2 4 100000000000\ndone 11:0 t1 2 12\nspeed 11 4 4/1\nrun 11:0 14:0 t2 2 12 300000000000\ndone 14:0 t2 2 12\nrelease 14 t3 2\nspeed 14 4 4/1\nrun 14:0 15:0 t3 2 4 100000000000\ndone 15:0 t3 2 4\nspeed 15 4 4/1\nidle 15:0 16:0 4 0\nend 16 1400000000000 0\n";

// The answer to a replay of `text`, a trace of the plan at the highest speed.
fn replayed(
    alloc: Global,
    plan: &Admitted,
    text: &[u8],
) -> Result<Result<Totals, ReplayFault>, Fail> {
    let scheduler = plan.scheduler();
    let read = read_trace(alloc, text, plan.names());
    let trace = read.map_err(|_| "trace")?;
    if trace.plan.scheduler != scheduler || trace.plan.governor != GovernorKind::Plain {
        return Err("plan of the trace".into());
    }
    let governor = Full::new(alloc, plan)?;
    Ok(replay(alloc, plan, &trace, governor))
}

// The answer to a replay of the example's trace, with this first segment and this end of it.
fn paper_replayed(
    alloc: Global,
    first: &[u8],
    first_end: &[u8],
) -> Result<Result<Totals, ReplayFault>, Fail> {
    let plan = edf_plan(alloc, PAPER_TASKS, PAPER_MACHINE)?;
    let mut text = Vec::from_slice(alloc, HEAD)?;
    text.extend_from_slice(first)?;
    text.extend_from_slice(first_end)?;
    text.extend_from_slice(OTHERS)?;
    replayed(alloc, &plan, &text)
}

// A running segment of the first job.
fn first_run(energy: u128) -> Note {
    Note::Run {
        from: Pos { tick: 0, offset: 0 },
        to: Pos { tick: 3, offset: 0 },
        task: 0,
        job: 1,
        units: 12,
        energy,
    }
}

#[test]
fn a_schedules_trace_has_its_totals(rt: HostRuntime) -> Result<(), Fail> {
    let totals = Totals {
        run: 1400000000000,
        idle: 0,
        released: 6,
        finished: 6,
        decisions: 9,
    };
    assert_eq!(rt; paper_replayed(rt.alloc(), FIRST, FIRST_END)?, Ok(totals));
    Ok(())
}

#[test]
fn one_wrong_digit_differs_on_its_line(rt: HostRuntime) -> Result<(), Fail> {
    let first = b"run 0:0 3:0 t1 1 12 300000000001\n";
    assert_eq!(rt;
        paper_replayed(rt.alloc(), first, FIRST_END)?,
        Err(ReplayFault::Differs {
            line: 7,
            wanted: first_run(300000000000),
            found: first_run(300000000001),
        })
    );
    Ok(())
}

#[test]
fn an_end_is_at_most_the_worst_case(rt: HostRuntime) -> Result<(), Fail> {
    let end = b"done 3:0 t1 1 13\n";
    assert_eq!(rt;
        paper_replayed(rt.alloc(), FIRST, end)?,
        Err(ReplayFault::OverWorst {
            task: 0,
            job: 1,
            used: 13,
            worst: 12,
        })
    );
    Ok(())
}

#[test]
fn the_first_end_of_a_job_fixes_its_demand(rt: HostRuntime) -> Result<(), Fail> {
    // the first end says 8, so the first segment is to have 8 units
    let end = b"done 3:0 t1 1 8\ndone 3:0 t1 1 12\n";
    let found = paper_replayed(rt.alloc(), FIRST, end)?;
    assert_eq!(rt;
        found,
        Err(ReplayFault::Differs {
            line: 7,
            wanted: Note::Run {
                from: Pos { tick: 0, offset: 0 },
                to: Pos { tick: 2, offset: 0 },
                task: 0,
                job: 1,
                units: 8,
                energy: 200000000000,
            },
            found: first_run(300000000000),
        })
    );
    Ok(())
}

#[test]
fn a_trillion_ticks_are_replayed_at_once(rt: HostRuntime) -> Result<(), Fail> {
    let plan = edf_plan(
        rt.alloc(),
        b"task = [{name = \"t1\", period = 1000000000000, worst = 1}]",
        b"point = [{speed = 1, millivolts = 1000}]",
    )?;
    let text =
        b"trace 1\nplan edf none 1000000000000\nrelease 0 t1 1\nspeed 0 1 1/1\nrun 0:0 1:0 t1 1 1 1000000000\ndone 1:0 t1 1 1\nspeed 1 1 1/1\nidle 1:0 1000000000000:0 999999999999 0\nend 1000000000000 1000000000 0\n";
    let totals = Totals {
        run: 1000000000,
        idle: 0,
        released: 1,
        finished: 1,
        decisions: 2,
    };
    assert_eq!(rt; replayed(rt.alloc(), &plan, text)?, Ok(totals));
    Ok(())
}

#[test]
fn a_run_has_at_most_100000_jobs(rt: HostRuntime) -> Result<(), Fail> {
    let plan = edf_plan(rt.alloc(), PAPER_TASKS, PAPER_MACHINE)?;
    let text = b"trace 1\nplan edf none 1000000\nend 1000000 0 0\n";
    assert_eq!(rt;
        replayed(rt.alloc(), &plan, text)?,
        Err(ReplayFault::TooManyJobs { count: 296429 })
    );
    Ok(())
}
