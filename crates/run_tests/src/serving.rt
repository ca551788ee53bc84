// Polling servers of the tasks s (period 5, worst case 4) and a (period 10, worst case 10) on the machine of Pillai and
// Shin 2001. Expected values are a separate script's, which goes tick by tick.
ghost use Rattle.std.specs.Prelude.{◌≤◌, ◌<◌};
ghost use Rattle.dvs_base.specs.declared.limits.TheConstants.{MOST_TICKS};
ghost use Rattle.sched_model.specs.Plan.{count};
ghost use Rattle.sched_model.specs.States.{opening};

use dvs_base::{MOST_TICKS, Totals};
use edf_admit::edf_admit;
use freq_table::Machine;
use governor::Governor;
use poll_server::{Outcome, PollFault, poll};
use request_list::Requests;
use rm_admit::rm_admit;
use sched_model::Admitted;
use static_gov::{Full, Static};
use std::alloc::Global;
use std::process::Abort;
use std::test::Fail;
use task_model::TaskSet;
use test_inputs::example::PAPER_MACHINE;

const TASKS: &[u8] =
    b"task = [{name = \"s\", period = 5, worst = 4}, {name = \"a\", period = 10, worst = 10}]";

const LATER: &[u8] =
    b"task = [{name = \"s\", period = 5, worst = 4, offset = 3}, {name = \"a\", period = 10, worst = 10}]";

const CHARGED: &[u8] =
    b"charge = 1\npoint = [{speed = 2, millivolts = 3000}, {speed = 3, millivolts = 4000}, {speed = 4, millivolts = 5000}]";

// One request at a release, two at the next, one whose units exceed four budgets, one before the last release, and one
// after it.
const MANY: Case<'static> = Case {
    server: 0,
    requests: b"arrival,units\n0,4\n5,1\n5,2\n7,19\n33,2\n36,1\n",
    ticks: 40,
};

// The plan of tasks on a machine under EDF.
fn edf_plan(alloc: Global, tasks: &[u8], machine: &[u8]) -> Result<Admitted, Fail> {
    let tasks = TaskSet::read(alloc, tasks).ok().ok_or("tasks")?;
    let machine = Machine::read(alloc, machine).ok().ok_or("machine")?;
    Ok(edf_admit(alloc, &tasks, &machine).ok().ok_or("plan")?)
}

// The plan of tasks on a machine under RM.
fn rm_plan(alloc: Global, tasks: &[u8], machine: &[u8]) -> Result<Admitted, Fail> {
    let tasks = TaskSet::read(alloc, tasks).ok().ok_or("tasks")?;
    let machine = Machine::read(alloc, machine).ok().ok_or("machine")?;
    Ok(rm_admit(alloc, &tasks, &machine).ok().ok_or("plan")?)
}

// Requests of a file for a server, and the ticks of a run.
#[derive(Clone, Copy)]
struct Case<'a> {
    server: u32,
    requests: &'a [u8],
    ticks: u64,
}

// A request's job and the tick and offset at which it is done, or none if it is pending.
type Done = Option<(u64, u64, u64)>;

fn done(outcome: Outcome) -> Done {
    match outcome {
        Outcome::Served { job, at } => Some((job, at.tick, at.offset)),
        Outcome::Pending => None,
    }
}

// What a server makes of requests: what becomes of each in order, and the totals.
fn polled<G: Governor>(
    alloc: Global,
    plan: &Admitted,
    case: Case<'_>,
    governor: G,
) -> Result<(Vec<Done>, Totals), Fail>
    requires server { case.server < count plan.now }
    requires stands { G.stands governor plan.now (opening plan.now) }
    requires some_ticks { 1 ≤ case.ticks }
    requires low_ticks { case.ticks ≤ MOST_TICKS }
{
    let requests = Requests::read(alloc, case.requests).ok().ok_or("requests")?;
    match poll(alloc, plan, case.server, &requests, governor, case.ticks) {
        Ok(served) => {
            let mut outcomes = Vec::new(alloc);
            for m in 0..requests.count() {
                outcomes.push(done(served.outcome(m)))?;
            }
            Ok((outcomes, served.totals()))
        }
        Err(_) => Err("poll".into()),
    }
}

// At the highest speed a server does with the requests what is expected, at this energy; idling costs nothing.
fn serves(
    rt: &(impl Abort + AllocGlobal),
    plan: &Admitted,
    case: Case<'_>,
    expected: &[Done],
    energy: u128,
) -> Result<(), Fail> {
    let governor = Full::new(rt.alloc(), plan)?;
    if case.server >= plan.count() || case.ticks < 1 || case.ticks > MOST_TICKS {
        return Err("case".into());
    }
    let (outcomes, totals) = polled(rt.alloc(), plan, case, governor)?;
    assert_eq!(rt; outcomes.as_slice(), expected);
    assert_eq!(rt; (totals.run, totals.idle), (energy, 0));
    Ok(())
}

#[test]
fn requests_are_served_in_order(rt: HostRuntime) -> Result<(), Fail> {
    let plan = edf_plan(rt.alloc(), TASKS, PAPER_MACHINE)?;
    let case = Case {
        server: 0,
        requests: b"arrival,units\n0,3\n1,6\n12,1\n",
        ticks: 15,
    };
    serves(
        &rt,
        &plan,
        case,
        &[Some((1, 0, 3)), Some((3, 10, 2)), None],
        725000000000,
    )
}

#[test]
fn a_server_without_requests_needs_nothing(rt: HostRuntime) -> Result<(), Fail> {
    let plan = edf_plan(rt.alloc(), TASKS, PAPER_MACHINE)?;
    let case = Case {
        server: 0,
        requests: b"arrival,units\n",
        ticks: 15,
    };
    serves(&rt, &plan, case, &[], 500000000000)
}

const WITHOUT_CHARGE: &[Done] = &[
    Some((1, 1, 0)),
    Some((2, 5, 3)),
    Some((2, 5, 3)),
    Some((7, 30, 3)),
    Some((8, 35, 2)),
    None,
];

#[test]
fn a_request_may_take_many_budgets(rt: HostRuntime) -> Result<(), Fail> {
    let plan = edf_plan(rt.alloc(), TASKS, PAPER_MACHINE)?;
    serves(&rt, &plan, MANY, WITHOUT_CHARGE, 1700000000000)
}

const WITH_CHARGE: &[Done] = &[
    Some((1, 1, 2)),
    Some((2, 6, 1)),
    Some((2, 6, 1)),
    Some((7, 31, 1)),
    Some((8, 36, 0)),
    None,
];

#[test]
fn the_charge_serves_no_request(rt: HostRuntime) -> Result<(), Fail> {
    let plan = edf_plan(rt.alloc(), TASKS, CHARGED)?;
    serves(&rt, &plan, MANY, WITH_CHARGE, 2300000000000)
}

const BY_THE_SECOND: &[Done] = &[
    Some((1, 2, 0)),
    Some((2, 13, 2)),
    Some((2, 13, 2)),
    Some((4, 31, 2)),
    None,
    None,
];

#[test]
fn a_task_of_the_longest_period_may_serve(rt: HostRuntime) -> Result<(), Fail> {
    let plan = rm_plan(rt.alloc(), TASKS, PAPER_MACHINE)?;
    serves(
        &rt,
        &plan,
        Case { server: 1, ..MANY },
        BY_THE_SECOND,
        1450000000000,
    )
}

const WITH_AN_OFFSET: &[Done] = &[
    Some((1, 4, 0)),
    Some((2, 9, 0)),
    Some((2, 9, 0)),
    Some((7, 34, 0)),
    Some((7, 34, 0)),
    Some((8, 38, 1)),
];

#[test]
fn a_server_may_begin_later(rt: HostRuntime) -> Result<(), Fail> {
    let plan = edf_plan(rt.alloc(), LATER, PAPER_MACHINE)?;
    serves(&rt, &plan, MANY, WITH_AN_OFFSET, 1725000000000)
}

const AT_A_LOWER_SPEED: &[Done] = &[
    Some((1, 2, 0)),
    Some((2, 6, 1)),
    Some((2, 6, 1)),
    Some((7, 31, 1)),
    Some((8, 36, 0)),
    None,
];

// What becomes of many requests under static, and the totals.
fn serve_under_static(alloc: Global) -> Result<(Vec<Done>, Totals), Fail> {
    let plan = edf_plan(alloc, TASKS, PAPER_MACHINE)?;
    let governor = Static::new(alloc, &plan)?;
    if plan.count() == 0 {
        return Err("plan".into());
    }
    polled(alloc, &plan, MANY, governor)
}

#[test]
fn a_lower_speed_serves_later(rt: HostRuntime) -> Result<(), Fail> {
    let (outcomes, totals) = serve_under_static(rt.alloc())?;
    assert_eq!(rt; outcomes.as_slice(), AT_A_LOWER_SPEED);
    assert_eq!(rt; totals.run, 612000000000);
    Ok(())
}

// The refusal of a run of 400000 ticks without requests at the highest speed, if any.
fn refusal(alloc: Global, plan: &Admitted) -> Result<Option<PollFault>, Fail> {
    let governor = Full::new(alloc, plan)?;
    let requests = Requests::read(alloc, b"arrival,units\n")
        .ok()
        .ok_or("requests")?;
    if plan.count() == 0 {
        return Err("plan".into());
    }
    Ok(poll(alloc, plan, 0, &requests, governor, 400000).err())
}

#[test]
fn a_run_has_at_most_100000_jobs(rt: HostRuntime) -> Result<(), Fail> {
    let plan = edf_plan(rt.alloc(), TASKS, PAPER_MACHINE)?;
    let refused = refusal(rt.alloc(), &plan)?;
    assert_eq!(rt; refused, Some(PollFault::TooManyJobs { count: 120000 }));
    Ok(())
}
