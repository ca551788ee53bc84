// Parts of admitted plans, and the state that a run begins in.
use dvs_base::Scheduler;
use edf_admit::edf_admit;
use freq_table::Machine;
use grid_fraction::Frac;
use rm_admit::rm_admit;
use sched_model::{Admitted, Row, State};
use std::alloc::{AllocError, Global};
use std::process::Abort;
use std::test::Fail;
use task_model::TaskSet;
use test_inputs::example::{PAPER_MACHINE, PAPER_TASKS};

// Tasks whose RM order isn't their order in the file, on a machine with a charge.
const UNSORTED: &[u8] = br#"
task = [
    {name = "slow", period = 12, worst = 1, offset = 7},
    {name = "fast", period = 4, worst = 1},
    {name = "even", period = 6, worst = 2},
]
"#;

const CHARGED: &[u8] =
    b"charge = 1\npoint = [{speed = 2, millivolts = 1000}, {speed = 4, millivolts = 2000}]";

// The plan of two files under EDF.
fn edf_plan(alloc: Global, tasks: &[u8], machine: &[u8]) -> Result<Admitted, Fail> {
    let tasks = TaskSet::read(alloc, tasks).ok().ok_or("tasks")?;
    let machine = Machine::read(alloc, machine).ok().ok_or("machine")?;
    Ok(edf_admit(alloc, &tasks, &machine).ok().ok_or("plan")?)
}

// The plan of two files under RM.
fn rm_plan(alloc: Global, tasks: &[u8], machine: &[u8]) -> Result<Admitted, Fail> {
    let tasks = TaskSet::read(alloc, tasks).ok().ok_or("tasks")?;
    let machine = Machine::read(alloc, machine).ok().ok_or("machine")?;
    Ok(rm_admit(alloc, &tasks, &machine).ok().ok_or("plan")?)
}

// The period, the offset, the declared worst case and the worst case with the charge of a task.
fn numbers_of(plan: &Admitted, task: u32) -> Option<[u64; 4]> {
    if task < plan.count() {
        Some([
            plan.period(task),
            plan.offset(task),
            plan.declared(task),
            plan.worst(task),
        ])
    } else {
        None
    }
}

// The tasks of a plan in RM order.
fn rm_order(alloc: Global, plan: &Admitted) -> Result<Vec<u32>, AllocError> {
    let mut tasks = Vec::new(alloc);
    for rank in 0..plan.count() {
        tasks.push(plan.ranked(rank))?;
    }
    Ok(tasks)
}

// Whether a task has this name.
fn has_name(plan: &Admitted, task: usize, name: &[u8]) -> bool {
    match plan.names().get(task) {
        Some(found) => found.as_bytes() == name,
        None => false,
    }
}

// The tasks of the unsorted file are those of a plan.
fn expect_unsorted(rt: &impl Abort, plan: &Admitted) {
    assert_eq!(rt; numbers_of(plan, 0), Some([12, 7, 1, 3]));
    assert_eq!(rt; numbers_of(plan, 1), Some([4, 0, 1, 3]));
    assert_eq!(rt; numbers_of(plan, 2), Some([6, 0, 2, 4]));
    assert!(rt; has_name(plan, 0, b"slow"));
    assert!(rt; has_name(plan, 1, b"fast"));
    assert!(rt; has_name(plan, 2, b"even"));
}

#[test]
fn tasks_of_a_plan(rt: HostRuntime) -> Result<(), Fail> {
    let plan = edf_plan(rt.alloc(), UNSORTED, CHARGED)?;
    expect_unsorted(&rt, &plan);
    Ok(())
}

// The parts of the plan of the unsorted file under EDF.
fn expect_edf_parts(rt: &impl Abort, plan: &Admitted) {
    assert_eq!(rt; plan.scheduler(), Scheduler::Edf);
    let demand = Frac { num: 20, den: 12 };
    assert_eq!(rt;
        (plan.count(), plan.hyper(), plan.static_demand()),
        (3, 12, demand)
    );
    assert_eq!(rt; plan.machine().charge(), 1);
}

#[test]
fn parts_of_a_plan_under_edf(rt: HostRuntime) -> Result<(), Fail> {
    let plan = edf_plan(rt.alloc(), UNSORTED, CHARGED)?;
    expect_edf_parts(&rt, &plan);
    let order = rm_order(rt.alloc(), &plan)?;
    assert_eq!(rt; order.as_slice(), [1, 2, 0].as_slice());
    Ok(())
}

// The levels of `even` and of `slow` ask for equal shares, and `even` comes first.
#[test]
fn static_demand_of_a_plan_under_rm(rt: HostRuntime) -> Result<(), Fail> {
    let alloc = rt.alloc();
    let plan = rm_plan(alloc, UNSORTED, CHARGED)?;
    assert_eq!(rt; plan.scheduler(), Scheduler::Rm);
    assert_eq!(rt; plan.static_demand(), Frac { num: 10, den: 6 });
    Ok(())
}

// The opening state of a plan, after the first release of its first task if that is at tick 0.
fn opened(alloc: Global, plan: &Admitted) -> Result<State, Fail> {
    let _admitted = plan.scheduler();
    match State::new(alloc, plan) {
        Ok(mut state) => {
            if plan.offset(0) == 0 {
                state.release(plan, 0);
            }
            Ok(state)
        }
        Err(_) => Err("state")?,
    }
}

#[test]
fn first_release_opens_job_one(rt: HostRuntime) -> Result<(), Fail> {
    let alloc = rt.alloc();
    let plan = edf_plan(alloc, PAPER_TASKS, PAPER_MACHINE)?;
    let state = opened(alloc, &plan)?;
    let row = Row {
        deadline: 8,
        job: 1,
        used: 0,
        done: false,
        worst: 12,
    };
    assert_eq!(rt; state.rows.first(), Some(&row));
    Ok(())
}
