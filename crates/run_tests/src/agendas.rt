// The agenda of the state before the first release.
use agenda::Agenda;
use dvs_base::Scheduler;
use freq_table::Machine;
use sched_model::{Admitted, State, total_rate};
use std::alloc::Global;
use std::test::Fail;
use task_model::TaskSet;

const LATE: &[u8] =
    b"task = [{name = \"t1\", period = 8, worst = 1, offset = 3}, {name = \"t2\", period = 9, worst = 1, offset = 2}]";

const AT_ONCE: &[u8] =
    b"task = [{name = \"t1\", period = 8, worst = 1, offset = 3}, {name = \"t2\", period = 9, worst = 1}]";

const MACHINE: &[u8] = b"point = [{speed = 1, millivolts = 1000}]";

fn edf_plan(alloc: Global, tasks: &[u8]) -> Result<Admitted, Fail> {
    let tasks = TaskSet::read(alloc, tasks).ok().ok_or("tasks")?;
    let machine = Machine::read(alloc, MACHINE).ok().ok_or("machine")?;
    if total_rate(&tasks, &machine) > u128::from(machine.top()) * u128::from(tasks.hyper()) {
        return Err("denied")?;
    }
    Ok(Admitted::with(alloc, &tasks, &machine, Scheduler::Edf)?)
}

// The first task with an incomplete job, the next release and the first task that is released now.
fn looked_up(alloc: Global, plan: &Admitted) -> Result<(Option<u32>, u64, Option<u32>), Fail> {
    let _admitted = plan.scheduler();
    let Ok(state) = State::new(alloc, plan) else {
        return Err("state")?;
    };
    let Ok(agenda) = Agenda::new(alloc, plan) else {
        return Err("agenda")?;
    };
    Ok((
        agenda.first_ready(plan, &state),
        agenda.next_release(plan, &state),
        agenda.first_due(plan, &state),
    ))
}

// What the agenda says of the plan of these tasks, before the first release.
fn look_up_in_plan_of(
    alloc: Global,
    tasks: &[u8],
) -> Result<(Option<u32>, u64, Option<u32>), Fail> {
    looked_up(alloc, &edf_plan(alloc, tasks)?)
}

#[test]
fn the_next_release_is_the_least_offset(rt: HostRuntime) -> Result<(), Fail> {
    let late = look_up_in_plan_of(rt.alloc(), LATE)?;
    assert_eq!(rt; late, (None, 2, None));
    let at_once = look_up_in_plan_of(rt.alloc(), AT_ONCE)?;
    assert_eq!(rt; at_once, (None, 0, Some(1)));
    Ok(())
}
