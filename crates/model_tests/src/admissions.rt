// The sufficient tests: what is denied, and by which numbers.
use edf_admit::{EdfFault, edf_admit};
use freq_table::Machine;
use rm_admit::{RmFault, rm_admit};
use std::alloc::Global;
use std::test::Fail;
use task_model::TaskSet;

// The task set and the machine of two files.
pub(crate) fn read(alloc: Global, tasks: &str, machine: &str) -> Result<(TaskSet, Machine), Fail> {
    let tasks = TaskSet::read(alloc, tasks.as_bytes()).ok().ok_or("tasks")?;
    let machine = Machine::read(alloc, machine.as_bytes())
        .ok()
        .ok_or("machine")?;
    Ok((tasks, machine))
}

// Three tasks ask for 48, 36 and 61 units in 12 ticks, one more than the highest speed does.
#[test]
fn edf_denies_one_unit_too_many(rt: HostRuntime) -> Result<(), Fail> {
    let (tasks, machine) = read(
        rt.alloc(),
        "task = [{name = \"a\", period = 3, worst = 12}, {name = \"b\", period = 4, worst = 12}, {name = \"c\", period = 12, worst = 61}]",
        "point = [{speed = 6, millivolts = 3000}, {speed = 12, millivolts = 5000}]",
    )?;
    let found = edf_admit(rt.alloc(), &tasks, &machine).err();
    assert_eq!(rt; found, Some(EdfFault::Denied { num: 145, cap: 144 }));
    Ok(())
}

#[test]
fn rm_denies_at_the_first_failing_task(rt: HostRuntime) -> Result<(), Fail> {
    for (tasks, machine, num, cap) in [
        (
            "task = [{name = \"a\", period = 4, worst = 4}, {name = \"b\", period = 6, worst = 5}]",
            "point = [{speed = 2, millivolts = 1000}]",
            13,
            12,
        ),
        (
            "task = [{name = \"a\", period = 4, worst = 2}, {name = \"b\", period = 5, worst = 2}]",
            "point = [{speed = 1, millivolts = 1000}]",
            6,
            5,
        ),
    ] {
        let (tasks, machine) = read(rt.alloc(), tasks, machine)?;
        let found = rm_admit(rt.alloc(), &tasks, &machine).err();
        assert_eq!(rt; found, Some(RmFault::Denied { task: 1, num, cap }));
    }
    Ok(())
}
