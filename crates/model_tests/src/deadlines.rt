// The lowest speed for deadlines up to the periods. Unless a case says otherwise, the tasks are a (period 4, worst case 2)
// and b (period 6, worst case 3).
use crate::admissions::read;
use edf_demand::{ConstrainFault, Constrained, Deadlines, constrain};
use grid_fraction::Frac;
use std::alloc::Global;
use std::process::Abort;
use std::test::Fail;

const TASKS: &str =
    r#"task = [{name = "a", period = 4, worst = 2}, {name = "b", period = 6, worst = 3}]"#;

const TWO_SPEEDS: &str = "point = [{speed = 1, millivolts = 1000}, {speed = 2, millivolts = 1000}]";

const ONE_SPEED: &str = "point = [{speed = 1, millivolts = 1000}]";

// The answer for a task file, a machine file and a deadline file.
fn answer_to(alloc: Global, files: [&str; 3]) -> Result<Result<Constrained, ConstrainFault>, Fail> {
    let [tasks, machine, deadlines] = files;
    let (tasks, machine) = read(alloc, tasks, machine)?;
    let deadlines = Deadlines::read(alloc, deadlines.as_bytes(), &tasks)
        .ok()
        .ok_or("deadlines")?;
    Ok(constrain(alloc, &tasks, &deadlines, &machine))
}

// The answer for a task file, a machine file and a deadline file is this one.
fn answers(
    rt: &(impl Abort + AllocGlobal),
    files: [&str; 3],
    want: Result<Constrained, ConstrainFault>,
) -> Result<(), Fail> {
    let found = answer_to(rt.alloc(), files)?;
    assert_eq!(rt; found, want);
    Ok(())
}

#[test]
fn the_greatest_demand_decides(rt: HostRuntime) -> Result<(), Fail> {
    let late = Constrained {
        demand: Frac { num: 7, den: 6 },
        point: 1,
    };
    answers(
        &rt,
        [TASKS, TWO_SPEEDS, "task,deadline\na,2\nb,5\n"],
        Ok(late),
    )?;
    let denied = ConstrainFault::Denied {
        at: 6,
        num: 7,
        cap: 6,
    };
    answers(
        &rt,
        [TASKS, ONE_SPEED, "task,deadline\na,2\nb,5\n"],
        Err(denied),
    )?;
    let periods = Constrained {
        demand: Frac { num: 12, den: 12 },
        point: 0,
    };
    answers(&rt, [TASKS, TWO_SPEEDS, "task,deadline\n"], Ok(periods))
}

#[test]
fn of_equal_demands_the_earliest_is_named(rt: HostRuntime) -> Result<(), Fail> {
    // one unit is due by tick 1, and two by tick 2
    let tasks =
        r#"task = [{name = "a", period = 4, worst = 1}, {name = "b", period = 4, worst = 1}]"#;
    let first = Constrained {
        demand: Frac { num: 1, den: 1 },
        point: 0,
    };
    answers(
        &rt,
        [tasks, TWO_SPEEDS, "task,deadline\na,1\nb,2\n"],
        Ok(first),
    )
}

#[test]
fn an_offset_is_named_before_many_jobs(rt: HostRuntime) -> Result<(), Fail> {
    let many = r#"task = [
    {name = "a", period = 1, worst = 1},
    {name = "b", period = 100000, worst = 1, offset = 3},
]"#;
    let offset = ConstrainFault::Offset { task: 1 };
    answers(&rt, [many, ONE_SPEED, "task,deadline\n"], Err(offset))?;
    let many = r#"task = [
    {name = "a", period = 1, worst = 1},
    {name = "b", period = 100000, worst = 1},
]"#;
    let jobs = ConstrainFault::TooManyJobs { count: 100001 };
    answers(&rt, [many, ONE_SPEED, "task,deadline\n"], Err(jobs))
}
