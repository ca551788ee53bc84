// Small task sets whose responses are worked by hand.

use crate::admissions::read;
use rm_response::{ResponseFault, rm_response};
use std::alloc::Global;
use std::process::Abort;
use std::test::Fail;

const ONE: &str = "point = [{speed = 1, millivolts = 1000}]";

const TWO: &str = "point = [{speed = 1, millivolts = 500}, {speed = 2, millivolts = 1000}]";

const FOUR: &str = "point = [{speed = 2, millivolts = 3000}, {speed = 4, millivolts = 5000}]";

const FAST: &str = "point = [{speed = 1000000, millivolts = 1000}]";

const THOUSAND: &str = "point = [{speed = 1000, millivolts = 1000}]";

const CHARGED: &str = "charge = 1\npoint = [{speed = 1, millivolts = 1000}]";

// A task file, a machine file and the responses expected.
struct Case {
    tasks: &'static str,
    machine: &'static str,
    responses: &'static [u64],
}

const RESPONSES: &[Case] = &[
    // the static RM test denies these
    Case {
        tasks: r#"task = [{name = "a", period = 4, worst = 2}, {name = "b", period = 5, worst = 2}]"#,
        machine: ONE,
        responses: &[2, 4],
    },
    Case {
        tasks: r#"task = [{name = "b", period = 5, worst = 2}, {name = "a", period = 4, worst = 2}]"#,
        machine: ONE,
        responses: &[4, 2],
    },
    Case {
        tasks: r#"task = [{name = "a", period = 4, worst = 1}, {name = "b", period = 4, worst = 1}]"#,
        machine: ONE,
        responses: &[1, 2],
    },
    Case {
        tasks: r#"task = [{name = "a", period = 2, worst = 1}, {name = "b", period = 4, worst = 2}]"#,
        machine: ONE,
        responses: &[1, 4],
    },
    // several steps of the iteration, up to 8
    Case {
        tasks: r#"task = [
    {name = "a", period = 3, worst = 1},
    {name = "b", period = 4, worst = 1},
    {name = "c", period = 12, worst = 3},
]"#,
        machine: ONE,
        responses: &[1, 2, 8],
    },
    Case {
        tasks: r#"task = [
    {name = "t1", period = 8, worst = 12},
    {name = "t2", period = 10, worst = 12},
    {name = "t3", period = 14, worst = 4},
]"#,
        machine: FOUR,
        responses: &[3, 6, 7],
    },
    Case {
        tasks: r#"task = [{name = "a", period = 5, worst = 3}]"#,
        machine: TWO,
        responses: &[2],
    },
    Case {
        tasks: r#"task = [{name = "a", period = 5, worst = 1}]"#,
        machine: CHARGED,
        responses: &[3],
    },
    // the iteration goes in large steps
    Case {
        tasks: r#"task = [
    {name = "a", period = 1000000000000, worst = 250000000000},
    {name = "b", period = 1000000000000, worst = 250000000000},
]"#,
        machine: ONE,
        responses: &[250000000000, 500000000000],
    },
    // the first task leaves one unit of each 100 ticks, in the last of them; so the 5000000000 units of the second
    // take 5000000000 times 100 ticks
    Case {
        tasks: r#"task = [
    {name = "a", period = 100, worst = 99999999},
    {name = "b", period = 1099511627700, worst = 5000000000},
]"#,
        machine: FAST,
        responses: &[100, 500000000000],
    },
    // "a" leaves one unit of each 10 ticks, so the 50000 units of "b" take 500000 ticks; "a" and "b" together leave
    // 50000 units of each 1000000 ticks, in the second half of them, so the 1000000 units of "c" take 20 times as many
    Case {
        tasks: r#"task = [
    {name = "c", period = 1000000000000, worst = 1000000},
    {name = "b", period = 1000000, worst = 50000},
    {name = "a", period = 10, worst = 9999},
]"#,
        machine: THOUSAND,
        responses: &[20000000, 500000, 10],
    },
];

// The responses of the tasks of one file on the machine of another, or the fault.
pub(crate) fn answer(
    alloc: Global,
    tasks: &str,
    machine: &str,
) -> Result<Result<Vec<u64>, ResponseFault>, Fail> {
    let (tasks, machine) = read(alloc, tasks, machine)?;
    let response = match rm_response(alloc, &tasks, &machine) {
        Ok(response) => response,
        Err(fault) => return Ok(Err(fault)),
    };
    let mut list = Vec::new(alloc);
    for i in 0..tasks.count() {
        list.push(response.of(i))?;
    }
    Ok(Ok(list))
}

// The responses found for a task file are those expected.
pub(crate) fn expect_responses(rt: &impl Abort, tasks: &str, found: &[u64], want: &[u64]) {
    assert_eq!(rt; found, want, "{tasks}");
}

#[test]
fn responses_are_in_file_order(rt: HostRuntime) -> Result<(), Fail> {
    for case in RESPONSES {
        let found = answer(rt.alloc(), case.tasks, case.machine)?
            .ok()
            .ok_or("responses")?;
        expect_responses(&rt, case.tasks, &found, case.responses);
    }
    Ok(())
}

// The fault found for a task file is the one expected.
pub(crate) fn expect_fault(
    rt: &impl Abort,
    tasks: &str,
    found: Option<ResponseFault>,
    want: ResponseFault,
) {
    assert_eq!(rt; found, Some(want), "{tasks}");
}

// The fault of the tasks of one file on the machine of another, if they have no responses.
fn fault_of(alloc: Global, tasks: &str, machine: &str) -> Result<Option<ResponseFault>, Fail> {
    Ok(answer(alloc, tasks, machine)?.err())
}

#[test]
fn the_first_offset_is_named_before_all_else(rt: HostRuntime) -> Result<(), Fail> {
    let tasks = r#"task = [
    {name = "x", period = 4, worst = 8},
    {name = "y", period = 6, worst = 2, offset = 1},
    {name = "z", period = 6, worst = 2, offset = 3},
]"#;
    let found = fault_of(rt.alloc(), tasks, ONE)?;
    assert_eq!(rt; found, Some(ResponseFault::Offset { task: 1 }));
    Ok(())
}

// A task file, a machine file, the number of the task that is named, its `num` and its `cap`.
const MISSES: &[(&str, &str, u32, u128, u128)] = &[
    (
        r#"task = [{name = "a", period = 4, worst = 4}, {name = "b", period = 6, worst = 5}]"#,
        TWO,
        1,
        13,
        12,
    ),
    (
        r#"task = [{name = "c", period = 8, worst = 9}, {name = "a", period = 4, worst = 5}]"#,
        ONE,
        1,
        5,
        4,
    ),
    (
        r#"task = [{name = "b", period = 3, worst = 2}, {name = "a", period = 2, worst = 1}]"#,
        ONE,
        0,
        4,
        3,
    ),
    // of equal periods the later task in the file misses
    (
        r#"task = [{name = "a", period = 4, worst = 3}, {name = "b", period = 4, worst = 2}]"#,
        ONE,
        1,
        5,
        4,
    ),
    // the first task takes each tick whole: in one period of the second, 10995116277 times 100000000 units
    (
        r#"task = [
    {name = "a", period = 100, worst = 100000000},
    {name = "b", period = 1099511627700, worst = 1},
]"#,
        FAST,
        1,
        1099511627700000001,
        1099511627700000000,
    ),
];

#[test]
fn the_first_task_without_a_response_is_named(rt: HostRuntime) -> Result<(), Fail> {
    for (tasks, machine, task, num, cap) in MISSES {
        let found = fault_of(rt.alloc(), tasks, machine)?;
        let want = ResponseFault::Misses {
            task: *task,
            num: *num,
            cap: *cap,
        };
        expect_fault(&rt, tasks, found, want);
    }
    Ok(())
}
