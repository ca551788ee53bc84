// Task sets at random, whose responses are compared with the definition. In nearly all of them the last task takes more
// than a thousand steps of the iteration, so its response is searched for; about half of these have none.
use crate::responses::{answer, expect_fault, expect_responses};
use rm_response::ResponseFault;
use std::alloc::Global;
use std::process::Abort;
use std::test::Fail;
use test_inputs::Draws;

// How many sets are compared.
const SETS: u32 = 20;

// What the machine does in a tick, in work units.
const SPEED: u64 = 1000;

const MACHINE: &str = "point = [{speed = 1000, millivolts = 1000}]";

// The period of a task in ticks and its worst case in work units.
#[derive(Clone, Copy)]
struct Row {
    period: u64,
    worst: u64,
}

// Four tasks in RM order. The first leaves `units` units of each tick, the second `left` units of these in each of its
// periods, and the third takes nearly all of them. The fourth needs a part of what is left in its long period.
fn rows_of(draws: &mut Draws) -> [Row; 4] {
    let units = 2 + draws.below(8);
    let short = 600 + draws.below(100);
    let left = 60 + draws.below(80);
    let cut = draws.below(2).saturating_mul(draws.below(100000));
    let part = 2 + draws.below(3);
    [
        Row {
            period: 1,
            worst: SPEED - units,
        },
        Row {
            period: short,
            worst: units.saturating_mul(short).saturating_sub(left),
        },
        Row {
            period: short + 1,
            worst: left,
        },
        Row {
            period: short.saturating_mul(short + 1).saturating_sub(cut),
            worst: left.saturating_mul(part) / 8,
        },
    ]
}

// The task file of the rows.
fn file_of(alloc: Global, rows: &[Row]) -> Result<String, Fail> {
    let mut text = String::new(alloc);
    for (i, row) in rows.iter().enumerate() {
        let (period, worst) = (row.period, row.worst);
        let task = format!(in alloc;
            "[[task]]\nname = \"t{i}\"\nperiod = {period}\nworst = {worst}\n"
        )?;
        text.push_str(&task)?;
    }
    Ok(text)
}

// The work of the rows in `ticks` ticks, each job at its worst case.
fn work_of(rows: &[Row], ticks: u64) -> u64 {
    let mut sum: u64 = 0;
    for row in rows {
        let jobs = ticks.div_ceil(row.period.max(1));
        sum = sum.saturating_add(jobs.saturating_mul(row.worst));
    }
    sum
}

// The least number of ticks up to the period in which the highest speed does the work of the rows.
fn least_of(rows: &[Row], period: u64) -> Option<u64> {
    for ticks in 1..=period {
        if work_of(rows, ticks) <= SPEED.saturating_mul(ticks) {
            return Some(ticks);
        }
    }
    None
}

// The responses of the rows by the definition, or the fault of the first without one.
fn defined(alloc: Global, rows: &[Row; 4]) -> Result<Result<Vec<u64>, ResponseFault>, Fail> {
    let mut list = Vec::new(alloc);
    for task in 0..4 {
        let level = &rows[..=task as usize];
        let period = rows[task as usize].period;
        let Some(ticks) = least_of(level, period) else {
            return Ok(Err(ResponseFault::Misses {
                task,
                num: u128::from(work_of(level, period)),
                cap: u128::from(SPEED.saturating_mul(period)),
            }));
        };
        list.push(ticks)?;
    }
    Ok(Ok(list))
}

// The responses found for a task file, or the fault, are those expected.
fn expect_answer(
    rt: &impl Abort,
    tasks: &str,
    found: Result<Vec<u64>, ResponseFault>,
    want: &Result<Vec<u64>, ResponseFault>,
) -> Result<(), Fail> {
    match want {
        Ok(list) => {
            let found = found.ok().ok_or("responses")?;
            expect_responses(rt, tasks, &found, list);
        }
        Err(fault) => expect_fault(rt, tasks, found.err(), *fault),
    }
    Ok(())
}

// The responses of the rows are those of the definition.
fn compare(rt: &(impl Abort + AllocGlobal), rows: &[Row; 4]) -> Result<(), Fail> {
    let alloc = rt.alloc();
    let file = file_of(alloc, rows)?;
    let want = defined(alloc, rows)?;
    let found = answer(alloc, &file, MACHINE)?;
    expect_answer(rt, &file, found, &want)
}

#[test]
fn long_responses_are_those_of_the_definition(rt: HostRuntime) -> Result<(), Fail> {
    let mut draws = Draws::from_seed(1);
    for _ in 0..SETS {
        compare(&rt, &rows_of(&mut draws))?;
    }
    Ok(())
}
