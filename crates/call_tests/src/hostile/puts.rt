// For each command, each of its puts fails in turn.
use crate::call::{Call, Faults};
use crate::hostile::example::{
    ADMIT, ADMITTED, CONSTRAIN, CONSTRAINED, LEAST, LEAST_ENERGY, MIGRATE, NONE_RUN, POLL, POLLED,
    REPLAY, REPLAYED, RESPONSE, RESPONSES, TWO_RUN, WORKLOAD, WORKLOADS,
};
use crate::hostile::lines::{Line, after, lines_of};
use dvs_base::FailAt;
use std::process::Abort;
use std::test::Fail;
use test_inputs::Ending;
use test_inputs::example::{NONE_TRACE, TWO_TRACE_2};

// The numbers of bytes that a put takes before it fails.
pub(crate) const TAKEN: [u64; 3] = [0, 1, 255];

// The put of a line fails after each number of bytes in `parts`. `out` has the lines before it and what the put took.
// Returns the number of calls.
fn put_fails(
    rt: &impl AllocGlobal,
    call: Call<'_>,
    line: Line<'_>,
    parts: &[u64],
) -> Result<u64, Fail> {
    let mut calls: u64 = 0;
    for taken in parts.iter().copied() {
        call.fails_at(rt, line.failing(taken), line.first(taken))?;
        calls = calls.saturating_add(1);
    }
    Ok(calls)
}

// A put that isn't made doesn't fail the call.
fn put_is_not_made(
    rt: &impl AllocGlobal,
    call: Call<'_>,
    text: &str,
    put: FailAt,
) -> Result<(), Fail> {
    let faults = Faults {
        loads: &[],
        puts: &[put],
        notes: &[],
    };
    let whole = Ending {
        code: 0,
        out: text,
        notes: "",
        faults: [0, 0, 0],
    };
    call.ends(rt, faults, whole)
}

// Each put of the text, one for each line, fails in turn after each number of bytes in `parts`, and one after them
// isn't made. Returns the number of calls.
fn each_put_fails(
    rt: &impl AllocGlobal,
    call: Call<'_>,
    text: &str,
    parts: &[u64],
) -> Result<u64, Fail> {
    let lines = lines_of(rt.alloc(), text)?;
    let mut calls: u64 = 1;
    for line in &lines {
        calls = calls.saturating_add(put_fails(rt, call, *line, parts)?);
    }
    put_is_not_made(rt, call, text, after(&lines))?;
    Ok(calls)
}

// Each put of each of these texts fails in turn after each number of bytes in `TAKEN`, which takes this many calls.
fn expect_calls(
    rt: &(impl Abort + AllocGlobal),
    cases: &[(Call<'_>, &str, u64)],
) -> Result<(), Fail> {
    for (call, text, calls) in cases {
        assert_eq!(rt; each_put_fails(rt, *call, text, &TAKEN)?, *calls);
    }
    Ok(())
}

const TRACES: [(Call, &str, u64); 3] = [
    (NONE_RUN, NONE_TRACE, 100),
    (TWO_RUN, TWO_TRACE_2, 70),
    (MIGRATE, TWO_TRACE_2, 70),
];

#[test]
fn each_put_of_a_trace_fails(rt: HostRuntime) -> Result<(), Fail> {
    expect_calls(&rt, &TRACES)
}

const OTHER_TEXTS: [(Call, &str, u64); 6] = [
    (ADMIT, ADMITTED, 4),
    (REPLAY, REPLAYED, 4),
    (RESPONSE, RESPONSES, 10),
    (CONSTRAIN, CONSTRAINED, 4),
    (POLL, POLLED, 13),
    (LEAST, LEAST_ENERGY, 7),
];

#[test]
fn each_put_of_the_other_commands_fails(rt: HostRuntime) -> Result<(), Fail> {
    expect_calls(&rt, &OTHER_TEXTS)
}

// Each of these makes four runs of 50000 ticks, so they are separate tests.
#[test]
fn each_put_of_a_workload_takes_nothing(rt: HostRuntime) -> Result<(), Fail> {
    assert_eq!(rt; each_put_fails(&rt, WORKLOAD, WORKLOADS, &[0])?, 6);
    Ok(())
}

#[test]
fn each_put_of_a_workload_takes_a_byte(rt: HostRuntime) -> Result<(), Fail> {
    assert_eq!(rt; each_put_fails(&rt, WORKLOAD, WORKLOADS, &[1])?, 6);
    Ok(())
}

#[test]
fn each_put_of_a_workload_takes_all(rt: HostRuntime) -> Result<(), Fail> {
    assert_eq!(rt; each_put_fails(&rt, WORKLOAD, WORKLOADS, &[255])?, 6);
    Ok(())
}
