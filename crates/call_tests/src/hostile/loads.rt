// For each command, each of its loads fails in turn.
use crate::call::{Call, Faults, NO_FAULTS};
use crate::hostile::example::{
    ADMIT, CONSTRAIN, CONTROLLER_RUN, LEAST, MIGRATE, POLL, REPLAY, RESPONSE, WORKLOAD,
};
use std::test::Fail;
use test_inputs::{Ending, shown};

// The load with this number fails, and the call ends as `ending` says.
fn ends_at_load(
    rt: &impl AllocGlobal,
    call: Call<'_>,
    number: u64,
    ending: Ending<'_>,
) -> Result<(), Fail> {
    let faults = Faults {
        loads: &[number],
        puts: &[],
        notes: &[],
    };
    call.ends(rt, faults, ending)
}

// The load with this number fails: nothing is on `out`, and the line names the file.
fn load_fails(rt: &impl AllocGlobal, call: Call<'_>, number: u64, file: &str) -> Result<(), Fail> {
    let line = format!(in rt.alloc(); "load: {file}\n")?;
    let failed = Ending {
        code: 3,
        out: "",
        notes: line.as_str(),
        faults: [1, 0, 0],
    };
    ends_at_load(rt, call, number, failed)
}

// A fault at the load with this number, which isn't made, doesn't fail the call.
fn load_is_not_made(rt: &impl AllocGlobal, call: Call<'_>, number: u64) -> Result<(), Fail> {
    let whole = call.under(rt.alloc(), NO_FAULTS)?;
    let done = Ending {
        code: 0,
        out: shown(whole.out.as_slice()),
        notes: "",
        faults: [0, 0, 0],
    };
    ends_at_load(rt, call, number, done)
}

// Each load of the call fails in turn, and one after them isn't made.
fn each_load_fails(rt: &impl AllocGlobal, call: Call<'_>, files: &[&str]) -> Result<(), Fail> {
    let mut number = 1;
    for file in files {
        load_fails(rt, call, number, file)?;
        number = number.saturating_add(1);
    }
    load_is_not_made(rt, call, number)
}

// Each load of each of these calls, which load these files, fails in turn.
fn all_loads_fail(rt: &impl AllocGlobal, cases: &[(Call<'_>, &[&str])]) -> Result<(), Fail> {
    for (call, files) in cases {
        each_load_fails(rt, *call, files)?;
    }
    Ok(())
}

// A call of each command that loads files, and these files.
const CALLS_AND_FILES: [(Call, &[&str]); 8] = [
    (CONTROLLER_RUN, &["tasks", "machine", "demands"]),
    (ADMIT, &["tasks", "machine"]),
    (REPLAY, &["tasks", "machine", "trace"]),
    (MIGRATE, &["tasks", "machine", "trace"]),
    (POLL, &["tasks", "machine", "requests"]),
    (RESPONSE, &["tasks", "machine"]),
    (CONSTRAIN, &["tasks", "machine", "deadlines"]),
    (LEAST, &["machine"]),
];

#[test]
fn each_load_of_each_command_fails(rt: HostRuntime) -> Result<(), Fail> {
    all_loads_fail(&rt, &CALLS_AND_FILES)
}

#[test]
fn a_workload_loads_nothing(rt: HostRuntime) -> Result<(), Fail> {
    each_load_fails(&rt, WORKLOAD, &[])
}
