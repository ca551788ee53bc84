// Traces that are cut, in both versions.
use crate::call::Call;
use crate::hostile::example::REPLAY;
use std::test::Fail;
use test_inputs::example::{CYCLE_TRACE, PAPER_MACHINE, TWO_TASKS, TWO_TRACE_2};

const REPLAY_TWO: Call = Call {
    tasks: TWO_TASKS,
    machine: PAPER_MACHINE,
    third: b"",
    words: "replay --tasks T --machine M --trace F",
};

// The trace is refused for having no end, with the number of its last line.
fn has_no_end(rt: &impl AllocGlobal, call: Call<'_>, line: u64) -> Result<(), Fail> {
    let refusal = format!(in rt.alloc(); "trace: line {line}: no end")?;
    call.refuses_file(rt, refusal.as_str())
}

// Each proper prefix of a trace is refused for having no end, with the number of its last line.
fn each_prefix_has_no_end(rt: &impl AllocGlobal, call: Call<'_>, trace: &[u8]) -> Result<(), Fail> {
    let mut line = 1u64;
    let mut cut = Vec::new(rt.alloc());
    for byte in trace {
        has_no_end(rt, call.with_third(&cut), line)?;
        cut.push(*byte)?;
        if *byte == b'\n' {
            line = line.saturating_add(1);
        }
    }
    Ok(())
}

#[test]
fn a_trace_that_is_cut(rt: HostRuntime) -> Result<(), Fail> {
    each_prefix_has_no_end(&rt, REPLAY, CYCLE_TRACE)
}

#[test]
fn a_trace_of_version_2_that_is_cut(rt: HostRuntime) -> Result<(), Fail> {
    each_prefix_has_no_end(&rt, REPLAY_TWO, TWO_TRACE_2.as_bytes())
}
