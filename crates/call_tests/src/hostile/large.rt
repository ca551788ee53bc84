// Files that are too large: too long, with too many rows or lines, or nested too deep.
use crate::call::Call;
use crate::hostile::example::{ADMIT, POLL, REPLAY};
use dvs_base::{LONGEST_FILE, LONGEST_LINE, MOST_LINES};
use request_list::MOST_REQUESTS;
use std::alloc::{AllocError, Global};
use std::test::Fail;
use test_inputs::example::{PAPER_MACHINE, PAPER_TASKS};

// A head followed by `count` equal bytes.
fn repeated(alloc: Global, head: &[u8], byte: u8, count: usize) -> Result<Vec<u8>, AllocError> {
    let mut bytes = Vec::from_slice(alloc, head)?;
    let rest = vec![in alloc; byte; count]?;
    bytes.extend_from_slice(&rest)?;
    Ok(bytes)
}

// A depth of nesting beyond the limit of the TOML reader.
const DEPTH: usize = 100000;

// A task file and a machine file of this head and this byte, repeated, are refused.
fn is_too_deep(rt: &impl AllocGlobal, head: &[u8], byte: u8) -> Result<(), Fail> {
    let deep = repeated(rt.alloc(), head, byte, DEPTH)?;
    let tasks = ADMIT.with_tasks(&deep);
    let machine = ADMIT.with_machine(&deep);
    tasks.refuses_file(rt, "tasks: not TOML")?;
    machine.refuses_file(rt, "machine: not TOML")
}

// Arrays nested in one another, and tables nested in one another.
#[test]
fn nested_too_deep(rt: HostRuntime) -> Result<(), Fail> {
    is_too_deep(&rt, b"task = ", b'[')?;
    is_too_deep(&rt, b"task = ", b'{')
}

const HEAD: &str = "trace 1\nplan edf cc 16\n";

// The head of a trace and `count` `idle` lines.
fn idle_lines(alloc: Global, count: u64) -> Result<Vec<u8>, AllocError> {
    let mut trace = Vec::from_slice(alloc, HEAD.as_bytes())?;
    for _line in 0..count {
        trace.extend_from_slice(b"idle 0:0 0:0 0 0\n")?;
    }
    Ok(trace)
}

// A trace of `count` `idle` lines between its head and its end.
fn idle_trace(alloc: Global, count: u64) -> Result<Vec<u8>, AllocError> {
    let mut trace = idle_lines(alloc, count)?;
    trace.extend_from_slice(b"end 16 0 0\n")?;
    Ok(trace)
}

// A trace with the most lines, three of which are the head's and the end's, is read, and its first line differs from
// that of the run. One line more is too many.
#[test]
fn the_most_lines(rt: HostRuntime) -> Result<(), Fail> {
    let most = idle_trace(rt.alloc(), MOST_LINES - 3)?;
    let notes = "differs: line 3\nwanted: release 0 t1 1\nfound: idle 0:0 0:0 0 0\n";
    REPLAY.with_third(&most).leaves(&rt, 7, "", notes)?;
    let more = idle_trace(rt.alloc(), MOST_LINES - 2)?;
    REPLAY
        .with_third(&more)
        .refuses_file(&rt, "trace: line 800001: too many lines")
}

// A line of one byte more than the most bytes, after the head of a trace and `count` `idle` lines.
fn long_after(alloc: Global, count: u64) -> Result<Vec<u8>, AllocError> {
    let mut trace = idle_lines(alloc, count)?;
    let long = vec![in alloc; b'a'; LONGEST_LINE + 1]?;
    trace.extend_from_slice(&long)?;
    trace.push(b'\n')?;
    Ok(trace)
}

// A line of one byte more than the most bytes is refused as too long if it is the last line that may be there. One
// line later it is refused as one too many, since the lines are counted first.
#[test]
fn one_line_too_many_that_is_too_long(rt: HostRuntime) -> Result<(), Fail> {
    let last = long_after(rt.alloc(), MOST_LINES - 3)?;
    REPLAY
        .with_third(&last)
        .refuses_file(&rt, "trace: line 800000: too long")?;
    let next = long_after(rt.alloc(), MOST_LINES - 2)?;
    REPLAY
        .with_third(&next)
        .refuses_file(&rt, "trace: line 800001: too many lines")
}

// A head and `count` rows of requests.
fn requests(alloc: Global, head: &str, count: u64) -> Result<String, AllocError> {
    let mut rows = String::from_str(alloc, head)?;
    for _row in 0..count {
        rows.push_str("0,1\n")?;
    }
    Ok(rows)
}

// A file of requests is refused with this line.
fn refuses_requests(rt: &impl AllocGlobal, rows: &str, line: &str) -> Result<(), Fail> {
    POLL.with_third(rows.as_bytes()).refuses_file(rt, line)
}

// The rows are counted before the first of them is checked.
#[test]
fn one_request_too_many(rt: HostRuntime) -> Result<(), Fail> {
    let mut rows = requests(rt.alloc(), "arrival,units\nx\n", MOST_REQUESTS - 1)?;
    refuses_requests(&rt, rows.as_str(), "requests: row 1: 1 fields")?;
    rows.push_str("0,1\n")?;
    refuses_requests(&rt, rows.as_str(), "requests: 100001 rows, at most 100000")
}

// Each request is right, but there is one too many.
#[test]
fn rows_have_a_limit(rt: HostRuntime) -> Result<(), Fail> {
    let rows = requests(rt.alloc(), "arrival,units\n", MOST_REQUESTS + 1)?;
    refuses_requests(&rt, rows.as_str(), "requests: 100001 rows, at most 100000")
}

// The header is looked at before the rows are counted.
#[test]
fn a_wrong_header_and_one_request_too_many(rt: HostRuntime) -> Result<(), Fail> {
    let rows = requests(rt.alloc(), "units,arrival\n", MOST_REQUESTS + 1)?;
    refuses_requests(&rt, rows.as_str(), "requests: wrong header")
}

// These bytes are too long in place of each file of a run, and of the requests.
fn is_too_long(rt: &impl AllocGlobal, long: &[u8]) -> Result<(), Fail> {
    let run = Call {
        tasks: PAPER_TASKS,
        machine: PAPER_MACHINE,
        third: b"",
        words: "run --tasks T --machine M --scheduler edf --governor none --ticks 16 --demands F",
    };
    run.with_tasks(long).refuses_file(rt, "tasks: too long")?;
    run.with_machine(long)
        .refuses_file(rt, "machine: too long")?;
    run.with_third(long).refuses_file(rt, "demands: too long")?;
    POLL.with_third(long).refuses_file(rt, "requests: too long")
}

// A file one byte longer than the limit, in place of each file of a run.
#[test]
fn a_file_over_the_limit_is_too_long(rt: HostRuntime) -> Result<(), Fail> {
    let long = vec![in rt.alloc(); b'#'; LONGEST_FILE as usize + 1]?;
    is_too_long(&rt, &long)
}
