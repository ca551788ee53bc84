// Two calls over one shelf and one pair of sinks, the first of which fails or not.
use crate::call::{NO_FAULTS, Sinks};
use crate::hostile::example::{ADMIT, RESPONSE};
use crate::twice::{TwoCalls, twice};
use dvs_base::MemShelf;
use std::alloc::{AllocError, Global};
use std::process::Abort;
use std::test::Fail;
use test_inputs::{Ending, Outcome, words_of};

// Makes the calls `ADMIT` and `RESPONSE`, and returns the status of the first and the outcome of the second.
fn make_both_calls(
    alloc: Global,
    shelf: &mut MemShelf,
    sinks: &mut Sinks,
) -> Result<(u8, Outcome), AllocError> {
    let admit = words_of(alloc, ADMIT.words)?;
    let response = words_of(alloc, RESPONSE.words)?;
    let words = TwoCalls {
        first: &admit,
        second: &response,
    };
    let (one, two) = twice(alloc, &words, shelf, &mut sinks.out, &mut sinks.notes);
    let left = sinks.left(alloc, two.code(), shelf.faults())?;
    Ok((one.code(), left))
}

// Makes both calls over one shelf, whose loads with the numbers in `failing` fail, and returns the same.
fn call_over_one_shelf(alloc: Global, failing: &[u64]) -> Result<(u8, Outcome), Fail> {
    let mut shelf = ADMIT.shelf(alloc, failing)?;
    let mut sinks = Sinks::new(alloc, 128, NO_FAULTS)?;
    Ok(make_both_calls(alloc, &mut shelf, &mut sinks)?)
}

// The calls `ADMIT` and `RESPONSE` over one shelf, whose loads with the numbers in `failing` fail. The first has the
// status `first`, and the second ends so.
fn calls_end(
    rt: &(impl Abort + AllocGlobal),
    failing: &[u64],
    first: u8,
    second: Ending<'_>,
) -> Result<(), Fail> {
    let (one, left) = call_over_one_shelf(rt.alloc(), failing)?;
    assert_eq!(rt; one, first);
    left.is(RESPONSE.words, second)
}

// Both answers are on `out`: the test under RM, and then the responses.
#[test]
fn two_calls_that_succeed(rt: HostRuntime) -> Result<(), Fail> {
    let both = Ending {
        code: 0,
        out: "admitted rm 52/14 4\nresponse t1 3\nresponse t2 6\nresponse t3 7\n",
        notes: "",
        faults: [0, 0, 0],
    };
    calls_end(&rt, &[], 0, both)
}

// The first load fails, which is the first call's. The second call has its own answer.
#[test]
fn a_call_after_one_whose_load_failed(rt: HostRuntime) -> Result<(), Fail> {
    let second = Ending {
        code: 0,
        out: "response t1 3\nresponse t2 6\nresponse t3 7\n",
        notes: "load: tasks\n",
        faults: [1, 0, 0],
    };
    calls_end(&rt, &[1], 3, second)
}
