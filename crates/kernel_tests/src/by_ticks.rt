// The kernel from event to event and the kernel tick by tick: both have the same notes and totals, under each pair of a
// scheduler and a governor.
ghost use Rattle.governor.specs.ServedSchedulers.{ServesEdf, ServesRm};
ghost use Rattle.event_kernel.specs.Runs.{IsListOf};

use crate::case::Case;
use crate::generator::WorkloadFiles;
use crate::heard::totals_of;
use crate::plans::{edf_planned, rm_planned};
use crate::runs::{HeardRun, Setup, Walk, edf_run, rm_run};
use dvs_base::GovernorKind;
use std::process::Abort;
use std::test::Fail;
use test_inputs::example::{
    BOTH_AT_2, CONTROLLER_DEMANDS, CONTROLLER_MACHINE, CONTROLLER_TASKS, LATE_TASKS, NO_DEMANDS,
    ONE_BEYOND, PAPER_DEMANDS, PAPER_MACHINE, PAPER_TASKS, TWO_TASKS,
};

// Compares the notes of two runs one by one.
fn expect_notes(rt: &impl Abort, name: &str, run: &HeardRun, other: &HeardRun) {
    let kind = run.kind;
    for (note, by_tick) in run.heard.notes.iter().zip(other.heard.notes.iter()) {
        assert_eq!(rt; note, by_tick, "{name}, {kind:?}");
    }
}

// Compares the number of notes and the totals of two runs, and the totals with those of the notes.
fn expect_totals(
    rt: &impl Abort,
    name: &str,
    run: &HeardRun,
    other: &HeardRun,
) -> Result<(), Fail> {
    let kind = run.kind;
    let counted = (other.heard.count, other.totals);
    assert_eq!(rt; (run.heard.count, run.totals), counted, "{name}, {kind:?}");
    let notes = run.heard.all().ok_or("room for the notes")?;
    assert_eq!(rt; run.totals, totals_of(notes), "{name}, {kind:?}");
    Ok(())
}

// Compares a run from event to event with that tick by tick.
fn compare(
    rt: &(impl Abort + AllocGlobal),
    name: &str,
    by_events: &HeardRun,
    by_ticks: &HeardRun,
) -> Result<(), Fail> {
    expect_notes(rt, name, by_events, by_ticks);
    expect_totals(rt, name, by_events, by_ticks)
}

// Compares the runs of a plan under each governor that serves EDF.
fn compare_under_edf(rt: &(impl Abort + AllocGlobal), setup: &Setup<'_>) -> Result<(), Fail>
    requires list { IsListOf setup.now.plan.now setup.now.demands.now }
    requires serves { ServesEdf setup.now.plan.now.scheduler }
{
    for kind in [
        GovernorKind::Plain,
        GovernorKind::Fixed,
        GovernorKind::Cycle,
        GovernorKind::Ahead,
    ] {
        let by_events = edf_run(rt.alloc(), setup, kind, Walk::Events)?;
        let by_ticks = edf_run(rt.alloc(), setup, kind, Walk::Ticks)?;
        compare(rt, setup.name, &by_events, &by_ticks)?;
    }
    Ok(())
}

// Compares the runs of a plan under each governor that serves RM.
fn compare_under_rm(rt: &(impl Abort + AllocGlobal), setup: &Setup<'_>) -> Result<(), Fail>
    requires list { IsListOf setup.now.plan.now setup.now.demands.now }
    requires serves { ServesRm setup.now.plan.now.scheduler }
{
    for kind in [
        GovernorKind::Plain,
        GovernorKind::Fixed,
        GovernorKind::Cycle,
    ] {
        let by_events = rm_run(rt.alloc(), setup, kind, Walk::Events)?;
        let by_ticks = rm_run(rt.alloc(), setup, kind, Walk::Ticks)?;
        compare(rt, setup.name, &by_events, &by_ticks)?;
    }
    Ok(())
}

// Whether EDF admits a case; if so, its runs under EDF are compared.
fn agrees_under_edf(
    rt: &(impl Abort + AllocGlobal),
    case: Case<'_>,
    ticks: u64,
) -> Result<bool, Fail> {
    match edf_planned(rt.alloc(), case)? {
        Some(planned) => {
            compare_under_edf(rt, &Setup::of(&planned, case, ticks))?;
            Ok(true)
        }
        None => Ok(false),
    }
}

// Whether RM admits a case; if so, its runs under RM are compared.
fn agrees_under_rm(
    rt: &(impl Abort + AllocGlobal),
    case: Case<'_>,
    ticks: u64,
) -> Result<bool, Fail> {
    match rm_planned(rt.alloc(), case)? {
        Some(planned) => {
            compare_under_rm(rt, &Setup::of(&planned, case, ticks))?;
            Ok(true)
        }
        None => Ok(false),
    }
}

// Compares the runs of a case under each pair whose test it passes. Returns whether it passes the test under EDF,
// and the test under RM.
fn compare_case(
    rt: &(impl Abort + AllocGlobal),
    case: Case<'_>,
    ticks: u64,
) -> Result<(bool, bool), Fail> {
    Ok((
        agrees_under_edf(rt, case, ticks)?,
        agrees_under_rm(rt, case, ticks)?,
    ))
}

#[test]
fn example_runs_agree(rt: HostRuntime) -> Result<(), Fail> {
    let few_units = b"task,job,units\nx,1,3\ny,1,5\nx,2,0\n".as_slice();
    for (words, tasks, demands) in [
        ("the example", PAPER_TASKS, PAPER_DEMANDS),
        ("the example at worst", PAPER_TASKS, NO_DEMANDS),
        ("the example with offsets", LATE_TASKS, PAPER_DEMANDS),
        ("offsets at worst", LATE_TASKS, NO_DEMANDS),
        ("two tasks at worst", TWO_TASKS, NO_DEMANDS),
        ("two tasks with few units", TWO_TASKS, few_units),
        ("one task after the run", ONE_BEYOND, NO_DEMANDS),
        ("both tasks at tick 2", BOTH_AT_2, NO_DEMANDS),
    ] {
        let case = Case {
            tasks,
            machine: PAPER_MACHINE,
            demands,
            words,
        };
        assert_eq!(rt; compare_case(&rt, case, 40)?, (true, true), "{words}");
    }
    Ok(())
}

#[test]
fn controller_runs_agree(rt: HostRuntime) -> Result<(), Fail> {
    let case = Case {
        tasks: CONTROLLER_TASKS,
        machine: CONTROLLER_MACHINE,
        demands: CONTROLLER_DEMANDS,
        words: "controller",
    };
    assert_eq!(rt; compare_case(&rt, case, 100)?, (true, true));
    Ok(())
}

// Compares the runs of 150 generated cases, from number `from` on. Returns how many EDF admits, and how many RM does.
fn compare_made(rt: &(impl Abort + AllocGlobal), from: u64) -> Result<(u64, u64), Fail> {
    let alloc = rt.alloc();
    let mut under_edf: u64 = 0;
    let mut under_rm: u64 = 0;
    for made in 0..150 {
        let seed = from.saturating_add(made);
        let files = WorkloadFiles::from_seed(alloc, seed)?;
        let name = format!(in alloc; "made case {seed}")?;
        let passed = compare_case(rt, files.case().asked(name.as_str()), 20)?;
        under_edf = under_edf.saturating_add(passed.0 as u64);
        under_rm = under_rm.saturating_add(passed.1 as u64);
    }
    Ok((under_edf, under_rm))
}

#[test]
fn made_runs_agree(rt: HostRuntime) -> Result<(), Fail> {
    let (under_edf, under_rm) = compare_made(&rt, 0)?;
    assert!(rt;
        under_edf >= 100 && under_rm >= 100,
        "{under_edf} {under_rm}"
    );
    Ok(())
}

#[test]
fn further_made_runs_agree(rt: HostRuntime) -> Result<(), Fail> {
    let (under_edf, under_rm) = compare_made(&rt, 150)?;
    assert!(rt;
        under_edf >= 100 && under_rm >= 100,
        "{under_edf} {under_rm}"
    );
    Ok(())
}
