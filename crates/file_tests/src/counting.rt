// What a probe counts, and the probes of a list.
use dvs_base::{Note, Pos};
use probes::{CountProbe, Probe, Rule, Stay, TableProbe, What, tell_all};
use std::alloc::Global;
use std::process::Abort;
use std::test::Fail;
use test_inputs::{Asked, probes_of, tallies_of};

const RELEASE: Note = Note::Release {
    tick: 0,
    task: 0,
    job: 1,
};

fn rule(what: What, task: Option<u32>, limit: Option<u64>) -> Rule {
    Rule { what, task, limit }
}

fn segment(task: u32, units: u64) -> Note {
    Note::Run {
        from: Pos { tick: 0, offset: 0 },
        to: Pos { tick: 1, offset: 0 },
        task,
        job: 1,
        units,
        energy: 0,
    }
}

// The list of these probes.
fn list_of(alloc: Global, asked: &[Asked]) -> Result<Vec<Box<dyn Probe>>, Fail> {
    Ok(probes_of!(alloc, asked))
}

// Only the probe without a limit is left, and has counted one release.
fn expect_unlimited(rt: &impl Abort, probes: &[Box<dyn Probe>]) {
    assert_eq!(rt; probes.len(), 1);
    let left = &probes[0];
    assert_eq!(rt; left.tally(), 1);
    assert!(rt; left.rule() == rule(What::Releases, None, None));
}

#[test]
fn a_probe_at_its_limit_leaves(rt: HostRuntime) -> Result<(), Fail> {
    let asked = [
        Asked::Count(rule(What::Releases, None, Some(1))),
        Asked::Count(rule(What::Releases, None, None)),
    ];
    let mut probes = list_of(rt.alloc(), &asked)?;
    tell_all(&mut probes, &RELEASE);
    expect_unlimited(&rt, &probes);
    Ok(())
}

// The probes hear of three segments, and all stay after the second.
fn hear_segments(rt: &impl Abort, probes: &mut Vec<Box<dyn Probe>>) {
    tell_all(probes, &segment(1, 4));
    tell_all(probes, &segment(0, 8));
    assert_eq!(rt; probes.len(), 3);
    tell_all(probes, &segment(1, 1));
}

#[test]
fn those_that_stay_keep_their_order(rt: HostRuntime) -> Result<(), Fail> {
    let alloc = rt.alloc();
    let asked = [
        Asked::Table(rule(What::Units, None, None)),
        Asked::Count(rule(What::Units, Some(1), Some(5))),
        Asked::Table(rule(What::Units, Some(0), Some(9))),
    ];
    let mut probes = list_of(alloc, &asked)?;
    hear_segments(&rt, &mut probes);
    assert_eq!(rt; tallies_of(alloc, &probes)?.as_slice(), [13, 8].as_slice());
    Ok(())
}

#[test]
fn a_tally_stops_at_the_highest(rt: HostRuntime) -> Result<(), Fail> {
    let mut count = CountProbe::new(rule(What::Units, None, Some(u64::MAX)));
    let first = count.tell(&segment(0, u64::MAX - 1));
    assert!(rt; first == Stay::Stay);
    let second = count.tell(&segment(63, 2));
    assert!(rt; second == Stay::Leave);
    assert_eq!(rt; count.tally(), u64::MAX);
    Ok(())
}

#[test]
fn a_table_stops_at_the_highest(rt: HostRuntime) -> Result<(), Fail> {
    let mut table = TableProbe::new(rule(What::Units, None, None));
    let _ = table.tell(&segment(0, u64::MAX - 1));
    let _ = table.tell(&segment(63, 2));
    assert_eq!(rt; table.tally(), u64::MAX);
    Ok(())
}
