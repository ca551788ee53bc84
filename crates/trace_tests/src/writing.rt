// The lines of a trace in both versions, put into sinks that stop at each of them, with probes. The lines are written by
// hand, by the page on traces. The notes are of no run: each field has a value of its own.
ghost use Rattle.std.specs.Prelude.{◌≤◌};
ghost use Rattle.sched_model.specs.Plan.{count};

use crate::plans::edf_plan;
use dvs_base::{FailAt, Failed, GovernorKind, Line, MemSink, Note, Pos, Version};
use probes::What;
use sched_model::Admitted;
use std::alloc::Global;
use std::process::Abort;
use std::test::Fail;
use test_inputs::example::{PAPER_MACHINE, TWO_TASKS};
use test_inputs::{Asked, Probe, first_part, of_all_tasks, probes_of, shown, tallies_of};
use trace_writer::{Head, put_head, put_sums, tell_note};

// The bytes that a sink has room for if it stops by its list alone.
const ROOM: usize = 1024;

const FROM: Pos = Pos { tick: 4, offset: 1 };

const TO: Pos = Pos { tick: 6, offset: 2 };

// A note of each kind but the last.
const NOTES: [Note; 5] = [
    Note::Release {
        tick: 4,
        task: 0,
        job: 2,
    },
    Note::Speed {
        tick: 5,
        speed: 3,
        num: 25,
        den: 12,
    },
    Note::Run {
        from: FROM,
        to: TO,
        task: 1,
        job: 9,
        units: 7,
        energy: 112000000000,
    },
    Note::Done {
        at: TO,
        task: 1,
        job: 10,
        used: 8,
    },
    Note::Idle {
        from: TO,
        to: Pos { tick: 8, offset: 0 },
        units: 6,
        energy: 11,
    },
];

const END: Note = Note::End {
    ticks: 13,
    run: 14,
    idle: 15,
};

// The energies of both tasks; the second is the highest.
const ENERGIES: [u128; 2] = [0, 340282366920938463463374607431768211455];

// Probes that count releases, decisions, work units, completions and idle segments. The third leaves at 7 units.
fn asked() -> [Asked; 5] {
    [
        Asked::Count(of_all_tasks(What::Releases, None)),
        Asked::Count(of_all_tasks(What::Speeds, None)),
        Asked::Table(of_all_tasks(What::Units, Some(7))),
        Asked::Count(of_all_tasks(What::Dones, None)),
        Asked::Count(of_all_tasks(What::Idles, None)),
    ]
}

// What the probes that are left have counted once they were told every note.
const ALL_TOLD: [u64; 4] = [1, 1, 1, 1];

// The lines in version 1, each with what the probes that are left have counted before it.
const LINES_1: [(&str, &[u64]); 8] = [
    ("trace 1\n", &[0, 0, 0, 0, 0]),
    ("plan edf la 12\n", &[0, 0, 0, 0, 0]),
    ("release 4 x 2\n", &[0, 0, 0, 0, 0]),
    ("speed 5 3 25/12\n", &[1, 0, 0, 0, 0]),
    ("run 4:1 6:2 y 9 7 112000000000\n", &[1, 1, 0, 0, 0]),
    ("done 6:2 y 10 8\n", &[1, 1, 0, 0]),
    ("idle 6:2 8:0 6 11\n", &[1, 1, 1, 0]),
    ("end 13 14 15\n", &[1, 1, 1, 1]),
];

// The lines in version 2: it has two more for each task.
const LINES_2: [(&str, &[u64]); 12] = [
    ("trace 2\n", &[0, 0, 0, 0, 0]),
    ("plan edf la 12\n", &[0, 0, 0, 0, 0]),
    ("task x 4 0 4\n", &[0, 0, 0, 0, 0]),
    ("task y 6 2 6\n", &[0, 0, 0, 0, 0]),
    ("release 4 x 2\n", &[0, 0, 0, 0, 0]),
    ("speed 5 3 25/12\n", &[1, 0, 0, 0, 0]),
    ("run 4:1 6:2 y 9 7 112000000000\n", &[1, 1, 0, 0, 0]),
    ("done 6:2 y 10 8\n", &[1, 1, 0, 0]),
    ("idle 6:2 8:0 6 11\n", &[1, 1, 1, 0]),
    ("energy x 0\n", &[1, 1, 1, 1]),
    (
        "energy y 340282366920938463463374607431768211455\n",
        &[1, 1, 1, 1],
    ),
    ("end 13 14 15\n", &[1, 1, 1, 1]),
];

// The head of a trace of 12 ticks of the plan.
fn head_of(plan: &Admitted, version: Version) -> Head<'_> {
    Head {
        version,
        governor: GovernorKind::Ahead,
        plan,
        ticks: 12,
    }
}

// Puts all lines of the trace and tells the probes its notes, up to the first line that fails.
fn put_all(
    head: Head<'_>,
    out: &mut MemSink,
    probes: &mut Vec<Box<dyn Probe>>,
) -> Result<(), Failed>
    requires { count head.plan.now ≤ 2 }
{
    let names = head.plan.names();
    let mut line = Line::new();
    put_head(head, out)?;
    for note in &NOTES {
        tell_note(note, names, &mut line, out, probes)?;
    }
    put_sums(head, &ENERGIES, out)?;
    tell_note(&END, names, &mut line, out, probes)
}

// What the writer left: whether it failed, the bytes in the sink, the number of failed puts, and what the probes that
// are left have counted.
#[derive(Drop)]
struct Left {
    failed: bool,
    bytes: Vec<u8>,
    faults: u64,
    tallies: Vec<u64>,
}

// What the writer leaves in a sink of this room, whose listed puts fail.
fn left_in(alloc: Global, head: Head<'_>, room: usize, failing: &[FailAt]) -> Result<Left, Fail> {
    if head.plan.count() > 2 {
        return Err("tasks".into());
    }
    let mut out = MemSink::new(alloc, room, failing)?;
    let mut probes = probes_of!(alloc, &asked());
    let failed = put_all(head, &mut out, &mut probes).is_err();
    Ok(Left {
        failed,
        bytes: Vec::from_slice(alloc, out.bytes())?,
        faults: out.faults(),
        tallies: tallies_of(alloc, &probes)?,
    })
}

impl Left {
    // The sink has this text after that many failed puts, and the probes that are left have counted this.
    fn is(&self, rt: &impl Abort, text: &str, faults: u64, tallies: &[u64]) {
        assert_eq!(rt; shown(&self.bytes), text);
        assert_eq!(rt; self.faults, faults);
        assert_eq!(rt; self.failed, faults > 0);
        assert_eq!(rt; self.tallies.as_slice(), tallies);
    }
}

// The put with this number, that of the line after these, fails after each number of bytes, and if it has no room. The
// probes were told the notes before it.
fn expect_stop(
    rt: &(impl Abort + AllocGlobal),
    head: Head<'_>,
    call: u64,
    before: &str,
    told: (&str, &[u64]),
) -> Result<(), Fail> {
    let (line, tallies) = told;
    for taken in [0, 1, 255] {
        let first = first_part(line, 0, line, taken);
        let text = format!(in rt.alloc(); "{before}{first}")?;
        let stopped = left_in(rt.alloc(), head, ROOM, &[FailAt { call, taken }])?;
        stopped.is(rt, text.as_str(), 1, tallies);
    }
    let full = left_in(rt.alloc(), head, before.len(), &[])?;
    full.is(rt, before, 1, tallies);
    Ok(())
}

// The writer puts these lines, and stops at each of them whose put fails. No put comes after them.
fn expect_lines(
    rt: &(impl Abort + AllocGlobal),
    version: Version,
    lines: &[(&str, &[u64])],
) -> Result<(), Fail> {
    let plan = edf_plan(rt.alloc(), TWO_TASKS, PAPER_MACHINE)?;
    let head = head_of(&plan, version);
    let mut before = String::new(rt.alloc());
    let mut call: u64 = 1;
    for told in lines {
        expect_stop(rt, head, call, before.as_str(), *told)?;
        before.push_str(told.0)?;
        call = call.saturating_add(1);
    }
    let whole = left_in(rt.alloc(), head, ROOM, &[FailAt { call, taken: 0 }])?;
    whole.is(rt, before.as_str(), 0, &ALL_TOLD);
    Ok(())
}

#[test]
fn the_writer_stops_at_each_line_of_version_1(rt: HostRuntime) -> Result<(), Fail> {
    expect_lines(&rt, Version::One, &LINES_1)
}

#[test]
fn the_writer_stops_at_each_line_of_version_2(rt: HostRuntime) -> Result<(), Fail> {
    expect_lines(&rt, Version::Two, &LINES_2)
}
