// Runs with probes, if puts fail and probes leave.
use crate::call::{Call, Faults, NO_FAULTS};
use crate::hostile::example::{DENIED, EACH_THAT_LOADS, OVER_WORST};
use crate::hostile::lines::{Line, fail_at, lines_of};
use dvs_base::FailAt;
use probes::{Rule, What};
use std::alloc::Global;
use std::test::Fail;
use test_inputs::example::{CYCLE_TRACE, PAPER_DEMANDS, PAPER_MACHINE, PAPER_TASKS};
use test_inputs::{Asked, Ending, Outcome, of_all_tasks, probes_of, shown, tallies_of};

const PROBED: Call = Call {
    tasks: PAPER_TASKS,
    machine: PAPER_MACHINE,
    third: PAPER_DEMANDS,
    words: "run --tasks T --machine M --scheduler edf --governor cc --ticks 16 --demands F --probes",
};

// A probe of the notes of this kind over all tasks.
fn count(what: What) -> Asked {
    Asked::Count(of_all_tasks(what, None))
}

// A probe that leaves at this completion.
fn leaves_at(dones: u64) -> Asked {
    Asked::Count(of_all_tasks(What::Dones, Some(dones)))
}

// A probe of the units of t2.
const UNITS: Asked = Asked::Table(Rule {
    what: What::Units,
    task: Some(1),
    limit: None,
});

// What a call with probes left, and the tallies of the probes that stayed.
#[derive(Drop)]
struct Told {
    left: Outcome,
    tallies: Vec<u64>,
}

impl Told {
    // Compares the status, and the tallies of the probes that stayed, with these. The error names the words.
    fn is(&self, words: &str, code: u8, tallies: &[u64]) -> Result<(), Fail> {
        if self.left.code != code {
            let found = self.left.code;
            return Err(Fail::new(format_args!("{words}: status {found}")));
        }
        if self.tallies.as_slice() != tallies {
            return Err(Fail::new(format_args!("{words}: other tallies")));
        }
        Ok(())
    }
}

// The call with these probes and these faults.
fn probed(
    alloc: Global,
    call: Call<'_>,
    faults: Faults<'_>,
    asked: &[Asked],
) -> Result<Told, Fail> {
    let mut probes = probes_of!(alloc, asked);
    let left = call.probed(alloc, faults, &mut probes)?;
    let tallies = tallies_of(alloc, &probes)?;
    Ok(Told { left, tallies })
}

// The run with these probes, if this put of the answer fails.
fn failed_at(alloc: Global, put: FailAt, asked: &[Asked]) -> Result<Told, Fail> {
    let faults = Faults {
        loads: &[],
        puts: &[put],
        notes: &[],
    };
    probed(alloc, PROBED, faults, asked)
}

// The end of a call that puts no note but that of a failed put, and leaves this text on `out`.
fn failed(out: &str) -> Ending<'_> {
    Ending {
        code: 8,
        out,
        notes: "write: out failed\n",
        faults: [0, 1, 0],
    }
}

// The run succeeds, with these notes; `failed` puts of the notes fail.
fn done(notes: &str, failed: u64) -> Ending<'_> {
    Ending {
        code: 0,
        out: shown(CYCLE_TRACE),
        notes,
        faults: [0, 0, failed],
    }
}

// If the put of this line fails, the text up to its end is on `out`, and a probe of decisions has counted `told`.
fn hears_before(alloc: Global, line: Line<'_>, told: u64) -> Result<(), Fail> {
    let run = failed_at(alloc, line.failing(255), &[count(What::Speeds)])?;
    run.left.is(PROBED.words, failed(line.first(255)))?;
    run.is(PROBED.words, 8, &[told])
}

// Each put of the trace fails in turn: the probe has counted the decisions of the lines before it, and no other.
#[test]
fn a_probe_hears_the_lines_that_were_put(rt: HostRuntime) -> Result<(), Fail> {
    let lines = lines_of(rt.alloc(), shown(CYCLE_TRACE))?;
    let mut told = 0u64;
    for line in &lines {
        hears_before(rt.alloc(), *line, told)?;
        if line.line.starts_with("speed ") {
            told = told.saturating_add(1);
        }
    }
    assert_eq!(rt; told, 8);
    Ok(())
}

// The run, with a probe that leaves at this completion and one of units, succeeds with these notes.
fn leaves_lines(alloc: Global, limit: u64, notes: &str) -> Result<(), Fail> {
    let run = probed(alloc, PROBED, NO_FAULTS, &[leaves_at(limit), UNITS])?;
    run.left.is(PROBED.words, done(notes, 0))
}

// The run has six completions; the last of them is its last note before the end.
#[test]
fn a_probe_leaves_at_its_last_note(rt: HostRuntime) -> Result<(), Fail> {
    let alloc = rt.alloc();
    leaves_lines(alloc, 0, "probe 1 units t2 8\n")?;
    leaves_lines(alloc, 5, "probe 1 units t2 8\n")?;
    leaves_lines(alloc, 6, "probe 1 units t2 8\n")?;
    leaves_lines(alloc, 7, "probe 1 dones all 6\nprobe 2 units t2 8\n")
}

// A probe of the idle segments of a fourth task, which has none.
const IDLES: Asked = Asked::Count(Rule {
    what: What::Idles,
    task: Some(3),
    limit: None,
});

// The put of a probe's line fails: the run still succeeds, with these notes, of which `failed` puts failed.
fn line_fails(alloc: Global, put: FailAt, notes: &str, failed: u64) -> Result<(), Fail> {
    let faults = Faults {
        loads: &[],
        puts: &[],
        notes: &[put],
    };
    let run = probed(alloc, PROBED, faults, &[count(What::Speeds), IDLES])?;
    run.left.is(PROBED.words, done(notes, failed))
}

const SPEEDS_LINE: &str = "probe 1 speeds all 8\n";

const BOTH_LINES: &str = "probe 1 speeds all 8\nprobe 2 idles none 0\n";

// The puts of the probes' lines fail: the run still succeeds, and nothing more is put.
#[test]
fn each_line_of_probes_fails(rt: HostRuntime) -> Result<(), Fail> {
    let alloc = rt.alloc();
    line_fails(alloc, fail_at(1, 0), "", 1)?;
    line_fails(alloc, fail_at(1, 1), "p", 1)?;
    line_fails(alloc, fail_at(1, 255), SPEEDS_LINE, 1)?;
    line_fails(alloc, fail_at(2, 0), SPEEDS_LINE, 1)?;
    line_fails(alloc, fail_at(2, 1), "probe 1 speeds all 8\np", 1)?;
    line_fails(alloc, fail_at(2, 255), BOTH_LINES, 1)?;
    line_fails(alloc, fail_at(3, 0), BOTH_LINES, 0)
}

// The run with a probe of each kind, of all tasks or of one, succeeds with these notes.
fn each_kind_counts(alloc: Global, task: Option<u32>, notes: &str) -> Result<(), Fail> {
    let mut asked = Vec::new(alloc);
    for what in [
        What::Releases,
        What::Speeds,
        What::Runs,
        What::Idles,
        What::Dones,
        What::Units,
    ] {
        asked.push(Asked::Count(Rule {
            what,
            task,
            limit: None,
        }))?;
    }
    let run = probed(alloc, PROBED, NO_FAULTS, &asked)?;
    run.left.is(PROBED.words, done(notes, 0))
}

// The run has six releases, eight decisions, seven running segments and three idle ones.
// Two jobs of the third task run once each.
#[test]
fn each_kind_of_probe_has_its_line(rt: HostRuntime) -> Result<(), Fail> {
    let of_all =
        "probe 1 releases all 6\nprobe 2 speeds all 8\nprobe 3 runs all 7\nprobe 4 idles all 3\nprobe 5 dones all 6\nprobe 6 units all 28\n";
    let of_third =
        "probe 1 releases t3 2\nprobe 2 speeds t3 0\nprobe 3 runs t3 2\nprobe 4 idles t3 0\nprobe 5 dones t3 2\nprobe 6 units t3 8\n";
    each_kind_counts(rt.alloc(), None, of_all)?;
    each_kind_counts(rt.alloc(), Some(2), of_third)
}

// If this put fails, a probe that leaves at the first completion, and one of running segments, have these tallies.
fn stay_at_put(alloc: Global, number: u64, tallies: &[u64]) -> Result<(), Fail> {
    let run = failed_at(
        alloc,
        fail_at(number, 1),
        &[leaves_at(1), count(What::Runs)],
    )?;
    run.is(PROBED.words, 8, tallies)
}

// The first completion is the sixth line after the head, so the probe of completions has left before the next put. The
// last put is after all seven running segments.
#[test]
fn a_probe_that_left_before_a_put_fails(rt: HostRuntime) -> Result<(), Fail> {
    stay_at_put(rt.alloc(), 8, &[0, 1])?;
    stay_at_put(rt.alloc(), 9, &[1])?;
    stay_at_put(rt.alloc(), 33, &[7])
}

// Runs that end before a probe is told any note, and their statuses.
const NO_RUN: [(&str, u8); 4] = [
    (
        "run --tasks T --machine M --scheduler edf --governor cc --ticks 16 --probes --probes",
        2,
    ),
    (
        "run --tasks T --machine X --scheduler edf --governor cc --ticks 16 --probes",
        3,
    ),
    (
        "run --tasks T --machine M --scheduler edf --governor cc --ticks 16 --demands T --probes",
        4,
    ),
    (
        "run --tasks T --machine M --scheduler edf --governor cc --ticks 1000000 --probes",
        5,
    ),
];

// The call ends with this status, and a probe that would leave at its first note has been told none.
fn tells_no_probe(alloc: Global, call: Call<'_>, code: u8) -> Result<(), Fail> {
    let releases = Asked::Count(of_all_tasks(What::Releases, Some(0)));
    probed(alloc, call, NO_FAULTS, &[releases])?.is(call.words, code, &[0])
}

// A call of each command that loads files succeeds, and a probe that would leave at its first note hears none.
fn each_command_tells_no_probe(alloc: Global) -> Result<(), Fail> {
    for call in &EACH_THAT_LOADS {
        tells_no_probe(alloc, *call, 0)?;
    }
    Ok(())
}

// The calls of `NO_RUN` end with their statuses, and such a probe hears no note.
fn no_run_tells_a_probe(alloc: Global) -> Result<(), Fail> {
    for (words, code) in NO_RUN {
        tells_no_probe(alloc, PROBED.asked(words), code)?;
    }
    Ok(())
}

#[test]
fn probes_stay_where_no_run_tells_them(rt: HostRuntime) -> Result<(), Fail> {
    each_command_tells_no_probe(rt.alloc())?;
    no_run_tells_a_probe(rt.alloc())?;
    let words = "run --tasks T --machine M --scheduler edf --governor none --ticks 3 --probes";
    tells_no_probe(rt.alloc(), DENIED.asked(words), 1)?;
    tells_no_probe(rt.alloc(), OVER_WORST, 6)
}

// A probe that leaves at its third completion, one of decisions, and one of the units of t2.
fn three_probes() -> [Asked; 3] {
    [leaves_at(3), count(What::Speeds), UNITS]
}

// If the eighth put fails, the first completion wasn't told.
fn three_count_before_a_put(alloc: Global) -> Result<(), Fail> {
    let part = failed_at(alloc, fail_at(8, 0), &three_probes())?;
    part.is(PROBED.words, 8, &[0, 1, 0])?;
    has_notes(&part.left, "write: out failed\n")
}

// The call left these notes.
fn has_notes(left: &Outcome, notes: &str) -> Result<(), Fail> {
    if shown(&left.notes) != notes {
        return Err(Fail::from("notes"));
    }
    Ok(())
}

// The lines that the run prints for three probes, and what they have counted if the eighth put fails.
#[test]
fn probes_that_leave_and_a_put_that_fails(rt: HostRuntime) -> Result<(), Fail> {
    let whole = probed(rt.alloc(), PROBED, NO_FAULTS, &three_probes())?;
    let notes = "probe 1 speeds all 8\nprobe 2 units t2 8\n";
    whole.left.is(PROBED.words, done(notes, 0))?;
    three_count_before_a_put(rt.alloc())
}

// Without --probes, a probe that would leave at the first completion is left unchanged.
#[test]
fn probes_that_are_not_asked_for_are_left(rt: HostRuntime) -> Result<(), Fail> {
    let call = PROBED.asked("run --tasks T --machine M --scheduler edf --governor cc --ticks 16");
    let run = probed(rt.alloc(), call, NO_FAULTS, &[leaves_at(1)])?;
    run.is(call.words, 0, &[0])?;
    has_notes(&run.left, "")
}
