// Traces of generated plans with random demands: replayed, migrated, and with one byte changed.
ghost use Rattle.std.specs.Prelude.{◌≤◌};

use crate::call::{Call, NO_FAULTS};
use crate::changed;
use std::alloc::Global;
use std::test::Fail;
use task_model::TaskSet;
use test_inputs::Draws;
use workload::make;

const REPLAY: &str = "replay --tasks T --machine M --trace F";

const MIGRATE: &str = "migrate --tasks T --machine M --trace F";

// Every scheduler with each of its governors.
const PAIRS: [&str; 7] = [
    "--scheduler edf --governor none",
    "--scheduler edf --governor static",
    "--scheduler edf --governor cc",
    "--scheduler edf --governor la",
    "--scheduler rm --governor none",
    "--scheduler rm --governor static",
    "--scheduler rm --governor cc",
];

// Seeds whose tasks are admitted under RM too.
const SEEDS: [u64; 3] = [1, 2, 3];

// The machine of a generated workload.
const MACHINE: &[u8] = br"
idle = 100
point = [
    {speed = 250, millivolts = 2000},
    {speed = 500, millivolts = 3000},
    {speed = 750, millivolts = 4000},
    {speed = 1000, millivolts = 5000},
]
";

// The task file of a generated workload of three tasks, and a demand file for its first jobs.
#[derive(Drop)]
struct WorkloadFiles {
    tasks: String,
    demands: String,
}

// Adds the rows of a task's first four jobs, each with fewer units than its worst case.
fn add_rows(
    alloc: Global,
    rows: &mut String,
    name: &str,
    worst: u64,
    draws: &mut Draws,
) -> Result<(), Fail>
    requires { 1 ≤ worst }
{
    for job in 1..5 {
        let units = draws.below(worst);
        rows.push_str(&format!(in alloc; "{name},{job},{units}\n")?)?;
    }
    Ok(())
}

// The rows of a demand file for the first jobs of each task.
fn demand_rows(alloc: Global, tasks: &TaskSet, seed: u64) -> Result<String, Fail> {
    let mut draws = Draws::from_seed(seed);
    let mut rows = String::from_str(alloc, "task,job,units\n")?;
    for i in 0..tasks.count() {
        let task = tasks.task(i);
        let name = std::str::from_utf8(task.name.as_bytes())?;
        add_rows(alloc, &mut rows, name, task.worst, &mut draws)?;
    }
    Ok(rows)
}

fn made_files(alloc: Global, seed: u64) -> Result<WorkloadFiles, Fail> {
    let (tasks, _, _) = make(alloc, seed, 3)?;
    let rows = demand_rows(alloc, &tasks, seed)?;
    let text = tasks.write(alloc)?;
    Ok(WorkloadFiles {
        tasks: text,
        demands: rows,
    })
}

impl WorkloadFiles {
    // The call with these words, and with the demands or a trace as its third file.
    fn asked<'a>(&'a self, third: &'a [u8], words: &'a str) -> Call<'a> {
        Call {
            tasks: self.tasks.as_bytes(),
            machine: MACHINE,
            third,
            words,
        }
    }

    // The trace of the run under this pair, in this version.
    fn trace(&self, alloc: Global, pair: &str, version: u8) -> Result<String, Fail> {
        let line = format!(in alloc;
            "run --tasks T --machine M --demands F {pair} --ticks 100 --format {version}"
        )?;
        let run = self.asked(self.demands.as_bytes(), line.as_str());
        let left = run.under(alloc, NO_FAULTS)?;
        if left.code != 0 {
            return Err(Fail::from("run"));
        }
        Ok(String::from_utf8(left.out)?)
    }
}

// The line that `replay` prints for a trace, counted from the trace's lines.
fn replayed_line(alloc: Global, trace: &str) -> Result<String, Fail> {
    let mut releases = 0u64;
    let mut ends = 0u64;
    let mut energies = String::new(alloc);
    for line in trace.split('\n') {
        if line.starts_with("release ") {
            releases = releases.saturating_add(1);
        } else if line.starts_with("done ") {
            ends = ends.saturating_add(1);
        } else if let Some(rest) = line.strip_prefix("end 100 ") {
            energies = String::from_str(alloc, rest)?;
        }
    }
    Ok(format!(in alloc; "replayed {releases} {ends} {energies}\n")?)
}

// The trace of a run in both versions, and the line that `replay` prints for it.
#[derive(Drop)]
struct Texts {
    one: String,
    two: String,
    line: String,
}

fn texts_of(alloc: Global, made: &WorkloadFiles, pair: &str) -> Result<Texts, Fail> {
    let one = made.trace(alloc, pair, 1)?;
    let two = made.trace(alloc, pair, 2)?;
    let line = replayed_line(alloc, one.as_str())?;
    Ok(Texts { one, two, line })
}

// The trace is replayed with the line, and migrated to version 2.
fn is_replayed_and_migrated(
    rt: &impl AllocGlobal,
    made: &WorkloadFiles,
    trace: &str,
    texts: &Texts,
) -> Result<(), Fail> {
    let replay = made.asked(trace.as_bytes(), REPLAY);
    replay.answers(rt, texts.line.as_str())?;
    let migrate = made.asked(trace.as_bytes(), MIGRATE);
    migrate.answers(rt, texts.two.as_str())
}

// The traces of the run under this pair, in both versions, are replayed and migrated.
fn both_are_replayed(rt: &impl AllocGlobal, made: &WorkloadFiles, pair: &str) -> Result<(), Fail> {
    let texts = texts_of(rt.alloc(), made, pair)?;
    is_replayed_and_migrated(rt, made, texts.one.as_str(), &texts)?;
    is_replayed_and_migrated(rt, made, texts.two.as_str(), &texts)
}

// The traces of the generated plan, under every pair and in both versions, are replayed and migrated.
fn each_is_replayed(rt: &impl AllocGlobal, seed: u64) -> Result<(), Fail> {
    let made = made_files(rt.alloc(), seed)?;
    for pair in &PAIRS {
        both_are_replayed(rt, &made, pair)?;
    }
    Ok(())
}

#[test]
fn traces_of_made_plans_are_replayed_and_migrated(rt: HostRuntime) -> Result<(), Fail> {
    for seed in SEEDS {
        each_is_replayed(&rt, seed)?;
    }
    Ok(())
}

// The text with one of its bytes changed.
fn changed_text(alloc: Global, draws: &mut Draws, text: &[u8]) -> Result<Vec<u8>, Fail> {
    if text.is_empty() {
        return Err(Fail::from("no byte"));
    }
    let place = draws.below(text.len() as u64) as usize;
    let draw = draws.below(1 << 31);
    Ok(changed(alloc, text, place, draw)?)
}

// The call fails: it leaves nothing on `out`, and a line on `notes`.
fn is_refused(alloc: Global, call: Call<'_>) -> Result<(), Fail> {
    let left = call.under(alloc, NO_FAULTS)?;
    if left.code == 0 || !left.out.is_empty() || left.notes.is_empty() {
        return Err(Fail::new(format_args!("{}: isn't refused", call.words)));
    }
    Ok(())
}

// With one byte of the trace changed, four times, it is neither replayed nor migrated.
fn changes_are_refused(
    alloc: Global,
    made: &WorkloadFiles,
    trace: &str,
    draws: &mut Draws,
) -> Result<(), Fail> {
    for _ in 0..4 {
        let other = changed_text(alloc, draws, trace.as_bytes())?;
        is_refused(alloc, made.asked(other.as_slice(), REPLAY))?;
        is_refused(alloc, made.asked(other.as_slice(), MIGRATE))?;
    }
    Ok(())
}

// The trace of the run under this pair, in this version, is refused with a changed byte.
fn version_is_refused(
    alloc: Global,
    made: &WorkloadFiles,
    pair: &str,
    version: u8,
    draws: &mut Draws,
) -> Result<(), Fail> {
    let trace = made.trace(alloc, pair, version)?;
    changes_are_refused(alloc, made, trace.as_str(), draws)
}

// The traces of the generated plan, under every pair and in both versions, are refused with a changed byte.
fn each_change_is_refused(alloc: Global, seed: u64, draws: &mut Draws) -> Result<(), Fail> {
    let made = made_files(alloc, seed)?;
    for pair in &PAIRS {
        version_is_refused(alloc, &made, pair, 1, draws)?;
        version_is_refused(alloc, &made, pair, 2, draws)?;
    }
    Ok(())
}

#[test]
fn a_changed_byte_is_never_replayed(rt: HostRuntime) -> Result<(), Fail> {
    let mut draws = Draws::from_seed(14);
    for seed in SEEDS {
        each_change_is_refused(rt.alloc(), seed, &mut draws)?;
    }
    Ok(())
}
