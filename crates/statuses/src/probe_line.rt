// The lines of the probes that are left after a run.
ghost use Rattle.std.specs.Prelude.{◌≡◌, ◌≤◌, ◌<◌, ◌+◌, length, map};
ghost use Rattle.std.specs.Option.{option_copied};
ghost use Rattle.dvs_base.specs.declared.limits.TheConstants.{NAME_BYTES};
ghost use Rattle.dvs_base.specs.Parts.{part_text, most_bytes};
ghost use Rattle.task_model.specs.Tasks.{names_of};
ghost use Rattle.statuses.specs.ProbeLines.{what_word, probe_of, counted_text, probe_text, probe_lines};
ghost use Rattle.statuses.specs.Noted.{NotedAs};

use dvs_base::{Failed, Line, Part, Sink, line_of, put_line};
use probes::{Probe, Rule, What};
use task_model::TaskSet;

// What a probe's line says: its place in the list, from 1, its rule and what it has counted.
#[derive(Clone, Copy)]
struct Counted {
    place: u64,
    rule: Rule,
    tally: u64,
}

fn what_word(what: What) -> &'static [u8]
    ensures text { result.now ≡ what_word what }
    ensures most { length result.now ≤ 8 }
{
    match what {
        What::Releases => b"releases",
        What::Speeds => b"speeds",
        What::Runs => b"runs",
        What::Idles => b"idles",
        What::Dones => b"dones",
        What::Units => b"units",
    }
}

// What the line of the probe at this place says.
fn shown_at<P: Probe>(place: u64, probe: &P) -> Counted
    ensures place { result.place ≡ place }
    ensures probe { probe_of result ≡ P.seen probe.now }
{
    Counted {
        place,
        rule: probe.rule(),
        tally: probe.tally(),
    }
}

// The line of a probe, with `task` in the place of the task that it counts for.
fn counted_line(probe: Counted, task: Part<'_>) -> Line
    requires { most_bytes task ≤ NAME_BYTES }
    ensures { result ≡ counted_text probe.place (probe_of probe) (part_text task.entry) }
{
    line_of(&[
        Part::Word(b"probe "),
        Part::Number(probe.place),
        Part::Word(b" "),
        Part::Word(what_word(probe.rule.what)),
        Part::Word(b" "),
        task,
        Part::Word(b" "),
        Part::Number(probe.tally),
        Part::Word(b"\n"),
    ])
}

// The line of a probe: a task is shown by its name, if there is such a task.
fn probe_line(probe: Counted, tasks: Option<&TaskSet>) -> Line
    ensures text { result ≡ probe_text (names_of (option_copied tasks.entry)) probe.place (probe_of probe) }
    ensures some { 0 < length result }
{
    match (probe.rule.task, tasks) {
        (None, _) => counted_line(probe, Part::Word(b"all")),
        (Some(task), Some(tasks)) if task < tasks.count() => {
            counted_line(probe, Part::Named(&tasks.task(task).name))
        }
        (Some(_), _) => counted_line(probe, Part::Word(b"none")),
    }
}

/// Puts the lines of the probes, with the names of the tasks if they were read. After the first put that fails no
/// more is put.
pub(crate) fn put_probes<E: Sink, P: Probe>(probes: &[P], tasks: Option<&TaskSet>, notes: &mut E)
    ensures { NotedAs (E.shows notes.old) (E.shows notes.new)
        (probe_lines (names_of (option_copied tasks.entry)) 1 (map P.seen probes.now)) }
{
    for at in 0..probes.len() {
        let line = probe_line(shown_at(at as u64 + 1, &probes[at]), tasks);
        match put_line(&line, notes) {
            Ok(()) => {}
            Err(Failed) => return,
        }
    }
}
