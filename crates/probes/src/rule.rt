// What a probe counts, and until when.
ghost use Rattle.std.specs.Prelude.{◌≡◌, ◌≤◌, ◌^◌};
ghost use Rattle.dvs_base.specs.NoteTasks.{note_task};
ghost use Rattle.probes.specs.Tallies.{is_about, weight, weight_of_kind, stay_at, most, capped_count};

use dvs_base::Note;

/// The kind of notes that count: each weighs 1, and under `Units` the segment of a run weighs its work units.
#[derive(Clone, Copy, Debug, PartialEq, Eq)]
pub enum What {
    Releases,
    Speeds,
    Runs,
    Idles,
    Dones,
    Units,
}

/// What a probe counts: a kind of notes, of only one task if one is named; and the tally at which it leaves, if
/// any.
#[derive(Clone, Copy, Debug, PartialEq, Eq)]
pub struct Rule {
    pub what: What,
    pub task: Option<u32>,
    pub limit: Option<u64>,
}

/// Whether a probe stays in a list.
#[derive(Clone, Copy, Debug, PartialEq, Eq)]
pub enum Stay {
    Stay,
    Leave,
}

// What a note weighs by only its kind.
fn weight_of_kind(what: What, note: &Note) -> u64
    ensures { result ≡ weight_of_kind what note.now }
{
    match (what, note) {
        (What::Releases, Note::Release { .. }) => 1,
        (What::Speeds, Note::Speed { .. }) => 1,
        (What::Runs, Note::Run { .. }) => 1,
        (What::Idles, Note::Idle { .. }) => 1,
        (What::Dones, Note::Done { .. }) => 1,
        (What::Units, Note::Run { units, .. }) => *units,
        _ => 0,
    }
}

// Whether a note is about the task that a rule names; a rule without a task is about every note.
fn is_about(task: Option<u32>, note: &Note) -> bool
    ensures { result ≡ is_about task (note_task note.now) }
{
    match (task, note.task()) {
        (None, _) => true,
        (Some(wanted), Some(found)) => wanted == found,
        (Some(_), None) => false,
    }
}

/// What a note weighs under a rule.
pub(crate) fn weight(rule: Rule, note: &Note) -> u64
    ensures { result ≡ weight rule note.now }
{
    if is_about(rule.task, note) {
        weight_of_kind(rule.what, note)
    } else {
        0
    }
}

/// Leave exactly if there is a limit and the tally is at least the limit.
pub(crate) fn stay_at(limit: Option<u64>, tally: u64) -> Stay
    ensures { result ≡ stay_at limit tally }
{
    match limit {
        Some(limit) if tally >= limit => Stay::Leave,
        _ => Stay::Stay,
    }
}
