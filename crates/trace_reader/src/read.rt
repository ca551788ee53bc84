// Reading a trace, line by line.
ghost use Rattle.std.specs.Prelude.{◌≡◌, ◌≢◌, ℕ, ◌≤◌, ◌<◌, ◌∷◌, [], List, length, IfOk, Ok, Err, true, if◌then◌else◌};
ghost use Rattle.std.specs.List.{AllPairs};
ghost use Rattle.dvs_base.specs.declared.note.Note.{Note};
ghost use Rattle.dvs_base.specs.Checks.{IsUnlessMemory};
ghost use Rattle.dvs_base.specs.Text.{is_name};
ghost use Rattle.dvs_base.specs.declared.limits.TheConstants.{MOST_TASKS};
ghost use Rattle.dvs_base.specs.Parts.{name_of};
ghost use Rattle.trace_reader.specs.declared.trace.TraceFault.TheVariants as fault;
ghost use Rattle.trace_reader.specs.declared.trace.TraceKind.TheVariants as kind;
ghost use Rattle.trace_text.specs.TraceText.{has_task_lines, task_lines};
ghost use Rattle.trace_reader.specs.Fields.{parts};
ghost use Rattle.trace_reader.specs.Heads.{MayBeNext};
ghost use Rattle.trace_reader.specs.Items.{HasTaskBelow};
ghost use Rattle.trace_reader.specs.Sums.{HasSums};
ghost use Rattle.trace_reader.specs.TraceFile.{is_in_order, is_right_share, energy_line_count, next_item, nothing_yet, is_nothing, notes_from, trace_file};
ghost use Rattle.trace_reader.specs.Traces.{TraceView, IsTextOf, HaveOneText};

use crate::head::{plan_line_of, read_tasks, version_in};
use crate::line::{Item, item_of};
use crate::shares::Shares;
use crate::text_line::{at_line, line_at, refused};
use crate::{Trace, TraceFault, TraceKind};
use dvs_base::{Name, Note, Version};
use std::alloc::Global;
use trace_text::{TaskLine, has_task_lines};

// How many energies of tasks a trace has: one for each name, in a version that has such lines.
fn wanted_of(version: Version, names: &[Name]) -> u32
    requires { length names.now ≤ MOST_TASKS }
    ensures { result ≡ energy_line_count version names.now }
{
    if has_task_lines(version) {
        names.len() as u32
    } else {
        0
    }
}

// Whether the item may come next: the energies of the tasks are in file order, between the other notes and the last.
fn is_in_order(energies_read: u32, wanted: u32, item: &Item) -> bool
    ensures { result ≡ is_in_order energies_read wanted item.now }
{
    match *item {
        Item::Share { task, .. } => task == energies_read,
        Item::Told(Note::End { .. }) => wanted <= energies_read,
        Item::Told(_) => energies_read == 0,
    }
}

// Whether the energy of a task is the sum over its runs; a note passes.
fn is_right_share(shares: &Shares, item: &Item) -> bool
    requires { HasTaskBelow MOST_TASKS item.now }
    ensures { (notes : List Note) → HasSums notes shares.now.sums → result ≡ is_right_share notes item.now }
{
    match *item {
        Item::Share { task, energy } => shares.is_sum(task, energy),
        Item::Told(_) => true,
    }
}

// The item of the next line, or the first check that it fails.
#[tactic(auto, unfolding(crate::specs::TraceFile::next_item))]
fn next_item(
    version: Version,
    names: &[Name],
    shares: &Shares,
    energies_read: u32,
    line: &[u8],
) -> Result<Item, TraceKind>
    requires { length names.now ≤ MOST_TASKS }
    ensures item { (notes : List Note) → HasSums notes shares.now.sums
        → result ≡ next_item version names.now (record { notes = notes; energies_read = energies_read }) (parts 32 line.now) }
    ensures task { IfOk result (HasTaskBelow (length names.now)) }
{
    let item = item_of(version, names, line)?;
    if !is_in_order(energies_read, wanted_of(version, names), &item) {
        return Err(TraceKind::Order);
    }
    if !is_right_share(shares, &item) {
        return Err(TraceKind::Share);
    }
    Ok(item)
}

// The notes, if no byte follows the last line. `number` is that of the next line.
fn ended(notes: Vec<Note>, number: u64, rest: &[u8]) -> Result<Vec<Note>, TraceFault>
    ensures { IsUnlessMemory TraceFault.NoMemory (λ v. v.items) result
        (if is_nothing (parts 10 rest.now) then Ok notes.items else Err (fault.Refused number kind.AfterEnd)) }
{
    if rest.is_empty() {
        Ok(notes)
    } else {
        Err(refused(number, TraceKind::AfterEnd))
    }
}

// The notes of the lines from line `first` on.
#[tactic(auto, unfolding(crate::specs::TraceFile::notes_from))]
fn read_notes(
    alloc: Global,
    version: Version,
    names: &[Name],
    first: u64,
    bytes: &[u8],
) -> Result<Vec<Note>, TraceFault>
    requires names { length names.now ≤ MOST_TASKS }
    requires first { MayBeNext first }
    ensures { IsUnlessMemory TraceFault.NoMemory (λ v. v.items) result
        (notes_from version names.now first nothing_yet (parts 10 bytes.now)) }
{
    let mut notes = Vec::new(alloc);
    let mut shares = Shares::new();
    let mut energies_read = 0;
    let mut number = first;
    let mut rest = bytes;
    loop {
        let (line, after) = line_at(number, rest)?;
        let item = at_line(
            number,
            next_item(version, names, &shares, energies_read, line),
        )?;
        rest = after;
        number += 1;
        match item {
            Item::Share { .. } => energies_read += 1,
            Item::Told(note) => {
                notes.push(note).map_err(|_| TraceFault::NoMemory)?;
                if let Note::End { .. } = note {
                    break;
                }
                shares.add(&note);
            }
        }
    }
    ended(notes, number, rest)
}

// The trace of a text whose version is not above `newest`.
#[tactic(auto, unfolding(crate::specs::TraceFile::trace_file))]
fn read(
    alloc: Global,
    newest: Version,
    bytes: &[u8],
    names: &[Name],
    tasks: &[TaskLine],
) -> Result<Trace, TraceFault>
    requires names { length names.now ≤ MOST_TASKS }
    requires lists { has_task_lines newest ≡ true → length tasks.now ≡ length names.now }
    ensures { IsUnlessMemory TraceFault.NoMemory (λ t. t) result
        (trace_file newest names.now (task_lines names.now tasks.now) bytes.now) }
{
    let (line, rest) = line_at(1, bytes)?;
    let version = at_line(1, version_in(newest, line))?;
    let (line, rest) = line_at(2, rest)?;
    let plan = at_line(2, plan_line_of(line))?;
    let (number, rest) = read_tasks(version, names, tasks, rest)?;
    let notes = read_notes(alloc, version, names, number, rest)?;
    Ok(Trace {
        version,
        plan,
        notes,
    })
}

// Each of `names` has the form of a name.
fn known_names(names: &[Name])
    ensures { (i : ℕ) → i < length names.now → is_name (name_of names.now i) ≡ true }
{
    for name in names {
        let _bytes = name.as_bytes();
    }
}

/// The trace of a text of version 1, for tasks with these names, which are distinct and at most
/// [`MOST_TASKS`](dvs_base::MOST_TASKS). `Refused` has the first line with an error, and the first error in it. Memory
/// is only taken for the notes.
pub fn read_trace(alloc: Global, bytes: &[u8], names: &[Name]) -> Result<Trace, TraceFault>
    requires few { length names.now ≤ MOST_TASKS }
    requires distinct { AllPairs (λ a b. a ≢ b) names.now }

    // The answer is the meaning of the text, refusals too, unless memory ran out.
    ensures file { IsUnlessMemory TraceFault.NoMemory (λ t. t) result (trace_file Version.One names.now [] bytes.now) }

    // A text that is read is that of the trace returned; the text of any trace is read.
    ensures found { IfOk result (λ t. IsTextOf names.now [] bytes.now t × (t.version ≡ Version.One)) }
    ensures only { (t : TraceView) → IsTextOf names.now [] bytes.now t → t.version ≡ Version.One
        → IsUnlessMemory TraceFault.NoMemory (λ t. t) result (Ok t) }

    // Each trace has one text, and no text is the beginning of another trace's text.
    ensures one_text { HaveOneText names.now [] }
{
    known_names(names);
    read(alloc, Version::One, bytes, names, &[])
}

/// The trace of a text of either version, for tasks with these names, which are distinct and at most
/// [`MOST_TASKS`](dvs_base::MOST_TASKS), and these lines. `Refused` has the first line with an error, and the first
/// error in it. Memory is only taken for the notes.
pub fn read_any(
    alloc: Global,
    bytes: &[u8],
    names: &[Name],
    tasks: &[TaskLine],
) -> Result<Trace, TraceFault>
    requires few { length names.now ≤ MOST_TASKS }
    requires distinct { AllPairs (λ a b. a ≢ b) names.now }
    requires lists { length tasks.now ≡ length names.now }

    // The answer is the meaning of the text, refusals too, unless memory ran out.
    ensures file { IsUnlessMemory TraceFault.NoMemory (λ t. t) result
        (trace_file Version.Two names.now (task_lines names.now tasks.now) bytes.now) }

    // A text that is read is that of the trace returned; the text of any trace is read.
    ensures found { IfOk result (IsTextOf names.now (task_lines names.now tasks.now) bytes.now) }
    ensures only { (t : TraceView) → IsTextOf names.now (task_lines names.now tasks.now) bytes.now t
        → IsUnlessMemory TraceFault.NoMemory (λ t. t) result (Ok t) }

    // Each trace has one text, and no text is the beginning of another trace's text.
    ensures one_text { HaveOneText names.now (task_lines names.now tasks.now) }
{
    known_names(names);
    read(alloc, Version::Two, bytes, names, tasks)
}
