// The lines after the head of a trace: notes, and energies of tasks.
ghost use Rattle.std.specs.Prelude.{◌≡◌, ◌≤◌, ℕ, length, IfOk};
ghost use Rattle.dvs_base.specs.declared.limits.TheConstants.{MOST_TASKS};
ghost use Rattle.trace_text.specs.TraceText.{has_task_lines};
ghost use Rattle.trace_reader.specs.Fields.{parts};
ghost use Rattle.trace_reader.specs.Items.{release_in, speed_in, run_in, idle_in, done_in, end_in, energy_in, item_of, HasTaskBelow};

use crate::TraceKind;
use crate::fields::{fraction_in, position_in, task_in, whole_in, wide_in};
use crate::parts::{cut, four_parts, six_parts, three_parts, two_parts};
use dvs_base::{Name, Note, Version};
use trace_text::has_task_lines;

/// A note, or the energy of a task.
#[derive(Clone, Copy, Debug, PartialEq, Eq)]
pub enum Item {
    Told(Note),
    Share { task: u32, energy: u128 },
}

#[tactic(auto, unfolding(crate::specs::Items::release_in))]
fn release_in(names: &[Name], fields: &[u8]) -> Result<Item, TraceKind>
    requires { length names.now ≤ MOST_TASKS }
    ensures item { result ≡ release_in names.now (parts 32 fields.now) }
    ensures task { IfOk result (HasTaskBelow (length names.now)) }
{
    let (tick, task, job) = three_parts(fields, b' ').ok_or(TraceKind::Word)?;
    let tick = whole_in(tick)?;
    let task = task_in(names, task)?;
    let job = whole_in(job)?;
    Ok(Item::Told(Note::Release { tick, task, job }))
}

#[tactic(auto, unfolding(crate::specs::Items::speed_in))]
fn speed_in(fields: &[u8]) -> Result<Item, TraceKind>
    ensures item { result ≡ speed_in (parts 32 fields.now) }
    ensures task { (c : ℕ) → IfOk result (HasTaskBelow c) }
{
    let (tick, speed, demand) = three_parts(fields, b' ').ok_or(TraceKind::Word)?;
    let tick = whole_in(tick)?;
    let speed = whole_in(speed)?;
    let (num, den) = fraction_in(demand)?;
    Ok(Item::Told(Note::Speed {
        tick,
        speed,
        num,
        den,
    }))
}

#[tactic(auto, unfolding(crate::specs::Items::run_in))]
fn run_in(names: &[Name], fields: &[u8]) -> Result<Item, TraceKind>
    requires { length names.now ≤ MOST_TASKS }
    ensures item { result ≡ run_in names.now (parts 32 fields.now) }
    ensures task { IfOk result (HasTaskBelow (length names.now)) }
{
    let (from, to, task, job, units, energy) = six_parts(fields, b' ').ok_or(TraceKind::Word)?;
    let from = position_in(from)?;
    let to = position_in(to)?;
    let task = task_in(names, task)?;
    let job = whole_in(job)?;
    let units = whole_in(units)?;
    let energy = wide_in(energy)?;
    Ok(Item::Told(Note::Run {
        from,
        to,
        task,
        job,
        units,
        energy,
    }))
}

#[tactic(auto, unfolding(crate::specs::Items::idle_in))]
fn idle_in(fields: &[u8]) -> Result<Item, TraceKind>
    ensures item { result ≡ idle_in (parts 32 fields.now) }
    ensures task { (c : ℕ) → IfOk result (HasTaskBelow c) }
{
    let (from, to, units, energy) = four_parts(fields, b' ').ok_or(TraceKind::Word)?;
    let from = position_in(from)?;
    let to = position_in(to)?;
    let units = whole_in(units)?;
    let energy = wide_in(energy)?;
    Ok(Item::Told(Note::Idle {
        from,
        to,
        units,
        energy,
    }))
}

#[tactic(auto, unfolding(crate::specs::Items::done_in))]
fn done_in(names: &[Name], fields: &[u8]) -> Result<Item, TraceKind>
    requires { length names.now ≤ MOST_TASKS }
    ensures item { result ≡ done_in names.now (parts 32 fields.now) }
    ensures task { IfOk result (HasTaskBelow (length names.now)) }
{
    let (at, task, job, used) = four_parts(fields, b' ').ok_or(TraceKind::Word)?;
    let at = position_in(at)?;
    let task = task_in(names, task)?;
    let job = whole_in(job)?;
    let used = whole_in(used)?;
    Ok(Item::Told(Note::Done {
        at,
        task,
        job,
        used,
    }))
}

#[tactic(auto, unfolding(crate::specs::Items::end_in))]
fn end_in(fields: &[u8]) -> Result<Item, TraceKind>
    ensures item { result ≡ end_in (parts 32 fields.now) }
    ensures task { (c : ℕ) → IfOk result (HasTaskBelow c) }
{
    let (ticks, run, idle) = three_parts(fields, b' ').ok_or(TraceKind::Word)?;
    let ticks = whole_in(ticks)?;
    let run = wide_in(run)?;
    let idle = wide_in(idle)?;
    Ok(Item::Told(Note::End { ticks, run, idle }))
}

#[tactic(auto, unfolding(crate::specs::Items::energy_in))]
fn energy_in(version: Version, names: &[Name], fields: &[u8]) -> Result<Item, TraceKind>
    requires { length names.now ≤ MOST_TASKS }
    ensures item { result ≡ energy_in version names.now (parts 32 fields.now) }
    ensures task { IfOk result (HasTaskBelow (length names.now)) }
{
    if !has_task_lines(version) {
        return Err(TraceKind::Word);
    }
    let (task, energy) = two_parts(fields, b' ').ok_or(TraceKind::Word)?;
    let task = task_in(names, task)?;
    let energy = wide_in(energy)?;
    Ok(Item::Share { task, energy })
}

// The item of the line, or the error in it when it is read by itself.
#[tactic(auto, unfolding(crate::specs::Items::item_of))]
pub(crate) fn item_of(version: Version, names: &[Name], line: &[u8]) -> Result<Item, TraceKind>
    requires { length names.now ≤ MOST_TASKS }
    ensures item { result ≡ item_of version names.now (parts 32 line.now) }
    ensures task { IfOk result (HasTaskBelow (length names.now)) }
{
    let (word, fields) = cut(line, b' ').ok_or(TraceKind::Word)?;
    if word == b"release".as_slice() {
        release_in(names, fields)
    } else if word == b"speed".as_slice() {
        speed_in(fields)
    } else if word == b"run".as_slice() {
        run_in(names, fields)
    } else if word == b"idle".as_slice() {
        idle_in(fields)
    } else if word == b"done".as_slice() {
        done_in(names, fields)
    } else if word == b"end".as_slice() {
        end_in(fields)
    } else if word == b"energy".as_slice() {
        energy_in(version, names, fields)
    } else {
        Err(TraceKind::Word)
    }
}
