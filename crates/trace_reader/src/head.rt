// The lines before the notes.
ghost use Rattle.std.specs.Prelude.{◌≡◌, ◌++◌, ◌∷◌, [], length, IfOk, true};
ghost use Rattle.std.specs.Str.{bytes_eq};
ghost use Rattle.dvs_base.specs.Checks.{IsUnlessMemory};
ghost use Rattle.trace_text.specs.TraceText.{task_text, has_task_lines, task_lines};
ghost use Rattle.trace_reader.specs.Fields.{parts};
ghost use Rattle.trace_reader.specs.Heads.{MayBeNext, version_in, plan_line_of, parts_after_tasks, version_task_lines};

use crate::parts::four_parts;
use crate::text_line::line_at;
use crate::{TraceFault, TraceKind};
use dvs_base::{Line, Name, Version, governor_of, is_pair, scheduler_of, ticks_of};
use trace_text::{PlanLine, TaskLine, has_task_lines, write_task};

// The version that the first line names, if it is not above the newest that is read.
pub(crate) fn version_in(newest: Version, line: &[u8]) -> Result<Version, TraceKind>
    ensures { result ≡ version_in newest line.now }
{
    if line == b"trace 1".as_slice() {
        Ok(Version::One)
    } else if newest == Version::Two && line == b"trace 2".as_slice() {
        Ok(Version::Two)
    } else {
        Err(TraceKind::Version)
    }
}

// The plan that the second line names.
#[tactic(auto, unfolding(crate::specs::Heads::plan_line_of))]
pub(crate) fn plan_line_of(line: &[u8]) -> Result<PlanLine, TraceKind>
    ensures { result ≡ plan_line_of (parts 32 line.now) }
{
    let (word, scheduler, governor, ticks) = four_parts(line, b' ').ok_or(TraceKind::Plan)?;
    let scheduler = scheduler_of(scheduler).ok_or(TraceKind::Plan)?;
    let governor = governor_of(governor).ok_or(TraceKind::Plan)?;
    let ticks = ticks_of(ticks).ok_or(TraceKind::Plan)?;
    if word == b"plan".as_slice() && is_pair(scheduler, governor) {
        Ok(PlanLine {
            scheduler,
            governor,
            ticks,
        })
    } else {
        Err(TraceKind::Plan)
    }
}

// Whether the line, with its line feed, is the text of this task's line.
fn is_task_line(line: &[u8], name: &Name, task: TaskLine) -> bool
    ensures { result ≡ bytes_eq (line.now ++ 10 ∷ []) (task_text name.now task.period task.offset task.worst) }
{
    let mut text = Line::new();
    write_task(&mut text, name, task);
    let bytes = text.as_bytes();
    line == &bytes[..bytes.len() - 1]
}

// Reads the lines of the tasks, which begin at line 3. It returns the number of the next line, and the bytes from it.
#[tactic(auto, unfolding(crate::specs::Heads::parts_after_tasks))]
fn read_task_lines<'a>(
    names: &[Name],
    tasks: &[TaskLine],
    bytes: &'a [u8],
) -> Result<(u64, &'a [u8]), TraceFault>
    requires { length tasks.now ≡ length names.now }
    ensures read { IsUnlessMemory TraceFault.NoMemory (λ p. (p.0, parts 10 p.1.now)) result
        (parts_after_tasks 3 (task_lines names.now tasks.now) (parts 10 bytes.now)) }
    ensures few { IfOk result (λ p. MayBeNext p.0) }
{
    let mut number = 3;
    let mut rest = bytes;
    for i in 0..names.len() {
        let (line, after) = line_at(number, rest)?;
        if !is_task_line(line, &names[i], tasks[i]) {
            return Err(TraceFault::Refused {
                line: number,
                kind: TraceKind::TaskLine,
            });
        }
        rest = after;
        number += 1;
    }
    Ok((number, rest))
}

// Reads the task lines that the version has. It returns the number of the next line, and the bytes from it.
#[tactic(auto, unfolding(crate::specs::Heads::parts_after_tasks))]
pub(crate) fn read_tasks<'a>(
    version: Version,
    names: &[Name],
    tasks: &[TaskLine],
    bytes: &'a [u8],
) -> Result<(u64, &'a [u8]), TraceFault>
    requires { has_task_lines version ≡ true → length tasks.now ≡ length names.now }
    ensures read { IsUnlessMemory TraceFault.NoMemory (λ p. (p.0, parts 10 p.1.now)) result
        (parts_after_tasks 3 (version_task_lines version (task_lines names.now tasks.now)) (parts 10 bytes.now)) }
    ensures few { IfOk result (λ p. MayBeNext p.0) }
{
    if has_task_lines(version) {
        read_task_lines(names, tasks, bytes)
    } else {
        Ok((3, bytes))
    }
}
