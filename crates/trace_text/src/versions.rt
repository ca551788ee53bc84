// The version line, and the lines that only version 2 has.
ghost use Rattle.std.specs.Prelude.{◌≡◌, []};
ghost use Rattle.trace_text.specs.TraceText.{version_line, task_text, share_text, has_task_lines};

use dvs_base::{Line, Name, Part, Version, line_of};

/// A task of a trace of version 2: its period and its first release in ticks, and its declared worst case in work
/// units.
#[derive(Clone, Copy, Debug, PartialEq, Eq)]
pub struct TaskLine {
    pub period: u64,
    pub offset: u64,
    pub worst: u64,
}

/// Whether a trace of this version has a line for each task, and one for its energy.
pub fn has_task_lines(version: Version) -> bool
    ensures { result ≡ has_task_lines version }
{
    match version {
        Version::One => false,
        Version::Two => true,
    }
}

/// Writes the first line of a trace, its version, with its line feed.
pub fn write_version(line: &mut Line, version: Version)
    requires { line.old ≡ [] }
    ensures { line.new ≡ version_line version }
{
    match version {
        Version::One => line.push(b"trace 1\n"),
        Version::Two => line.push(b"trace 2\n"),
    }
}

/// Writes the line of a task, which only version 2 has, with its line feed.
pub fn write_task(line: &mut Line, name: &Name, task: TaskLine)
    requires { line.old ≡ [] }
    ensures { line.new ≡ task_text name.now task.period task.offset task.worst }
{
    *line = line_of(&[
        Part::Word(b"task "),
        Part::Named(name),
        Part::Word(b" "),
        Part::Number(task.period),
        Part::Word(b" "),
        Part::Number(task.offset),
        Part::Word(b" "),
        Part::Number(task.worst),
        Part::Word(b"\n"),
    ]);
}

/// Writes the line of a task's energy, which only version 2 has, with its line feed.
pub fn write_share(line: &mut Line, name: &Name, energy: u128)
    requires { line.old ≡ [] }
    ensures { line.new ≡ share_text name.now energy }
{
    *line = line_of(&[
        Part::Word(b"energy "),
        Part::Named(name),
        Part::Word(b" "),
        Part::Wide(energy),
        Part::Word(b"\n"),
    ]);
}
