// What the lines of several faults share.
ghost use Rattle.std.specs.Prelude.{◌≡◌, ◌≤◌, ◌+◌, ◌*◌, length};
ghost use Rattle.dvs_base.specs.declared.limits.TheConstants.{NAME_BYTES, NUMBER_BYTES};
ghost use Rattle.dvs_base.specs.FaultLines.{place_text, settings_text, too_many_text};

use crate::{Line, Part, Short, line_of, push_number, push_part, push_word};

// The beginning of a line about a settings file: the file, and if the place isn't 0, which of its entries.
fn place_line(file: &Short, entry: &Short, place: u32) -> Line
    ensures text { result ≡ place_text file.now entry.now place }
    ensures most { length result ≤ 2 * NAME_BYTES + NUMBER_BYTES + 5 }
{
    let mut line = Line::new();
    push_part(&mut line, Part::Shown(file));
    push_word(&mut line, b": ");
    if place != 0 {
        push_part(&mut line, Part::Shown(entry));
        push_word(&mut line, b" ");
        push_number(&mut line, place as u64);
        push_word(&mut line, b": ");
    }
    line
}

/// The line of a refusal in a settings file: the file, if the place isn't 0 which of its entries, and then `what`
/// and `which`. It takes no memory.
pub fn settings_line(file: &Short, entry: &Short, place: u32, what: &[u8], which: &[u8]) -> Line
    requires what { length what.now ≤ NAME_BYTES }
    requires which { length which.now ≤ NAME_BYTES }
    ensures { result ≡ settings_text file.now entry.now place what.now which.now }
{
    let mut line = place_line(file, entry, place);
    push_word(&mut line, what);
    push_word(&mut line, which);
    push_word(&mut line, b"\n");
    line
}

/// The line of too many things: where they are, how many, what they are called, and how many there may be. It takes no
/// memory.
pub fn too_many_line<'a>(of: &'a Short, count: u64, things: &'a Short, most: u64) -> Line
    ensures { result ≡ too_many_text of.now count things.now most }
{
    line_of(&[
        Part::Shown(of),
        Part::Word(b": "),
        Part::Number(count),
        Part::Word(b" "),
        Part::Shown(things),
        Part::Word(b", at most "),
        Part::Number(most),
        Part::Word(b"\n"),
    ])
}
