// The lines that say where a trace differs from its schedule.
ghost use Rattle.std.specs.Prelude.{◌≡◌, ◌≤◌, ◌++◌, ◌∷◌, [], codes, length};
ghost use Rattle.std.specs.Fmt.{decimal};
ghost use Rattle.std.specs.Option.{option_copied};
ghost use Rattle.dvs_base.specs.Parts.{joined};
ghost use Rattle.dvs_base.specs.WritesText.{WritesText};
ghost use Rattle.task_model.specs.Tasks.{names_of};
ghost use Rattle.trace_text.specs.TraceLines.{note_text};
ghost use Rattle.statuses.specs.StatusLines.{difference_text};

use dvs_base::{Failed, Line, Note, Part, Sink, line_of, push_word, put_line, put_two};
use task_model::{TaskSet, task_name};
use trace_text::note_line;

// A word, and then the line of a note.
#[tactic(auto, unfolding(trace_text::specs::TraceLines::note_text))]
fn prefixed_note(word: &[u8], note: Note, tasks: Option<&TaskSet>) -> Line
    requires { length word.now ≤ 8 }
    ensures { result ≡ word.now ++ note_text (names_of (option_copied tasks.entry)) note }
{
    let name = match note.task() {
        Some(task) => task_name(tasks, task),
        None => None,
    };
    let mut line = Line::new();
    push_word(&mut line, word);
    push_word(&mut line, note_line(&note, name.as_ref()).as_bytes());
    line
}

// Puts the line with the number of the line that differs.
fn put_differs<E: Sink>(number: u64, notes: &mut E) -> Result<(), Failed>
    ensures { WritesText (E.shows notes.old) (E.shows notes.new)
        (joined (codes "differs: line " ∷ decimal number ∷ codes "\n" ∷ [])) result }
{
    let line = line_of(&[
        Part::Word(b"differs: line "),
        Part::Number(number),
        Part::Word(b"\n"),
    ]);
    put_line(&line, notes)
}

/// Puts the lines of a difference: the number of the line, the note that the schedule has there, and the trace's.
pub(crate) fn put_difference<E: Sink>(
    line: u64,
    wanted: Note,
    found: Note,
    tasks: Option<&TaskSet>,
    notes: &mut E,
) -> Result<(), Failed>
    ensures { WritesText (E.shows notes.old) (E.shows notes.new)
        (difference_text (names_of (option_copied tasks.entry)) line wanted found) result }
{
    put_differs(line, notes)?;
    let wanted = prefixed_note(b"wanted: ", wanted, tasks);
    let found = prefixed_note(b"found: ", found, tasks);
    put_two(&wanted, &found, notes)
}
