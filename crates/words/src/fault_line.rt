// The lines of refused words.
ghost use Rattle.std.specs.Prelude.{◌≡◌, ◌≤◌, length};
ghost use Rattle.words.specs.FaultLines.{at_word, word_fault_text};

use crate::{WordFault, option_word};
use dvs_base::{Line, Part, Short, line_of};

// The line that says `what` of the word at `place`.
fn word_line<'a>(place: u64, what: &'a [u8], word: &'a Short) -> Line
    requires { length what.now ≤ 40 }
    ensures { result ≡ at_word place what.now word.now }
{
    line_of(&[
        Part::Word(b"words: "),
        Part::Number(place),
        Part::Word(b": "),
        Part::Word(what),
        Part::Shown(word),
        Part::Word(b"\n"),
    ])
}

/// The line of refused words. It takes no memory.
pub fn word_fault_line(why: &WordFault) -> Line
    ensures { result ≡ word_fault_text why.now }
{
    match why {
        WordFault::NoCommand => line_of(&[Part::Word(b"words: no command\n")]),
        WordFault::BadCommand { word } => word_line(1, b"unknown command ", word),
        WordFault::Unexpected { place, word } => word_line(*place, b"unexpected ", word),
        WordFault::Repeated { place, word } => word_line(*place, b"repeated ", word),
        WordFault::NoValue { place, word } => word_line(*place, b"no value for ", word),
        WordFault::BadValue { place, word } => word_line(*place, b"bad value ", word),
        WordFault::Missing { option } => line_of(&[
            Part::Word(b"words: missing "),
            Part::Word(option_word(*option)),
            Part::Word(b"\n"),
        ]),
        WordFault::Pair => line_of(&[Part::Word(b"words: rm has no governor la\n")]),
    }
}
