// The words, from left to right.
ghost use Rattle.std.specs.Prelude.{◌≡◌, map, string_bytes, option_map, IfOk};
ghost use Rattle.words.specs.Commands.{IsReadyCommand};
ghost use Rattle.words.specs.Reading.{nothing_read, with_given, with_option, word_at, command_at_end, words_after, command_of};
ghost use Rattle.words.specs.Shown.{shown_command, shown_given, shown_reading, reading_answer, answer};

use crate::build::built;
use crate::command::{Command, WordFault};
use crate::given::Given;
use crate::table::{OptionKey, Verb, option_named, takes_value, verb_of, word_of};
use crate::value::with_value;
use dvs_base::Short;

/// The values so far, and the option whose value is the next word.
#[derive(Clone, Copy, Debug, PartialEq, Eq)]
pub struct Reading<'a> {
    pub given: Given<'a>,
    pub waits: Option<OptionKey>,
}

// The reading with one more value; `BadValue` if the word at `place` is outside its option's rule.
fn with_given<'a>(
    place: u64,
    word: &str,
    given: Option<Given<'a>>,
) -> Result<Reading<'a>, WordFault>
    ensures { reading_answer result ≡ with_given place word.now (option_map shown_given given.entry) }
{
    let given = given.ok_or(WordFault::BadValue {
        place,
        word: Short::of(word.as_bytes()),
    })?;
    Ok(Reading { given, waits: None })
}

// The reading after an option: it waits for the option's value, or has it at once.
fn with_option<'a>(
    given: Given<'a>,
    place: u64,
    word: &'a str,
    named: Option<OptionKey>,
) -> Result<Reading<'a>, WordFault>
    ensures { reading_answer result ≡ with_option (shown_given given.entry) place word.now named }
{
    match named {
        None => Err(WordFault::Unexpected {
            place,
            word: Short::of(word.as_bytes()),
        }),
        Some(key) if given.has(key) => Err(WordFault::Repeated {
            place,
            word: Short::of(word.as_bytes()),
        }),
        Some(key) if takes_value(key) => Ok(Reading {
            given,
            waits: Some(key),
        }),
        Some(key) => with_given(place, word, with_value(given, key, word)),
    }
}

fn word_at<'a>(
    verb: Verb,
    reading: Reading<'a>,
    place: u64,
    word: &'a str,
) -> Result<Reading<'a>, WordFault>
    ensures { reading_answer result ≡ word_at verb (shown_reading reading.entry) reading.entry.waits place word.now }
{
    match reading.waits {
        Some(key) => with_given(place, word, with_value(reading.given, key, word)),
        None => with_option(
            reading.given,
            place,
            word,
            option_named(verb, word.as_bytes()),
        ),
    }
}

fn ended<'a>(verb: Verb, reading: Reading<'a>, place: u64) -> Result<Command<'a>, WordFault>
    ensures read { answer result ≡ command_at_end verb (shown_given reading.entry.given) reading.entry.waits place }
    ensures ready { IfOk result (λ c. IsReadyCommand (shown_command c)) }
{
    match reading.waits {
        Some(key) => Err(WordFault::NoValue {
            place,
            word: Short::of(word_of(key)),
        }),
        None => built(verb, reading.given),
    }
}

fn read_options<'a>(verb: Verb, words: &'a [String]) -> Result<Command<'a>, WordFault>
    ensures read { answer result ≡ words_after verb nothing_read 1 (map string_bytes words.now) }
    ensures ready { IfOk result (λ c. IsReadyCommand (shown_command c)) }
{
    let mut reading = Reading {
        given: Given::default(),
        waits: None,
    };
    let mut place = 1;
    for word in words {
        place += 1;
        reading = word_at(verb, reading, place, word.as_str())?;
    }
    ended(verb, reading, place)
}

/// The command that the words are, or the first error from left to right. It allocates no memory.
pub fn read_words(words: &[String]) -> Result<Command<'_>, WordFault>
    ensures read { answer result ≡ command_of (map string_bytes words.now) }
    ensures ready { IfOk result (λ c. IsReadyCommand (shown_command c)) }
{
    match words {
        [] => Err(WordFault::NoCommand),
        [word, options @ ..] => match verb_of(word.as_str()) {
            Some(verb) => read_options(verb, options),
            None => Err(WordFault::BadCommand {
                word: Short::of(word.as_bytes()),
            }),
        },
    }
}
