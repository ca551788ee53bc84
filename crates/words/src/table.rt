// The table of the commands: their words, and which options each takes.
ghost use Rattle.std.specs.Prelude.{◌≡◌, ◌≤◌, length};
ghost use Rattle.words.specs.Table.{verb_of, options_of, option_word, word_of, first_named, option_named, takes_value};

use crate::command::Opt;

/// A command's name.
#[derive(Clone, Copy, Debug, PartialEq, Eq)]
pub enum Verb {
    Run,
    Admit,
    Replay,
    Migrate,
    Workload,
    Response,
    Constrain,
    Poll,
    Least,
}

/// An option: one that a refusal can name, or one of the two others.
#[derive(Clone, Copy, Debug, PartialEq, Eq)]
pub enum OptionKey {
    Named(Opt),
    Probes,
    Format,
}

/// The command that a word names.
pub fn verb_of(word: &str) -> Option<Verb>
    ensures { result ≡ verb_of word.now }
{
    match word {
        "run" => Some(Verb::Run),
        "admit" => Some(Verb::Admit),
        "replay" => Some(Verb::Replay),
        "migrate" => Some(Verb::Migrate),
        "response" => Some(Verb::Response),
        "constrain" => Some(Verb::Constrain),
        "poll" => Some(Verb::Poll),
        "workload" => Some(Verb::Workload),
        "least" => Some(Verb::Least),
        _ => None,
    }
}

/// The options of a command that a refusal can name: the required ones in their order, then the others.
pub fn options_of(verb: Verb) -> &'static [Opt]
    ensures { result.now ≡ options_of verb }
{
    match verb {
        Verb::Run => &[
            Opt::Tasks,
            Opt::Machine,
            Opt::Scheduler,
            Opt::Governor,
            Opt::Ticks,
            Opt::Demands,
        ],
        Verb::Admit => &[Opt::Tasks, Opt::Machine, Opt::Scheduler],
        Verb::Replay | Verb::Migrate => &[Opt::Tasks, Opt::Machine, Opt::Trace],
        Verb::Workload => &[Opt::Seed],
        Verb::Response => &[Opt::Tasks, Opt::Machine],
        Verb::Constrain => &[Opt::Tasks, Opt::Machine, Opt::Deadlines],
        Verb::Poll => &[
            Opt::Tasks,
            Opt::Machine,
            Opt::Requests,
            Opt::Server,
            Opt::Scheduler,
            Opt::Governor,
            Opt::Ticks,
        ],
        Verb::Least => &[Opt::Machine, Opt::Units, Opt::Ticks],
    }
}

/// How an option is written, as `--tasks`: at most 11 bytes.
pub fn option_word(option: Opt) -> &'static [u8]
    ensures word { result.now ≡ option_word option }
    ensures short { length result.now ≤ 11 }
{
    match option {
        Opt::Tasks => b"--tasks",
        Opt::Machine => b"--machine",
        Opt::Demands => b"--demands",
        Opt::Scheduler => b"--scheduler",
        Opt::Governor => b"--governor",
        Opt::Ticks => b"--ticks",
        Opt::Trace => b"--trace",
        Opt::Seed => b"--seed",
        Opt::Deadlines => b"--deadlines",
        Opt::Requests => b"--requests",
        Opt::Server => b"--server",
        Opt::Units => b"--units",
    }
}

/// The word of an option.
pub fn word_of(key: OptionKey) -> &'static [u8]
    ensures { result.now ≡ word_of key }
{
    match key {
        OptionKey::Named(option) => option_word(option),
        OptionKey::Probes => b"--probes",
        OptionKey::Format => b"--format",
    }
}

/// Whether the next word is the option's value.
pub fn takes_value(key: OptionKey) -> bool
    ensures { result ≡ takes_value key }
{
    !matches!(key, OptionKey::Probes)
}

// The first of these options that the word names.
fn first_named(options: &[Opt], word: &[u8]) -> Option<Opt>
    ensures { result ≡ first_named options.now word.now }
{
    for option in options {
        if word == option_word(*option) {
            return Some(*option);
        }
    }
    None
}

/// The option of the command that the word names.
pub fn option_named(verb: Verb, word: &[u8]) -> Option<OptionKey>
    ensures { result ≡ option_named verb word.now }
{
    if verb == Verb::Run && word == word_of(OptionKey::Probes) {
        return Some(OptionKey::Probes);
    }
    if verb == Verb::Run && word == word_of(OptionKey::Format) {
        return Some(OptionKey::Format);
    }
    first_named(options_of(verb), word).map(OptionKey::Named)
}
