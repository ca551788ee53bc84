// The value that a word gives an option.
ghost use Rattle.std.specs.Prelude.{◌≡◌, option_map};
ghost use Rattle.dvs_base.specs.PlanWords.{ticks_of};
ghost use Rattle.words.specs.Table.{some_text, version_of, has, with_value};
ghost use Rattle.words.specs.Shown.{shown_given};

use crate::command::Opt;
use crate::given::Given;
use crate::table::OptionKey;
use crate::ticks::Ticks;
use dvs_base::{Version, governor_of, scheduler_of, whole};

fn some_text(word: &str) -> Option<&str>
    ensures { option_map (λ s. s.now) result ≡ some_text word.now }
{
    (!word.is_empty()).then_some(word)
}

fn version_of(word: &str) -> Option<Version>
    ensures { result ≡ version_of word.now }
{
    match word {
        "1" => Some(Version::One),
        "2" => Some(Version::Two),
        _ => None,
    }
}

fn ticks_of(word: &str) -> Option<Ticks>
    ensures { option_map (λ t. t.number) result ≡ ticks_of word.now }
{
    let number = dvs_base::ticks_of(word.as_bytes())?;
    Some(Ticks { number })
}

impl<'a> Given<'a> {
    /// Whether the option was given.
    pub fn has(&self, key: OptionKey) -> bool
        ensures { result ≡ has (shown_given self.now) key }
    {
        match key {
            OptionKey::Named(Opt::Tasks) => self.tasks.is_some(),
            OptionKey::Named(Opt::Machine) => self.machine.is_some(),
            OptionKey::Named(Opt::Demands) => self.demands.is_some(),
            OptionKey::Named(Opt::Scheduler) => self.scheduler.is_some(),
            OptionKey::Named(Opt::Governor) => self.governor.is_some(),
            OptionKey::Named(Opt::Ticks) => self.ticks.is_some(),
            OptionKey::Named(Opt::Trace) => self.trace.is_some(),
            OptionKey::Named(Opt::Seed) => self.seed.is_some(),
            OptionKey::Named(Opt::Deadlines) => self.deadlines.is_some(),
            OptionKey::Named(Opt::Requests) => self.requests.is_some(),
            OptionKey::Named(Opt::Server) => self.server.is_some(),
            OptionKey::Named(Opt::Units) => self.units.is_some(),
            OptionKey::Probes => self.probes.is_some(),
            OptionKey::Format => self.format.is_some(),
        }
    }
}

/// The given values, with the one that the word gives this option. `None` exactly if the word is outside its rule.
pub fn with_value<'a>(mut given: Given<'a>, key: OptionKey, word: &'a str) -> Option<Given<'a>>
    ensures { option_map shown_given result ≡ with_value (shown_given given.entry) key word.now }
{
    match key {
        OptionKey::Named(Opt::Tasks) => given.tasks = Some(some_text(word)?),
        OptionKey::Named(Opt::Machine) => given.machine = Some(some_text(word)?),
        OptionKey::Named(Opt::Demands) => given.demands = Some(some_text(word)?),
        OptionKey::Named(Opt::Scheduler) => given.scheduler = Some(scheduler_of(word.as_bytes())?),
        OptionKey::Named(Opt::Governor) => given.governor = Some(governor_of(word.as_bytes())?),
        OptionKey::Named(Opt::Ticks) => given.ticks = Some(ticks_of(word)?),
        OptionKey::Named(Opt::Trace) => given.trace = Some(some_text(word)?),
        OptionKey::Named(Opt::Seed) => given.seed = Some(whole(word.as_bytes())?),
        OptionKey::Named(Opt::Deadlines) => given.deadlines = Some(some_text(word)?),
        OptionKey::Named(Opt::Requests) => given.requests = Some(some_text(word)?),
        OptionKey::Named(Opt::Server) => given.server = Some(some_text(word)?),
        OptionKey::Named(Opt::Units) => given.units = Some(whole(word.as_bytes())?),
        OptionKey::Probes => given.probes = Some(true),
        OptionKey::Format => given.format = Some(version_of(word)?),
    }
    Some(given)
}
