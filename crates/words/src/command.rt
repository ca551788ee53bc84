// Commands and what their words name, and why words are refused.
ghost use Rattle.std.specs.Prelude.{◌≡◌, option_map};
ghost use Rattle.words.specs.Commands.{asks_probes, tasks_name};
ghost use Rattle.words.specs.Shown.{shown_command, shown_words};

use dvs_base::{GovernorKind, Scheduler, Short, Version};

/// An option that a command can require, or that takes a value of its own.
#[derive(Clone, Copy, Debug, PartialEq, Eq)]
pub enum Opt {
    /// `--tasks`: the file of tasks.
    Tasks,
    /// `--machine`: the file of the machine.
    Machine,
    /// `--demands`: the file of demands.
    Demands,
    /// `--scheduler`: `edf` or `rm`.
    Scheduler,
    /// `--governor`: `none`, `static`, `cc` or `la`.
    Governor,
    /// `--ticks`: the number of ticks of a run.
    Ticks,
    /// `--trace`: the file of a trace.
    Trace,
    /// `--seed`: the number from which a workload is generated.
    Seed,
    /// `--deadlines`: the file of relative deadlines.
    Deadlines,
    /// `--requests`: the file of requests.
    Requests,
    /// `--server`: the task that serves the requests.
    Server,
    /// `--units`: the work units whose minimum energy is asked for.
    Units,
}

/// What the words ask for. Files are named and not yet read.
#[derive(Clone, Copy, Debug, PartialEq, Eq)]
pub enum Command<'a> {
    /// Print the trace of `ticks` ticks in this version; with `probes`, also what the probes counted.
    Run {
        tasks: &'a str,
        machine: &'a str,
        demands: Option<&'a str>,
        scheduler: Scheduler,
        governor: GovernorKind,
        ticks: u64,
        probes: bool,
        version: Version,
    },
    /// Print whether the scheduler's test admits the tasks.
    Admit {
        tasks: &'a str,
        machine: &'a str,
        scheduler: Scheduler,
    },
    /// Check whether a trace is the trace of the run that it describes.
    Replay {
        tasks: &'a str,
        machine: &'a str,
        trace: &'a str,
    },
    /// Print a trace in version 2, if it is the trace of the run that it describes.
    Migrate {
        tasks: &'a str,
        machine: &'a str,
        trace: &'a str,
    },
    /// Run the workload generated from a seed, under each governor.
    Workload {
        seed: u64,
    },
    /// Print when each task's first job is complete at the latest, under RM at the highest speed.
    Response {
        tasks: &'a str,
        machine: &'a str,
    },
    /// Print the lowest speed at which every deadline is met under EDF, with deadlines below the periods.
    Constrain {
        tasks: &'a str,
        machine: &'a str,
        deadlines: &'a str,
    },
    /// Print when a task serves each request, in a run of `ticks` ticks.
    Poll {
        tasks: &'a str,
        machine: &'a str,
        requests: &'a str,
        server: &'a str,
        scheduler: Scheduler,
        governor: GovernorKind,
        ticks: u64,
    },
    /// Print the minimum energy for `units` work units in `ticks` ticks.
    Least {
        machine: &'a str,
        units: u64,
        ticks: u64,
    },
}

/// What the words of `run` name.
#[derive(Clone, Copy)]
pub struct RunWords<'a> {
    pub tasks: &'a str,
    pub machine: &'a str,
    pub scheduler: Scheduler,
    pub governor: GovernorKind,
    pub ticks: u64,
    pub demands: Option<&'a str>,
    pub probes: bool,
    pub version: Version,
}

/// What the words of `admit` name.
#[derive(Clone, Copy)]
pub struct AdmitWords<'a> {
    pub tasks: &'a str,
    pub machine: &'a str,
    pub scheduler: Scheduler,
}

/// What is done with a trace that is the trace of the run that it describes.
#[derive(Clone, Copy, Debug, PartialEq, Eq)]
pub enum TraceUse {
    /// Its totals are printed.
    Replay,
    /// Its text in version 2 is printed.
    Migrate,
}

/// What the words of `replay` or `migrate` name, and which of the two they ask for.
#[derive(Clone, Copy)]
pub struct TraceWords<'a> {
    pub asked: TraceUse,
    pub tasks: &'a str,
    pub machine: &'a str,
    pub trace: &'a str,
}

/// What the words of `response` name.
#[derive(Clone, Copy)]
pub struct ResponseWords<'a> {
    pub tasks: &'a str,
    pub machine: &'a str,
}

/// What the words of `constrain` name.
#[derive(Clone, Copy)]
pub struct ConstrainWords<'a> {
    pub tasks: &'a str,
    pub machine: &'a str,
    pub deadlines: &'a str,
}

/// What the words of `poll` name.
#[derive(Clone, Copy)]
pub struct PollWords<'a> {
    pub tasks: &'a str,
    pub machine: &'a str,
    pub requests: &'a str,
    pub server: &'a str,
    pub scheduler: Scheduler,
    pub governor: GovernorKind,
    pub ticks: u64,
}

/// What the words of `least` name.
#[derive(Clone, Copy)]
pub struct LeastWords<'a> {
    pub machine: &'a str,
    pub units: u64,
    pub ticks: u64,
}

/// What the words of a command name.
#[derive(Clone, Copy)]
pub enum CommandWords<'a> {
    Run(RunWords<'a>),
    Admit(AdmitWords<'a>),
    /// Of `replay` or `migrate`.
    Traced(TraceWords<'a>),
    Workload { seed: u64 },
    Response(ResponseWords<'a>),
    Constrain(ConstrainWords<'a>),
    Poll(PollWords<'a>),
    Least(LeastWords<'a>),
}

// The words of a command: for each variant its fields, and the record that they make with the values in braces.
macro_rules! words_of {
    ($command:expr; $($variant:ident [$($field:ident)*] => $form:ident($words:ident { $($name:ident: $value:expr)* });)*) => {
        match *$command {
            $(Command::$variant { $($field),* } => CommandWords::$form($words { $($name: $value,)* $($field),* }),)*
            Command::Workload { seed } => CommandWords::Workload { seed },
        }
    };
}

impl<'a> Command<'a> {
    /// What the words of this command name.
    pub fn words(&self) -> CommandWords<'a>
        ensures { shown_words result ≡ shown_command self.now }
    {
        words_of!(self;
            Run [tasks machine demands scheduler governor ticks probes version] => Run(RunWords {});
            Admit [tasks machine scheduler] => Admit(AdmitWords {});
            Replay [tasks machine trace] => Traced(TraceWords { asked: TraceUse::Replay });
            Migrate [tasks machine trace] => Traced(TraceWords { asked: TraceUse::Migrate });
            Response [tasks machine] => Response(ResponseWords {});
            Constrain [tasks machine deadlines] => Constrain(ConstrainWords {});
            Poll [tasks machine requests server scheduler governor ticks] => Poll(PollWords {});
            Least [machine units ticks] => Least(LeastWords {});
        )
    }

    /// The name of the file of tasks, if this command has one.
    pub fn tasks(&self) -> Option<&'a str>
        ensures { option_map (λ s. s.now) result ≡ tasks_name (shown_command self.now) }
    {
        match *self {
            Command::Run { tasks, .. }
            | Command::Admit { tasks, .. }
            | Command::Replay { tasks, .. }
            | Command::Migrate { tasks, .. }
            | Command::Response { tasks, .. }
            | Command::Constrain { tasks, .. }
            | Command::Poll { tasks, .. } => Some(tasks),
            Command::Workload { .. } | Command::Least { .. } => None,
        }
    }

    /// Whether this command asks for probes.
    pub fn asks_probes(&self) -> bool
        ensures { result ≡ asks_probes (shown_command self.now) }
    {
        match self {
            Command::Run { probes, .. } => *probes,
            _ => false,
        }
    }
}

/// The first error in the words, from left to right. Places count from 1, and the command is at place 1.
#[derive(Clone, Copy, Debug, PartialEq, Eq)]
pub enum WordFault {
    /// There is no word.
    NoCommand,
    /// The first word is not a command.
    BadCommand { word: Short },
    /// A word in an option's place is not an option of the command.
    Unexpected { place: u64, word: Short },
    /// The option was given before.
    Repeated { place: u64, word: Short },
    /// The option is the last word and needs a value.
    NoValue { place: u64, word: Short },
    /// The value is outside the rule of its option; the place is the value's.
    BadValue { place: u64, word: Short },
    /// The first required option, in the order of the table, that was not given.
    Missing { option: Opt },
    /// Rate monotonic has no look-ahead.
    Pair,
}
