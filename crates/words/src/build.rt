// The row of each command: its required options in order, and the value of an optional one that was not given.
ghost use Rattle.std.specs.Prelude.{◌≡◌, IfOk};
ghost use Rattle.words.specs.Commands.{IsReadyCommand, IsReadyFor, need, timed_of, trace_command, command_from};
ghost use Rattle.words.specs.Shown.{shown_command, shown_given, answer, timed_answer};
ghost use Rattle.words.specs.declared.table.Verb.TheVariants as verb;

use crate::command::{Command, Opt, TraceUse, WordFault};
use crate::given::{Given, Timed};
use crate::table::Verb;
use dvs_base::{Version, is_pair};

// The value of a required option; `Missing` if none was given.
fn need<T>(value: Option<T>, option: Opt) -> Result<T, WordFault>
    ensures { result ≡ need option value }
{
    value.ok_or(WordFault::Missing { option })
}

// The scheduler, the governor and the number of ticks of a run, from the values that were given.
fn timed_of<'a>(given: Given<'a>) -> Result<Timed, WordFault>
    ensures read { timed_answer result ≡ timed_of (shown_given given.entry) }
    ensures ready { IfOk result (λ t. IsReadyFor t.scheduler t.governor t.ticks.number) }
{
    let scheduler = need(given.scheduler, Opt::Scheduler)?;
    let governor = need(given.governor, Opt::Governor)?;
    let ticks = need(given.ticks, Opt::Ticks)?;
    if !is_pair(scheduler, governor) {
        return Err(WordFault::Pair);
    }
    Ok(Timed {
        scheduler,
        governor,
        ticks,
    })
}

// The `run` command, from the values that were given.
fn run_command<'a>(given: Given<'a>) -> Result<Command<'a>, WordFault>
    ensures read { answer result ≡ command_from verb.Run (shown_given given.entry) }
    ensures ready { IfOk result (λ c. IsReadyCommand (shown_command c)) }
{
    let tasks = need(given.tasks, Opt::Tasks)?;
    let machine = need(given.machine, Opt::Machine)?;
    let timed = timed_of(given)?;
    Ok(Command::Run {
        tasks,
        machine,
        demands: given.demands,
        scheduler: timed.scheduler,
        governor: timed.governor,
        ticks: timed.ticks.number,
        probes: given.probes.is_some(),
        version: given.format.unwrap_or(Version::One),
    })
}

// The `poll` command, from the values that were given.
fn poll_command<'a>(given: Given<'a>) -> Result<Command<'a>, WordFault>
    ensures read { answer result ≡ command_from verb.Poll (shown_given given.entry) }
    ensures ready { IfOk result (λ c. IsReadyCommand (shown_command c)) }
{
    let tasks = need(given.tasks, Opt::Tasks)?;
    let machine = need(given.machine, Opt::Machine)?;
    let requests = need(given.requests, Opt::Requests)?;
    let server = need(given.server, Opt::Server)?;
    let timed = timed_of(given)?;
    Ok(Command::Poll {
        tasks,
        machine,
        requests,
        server,
        scheduler: timed.scheduler,
        governor: timed.governor,
        ticks: timed.ticks.number,
    })
}

// The `admit` command, from the values that were given.
fn admit_command<'a>(given: Given<'a>) -> Result<Command<'a>, WordFault>
    ensures { answer result ≡ command_from verb.Admit (shown_given given.entry) }
{
    let tasks = need(given.tasks, Opt::Tasks)?;
    let machine = need(given.machine, Opt::Machine)?;
    let scheduler = need(given.scheduler, Opt::Scheduler)?;
    Ok(Command::Admit {
        tasks,
        machine,
        scheduler,
    })
}

// The `replay` or the `migrate` command, as asked, from the values that were given.
fn traced_command<'a>(given: Given<'a>, asked: TraceUse) -> Result<Command<'a>, WordFault>
    ensures { answer result ≡ trace_command asked (shown_given given.entry) }
{
    let tasks = need(given.tasks, Opt::Tasks)?;
    let machine = need(given.machine, Opt::Machine)?;
    let trace = need(given.trace, Opt::Trace)?;
    Ok(match asked {
        TraceUse::Replay => Command::Replay {
            tasks,
            machine,
            trace,
        },
        TraceUse::Migrate => Command::Migrate {
            tasks,
            machine,
            trace,
        },
    })
}

// The `workload` command, from the values that were given.
fn workload_command<'a>(given: Given<'a>) -> Result<Command<'a>, WordFault>
    ensures { answer result ≡ command_from verb.Workload (shown_given given.entry) }
{
    let seed = need(given.seed, Opt::Seed)?;
    Ok(Command::Workload { seed })
}

// The `response` command, from the values that were given.
fn response_command<'a>(given: Given<'a>) -> Result<Command<'a>, WordFault>
    ensures { answer result ≡ command_from verb.Response (shown_given given.entry) }
{
    let tasks = need(given.tasks, Opt::Tasks)?;
    let machine = need(given.machine, Opt::Machine)?;
    Ok(Command::Response { tasks, machine })
}

// The `constrain` command, from the values that were given.
fn constrain_command<'a>(given: Given<'a>) -> Result<Command<'a>, WordFault>
    ensures { answer result ≡ command_from verb.Constrain (shown_given given.entry) }
{
    let tasks = need(given.tasks, Opt::Tasks)?;
    let machine = need(given.machine, Opt::Machine)?;
    let deadlines = need(given.deadlines, Opt::Deadlines)?;
    Ok(Command::Constrain {
        tasks,
        machine,
        deadlines,
    })
}

// The `least` command, from the values that were given.
fn least_command<'a>(given: Given<'a>) -> Result<Command<'a>, WordFault>
    ensures read { answer result ≡ command_from verb.Least (shown_given given.entry) }
    ensures ready { IfOk result (λ c. IsReadyCommand (shown_command c)) }
{
    let machine = need(given.machine, Opt::Machine)?;
    let units = need(given.units, Opt::Units)?;
    let length = need(given.ticks, Opt::Ticks)?;
    Ok(Command::Least {
        machine,
        units,
        ticks: length.number,
    })
}

/// The command, from the values that were given. `Missing` exactly for the first required option that was not given;
/// then `Pair` for rate monotonic with look-ahead.
pub fn built<'a>(verb: Verb, given: Given<'a>) -> Result<Command<'a>, WordFault>
    ensures read { answer result ≡ command_from verb (shown_given given.entry) }
    ensures ready { IfOk result (λ c. IsReadyCommand (shown_command c)) }
{
    match verb {
        Verb::Run => run_command(given),
        Verb::Admit => admit_command(given),
        Verb::Replay => traced_command(given, TraceUse::Replay),
        Verb::Migrate => traced_command(given, TraceUse::Migrate),
        Verb::Workload => workload_command(given),
        Verb::Response => response_command(given),
        Verb::Constrain => constrain_command(given),
        Verb::Poll => poll_command(given),
        Verb::Least => least_command(given),
    }
}
