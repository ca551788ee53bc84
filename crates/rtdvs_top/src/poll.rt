// The server of a `poll` run: its files loaded, its run, and its lines.
ghost use Rattle.command_files.specs.GivenFiles.{ForFiles};
ghost use Rattle.statuses.specs.Steps.{Gives, IsTestStep};
ghost use Rattle.command_files.specs.Meanings.{tasks_at, server_at};
ghost use Rattle.std.specs.Prelude.{Some, ◌≡◌, ◌<◌, ◌≤◌, ◌+◌, ◌*◌, ◌++◌, [], codes, Ok, IfOk, length, if◌then◌else◌};
ghost use Rattle.std.specs.Fmt.{decimal};
ghost use Rattle.dvs_base.specs.declared.limits.TheConstants.{NUMBER_BYTES};
ghost use Rattle.dvs_base.specs.WritesText.{WritesText};
ghost use Rattle.sched_model.specs.Plan.{count};
ghost use Rattle.poll_server.specs.ServerJobs.{request_count, arrival, units};
ghost use Rattle.words.specs.Commands.{poll as poll_of, IsReadyCommand};
ghost use Rattle.words.specs.Shown.{shown_poll};
ghost use Rattle.command_files.specs.Loads.{IsLoadStep, one_file, later_files};
ghost use Rattle.rtdvs_top.specs.Poll.{requests_at, polling_at, poll_status, outcome_text, request_lines, is_served, served_among, polled_line, polled_text};
ghost use Rattle.rtdvs_top.specs.Prepared.{IsPollable, IsServed, IsPrepareStep, ForFilesWith};

use crate::at_pair::at_pair;
use crate::prepared::{Polling, Prepared};
use crate::{FileKind, Status, TextFault};
use command_files::{admit, load_file, load_machine};
use dvs_base::{
    Failed, Line, Part, Shelf, Short, Sink, Totals, line_of, push_number, push_position, push_word,
    put_line,
};
use governor::Publishing;
use poll_server::{Outcome, PollFault, Served, poll};
use request_list::Requests;
use std::alloc::Global;
use task_model::TaskSet;
use words::command::PollWords;

// The place of the task of this name in the file, from 0.
fn find_server(name: &str, tasks: &TaskSet) -> Result<u32, Status>
    ensures { IsTestStep (server_at name.now tasks.now) result (λ i. i) }
{
    match tasks.find(name.as_bytes()) {
        Some(server) => Ok(server),
        None => Err(Status::Text(TextFault::Server {
            name: Short::of(name.as_bytes()),
        })),
    }
}

// The requests of a file.
fn load_requests<S: Shelf>(alloc: Global, name: &str, shelf: &mut S) -> Result<Requests, Status>
    ensures { ForFiles (S.shows shelf.old) (S.shows shelf.new) (IsLoadStep (one_file FileKind.Requests name.now
        (requests_at name.now)) (S.shows shelf.old) (S.shows shelf.new) result (λ v. v)) }
{
    let bytes = load_file(alloc, FileKind::Requests, name, shelf)?;
    Ok(Requests::read(alloc, &bytes)?)
}

// The server at a place of the tasks of a `poll` run, after these were read.
fn load_polling<S: Shelf>(
    alloc: Global,
    words: &PollWords<'_>,
    server: u32,
    tasks: &TaskSet,
    shelf: &mut S,
) -> Result<Polling, Status>
    requires { server_at words.now.server.now tasks.now ≡ Ok server }
    ensures step { ForFiles (S.shows shelf.old) (S.shows shelf.new) (λ files. IsLoadStep
        (later_files files (poll_of (shown_poll words.now)) (polling_at (shown_poll words.now) server tasks.now))
        (S.shows shelf.old) (S.shows shelf.new) result (λ s. s) files) }
    ensures server { IfOk result (λ s. s.task < count s.plan) }
    ensures scheduler { IfOk result (λ s. s.plan.scheduler ≡ words.now.scheduler) }
{
    let machine = load_machine(alloc, words.machine, shelf)?;
    let requests = load_requests(alloc, words.requests, shelf)?;
    let plan = admit(alloc, words.scheduler, tasks, &machine)?;
    Ok(Polling {
        plan,
        server,
        requests,
    })
}

// A refusal of a `poll` run as a status.
fn poll_status(why: PollFault) -> Status
    ensures { result ≡ poll_status why }
{
    match why {
        PollFault::TooManyJobs { count } => Status::Limit { jobs: count },
        PollFault::NoMemory => Status::NoMemory,
    }
}

// The outcomes of the requests and the totals of a `poll` run under governor `G`.
fn serve_governed<G: Publishing>(
    alloc: Global,
    words: &PollWords<'_>,
    polling: &Polling,
) -> Result<Served, Status>
    requires polling { IsPollable polling.now words.now.governor words.now.ticks }
    requires serves { G.serves polling.now.plan.scheduler }
    ensures { words.now.governor ≡ G.the_kind
        → IsServed words.now.governor words.now.ticks polling.now result }
{
    let _admitted = polling.plan.scheduler();
    let governor = G::made(alloc, &polling.plan)?;
    poll(
        alloc,
        &polling.plan,
        polling.server,
        &polling.requests,
        governor,
        words.ticks,
    )
    .map_err(poll_status)
}

/// The outcomes of the requests and the totals of a `poll` run under the governor of its pair.
pub(crate) fn serve_pair(
    alloc: Global,
    words: &PollWords<'_>,
    polling: &Polling,
) -> Result<Served, Status>
    requires { IsPollable polling.now words.now.governor words.now.ticks }
    ensures { IsServed words.now.governor words.now.ticks polling.now result }
{
    at_pair!(
        polling.plan.scheduler(),
        words.governor,
        serve_governed,
        [],
        alloc,
        words,
        polling
    )
}

// Appends a word, the number of a request from 1, its arrival and its units.
fn push_request(line: &mut Line, word: &[u8], polling: &Polling, m: u32)
    requires empty { line.old ≡ [] }
    requires word { length word.now ≤ 8 }
    requires request { m < request_count polling.now }
    ensures text { line.new ≡ ((((word.now ++ decimal (m + 1)) ++ codes " ") ++ decimal (arrival polling.now m))
        ++ codes " ") ++ decimal (units polling.now m) }
    ensures most { length line.new ≤ 3 * NUMBER_BYTES + 10 }
{
    push_word(line, word);
    push_number(line, u64::from(m) + 1);
    push_word(line, b" ");
    push_number(line, polling.requests.arrival(m));
    push_word(line, b" ");
    push_number(line, polling.requests.units(m));
}

// The line of a request: its number from 1, its arrival and its units; and where it is served, by which job and at
// which position.
fn outcome_line(polling: &Polling, m: u32, outcome: Outcome) -> Line
    requires { m < request_count polling.now }
    ensures text { result ≡ outcome_text polling.now m outcome }
    ensures some { 0 < length result }
{
    let mut line = Line::new();
    match outcome {
        Outcome::Served { job, at } => {
            push_request(&mut line, b"served ", polling, m);
            push_word(&mut line, b" ");
            push_number(&mut line, job);
            push_word(&mut line, b" ");
            push_position(&mut line, at);
        }
        Outcome::Pending => push_request(&mut line, b"pending ", polling, m),
    }
    push_word(&mut line, b"\n");
    line
}

// The last line: the number of requests that are served, and the energies of running and of idling.
fn last_line(served: u64, totals: Totals) -> Line
    ensures text { result ≡ polled_line served totals }
    ensures some { 0 < length result }
{
    line_of(&[
        Part::Word(b"polled "),
        Part::Number(served),
        Part::Word(b" "),
        Part::Wide(totals.run),
        Part::Word(b" "),
        Part::Wide(totals.idle),
        Part::Word(b"\n"),
    ])
}

// 1 for a request that is served, and 0 for one that is pending.
fn one_if_served(outcome: Outcome) -> u64
    ensures { result ≡ (if is_served outcome then 1 else 0) }
{
    match outcome {
        Outcome::Served { .. } => 1,
        Outcome::Pending => 0,
    }
}

// Puts the lines of the requests, and returns how many are served. After the first put that fails no more is put.
fn put_requests<W: Sink>(polling: &Polling, served: &Served, out: &mut W) -> Result<u64, Failed>
    requires { length served.now.outcomes ≡ request_count polling.now }
    ensures wrote { WritesText (W.shows out.old) (W.shows out.new)
        (request_lines polling.now served.now.outcomes (request_count polling.now)) result }
    ensures served { IfOk result (λ n. n ≡ served_among served.now.outcomes (request_count polling.now)) }
{
    let mut count = 0;
    for m in 0..polling.requests.count() {
        let outcome = served.outcome(m);
        let line = outcome_line(polling, m, outcome);
        put_line(&line, out)?;
        count += one_if_served(outcome);
    }
    Ok(count)
}

/// Puts the lines of a `poll` run.
pub(crate) fn put_polled<W: Sink>(
    polling: &Polling,
    served: &Served,
    out: &mut W,
) -> Result<(), Failed>
    requires { length served.now.outcomes ≡ request_count polling.now }
    ensures { WritesText (W.shows out.old) (W.shows out.new) (polled_text polling.now served.now) result }
{
    let count = put_requests(polling, served, out)?;
    put_line(&last_line(count, served.totals()), out)
}

/// What `poll` prepares, after its tasks were read.
pub(crate) fn prepare_poll<'a, S: Shelf>(
    alloc: Global,
    words: &PollWords<'_>,
    tasks: &'a TaskSet,
    shelf: &mut S,
) -> Result<Prepared<'a>, Status>
    requires ready { IsReadyCommand (poll_of (shown_poll words.now)) }
    ensures { ForFilesWith (S.shows shelf.old) (S.shows shelf.new)
        (λ files. Gives files (tasks_at words.now.tasks.now) tasks.now)
        (IsPrepareStep (S.shows shelf.old) (S.shows shelf.new) (poll_of (shown_poll words.now)) (Some tasks.now) result) }
{
    let server = find_server(words.server, tasks)?;
    let polling = load_polling(alloc, words, server, tasks, shelf)?;
    let served = serve_pair(alloc, words, &polling)?;
    Ok(Prepared::Polled(polling, served))
}
