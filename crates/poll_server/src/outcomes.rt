// The outcome of each request.
ghost use Rattle.std.specs.Prelude.{◌≡◌, ◌+◌, ◌<◌, ◌≤◌, List, length, IfOk};
ghost use Rattle.dvs_base.specs.declared.note.Note.{Note as NoteOf};
ghost use Rattle.poll_server.specs.EachOutcome.{outcome_of, outcomes_of};
ghost use Rattle.poll_server.specs.ServerJobs.{request_count};
ghost use Rattle.poll_server.specs.Walks.{IsServer, AreEnds, HasReached};

use crate::Outcome;
use crate::ends::Ends;
use crate::server::Server;
use crate::taking::Waiting;
use dvs_base::NoMemory;
use std::alloc::Global;

/// The first jobs of a server in a run: how many they are, and where they are done.
#[derive(Clone, Copy)]
pub(crate) struct Jobs<'a> {
    pub(crate) server: &'a Server<'a>,
    pub(crate) count: u64,
    pub(crate) ends: &'a Ends,
}

// The job that the first requests reach, what is counted after it, and the units of the requests.
#[derive(Drop)]
struct Reached {
    job: u64,
    waiting: Waiting,
    asked: u128,
}

impl Reached {
    // Adds request `m`: goes on to the job that takes its last unit, or to the last job if none does.
    fn add(&mut self, jobs: &Jobs<'_>, m: usize)
        requires server { IsServer jobs.now.server.now jobs.now.count }
        requires request { m < request_count jobs.now.server.now }
        requires reached { HasReached jobs.now.server.now jobs.now.count m self.old }
        ensures reached { HasReached jobs.now.server.now jobs.now.count (m + 1) self.new }
        ensures last { self.new.waiting.taken < self.new.asked → self.new.job ≡ jobs.now.count }
        ensures some { 1 ≤ self.new.asked }
    {
        let server = jobs.server;
        self.asked += u128::from(server.requests[m].units);
        while self.job < jobs.count && self.waiting.taken < self.asked {
            self.waiting.take(server, self.job);
            self.job += 1;
        }
    }

    // The outcome of request `m`, after those before it.
    fn serve(&mut self, jobs: &Jobs<'_>, m: usize) -> Outcome
        requires server { IsServer jobs.now.server.now jobs.now.count }
        requires long { length jobs.now.ends.now.ends.items ≡ jobs.now.count }
        requires request { m < request_count jobs.now.server.now }
        requires reached { HasReached jobs.now.server.now jobs.now.count m self.old }
        ensures reached { HasReached jobs.now.server.now jobs.now.count (m + 1) self.new }
        ensures outcome { (notes : List NoteOf)
            → AreEnds jobs.now.server.now notes jobs.now.count jobs.now.ends.now.ends.items
            → result ≡ outcome_of jobs.now.server.now notes m }
    {
        self.add(jobs, m);
        if self.waiting.taken < self.asked {
            return Outcome::Pending;
        }
        match jobs.ends.end(self.job) {
            Some(at) => Outcome::Served { job: self.job, at },
            None => Outcome::Pending,
        }
    }
}

/// The outcomes of all requests of a server.
pub(crate) fn outcomes(alloc: Global, jobs: &Jobs<'_>) -> Result<Vec<Outcome>, NoMemory>
    requires server { IsServer jobs.now.server.now jobs.now.count }
    requires long { length jobs.now.ends.now.ends.items ≡ jobs.now.count }
    ensures { (notes : List NoteOf)
        → AreEnds jobs.now.server.now notes jobs.now.count jobs.now.ends.now.ends.items
        → IfOk result (λ v. v.items ≡ outcomes_of jobs.now.server.now notes) }
{
    let mut reached = Reached {
        job: 0,
        waiting: Waiting {
            next: 0,
            arrived: 0,
            taken: 0,
        },
        asked: 0,
    };
    let mut list = Vec::new(alloc);
    let server = jobs.server;
    for m in 0..server.requests.len() {
        list.push(reached.serve(jobs, m))?;
    }
    Ok(list)
}
