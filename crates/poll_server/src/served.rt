// The outcomes of requests.
ghost use Rattle.std.specs.Prelude.{◌≡◌, ◌<◌, length};
ghost use Rattle.poll_server.specs.Outcomes.{outcome_at};

use dvs_base::{Pos, Totals};
use std::marker::Model;

/// The outcome of a request in a run.
#[derive(Clone, Copy, Debug, PartialEq, Eq)]
pub enum Outcome {
    /// The job of the server that takes its last unit, counted from 1, is done at this position.
    Served { job: u64, at: Pos },
    /// The job that takes the request's last unit isn't done within the run.
    Pending,
}

/// The outcome of each request in a run, and the totals of the run.
#[derive(Drop)]
pub struct Served {
    outcomes: Vec<Outcome>,
    totals: Totals,
}

impl Model for Served {
    ghost use Rattle.poll_server.specs.Outcomes.{ServedView};

    ghost Value = { ServedView };

    ghost view = { λ s. record { outcomes = s.outcomes.items; totals = s.totals } };

    ghost invariant = { λ s. Unit {0} };
}

impl Served {
    pub(crate) fn of(outcomes: Vec<Outcome>, totals: Totals) -> Served
        ensures { result ≡ record { outcomes = outcomes.items; totals = totals } }
    {
        Served { outcomes, totals }
    }

    /// The outcome of a request. Requests count from 0.
    pub fn outcome(&self, m: u32) -> Outcome
        requires { m < length self.now.outcomes }
        ensures { result ≡ outcome_at self.now.outcomes m }
    {
        self.outcomes[m as usize]
    }

    /// The sums and counts of the run.
    pub fn totals(&self) -> Totals
        ensures { result ≡ self.now.totals }
    {
        self.totals
    }
}
