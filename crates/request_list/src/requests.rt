// Requests, and lists of them.
ghost use Rattle.std.specs.Prelude.{◌≡◌, ◌<◌, ◌≤◌, length};
ghost use Rattle.request_list.specs.declared.limits.TheConstants.{MOST_REQUESTS, MOST_REQUEST_UNITS};
ghost use Rattle.request_list.specs.Requests.{AreRequests, request_at};

use std::marker::Model;

/// Work for a server: `units` work units, which it may begin at the tick `arrival` or later.
#[derive(Clone, Copy, Debug, PartialEq, Eq)]
pub struct Request {
    pub arrival: u64,
    pub units: u64,
}

/// Requests within the limits, in order of arrival.
#[derive(Drop)]
pub struct Requests {
    pub(crate) requests: Vec<Request>,
}

impl Model for Requests {
    ghost use Rattle.std.specs.Prelude.{List};
    ghost use Rattle.request_list.specs.declared.requests.Request.{Request};
    ghost use Rattle.request_list.specs.Requests.{AreRequests};

    ghost Value = { List Request };

    ghost view = { λ r. r.requests.items };

    ghost invariant = { λ r. AreRequests r.requests.items };
}

impl Requests {
    /// How many requests there are, at most 100000.
    pub fn count(&self) -> u32
        ensures count { result ≡ length self.now }
        ensures few { result ≤ MOST_REQUESTS }
    {
        self.requests.len() as u32
    }

    /// The tick at which a request arrives. Requests count from 0.
    pub fn arrival(&self, m: u32) -> u64
        requires { m < length self.now }
        ensures { result ≡ (request_at self.now m).arrival }
    {
        self.requests[m as usize].arrival
    }

    /// The work units that a request needs, 1 to 2^60. Requests count from 0.
    pub fn units(&self, m: u32) -> u64
        requires { m < length self.now }
        ensures units { result ≡ (request_at self.now m).units }
        ensures some { 1 ≤ result }
        ensures low { result ≤ MOST_REQUEST_UNITS }
    {
        self.requests[m as usize].units
    }

    /// The requests, in order of arrival, and the limits that every list keeps.
    pub fn as_slice(&self) -> &[Request]
        ensures requests { result.now ≡ self.now }
        ensures limits { AreRequests self.now }
    {
        &self.requests
    }
}
