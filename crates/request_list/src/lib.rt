//! Requests for a server's work: when each arrives, and how many work units it needs.
//!
//! Callers may rely on every list to be in order of arrival, to have at most 100000 requests, and each request to need
//! 1 to 2^60 work units.
#![tactic(auto)]

mod fault;
mod fault_line;
mod limits;
mod read;
mod requests;

pub use fault::{RequestColumn, RequestFault};
pub use fault_line::request_fault_line;
pub use limits::{MOST_REQUEST_UNITS, MOST_REQUESTS};
pub use requests::{Request, Requests};
