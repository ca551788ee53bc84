//! A polling server: a task whose jobs serve requests in order of arrival, each up to its budget.
//!
//! At its release a job of the server takes what waits, up to the task's declared worst case; all other jobs need their
//! worst cases. The kernel runs the plan with these demands, and a request is served if the job that takes its last
//! unit is done. Callers may rely on each outcome to be exactly that, and on a later request never to belong to an
//! earlier job. A request with backlog B is served by the deadline of the `ceil(B/Q)`-th job released at or after its
//! arrival, where Q is the budget and that deadline lies within the run.
#![tactic(auto)]

mod ends;
mod fault;
mod outcomes;
mod polling;
mod served;
mod server;
mod taking;

pub use fault::PollFault;
pub use polling::poll;
pub use served::{Outcome, Served};
