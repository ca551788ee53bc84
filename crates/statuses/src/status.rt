// How a call ends.
ghost use Rattle.std.specs.Prelude.{◌≡◌};
ghost use Rattle.statuses.specs.Status.{code_of};

use deadline_list::DeadlineFault;
use demand_list::DemandFault;
use dvs_base::{Note, Short};
use freq_table::MachineFault;
use request_list::RequestFault;
use task_model::TaskFault;
use trace_reader::TraceFault;
use words::WordFault;

/// A file that the words name.
#[derive(Clone, Copy, Debug, PartialEq, Eq)]
pub enum FileKind {
    /// The file of tasks.
    Tasks,
    /// The file of the machine.
    Machine,
    /// The file of demands.
    Demands,
    /// The file of a trace.
    Trace,
    /// The file of relative deadlines.
    Deadlines,
    /// The file of requests.
    Requests,
}

/// Why a file that was loaded is refused.
#[derive(Clone, Copy, Debug, PartialEq, Eq)]
pub enum TextFault {
    /// The file is longer than `LONGEST_FILE` bytes, or the trace than `LONGEST_TRACE`.
    TooLong { file: FileKind },
    /// The tasks are refused; `NoMemory` is a status of its own.
    Tasks(TaskFault),
    /// The machine is refused; `NoMemory` is a status of its own.
    Machine(MachineFault),
    /// The demands are refused; `NoMemory` and `OverWorst` are statuses of their own.
    Demands(DemandFault),
    /// The trace is refused; `NoMemory` is a status of its own.
    Trace(TraceFault),
    /// The relative deadlines are refused; `NoMemory` is a status of its own.
    Deadlines(DeadlineFault),
    /// The requests are refused; `NoMemory` is a status of its own.
    Requests(RequestFault),
    /// No task has the name of the server.
    Server { name: Short },
}

/// The two numbers, in work units, by which a scheduler's test fails, or by which more is asked for than can be done.
#[derive(Clone, Copy, Debug, PartialEq, Eq)]
pub enum Denied {
    /// The work of a hyperperiod, and what the highest speed does in it (Liu and Layland 1973).
    Edf { num: u128, cap: u128 },
    /// The first task in RM order whose level asks for more work in its period than the highest speed does in it
    /// (Pillai and Shin 2001).
    Rm { task: u32, num: u128, cap: u128 },
    /// The first task in file order that is first released after tick 0; tests by first jobs don't serve such a set.
    /// Tasks count from 0.
    Offset { task: u32 },
    /// The first task in RM order without a response: in its period the work that its level asks for is more than what
    /// the highest speed does in it (Joseph and Pandya 1986).
    Response { task: u32, num: u128, cap: u128 },
    /// The work due within `at` ticks, and what the highest speed does in them (Baruah, Rosier and Howell 1990).
    Demand { at: u64, num: u128, cap: u128 },
    /// The units whose minimum energy is asked for, and what the highest speed does in the ticks.
    Units { num: u128, cap: u128 },
}

/// How a call ends.
#[derive(Clone, Copy, Debug, PartialEq, Eq)]
pub enum Status {
    /// The whole answer was written.
    Done,
    /// A test fails, or more units are asked for than the highest speed does in the ticks.
    NotAdmitted(Denied),
    /// The words aren't those of a command: their first error, from left to right.
    Words(WordFault),
    /// A file can't be loaded.
    Load {
        file: FileKind,
    },
    /// A file is refused.
    Text(TextFault),
    /// `jobs` jobs would be released, and the limit is `MOST_JOBS`.
    Limit {
        jobs: u64,
    },
    /// The units of a demand exceed its task's declared worst case, or those of a trace's `done` line the worst case
    /// with the charge.
    OverWorst {
        task: u32,
        job: u64,
        units: u64,
        worst: u64,
    },
    /// On line `line` of a trace, from 1, the schedule has the note `wanted`, and the trace has the note `found`.
    Differs {
        line: u64,
        wanted: Note,
        found: Note,
    },
    /// A write failed.
    Write,
    /// Memory ran out.
    NoMemory,
}

impl Status {
    /// The exit status of the program.
    ///
    /// | Status | Code |
    /// |---|---|
    /// | `Done` | 0 |
    /// | `NotAdmitted` | 1 |
    /// | `Words` | 2 |
    /// | `Load` | 3 |
    /// | `Text` | 4 |
    /// | `Limit` | 5 |
    /// | `OverWorst` | 6 |
    /// | `Differs` | 7 |
    /// | `Write` | 8 |
    /// | `NoMemory` | 9 |
    pub fn code(&self) -> u8
        ensures { result ≡ code_of self.now }
    {
        match self {
            Status::Done => 0,
            Status::NotAdmitted(_) => 1,
            Status::Words(_) => 2,
            Status::Load { .. } => 3,
            Status::Text(_) => 4,
            Status::Limit { .. } => 5,
            Status::OverWorst { .. } => 6,
            Status::Differs { .. } => 7,
            Status::Write => 8,
            Status::NoMemory => 9,
        }
    }
}
