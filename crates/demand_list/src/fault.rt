// Why a demand file is refused.
ghost use Rattle.std.specs.Prelude.{◌≡◌};
ghost use Rattle.demand_list.specs.declared.fault.DemandFault.TheVariants as fault;

use dvs_base::{NoMemory, Short};

/// The columns of a demand file that hold numbers.
#[derive(Clone, Copy, Debug, PartialEq, Eq)]
pub enum Column {
    /// The job's number, from 1 on.
    Job,
    /// The work units that the job needs.
    Units,
}

/// The first error of a demand file. Rows count from 1, tasks from 0.
#[derive(Clone, Copy, Debug, PartialEq, Eq)]
pub enum DemandFault {
    /// There is no record, or the first one isn't `task`, `job`, `units`.
    Header,
    /// The row has another number of fields than 3.
    Fields {
        row: u64,
        count: u64,
    },
    /// No task has this name.
    UnknownTask {
        row: u64,
        name: Short,
    },
    /// The column isn't a decimal number below 2^64.
    BadNumber {
        row: u64,
        column: Column,
    },
    /// The job is 0; jobs count from 1.
    JobZero {
        row: u64,
    },
    /// An earlier row has the same task and job.
    Repeated {
        row: u64,
        task: u32,
        job: u64,
    },
    /// The units exceed the declared worst case of the task.
    OverWorst {
        task: u32,
        job: u64,
        units: u64,
        worst: u64,
    },
    /// Memory ran out.
    NoMemory,
}

impl From<NoMemory> for DemandFault {
    ghost from_gives = { λ _ e. e ≡ fault.NoMemory };

    fn from(_e: NoMemory) -> DemandFault {
        DemandFault::NoMemory
    }
}
