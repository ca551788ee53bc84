// The refusals of a deadline file.
ghost use Rattle.std.specs.Prelude.{◌≡◌};
ghost use Rattle.deadline_list.specs.declared.fault.DeadlineFault.TheVariants as fault;

use dvs_base::{NoMemory, Short};

/// The first error of a deadline file. Rows count from 1, tasks from 0.
#[derive(Clone, Copy, Debug, PartialEq, Eq)]
pub enum DeadlineFault {
    /// There is no record, or the first one isn't `task`, `deadline`.
    Header,
    /// The row has another number of fields than 2.
    Fields { row: u64, count: u64 },
    /// No task has this name.
    UnknownTask { row: u64, name: Short },
    /// The deadline isn't a decimal number below 2^64.
    BadNumber { row: u64 },
    /// The deadline is 0 or above the task's period.
    Range { row: u64 },
    /// An earlier row has the same task.
    Repeated { row: u64, task: u32 },
    /// Memory ran out.
    NoMemory,
}

impl From<NoMemory> for DeadlineFault {
    ghost from_gives = { λ _ e. e ≡ fault.NoMemory };

    fn from(_e: NoMemory) -> DeadlineFault {
        DeadlineFault::NoMemory
    }
}
