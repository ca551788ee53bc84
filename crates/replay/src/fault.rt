// Why a replay refuses a trace.
ghost use Rattle.std.specs.Prelude.{◌≡◌};
ghost use Rattle.replay.specs.declared.fault.ReplayFault.TheVariants as fault;
ghost use Rattle.replay.specs.Replays.{replay_refusal};

use dvs_base::{NoMemory, Note};
use event_kernel::KernelFault;

/// Why a replay refuses a trace.
#[derive(Clone, Copy, Debug, PartialEq, Eq)]
pub enum ReplayFault {
    /// A `Done` note says that a job used more units than `worst`, its task's worst case with the charge.
    OverWorst {
        task: u32,
        job: u64,
        used: u64,
        worst: u64,
    },
    /// `count` jobs would be released, and the limit is `MOST_JOBS`.
    TooManyJobs {
        count: u64,
    },
    /// On line `line`, counted from 1, the schedule has the note `wanted` and the trace has the note `found`.
    Differs {
        line: u64,
        wanted: Note,
        found: Note,
    },
    /// Memory ran out.
    NoMemory,
}

impl From<NoMemory> for ReplayFault {
    ghost from_gives = { λ _ e. e ≡ fault.NoMemory };

    fn from(_e: NoMemory) -> ReplayFault {
        ReplayFault::NoMemory
    }
}

impl From<KernelFault> for ReplayFault {
    ghost from_gives = { λ why e. e ≡ replay_refusal why };

    fn from(why: KernelFault) -> ReplayFault {
        match why {
            KernelFault::TooManyJobs { count } => ReplayFault::TooManyJobs { count },
            KernelFault::NoMemory => ReplayFault::NoMemory,
        }
    }
}
