// Why a `poll` run has no outcomes.
ghost use Rattle.std.specs.Prelude.{◌≡◌};
ghost use Rattle.poll_server.specs.declared.fault.PollFault.TheVariants as fault;
ghost use Rattle.poll_server.specs.Refusals.{poll_refusal};

use dvs_base::NoMemory;
use event_kernel::KernelFault;

/// Why a `poll` run has no outcomes.
#[derive(Clone, Copy, Debug, PartialEq, Eq)]
pub enum PollFault {
    /// `count` jobs would be released, and the limit is `MOST_JOBS`.
    TooManyJobs { count: u64 },
    /// Memory ran out.
    NoMemory,
}

impl From<NoMemory> for PollFault {
    ghost from_gives = { λ _ e. e ≡ fault.NoMemory };

    fn from(_e: NoMemory) -> PollFault {
        PollFault::NoMemory
    }
}

impl From<KernelFault> for PollFault {
    ghost from_gives = { λ why e. e ≡ poll_refusal why };

    fn from(why: KernelFault) -> PollFault {
        match why {
            KernelFault::TooManyJobs { count } => PollFault::TooManyJobs { count },
            KernelFault::NoMemory => PollFault::NoMemory,
        }
    }
}
