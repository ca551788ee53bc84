// The probes of the program.
ghost use Rattle.std.specs.Prelude.{◌≡◌, [], ◌∷◌, None};
ghost use Rattle.probes.specs.Program.{program_probes};
ghost use Rattle.probes.specs.Seen.{seen_count, seen_table};

use crate::count::CountProbe;
use crate::rule::{Rule, What};
use crate::table::TableProbe;

/// The number of completions at which the program's probe of completions leaves.
pub const MOST_DONES: u64 = 50_000;

/// The probes that the program gives a run, in the order in which they are told and shown. The caller boxes them.
#[derive(Debug, Drop)]
pub struct ProgramProbes {
    /// Counts decisions.
    pub speeds: CountProbe,
    /// Counts work units by task.
    pub units: TableProbe,
    /// Counts completions, and leaves at `MOST_DONES`.
    pub dones: CountProbe,
}

// The rule of a probe that counts `what` over all tasks and leaves at `limit`, if there is one.
fn of_all_tasks(what: What, limit: Option<u64>) -> Rule
    ensures { result ≡ record { what = what; task = None; limit = limit } }
{
    Rule {
        what,
        task: None,
        limit,
    }
}

impl ProgramProbes {
    /// The probes of the program, which have counted nothing yet. It takes no memory.
    pub fn new() -> ProgramProbes
        ensures { seen_count result.speeds ∷ seen_table result.units ∷ seen_count result.dones ∷ [] ≡ program_probes }
    {
        ProgramProbes {
            speeds: CountProbe::new(of_all_tasks(What::Speeds, None)),
            units: TableProbe::new(of_all_tasks(What::Units, None)),
            dones: CountProbe::new(of_all_tasks(What::Dones, Some(MOST_DONES))),
        }
    }
}
