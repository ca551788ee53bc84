// The notes of a run, and its totals.
ghost use Rattle.std.specs.Prelude.{◌≡◌};
ghost use Rattle.dvs_base.specs.NoteTasks.{note_task};

/// A unit boundary: a tick, and a number of units below that tick's speed.
#[derive(Clone, Copy, Debug, PartialEq, Eq)]
pub struct Pos {
    pub tick: u64,
    pub offset: u64,
}

/// One event of a run. Tasks count from 0 in file order, jobs from 1. An energy is work units times the square of
/// millivolts times 1000, or times the machine's `idle` for idle units.
#[derive(Clone, Copy, Debug, PartialEq, Eq)]
pub enum Note {
    /// A job is released at this tick.
    Release {
        tick: u64,
        task: u32,
        job: u64,
    },
    /// A decision: the speed in units per tick, and the published demand `num/den` that it answers.
    Speed {
        tick: u64,
        speed: u64,
        num: u128,
        den: u128,
    },
    /// A segment in which one job runs, with its work units and its energy.
    Run {
        from: Pos,
        to: Pos,
        task: u32,
        job: u64,
        units: u64,
        energy: u128,
    },
    /// A segment in which no job runs, with its units and its energy.
    Idle {
        from: Pos,
        to: Pos,
        units: u64,
        energy: u128,
    },
    /// A job has had its whole demand of `used` units.
    Done {
        at: Pos,
        task: u32,
        job: u64,
        used: u64,
    },
    /// The run is over, with the sums of the energies of its segments.
    End {
        ticks: u64,
        run: u128,
        idle: u128,
    },
}

impl Note {
    /// The task that the note names, if it names one. It takes no memory.
    #[inline]
    pub fn task(&self) -> Option<u32>
        ensures { result ≡ note_task self.now }
    {
        match self {
            Note::Release { task, .. } => Some(*task),
            Note::Run { task, .. } => Some(*task),
            Note::Done { task, .. } => Some(*task),
            Note::Speed { .. } => None,
            Note::Idle { .. } => None,
            Note::End { .. } => None,
        }
    }
}

/// The sums and counts of a run: its energies of running and of idle segments, in the unit of [`Note`], and its jobs
/// released, jobs finished and decisions.
#[derive(Clone, Copy, Debug, PartialEq, Eq)]
pub struct Totals {
    pub run: u128,
    pub idle: u128,
    pub released: u64,
    pub finished: u64,
    pub decisions: u64,
}
