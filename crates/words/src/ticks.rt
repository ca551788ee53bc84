// The number of ticks of a run.
ghost use Rattle.std.specs.Prelude.{◌≤◌};
ghost use Rattle.dvs_base.specs.declared.limits.TheConstants.{MOST_TICKS};

/// A number of ticks within the limits of a run.
#[derive(Clone, Copy, Debug, PartialEq, Eq)]
pub struct Ticks {
    pub number: u64,
    ghost some: { 1 ≤ number },
    ghost few: { number ≤ MOST_TICKS },
}
