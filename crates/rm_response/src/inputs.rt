// The inputs of a search, within their limits.
ghost use Rattle.std.specs.Prelude.{◌≡◌, ◌≤◌, ◌*◌, ◌^◌};
ghost use Rattle.task_model.specs.declared.limits.TheConstants.{LONGEST_PERIOD, LONGEST_HYPERPERIOD};
ghost use Rattle.freq_table.specs.declared.limits.TheConstants.{TOP_SPEED};

/// A task that counts with its jobs: its period in ticks, its worst case, and its work in one hyperperiod.
#[derive(Clone, Copy)]
pub(crate) struct Load {
    pub(crate) period: u64,
    pub(crate) worst: u64,
    pub(crate) rate: u128,
    ghost some_period: { 1 ≤ period },
    ghost low_period: { period ≤ LONGEST_PERIOD },
    ghost low_worst: { worst ≤ 2 ^ 61 },
    ghost low_rate: { rate ≤ worst * LONGEST_HYPERPERIOD },
}

/// What the processor does for the loads of a search: at most `speed` units in a tick, and `units` in each `hyper`
/// ticks.
#[derive(Clone, Copy)]
pub(crate) struct Supply {
    pub(crate) speed: u64,
    pub(crate) hyper: u64,
    pub(crate) units: u128,
    ghost some_hyper: { 1 ≤ hyper },
    ghost low_hyper: { hyper ≤ LONGEST_HYPERPERIOD },
    ghost low_speed: { speed ≤ TOP_SPEED },
    ghost some_units: { 1 ≤ units },
    ghost within: { units ≤ speed * hyper },
}

/// The ticks `first` to `last`: one or more, up to the longest period.
#[derive(Clone, Copy)]
pub(crate) struct Span {
    pub(crate) first: u64,
    pub(crate) last: u64,
    ghost some: { 1 ≤ first },
    ghost ordered: { first ≤ last },
    ghost low: { last ≤ LONGEST_PERIOD },
}

/// The supplies of a search: it has the low one while more than `tail` loads are left, and then the whole one.
#[derive(Clone, Copy)]
pub(crate) struct Search {
    pub(crate) whole: Supply,
    pub(crate) low: Supply,
    pub(crate) tail: usize,
    ghost same_hyper: { low.hyper ≡ whole.hyper },
    ghost less: { low.units ≤ whole.units },
}
