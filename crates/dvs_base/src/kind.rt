// The schedulers, the kinds of governors and the versions of a trace.

/// How the released jobs are ordered (Liu and Layland 1973).
#[derive(Clone, Copy, Debug, PartialEq, Eq)]
pub enum Scheduler {
    /// By deadline, the earliest first.
    Edf,
    /// Rate monotonic: by period, the shortest first.
    Rm,
}

/// How the speed is chosen (Pillai and Shin 2001). The words are `none`, `static`, `cc` and `la`.
#[derive(Clone, Copy, Debug, PartialEq, Eq)]
pub enum GovernorKind {
    /// `none`: always the highest speed.
    Plain,
    /// `static`: one speed, from only the worst cases.
    Fixed,
    /// `cc`, cycle-conserving: work that jobs did not need lowers the speed.
    Cycle,
    /// `la`, look-ahead: work is put off as far as the deadlines allow.
    Ahead,
}

/// What the text of a trace has.
#[derive(Clone, Copy, Debug, PartialEq, Eq)]
pub enum Version {
    /// The plan and the notes.
    One,
    /// The tasks too, and the energy of each.
    Two,
}
