// The entry in force in a span.
ghost use Rattle.std.specs.Prelude.{◌≡◌, ◌+◌, ◌<◌};
ghost use Rattle.dvs_base.specs.Widths.{u64_end};
ghost use Rattle.sched_model.specs.Notes.{position_of};

use dvs_base::Pos;

/// The entry of the machine's table that is in force in a span, its speed, and the first tick of the span.
#[derive(Clone, Copy)]
pub struct InForce {
    pub from: u64,
    pub index: u32,
    pub speed: u64,
}

impl InForce {
    /// The position of a unit of the span, by its number.
    pub(crate) fn position(self, unit: u64) -> Pos
        requires some { 0 < self.speed }
        requires fits { self.from + unit < u64_end }
        ensures { result ≡ position_of self.from self.speed unit }
    {
        Pos {
            tick: self.from + unit / self.speed,
            offset: unit % self.speed,
        }
    }
}
