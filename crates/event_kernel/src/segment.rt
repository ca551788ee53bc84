// The open segment of a span.
ghost use Rattle.std.specs.Prelude.{◌≡◌, ◌+◌, ◌<◌};
ghost use Rattle.dvs_base.specs.Widths.{u64_end};
ghost use Rattle.sched_model.specs.declared.holder.Holder.TheVariants.{Nobody};

use sched_model::Holder;

/// The open segment: its holder, the number of its first unit in the span, and how many units it has.
#[derive(Clone, Copy)]
pub struct Segment {
    pub holder: Holder,
    pub start: u64,
    pub units: u64,
}

impl Segment {
    /// A segment without units.
    pub(crate) fn none() -> Segment
        ensures { result ≡ record { holder = Nobody; start = 0; units = 0 } }
    {
        Segment {
            holder: Holder::Nobody,
            start: 0,
            units: 0,
        }
    }

    /// Begins the holder's next segment if this one ends.
    pub(crate) fn pass(&mut self)
        requires { self.old.start + self.old.units < u64_end }
        ensures { self.new ≡ record { holder = self.old.holder; start = self.old.start + self.old.units; units = 0 } }
    {
        self.start += self.units;
        self.units = 0;
    }
}
