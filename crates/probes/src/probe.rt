// The trait of probes.
ghost use Rattle.std.specs.Prelude.{◌≡◌};
ghost use Rattle.probes.specs.Tallies.{ProbeView, probe_after, stay_of};

use crate::rule::{Rule, Stay};
use dvs_base::Note;

/// A counter of notes, by a rule.
pub trait Probe: Drop {
    /// What contracts see of a probe: its rule and its tally.
    ghost seen: { Self → ProbeView };

    /// What the probe counts, and until when.
    fn rule(&self) -> Rule
        ensures { result ≡ (seen self.now).rule };

    /// What the probe has counted, at most 2^64 - 1.
    fn tally(&self) -> u64
        ensures { result ≡ (seen self.now).tally };

    /// Adds the weight of the note under the rule. Leave comes exactly if the rule has a limit and the tally is now
    /// at least the limit.
    fn tell(&mut self, note: &Note) -> Stay
        ensures seen { seen self.new ≡ probe_after note.now (seen self.old) }
        ensures stay { result ≡ stay_of (seen self.new) };
}

// A boxed probe is seen as the probe in the box.
impl Probe for Box<dyn Probe> {
    ghost seen = { λ b. (Probe-box b).seen b.value };

    fn rule(&self) -> Rule {
        (**self).rule()
    }

    fn tally(&self) -> u64 {
        (**self).tally()
    }

    fn tell(&mut self, note: &Note) -> Stay {
        (**self).tell(note)
    }
}
