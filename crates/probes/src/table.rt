// A probe with a counter for each task.
ghost use Rattle.std.specs.Prelude.{◌≡◌, ◌≤◌, ◌+◌, sum};
ghost use Rattle.probes.specs.Tallies.{ProbeView, probe_after, stay_of, capped_count};
ghost use Rattle.probes.specs.Seen.{seen_table};

use crate::probe::Probe;
use crate::rule::{Rule, Stay, stay_at, weight};
use dvs_base::{MOST_TASKS, Note};

/// A counter for each task that a set can have, and one for all other notes. The tally is their sum.
#[derive(Debug, Drop)]
pub struct TableProbe {
    rule: Rule,
    counts: [u64; MOST_TASKS],
    others: u64,
}

// The sum of the counts, at most 2^64 - 1.
fn capped_sum(counts: &[u64]) -> u64
    ensures { result ≡ capped_count (sum counts.now) }
{
    let mut total: u64 = 0;
    for count in counts {
        total = total.saturating_add(*count);
    }
    total
}

impl TableProbe {
    /// A probe with this rule that has counted nothing yet.
    pub fn new(rule: Rule) -> TableProbe
        ensures { seen_table result ≡ record { rule = rule; tally = 0 } }
    {
        TableProbe {
            rule,
            counts: [0; MOST_TASKS],
            others: 0,
        }
    }
}

impl Probe for TableProbe {
    ghost seen = { seen_table };

    fn rule(&self) -> Rule {
        self.rule
    }

    fn tally(&self) -> u64 {
        capped_sum(&self.counts).saturating_add(self.others)
    }

    fn tell(&mut self, note: &Note) -> Stay {
        let more = weight(self.rule, note);
        match note.task() {
            Some(task) if (task as usize) < MOST_TASKS => {
                let task = task as usize;
                self.counts[task] = self.counts[task].saturating_add(more);
            }
            _ => self.others = self.others.saturating_add(more),
        }
        match self.rule.limit {
            Some(_) => stay_at(self.rule.limit, self.tally()),
            None => Stay::Stay,
        }
    }
}
