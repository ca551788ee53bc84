// Probes that are asked for, and what they have counted.
use probes::Rule;
pub use probes::{CountProbe, Probe, TableProbe};
use std::alloc::{AllocError, Global};

/// A probe that is asked for: one counter, or a counter for each task.
#[derive(Clone, Copy)]
pub enum Asked {
    Count(Rule),
    Table(Rule),
}

/// The probes that are asked for, each in a box, in their order. An `AllocError` leaves the function that uses it.
#[macro_export]
macro_rules! probes_of {
    ($alloc:expr, $asked:expr) => {{
        let mut probes: Vec<Box<dyn $crate::Probe>> = Vec::new($alloc);
        for probe in $asked {
            let probe: Box<dyn $crate::Probe> = match *probe {
                $crate::Asked::Count(rule) => Box::new($alloc, $crate::CountProbe::new(rule))?,
                $crate::Asked::Table(rule) => Box::new($alloc, $crate::TableProbe::new(rule))?,
            };
            probes.push(probe)?;
        }
        probes
    }};
}

/// What the probes have counted, in their order. No clause says so.
pub fn tallies_of(alloc: Global, probes: &[Box<dyn Probe>]) -> Result<Vec<u64>, AllocError> {
    let mut tallies = Vec::new(alloc);
    for probe in probes {
        tallies.push(probe.tally())?;
    }
    Ok(tallies)
}
