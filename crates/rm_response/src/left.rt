// The loads that are left in a search.
ghost use Rattle.std.specs.Prelude.{◌≡◌, ◌≤◌, [], ◌∷◌, IfSome, MatchOption, length, slice_get};
ghost use Rattle.dvs_base.specs.declared.limits.TheConstants.{MOST_TASKS};
ghost use Rattle.rm_response.specs.Loads.{rates_of};

use crate::inputs::Load;
use crate::loads::rates_of;
use crate::relaxed::Relaxed;

/// The loads that are left in a search, in the order in which it takes them away; their work in one hyperperiod; and the
/// nodes for the last of them.
#[derive(Clone, Copy)]
pub(crate) struct Left<'a> {
    pub(crate) loads: &'a [Load],
    pub(crate) rates: u128,
    pub(crate) nodes: &'a [Relaxed],
    ghost few: { length loads.now ≤ MOST_TASKS },
    ghost sum: { rates ≡ rates_of loads.now },
}

impl<'a> Left<'a> {
    // Loads, with nodes for the last of them.
    pub(crate) fn of(loads: &'a [Load], nodes: &'a [Relaxed]) -> Left<'a>
        requires { length loads.now ≤ MOST_TASKS }
        ensures loads { result.loads.now ≡ loads.now }
        ensures nodes { result.nodes.now ≡ nodes.now }
    {
        Left {
            loads,
            rates: rates_of(loads),
            nodes,
        }
    }

    // The same loads without nodes.
    pub(crate) fn without_nodes(self) -> Left<'a>
        ensures loads { result.loads.now ≡ self.entry.loads.now }
        ensures nodes { result.nodes.now ≡ [] }
    {
        Left {
            loads: self.loads,
            rates: self.rates,
            nodes: &[],
        }
    }

    // The first load, and the others.
    pub(crate) fn split_first(self) -> Option<(Load, Left<'a>)>
        ensures parts { MatchOption result (self.entry.loads.now ≡ [])
            (λ r. self.entry.loads.now ≡ r.0 ∷ r.1.loads.now) }
        ensures nodes { IfSome result (λ r. r.1.nodes.now ≡ self.entry.nodes.now) }
    {
        let (load, loads) = self.loads.split_first()?;
        let others = Left {
            loads,
            rates: self.rates - load.rate,
            nodes: self.nodes,
        };
        Some((*load, others))
    }
}
