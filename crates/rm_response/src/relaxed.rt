// Relaxed loads: a few loads count with their jobs, and the others with their rates. What does not fit beside these does
// not fit beside all jobs either.
ghost use Rattle.std.specs.Prelude.{◌≡◌, ◌≤◌, length, take};

use crate::inputs::{Load, Supply};

// The most loads that count with their jobs.
pub(crate) const MOST_HEAVY: usize = 8;

/// The loads that count with their jobs, the first `count` of `loads`, and what the rates of the others leave of a
/// supply. Beside these rates, all but the last `tail` of the loads can be taken away in turn.
#[derive(Clone, Copy)]
pub(crate) struct Relaxed {
    pub(crate) supply: Supply,
    pub(crate) loads: [Load; MOST_HEAVY],
    pub(crate) count: usize,
    pub(crate) tail: usize,
    ghost within: { count ≤ length loads },
}

impl Relaxed {
    // No loads that count with their jobs.
    pub(crate) fn empty(supply: Supply) -> Relaxed
        ensures supply { result.supply ≡ supply }
        ensures count { result.count ≡ 0 }
    {
        let none = Load {
            period: 1,
            worst: 0,
            rate: 0,
        };
        let loads = [none; MOST_HEAVY];
        Relaxed {
            supply,
            loads,
            count: 0,
            tail: 0,
        }
    }

    // The loads that count with their jobs.
    pub(crate) fn heavy(&self) -> &[Load]
        ensures few { length result.now ≤ length self.now.loads }
        ensures loads { result.now ≡ take self.now.count self.now.loads }
    {
        &self.loads[..self.count]
    }
}
