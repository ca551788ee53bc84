// What a call with numbers takes and answers.
ghost use Rattle.std.specs.Prelude.{◌≡◌, ◌+◌, ◌*◌, ◌^◌};
ghost use Rattle.rtdvs_c.specs.Numbers.{halves_of, refused_at, short_by, no_refusal};

use crate::causes::NO_CAUSE;
use dvs_base::MOST_TASKS;

/// A number below 2^128 by its two halves: `low + 2^64 * high`.
#[derive(Clone, Copy, Debug, PartialEq, Eq)]
#[repr(C)]
pub struct Wide {
    pub low: u64,
    pub high: u64,
}

/// What a call takes beside tasks and points: what an idle unit costs, in thousandths of a running one, what a switch of
/// speed costs, in work units, and the scheduler, 0 for EDF and 1 for RM, which only `rtdvs_admit` reads.
#[derive(Clone, Copy, Debug, PartialEq, Eq)]
#[repr(C)]
pub struct Settings {
    pub idle: u64,
    pub charge: u64,
    pub scheduler: u64,
}

/// Why numbers are refused, or denied by a test: the cause; the number of the task or of the point, from 1 on, or 0, and
/// of the cause `DEMAND` the ticks; and of a test the work that is asked for and the work that can be done, in work units,
/// or of the cause `JOBS` the jobs and the most.
#[derive(Clone, Copy, Debug, PartialEq, Eq)]
#[repr(C)]
pub struct Refusal {
    pub cause: u64,
    pub place: u64,
    pub num: Wide,
    pub cap: Wide,
}

/// A demand `num/den` in work units per tick, not reduced, and the lowest speed that meets it: of an admission the static
/// demand, of deadlines below the periods the constrained one. All three are 0 if there is a refusal.
#[derive(Clone, Copy, Debug, PartialEq, Eq)]
#[repr(C)]
pub struct Admission {
    pub num: Wide,
    pub den: Wide,
    pub speed: u64,
    pub refusal: Refusal,
}

/// The answer of the exact test under RM: the response of each task in ticks, in order, and 0 past the last task. All are
/// 0 if there is a refusal.
#[derive(Clone, Copy)]
#[repr(C)]
pub struct Responses {
    pub ticks: [u64; MOST_TASKS],
    pub refusal: Refusal,
}

/// The work whose least energy is asked for: a number of work units, and of ticks to do them in.
#[derive(Clone, Copy, Debug, PartialEq, Eq)]
#[repr(C)]
pub struct Work {
    pub units: u64,
    pub ticks: u64,
}

/// The least energy, in units times millivolts squared times thousandths, with its certificate: over `rounds` repetitions
/// of the ticks, `low_ticks` ticks at the corner with `low` units a tick and `high_ticks` at the one with `high` do the
/// units and cost `energy`. The prices, that of a tick below 0 if `tick_minus` is 1, show that nothing costs less. All
/// are 0 if there is a refusal.
#[derive(Clone, Copy, Debug, PartialEq, Eq)]
#[repr(C)]
pub struct LeastEnergy {
    pub rounds: u64,
    pub low: u64,
    pub low_ticks: u64,
    pub high: u64,
    pub high_ticks: u64,
    pub energy: Wide,
    pub unit_price: Wide,
    pub tick_price: Wide,
    pub tick_minus: u64,
    pub refusal: Refusal,
}

/// A number by its two halves.
pub(crate) fn halves_of(n: u128) -> Wide
    ensures { result ≡ halves_of n }
{
    Wide {
        low: (n % (1 << 64)) as u64,
        high: (n / (1 << 64)) as u64,
    }
}

/// The refusal of this cause and place, with no numbers of a test.
pub(crate) fn refused_at(cause: u64, place: u64) -> Refusal
    ensures { result ≡ refused_at cause place }
{
    short_by(cause, place, 0, 0)
}

/// The refusal of a test: the work asked for, and the work that can be done, or the jobs and the most.
pub(crate) fn short_by(cause: u64, place: u64, num: u128, cap: u128) -> Refusal
    ensures { result ≡ short_by cause place num cap }
{
    Refusal {
        cause,
        place,
        num: halves_of(num),
        cap: halves_of(cap),
    }
}

/// No refusal.
pub(crate) fn no_refusal() -> Refusal
    ensures { result ≡ no_refusal }
{
    refused_at(NO_CAUSE, 0)
}
