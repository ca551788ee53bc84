// What the words of a plan say.
ghost use Rattle.std.specs.Prelude.{◌≡◌};
ghost use Rattle.dvs_base.specs.PlanWords.{is_pair, scheduler_of, governor_of, ticks_of};

use crate::{GovernorKind, MOST_TICKS, Scheduler, whole};

/// The scheduler of a word, `edf` or `rm`. None exactly for every other text.
pub fn scheduler_of(word: &[u8]) -> Option<Scheduler>
    ensures { result ≡ scheduler_of word.now }
{
    if word == b"edf".as_slice() {
        Some(Scheduler::Edf)
    } else if word == b"rm".as_slice() {
        Some(Scheduler::Rm)
    } else {
        None
    }
}

/// The governor of a word: `none`, `static`, `cc` or `la`. None exactly for every other text.
pub fn governor_of(word: &[u8]) -> Option<GovernorKind>
    ensures { result ≡ governor_of word.now }
{
    if word == b"none".as_slice() {
        Some(GovernorKind::Plain)
    } else if word == b"static".as_slice() {
        Some(GovernorKind::Fixed)
    } else if word == b"cc".as_slice() {
        Some(GovernorKind::Cycle)
    } else if word == b"la".as_slice() {
        Some(GovernorKind::Ahead)
    } else {
        None
    }
}

/// Whether the scheduler and the governor are one of the seven pairs: look-ahead is only for EDF.
pub fn is_pair(scheduler: Scheduler, governor: GovernorKind) -> bool
    ensures { result ≡ is_pair scheduler governor }
{
    scheduler == Scheduler::Edf || governor != GovernorKind::Ahead
}

/// The number of ticks of a run that a word spells, 1 to [`MOST_TICKS`]. None exactly for every other text.
pub fn ticks_of(word: &[u8]) -> Option<u64>
    ensures { result ≡ ticks_of word.now }
{
    match whole(word) {
        Some(n) if n >= 1 && n <= MOST_TICKS => Some(n),
        _ => None,
    }
}
