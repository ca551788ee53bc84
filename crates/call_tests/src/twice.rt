// Two calls over one shelf and one pair of sinks.
ghost use Rattle.std.specs.Prelude.{◌≡◌, ◌≤◌, ◌+◌, ◌⊎◌, Some};
ghost use Rattle.dvs_base.specs.Outside.{Files, Rose};
ghost use Rattle.command_files.specs.GivenFiles.{MayHold};
ghost use Rattle.rtdvs_top.specs.Asked.{asked_for, command_asked, loads_asked};
ghost use Rattle.rtdvs_top.specs.Promises.{Answers};

use dvs_base::{Shelf, Sink};
use probes::Probe;
use rtdvs_top::{Status, rtdvs};
use std::alloc::Global;

/// The words of two calls.
#[derive(Clone, Copy)]
pub struct TwoCalls<'a> {
    pub first: &'a [String],
    pub second: &'a [String],
}

/// Makes two calls, both without probes, and returns their statuses.
///
/// Each is an answer over all files that the shelf may hold by what it gave in both calls, however the first ended.
/// If the shelf guarantees the loads of both calls, none fails.
pub fn twice<S: Shelf, W: Sink, E: Sink>(
    alloc: Global,
    words: &TwoCalls<'_>,
    shelf: &mut S,
    out: &mut W,
    notes: &mut E,
) -> (Status, Status)
    // the known files stay
    ensures held { (S.shows shelf.new).held ≡ (S.shows shelf.old).held }

    // Which status each call has, and when: over all files that the shelf may hold by what it gave in both calls; over
    // any files if its own words name none.
    ensures first { (files : Files)
        → MayHold (S.shows shelf.old) (S.shows shelf.new) files
        ⊎ (loads_asked (command_asked words.now.first.now) ≡ 0)
        → Answers (asked_for words.now.first.now (Some files))
        (Rose (S.shows shelf.old).faults (S.shows shelf.new).faults)
        (Rose (W.shows out.old).faults (W.shows out.new).faults) result.0 }
    ensures second { (files : Files)
        → MayHold (S.shows shelf.old) (S.shows shelf.new) files
        ⊎ (loads_asked (command_asked words.now.second.now) ≡ 0)
        → Answers (asked_for words.now.second.now (Some files))
        (Rose (S.shows shelf.old).faults (S.shows shelf.new).faults)
        (Rose (W.shows out.old).faults (W.shows out.new).faults) result.1 }

    // the guaranteed loads don't fail
    ensures sure { loads_asked (command_asked words.now.first.now) + loads_asked (command_asked words.now.second.now)
        ≤ (S.shows shelf.old).sure → (S.shows shelf.new).faults ≡ (S.shows shelf.old).faults }
{
    let mut probes: Vec<Box<dyn Probe>> = Vec::new(alloc);
    let first = rtdvs(alloc, words.first, shelf, out, notes, &mut probes);
    let second = rtdvs(alloc, words.second, shelf, out, notes, &mut probes);
    (first, second)
}
