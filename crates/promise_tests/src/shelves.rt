// What a call says of its shelf.
ghost use Rattle.std.specs.Prelude.{◌≡◌, ◌++◌, List, ℕ, Ok, Some};
ghost use Rattle.dvs_base.specs.Outside.{Files, Rose};
ghost use Rattle.command_files.specs.GivenFiles.{HaveDistinctNames, loads_since};
ghost use Rattle.rtdvs_top.specs.Asked.{asked_for, command_asked, loads_asked};
ghost use Rattle.rtdvs_top.specs.Promises.{Answers};
ghost use Rattle.words.specs.Commands.{CommandView};

use dvs_base::{Shelf, Sink, VoidSink};
use probes::Probe;
use rtdvs_top::{Status, rtdvs};
use std::alloc::Global;

/// Makes a call over any shelf, and says what holds where its files are not known.
pub fn over_any<S: Shelf, W: Sink>(
    alloc: Global,
    words: &[String],
    shelf: &mut S,
    out: &mut W,
) -> Status
    // `sure_loads`: a shelf that is sure of just the loads of the command doesn't fail
    ensures sure { (S.shows shelf.old).sure ≡ loads_asked (command_asked words.now)
        → (S.shows shelf.new).faults ≡ (S.shows shelf.old).faults }
    // `agree`: if each name was loaded once, some files explain the status
    ensures explained { HaveDistinctNames (loads_since (S.shows shelf.old) (S.shows shelf.new))
        → (files : Files) × Answers (asked_for words.now (Some files))
        (Rose (S.shows shelf.old).faults (S.shows shelf.new).faults)
        (Rose (W.shows out.old).faults (W.shows out.new).faults) result }
    // `any_files`: the output of a command that is done took a text
    ensures wrote { (c : CommandView) → command_asked words.now ≡ Ok c → result ≡ Status.Done
        → (text : List ℕ) × ((W.shows out.new).taken ≡ (W.shows out.old).taken ++ text) }
{
    let mut notes = VoidSink::new();
    let mut probes: Vec<Box<dyn Probe>> = Vec::new(alloc);
    rtdvs(alloc, words, shelf, out, &mut notes, &mut probes)
}
