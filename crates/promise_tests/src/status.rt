// What a status says by itself.
ghost use Rattle.std.specs.Prelude.{◌≡◌, ◌≢◌, ◌<◌, ◌-◌, ℕ, Ok, Err};
ghost use Rattle.dvs_base.specs.Widths.{u64_end};
ghost use Rattle.dvs_base.specs.declared.limits.TheConstants.{MOST_JOBS};
ghost use Rattle.rtdvs_top.specs.Asked.{command_asked};
ghost use Rattle.statuses.specs.declared.status.Denied.TheVariants as denied;
ghost use Rattle.statuses.specs.declared.status.FileKind.{FileKind};
ghost use Rattle.words.specs.Commands.{CommandView};
ghost use Rattle.words.specs.declared.command.WordFault.{WordFault};

use dvs_base::{Shelf, Sink, VoidSink};
use probes::Probe;
use rtdvs_top::{Status, rtdvs};
use std::alloc::Global;

/// Makes a call, and says when its words are refused, when a write failed, and that its numbers show the cause.
pub fn causes<S: Shelf, W: Sink>(
    alloc: Global,
    words: &[String],
    shelf: &mut S,
    out: &mut W,
) -> Status
    // `words`: words that are no command are refused with their error, and those of a command never
    ensures refused { (why : WordFault) → command_asked words.now ≡ Err why → result ≡ Status.Words why }
    ensures read { (c : CommandView) (why : WordFault) → command_asked words.now ≡ Ok c → result ≢ Status.Words why }
    // `write`: the count of failed puts is greater after a failed write
    ensures failed { result ≡ Status.Write → (W.shows out.old).faults < u64_end - 1
        → (W.shows out.old).faults < (W.shows out.new).faults }
    // `shown`: the jobs exceed their limit, and the work what the highest speed does
    ensures jobs { (jobs : ℕ) → result ≡ Status.Limit jobs → MOST_JOBS < jobs }
    ensures work { (num cap : ℕ) → result ≡ Status.NotAdmitted (denied.Edf num cap) → cap < num }
{
    let mut notes = VoidSink::new();
    let mut probes: Vec<Box<dyn Probe>> = Vec::new(alloc);
    rtdvs(alloc, words, shelf, out, &mut notes, &mut probes)
}

/// Makes a call, and says what stays as it was.
pub fn stays<S: Shelf, W: Sink>(
    alloc: Global,
    words: &[String],
    shelf: &mut S,
    out: &mut W,
) -> Status
    // `leaves`: nothing is written by a call that is refused
    ensures out { result ≢ Status.Done → result ≢ Status.Write → out.new ≡ out.old }
    // `load_count`: no load failed, if the status doesn't say so
    ensures loads { ((kind : FileKind) → result ≢ Status.Load kind)
        → (S.shows shelf.new).faults ≡ (S.shows shelf.old).faults }
    // `put_count`: no put failed, if the status doesn't say so
    ensures puts { result ≢ Status.Write → (W.shows out.new).faults ≡ (W.shows out.old).faults }
{
    let mut notes = VoidSink::new();
    let mut probes: Vec<Box<dyn Probe>> = Vec::new(alloc);
    rtdvs(alloc, words, shelf, out, &mut notes, &mut probes)
}
