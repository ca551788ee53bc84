// What a call says over all files that its shelf may hold.
ghost use Rattle.std.specs.Prelude.{◌≡◌, IfOk, List, map};
ghost use Rattle.probes.specs.Program.{program_probes};
ghost use Rattle.probes.specs.Tallies.{ProbeView};
ghost use Rattle.dvs_base.specs.Outside.{Files};
ghost use Rattle.command_files.specs.GivenFiles.{MayHold};
ghost use Rattle.rtdvs_top.specs.Asked.{command_asked};
ghost use Rattle.rtdvs_top.specs.Promised.{outside_of};
ghost use Rattle.promise_tests.specs.Said.{Says};

use dvs_base::{Shelf, Sink};
use probes::{Probe, ProgramProbes};
use rtdvs_top::{Status, rtdvs};
use std::alloc::{AllocError, Global};

/// The sinks of a call.
pub struct Sinks<W, E> {
    pub out: W,
    pub notes: E,
}

// Makes a call that has the program's probes, and says of it each sentence of `Says`.
fn says_with<S: Shelf, W: Sink, E: Sink>(
    alloc: Global,
    words: &[String],
    shelf: &mut S,
    sinks: &mut Sinks<W, E>,
    probes: &mut Vec<Box<dyn Probe>>,
) -> Status
    requires { map (λ b. seen b) probes.old.items ≡ program_probes }
    ensures { (files : Files) → MayHold (S.shows shelf.old) (S.shows shelf.new) files
        → (after : List ProbeView) × Says (command_asked words.now) files
        (outside_of (S.shows shelf.old) (W.shows sinks.old.out) (E.shows sinks.old.notes) program_probes)
        (outside_of (S.shows shelf.new) (W.shows sinks.new.out) (E.shows sinks.new.notes) after) result }
{
    rtdvs(
        alloc,
        words,
        shelf,
        &mut sinks.out,
        &mut sinks.notes,
        probes,
    )
}

/// Makes a call with the program's probes, and says of it each sentence of `Says`.
pub fn says<S: Shelf, W: Sink, E: Sink>(
    alloc: Global,
    words: &[String],
    shelf: &mut S,
    sinks: &mut Sinks<W, E>,
) -> Result<Status, AllocError>
    ensures { IfOk result (λ status. (files : Files) → MayHold (S.shows shelf.old) (S.shows shelf.new) files
        → (after : List ProbeView) × Says (command_asked words.now) files
        (outside_of (S.shows shelf.old) (W.shows sinks.old.out) (E.shows sinks.old.notes) program_probes)
        (outside_of (S.shows shelf.new) (W.shows sinks.new.out) (E.shows sinks.new.notes) after) status) }
{
    let ProgramProbes {
        speeds,
        units,
        dones,
    } = ProgramProbes::new();
    let mut probes: Vec<Box<dyn Probe>> = Vec::new(alloc);
    probes.push(Box::new(alloc, speeds)?)?;
    probes.push(Box::new(alloc, units)?)?;
    probes.push(Box::new(alloc, dones)?)?;
    Ok(says_with(alloc, words, shelf, sinks, &mut probes))
}
