// What a call says of its probes.
ghost use Rattle.std.specs.Prelude.{◌≡◌, ◌≢◌, IfOk, false, map};
ghost use Rattle.probes.specs.Program.{program_probes};
ghost use Rattle.rtdvs_top.specs.Asked.{command_asked, probes_asked};

use dvs_base::{Shelf, Sink, VoidSink};
use probes::{Probe, ProgramProbes};
use rtdvs_top::{Status, rtdvs};
use std::alloc::{AllocError, Global};

// Makes a call that has the program's probes, and says when they stay.
fn keeps<S: Shelf, W: Sink>(
    alloc: Global,
    words: &[String],
    shelf: &mut S,
    out: &mut W,
    probes: &mut Vec<Box<dyn Probe>>,
) -> Status
    requires { map (λ b. seen b) probes.old.items ≡ program_probes }
    // `kept`: probes that aren't asked for, or of a call that is refused, are as they were
    ensures unasked { probes_asked (command_asked words.now) ≡ false → probes.new ≡ probes.old }
    ensures refused { result ≢ Status.Done → result ≢ Status.Write → probes.new ≡ probes.old }
{
    let mut notes = VoidSink::new();
    rtdvs(alloc, words, shelf, out, &mut notes, probes)
}

/// Makes a call with the program's probes, and says how many are left.
pub fn leaves<S: Shelf, W: Sink>(
    alloc: Global,
    words: &[String],
    shelf: &mut S,
    out: &mut W,
) -> Result<(Status, usize), AllocError>
    ensures unasked { IfOk result (λ r. probes_asked (command_asked words.now) ≡ false → r.1 ≡ 3) }
    ensures refused { IfOk result (λ r. r.0 ≢ Status.Done → r.0 ≢ Status.Write → r.1 ≡ 3) }
{
    let ProgramProbes {
        speeds,
        units,
        dones,
    } = ProgramProbes::new();
    let mut probes: Vec<Box<dyn Probe>> = Vec::new(alloc);
    probes.push(Box::new(alloc, speeds)?)?;
    probes.push(Box::new(alloc, units)?)?;
    probes.push(Box::new(alloc, dones)?)?;
    let status = keeps(alloc, words, shelf, out, &mut probes);
    Ok((status, probes.len()))
}
