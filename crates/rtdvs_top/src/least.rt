// The answer of `least`.
ghost use Rattle.command_files.specs.GivenFiles.{ForFiles};
ghost use Rattle.std.specs.Prelude.{◌≡◌, ◌<◌, ◌≤◌, length, IfOk, None};
ghost use Rattle.dvs_base.specs.WritesText.{WritesText};
ghost use Rattle.words.specs.Commands.{HasReadyTicks, least as least_of};
ghost use Rattle.words.specs.Shown.{shown_least};
ghost use Rattle.statuses.specs.Steps.{IsTestStep};
ghost use Rattle.rtdvs_top.specs.Least.{corners_text, sign_word, prices_text, least_text, least_on, IsLeastOn};
ghost use Rattle.rtdvs_top.specs.Prepared.{IsPrepareStep};

use crate::prepared::Prepared;
use crate::{Denied, Status};
use command_files::load_machine;
use dvs_base::{Failed, Line, Part, Shelf, Sink, line_of, put_two};
use energy_bound::{Least, Over, least_energy};
use freq_table::Machine;
use std::alloc::Global;
use words::command::LeastWords;

// The line of the two corners and the energy.
fn corners_line(least: &Least) -> Line
    ensures text { result ≡ corners_text least.now }
    ensures some { 0 < length result }
{
    line_of(&[
        Part::Word(b"least "),
        Part::Number(least.rounds),
        Part::Word(b" "),
        Part::Number(least.low),
        Part::Word(b" "),
        Part::Number(least.low_ticks),
        Part::Word(b" "),
        Part::Number(least.high),
        Part::Word(b" "),
        Part::Number(least.high_ticks),
        Part::Word(b" "),
        Part::Wide(least.energy),
        Part::Word(b"\n"),
    ])
}

// The word of a sign.
fn sign_word(minus: bool) -> &'static [u8]
    ensures word { result.now ≡ sign_word minus }
    ensures short { length result.now ≤ 5 }
{
    if minus { b"minus" } else { b"plus" }
}

// The line of the two prices.
fn prices_line(least: &Least) -> Line
    ensures text { result ≡ prices_text least.now }
    ensures some { 0 < length result }
{
    line_of(&[
        Part::Word(b"prices "),
        Part::Wide(least.unit_price),
        Part::Word(b" "),
        Part::Word(sign_word(least.tick_minus)),
        Part::Word(b" "),
        Part::Wide(least.tick_price),
        Part::Word(b"\n"),
    ])
}

/// Puts the two lines of `least`.
pub(crate) fn put_least<W: Sink>(least: &Least, out: &mut W) -> Result<(), Failed>
    ensures { WritesText (W.shows out.old) (W.shows out.new) (least_text least.now) result }
{
    let corners = corners_line(least);
    let prices = prices_line(least);
    put_two(&corners, &prices, out)
}

// The answer of `least` on a machine.
#[tactic(auto, unfolding(crate::specs::Least::least_on))]
fn bound_energy(words: &LeastWords<'_>, machine: &Machine) -> Result<Least, Status>
    requires { HasReadyTicks (shown_least words.now) }
    ensures step { IsTestStep (least_on (shown_least words.now) machine.now) result (λ a. least_text a) }
    ensures least { IfOk result (IsLeastOn machine.now (shown_least words.now)) }
{
    least_energy(machine, words.units, words.ticks).map_err(|Over { num, cap }| Status::NotAdmitted(
        Denied::Units { num, cap },
    ))
}

/// What `least` prepares; its one file is the machine's.
pub(crate) fn prepare_least<'a, S: Shelf>(
    alloc: Global,
    words: &LeastWords<'_>,
    shelf: &mut S,
) -> Result<Prepared<'a>, Status>
    requires { HasReadyTicks (shown_least words.now) }
    ensures { ForFiles (S.shows shelf.old) (S.shows shelf.new)
        (IsPrepareStep (S.shows shelf.old) (S.shows shelf.new) (least_of (shown_least words.now)) None result) }
{
    let machine = load_machine(alloc, words.machine, shelf)?;
    let least = bound_energy(words, &machine)?;
    Ok(Prepared::Least(least))
}
