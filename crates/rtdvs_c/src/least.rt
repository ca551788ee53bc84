// The least energy of numbers.
ghost use Rattle.std.specs.Prelude.{◌≡◌, ◌≢◌, ◌≤◌, [], IfOk, OnOk};
ghost use Rattle.dvs_base.specs.Checks.{IsUnlessMemory};
ghost use Rattle.dvs_base.specs.declared.limits.TheConstants.{MOST_TICKS};
ghost use Rattle.energy_bound.specs.Certificates.{IsCertificate};
ghost use Rattle.energy_bound.specs.Schedules.{IsLeast};
ghost use Rattle.rtdvs_c.specs.Numbers.{no_refusal};
ghost use Rattle.rtdvs_c.specs.NumberReplies.{numbers_of};
ghost use Rattle.rtdvs_c.specs.LeastNumbers.{certified, refused_least, least_by, least_of_numbers, least_reply, IsLeastNumbers, LeastAsFiles};

use crate::NO_MEMORY;
use crate::causes::{NO_TICKS, TICKS};
use crate::number_types::{
    LeastEnergy, Refusal, Settings, Work, halves_of, no_refusal, refused_at,
};
use crate::refusals::refusal_of;
use dvs_base::MOST_TICKS;
use energy_bound::{Least, Over, least_energy};
use freq_table::Machine;
use numbers::{GivenPoint, machine_of};
use rtdvs_top::{Denied, Status};
use std::alloc::Global;

// The answer of a certificate.
fn certified(least: &Least) -> LeastEnergy
    ensures { result ≡ certified least.now }
{
    LeastEnergy {
        rounds: least.rounds,
        low: least.low,
        low_ticks: least.low_ticks,
        high: least.high,
        high_ticks: least.high_ticks,
        energy: halves_of(least.energy),
        unit_price: halves_of(least.unit_price),
        tick_price: halves_of(least.tick_price),
        tick_minus: u64::from(least.tick_minus),
        refusal: no_refusal(),
    }
}

// The answer of a refusal.
fn refused_least(refusal: Refusal) -> LeastEnergy
    ensures { result ≡ refused_least refusal }
{
    LeastEnergy {
        rounds: 0,
        low: 0,
        low_ticks: 0,
        high: 0,
        high_ticks: 0,
        energy: halves_of(0),
        unit_price: halves_of(0),
        tick_price: halves_of(0),
        tick_minus: 0,
        refusal,
    }
}

// The least energy for the work on a machine, or the status of too many units.
fn bounded(machine: &Machine, work: &Work) -> Result<Least, Status>
    requires { work.now.ticks ≤ MOST_TICKS }
    ensures answer { result ≡ least_by machine.now work.now }
    ensures certificate { IfOk result (IsCertificate machine.now work.now.units work.now.ticks) }
    ensures least { IfOk result (IsLeast machine.now work.now.units work.now.ticks) }
{
    least_energy(machine, work.units, work.ticks).map_err(|Over { num, cap }| Status::NotAdmitted(
        Denied::Units { num, cap },
    ))
}

// The least energy for the work on the machine of numbers, or the status that refuses it.
#[tactic(auto, using(crate::proofs::NumberSteps::machine_refused))]
fn least_of(
    alloc: Global,
    points: &[GivenPoint],
    settings: &Settings,
    work: &Work,
) -> Result<Least, Status>
    requires { work.now.ticks ≤ MOST_TICKS }
    ensures answer { IsUnlessMemory Status.NoMemory (λ a. a) result
        (least_of_numbers (numbers_of [] points.now settings.now) work.now) }
    ensures proves { OnOk result (IsLeastNumbers (numbers_of [] points.now settings.now) work.now) }
{
    let machine = machine_of(alloc, settings.idle, settings.charge, points)?;
    bounded(&machine, work)
}

/// The least energy for work on a machine, with its certificate, as the program's `least` gives it for a file of the same
/// numbers. The result is the program's exit status: 0 if there is an answer, 1 if the units are more than the highest
/// speed does in the ticks, 4 if numbers are refused, 2 if the ticks are, and 9 if memory ran out. The scheduler of the
/// settings is not read.
#[tactic(auto, using(crate::proofs::NumberSteps::least_done_of))]
#[unsafe(no_mangle)]
pub extern "C" fn rtdvs_least(
    alloc: Global,
    points: &[GivenPoint],
    settings: &Settings,
    work: &Work,
    answer: &mut LeastEnergy,
) -> u8
    // the exit status and the answer are those of the numbers, unless memory ran out
    ensures status { result ≢ NO_MEMORY
        → result ≡ (least_reply (numbers_of [] points.now settings.now) work.now).code }
    ensures answer { result ≢ NO_MEMORY
        → answer.new ≡ (least_reply (numbers_of [] points.now settings.now) work.now).answer }
    // if memory ran out there is no answer
    ensures no_answer { result ≡ NO_MEMORY → answer.new ≡ refused_least no_refusal }
    // what the answer proves of this machine
    ensures proves { result ≡ 0 → IsLeastNumbers (numbers_of [] points.now settings.now) work.now }
    // the program answers alike for each file of this machine
    ensures same { LeastAsFiles (numbers_of [] points.now settings.now) work.now }
{
    if work.ticks < 1 || work.ticks > MOST_TICKS {
        *answer = refused_least(refused_at(TICKS, 0));
        return NO_TICKS;
    }
    match least_of(alloc, points, settings, work) {
        Ok(least) => {
            *answer = certified(&least);
            0
        }
        Err(status) => {
            *answer = refused_least(refusal_of(status));
            status.code()
        }
    }
}
