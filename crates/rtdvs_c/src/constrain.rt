// The lowest speed for the deadlines of numbers.
ghost use Rattle.std.specs.Prelude.{◌≡◌, ◌≢◌, ◌<◌, length, IfErr, OnOk};
ghost use Rattle.dvs_base.specs.Checks.{IsUnlessMemory};
ghost use Rattle.rtdvs_c.specs.Numbers.{no_refusal, refused_admission};
ghost use Rattle.rtdvs_c.specs.NumberReplies.{numbers_of};
ghost use Rattle.rtdvs_c.specs.DeadlineNumbers.{constrained_numbers, lowest_answer, constrain_reply, KeepsNumbers, ProvesKept, ProvesLowest, ConstrainsAsFiles};

use crate::NO_MEMORY;
use crate::admit::refused_admission;
use crate::number_sets::sets_of;
use crate::number_types::{Admission, Settings, halves_of, no_refusal};
use crate::refusals::refusal_of;
use edf_demand::Constrained;
use freq_table::Machine;
use numbers::{GivenPoint, GivenTask, deadlines_of};
use rtdvs_top::{Status, constrained_of};
use std::alloc::Global;

// The answer of the lowest speed that was found on a machine.
fn constrained_numbers(machine: &Machine, found: Constrained) -> Admission
    requires { found.point < length machine.now.points }
    ensures { result ≡ constrained_numbers machine.now found }
{
    let point = machine.point(found.point);
    Admission {
        num: halves_of(found.demand.num),
        den: halves_of(found.demand.den),
        speed: point.speed,
        refusal: no_refusal(),
    }
}

// The lowest speed for the deadlines of numbers, or the status that refuses or denies them.
#[tactic(auto, using(crate::proofs::NumberSteps::unless_memory, crate::proofs::DeadlineSteps::deadlines_refused, crate::proofs::DeadlineSteps::of_file_proves, crate::proofs::DeadlineSteps::refused_proves, crate::proofs::DeadlineSteps::denial_proves))]
fn lowest_of(
    alloc: Global,
    tasks: &[GivenTask],
    points: &[GivenPoint],
    settings: &Settings,
) -> Result<Admission, Status>
    ensures answer { IsUnlessMemory Status.NoMemory (λ a. a) result
        (lowest_answer (numbers_of tasks.now points.now settings.now)) }
    ensures proves { OnOk result (KeepsNumbers (numbers_of tasks.now points.now settings.now)) }
    ensures fails { IfErr result (ProvesKept (numbers_of tasks.now points.now settings.now)) }
{
    let (set, machine) = sets_of(alloc, tasks, points, settings)?;
    let deadlines = deadlines_of(alloc, tasks, &set)?;
    let found = constrained_of(alloc, &set, &deadlines, &machine)?;
    Ok(constrained_numbers(&machine, found))
}

/// The lowest speed at which the tasks meet their relative deadlines under EDF, with their constrained demand, as the
/// program's `constrain` gives it for files of the same numbers. The result is the program's exit status: 0 if there is a
/// speed, 1 if there is none or a task has an offset, 5 if a hyperperiod has too many jobs, 4 if numbers are refused, and
/// 9 if memory ran out. The scheduler of the settings is not read.
#[tactic(auto, using(crate::proofs::DeadlineSteps::constrains_as_files, crate::proofs::DeadlineSteps::answer_proves, crate::proofs::DeadlineSteps::status_proves))]
#[unsafe(no_mangle)]
pub extern "C" fn rtdvs_constrain(
    alloc: Global,
    tasks: &[GivenTask],
    points: &[GivenPoint],
    settings: &Settings,
    answer: &mut Admission,
) -> u8
    // the exit status and the answer are those of the numbers, unless memory ran out
    ensures status { result ≢ NO_MEMORY
        → result ≡ (constrain_reply (numbers_of tasks.now points.now settings.now)).code }
    ensures answer { result ≢ NO_MEMORY
        → answer.new ≡ (constrain_reply (numbers_of tasks.now points.now settings.now)).answer }
    // if memory ran out there is no answer
    ensures no_answer { result ≡ NO_MEMORY → answer.new ≡ refused_admission no_refusal }
    // what the answer proves of these tasks, their deadlines and this machine
    ensures proves { result ≢ NO_MEMORY → ProvesLowest (numbers_of tasks.now points.now settings.now) }
    // the program answers alike for each file of these tasks, of their deadlines and of this machine
    ensures same { ConstrainsAsFiles (numbers_of tasks.now points.now settings.now) }
{
    match lowest_of(alloc, tasks, points, settings) {
        Ok(found) => {
            *answer = found;
            0
        }
        Err(status) => {
            *answer = refused_admission(refusal_of(status));
            status.code()
        }
    }
}
