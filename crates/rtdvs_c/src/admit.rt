// Admission of numbers.
ghost use Rattle.std.specs.Prelude.{◌≡◌, ◌≢◌};
ghost use Rattle.rtdvs_c.specs.Numbers.{scheduler_from, admitted_numbers, refused_admission, no_refusal};
ghost use Rattle.freq_table.specs.Tables.{lowest_entry};
ghost use Rattle.sched_model.specs.StaticDemand.{static_demand};
ghost use Rattle.static_gov.specs.StaticSpeed.{IsLowestEnough};
ghost use Rattle.rtdvs_c.specs.NumberReplies.{numbers_of, admission_reply, AdmitsAsFiles, AdmitsNumbers, HasLowestEnough};

use crate::NO_MEMORY;
use crate::causes::{EDF, NO_SCHEDULER, RM, SCHEDULER};
use crate::number_sets::admitted_of;
use crate::number_types::{Admission, Refusal, Settings, halves_of, no_refusal, refused_at};
use crate::refusals::refusal_of;
use dvs_base::Scheduler;
use numbers::{GivenPoint, GivenTask};
use sched_model::Admitted;
use std::alloc::Global;

// The scheduler of this number, if it is one.
fn scheduler_from(n: u64) -> Option<Scheduler>
    ensures { result ≡ scheduler_from n }
{
    if n == EDF {
        Some(Scheduler::Edf)
    } else if n == RM {
        Some(Scheduler::Rm)
    } else {
        None
    }
}

// The answer of an admitted plan.
fn admitted_numbers(plan: &Admitted) -> Admission
    ensures answer { result ≡ admitted_numbers plan.now }
    ensures lowest { IsLowestEnough plan.now (lowest_entry plan.now.machine (static_demand plan.now)) }
{
    let demand = plan.static_demand();
    let pick = plan.machine().lowest(demand);
    let point = plan.machine().point(pick.index);
    Admission {
        num: halves_of(demand.num),
        den: halves_of(demand.den),
        speed: point.speed,
        refusal: no_refusal(),
    }
}

/// The answer of a refusal.
pub(crate) fn refused_admission(refusal: Refusal) -> Admission
    ensures { result ≡ refused_admission refusal }
{
    Admission {
        num: halves_of(0),
        den: halves_of(0),
        speed: 0,
        refusal,
    }
}

/// Admits tasks on a machine by the test of a scheduler, as the program's `admit` does for files of the same numbers. The
/// result is the program's exit status: 0 if the tasks are admitted, 1 if the test denies them, 4 if numbers are
/// refused, 2 if the scheduler is none, and 9 if memory ran out.
#[tactic(auto, using(crate::proofs::NumberSteps::admits_numbers, crate::proofs::NumberSteps::admits_as_files, crate::proofs::NumberSteps::admitted_done_of))]
#[unsafe(no_mangle)]
pub extern "C" fn rtdvs_admit(
    alloc: Global,
    tasks: &[GivenTask],
    points: &[GivenPoint],
    settings: &Settings,
    answer: &mut Admission,
) -> u8
    // the exit status and the answer are those of the numbers, unless memory ran out
    ensures status { result ≢ NO_MEMORY
        → result ≡ (admission_reply (numbers_of tasks.now points.now settings.now)).code }
    ensures answer { result ≢ NO_MEMORY
        → answer.new ≡ (admission_reply (numbers_of tasks.now points.now settings.now)).answer }
    // if memory ran out there is no answer
    ensures no_answer { result ≡ NO_MEMORY → answer.new ≡ refused_admission no_refusal }
    // what the answer proves of these tasks and this machine
    ensures proves { AdmitsNumbers (numbers_of tasks.now points.now settings.now) }
    // at the speed answered every job meets its deadline at worst, and at each lower one the test fails
    ensures lowest { result ≡ 0 → HasLowestEnough (numbers_of tasks.now points.now settings.now) }
    // the program answers alike for each file of these tasks and each file of this machine
    ensures same { AdmitsAsFiles (numbers_of tasks.now points.now settings.now) }
{
    let Some(scheduler) = scheduler_from(settings.scheduler) else {
        *answer = refused_admission(refused_at(SCHEDULER, 0));
        return NO_SCHEDULER;
    };
    match admitted_of(alloc, scheduler, tasks, points, settings) {
        Ok(plan) => {
            *answer = admitted_numbers(&plan);
            0
        }
        Err(status) => {
            *answer = refused_admission(refusal_of(status));
            status.code()
        }
    }
}
