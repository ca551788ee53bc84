// The exact test under RM of numbers.
ghost use Rattle.std.specs.Prelude.{◌≡◌, ◌≢◌};
ghost use Rattle.rtdvs_c.specs.Numbers.{no_refusal, refused_responses};
ghost use Rattle.rtdvs_c.specs.NumberReplies.{numbers_of, response_reply, RespondsAsFiles, ProvesNumbers};

use crate::NO_MEMORY;
use crate::number_sets::ticks_of;
use crate::number_types::{Refusal, Responses, Settings, no_refusal};
use crate::refusals::refusal_of;
use dvs_base::MOST_TASKS;
use numbers::{GivenPoint, GivenTask};
use std::alloc::Global;

// The answer of a refusal.
fn refused_responses(refusal: Refusal) -> Responses
    ensures { result ≡ refused_responses refusal }
{
    Responses {
        ticks: [0; MOST_TASKS],
        refusal,
    }
}

/// The response of each task under RM at the highest speed, as the program's `response` gives it for files of the same
/// numbers. The result is the program's exit status: 0 if each task has a response, 1 if one has none or has an offset, 4
/// if numbers are refused, and 9 if memory ran out. The scheduler of the settings is not read.
#[tactic(auto, using(crate::proofs::NumberSteps::responds_as_files, crate::proofs::NumberSteps::denied_of, crate::proofs::NumberSteps::done_of))]
#[unsafe(no_mangle)]
pub extern "C" fn rtdvs_response(
    alloc: Global,
    tasks: &[GivenTask],
    points: &[GivenPoint],
    settings: &Settings,
    answer: &mut Responses,
) -> u8
    // the exit status and the answer are those of the numbers, unless memory ran out
    ensures status { result ≢ NO_MEMORY
        → result ≡ (response_reply (numbers_of tasks.now points.now settings.now)).code }
    ensures answer { result ≢ NO_MEMORY
        → answer.new ≡ (response_reply (numbers_of tasks.now points.now settings.now)).answer }
    // if memory ran out there is no answer
    ensures no_answer { result ≡ NO_MEMORY → answer.new ≡ refused_responses no_refusal }
    // what the answer proves of these tasks on this machine
    ensures proves { ProvesNumbers (numbers_of tasks.now points.now settings.now) result }
    // the program answers alike for each file of these tasks and each file of this machine
    ensures same { RespondsAsFiles (numbers_of tasks.now points.now settings.now) }
{
    match ticks_of(alloc, tasks, points, settings) {
        Ok(ticks) => {
            *answer = Responses {
                ticks,
                refusal: no_refusal(),
            };
            0
        }
        Err(status) => {
            *answer = refused_responses(refusal_of(status));
            status.code()
        }
    }
}
