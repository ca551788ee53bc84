// The energies of the tasks, summed over the notes of a trace.
ghost use Rattle.std.specs.Prelude.{◌≡◌, ℕ, ◌<◌, ◌^◌, ◌==◌, ◌++◌, ◌∷◌, [], List, slice_index};
ghost use Rattle.std.specs.List.{AllByRecursion};
ghost use Rattle.dvs_base.specs.declared.note.Note.{Note};
ghost use Rattle.dvs_base.specs.declared.limits.TheConstants.{MOST_TASKS};
ghost use Rattle.trace_text.specs.TraceText.{task_energy};
ghost use Rattle.trace_reader.specs.Items.{HasTaskBelow};
ghost use Rattle.trace_reader.specs.Sums.{with_energy, HasSums};

use crate::line::Item;
use dvs_base::{MOST_TASKS, Note};

/// The sum of the energies of each task's runs, or None from 2^128 on.
#[derive(Drop)]
pub(crate) struct Shares {
    sums: [Option<u128>; MOST_TASKS],
}

// The sum with one energy more, or None from 2^128 on.
fn with_energy(sum: Option<u128>, energy: u128) -> Option<u128>
    ensures { result ≡ with_energy sum energy }
{
    sum?.checked_add(energy)
}

impl Shares {
    pub(crate) fn new() -> Shares
        ensures { HasSums [] result.sums }
    {
        Shares {
            sums: [Some(0); MOST_TASKS],
        }
    }

    // Adds the energy of the note if it is a run.
    pub(crate) fn add(&mut self, note: &Note)
        requires { HasTaskBelow MOST_TASKS (Item.Told note.now) }
        ensures { (notes : List Note) → HasSums notes self.old.sums → HasSums (notes ++ note.now ∷ []) self.new.sums }
    {
        if let Note::Run { task, energy, .. } = *note {
            let i = task as usize;
            self.sums[i] = with_energy(self.sums[i], energy);
        }
    }

    // Whether the energy is the sum of the task.
    pub(crate) fn is_sum(&self, task: u32, energy: u128) -> bool
        requires { task < MOST_TASKS }
        ensures { (notes : List Note) → HasSums notes self.now.sums → result ≡ (energy == task_energy notes task) }
    {
        self.sums[task as usize] == Some(energy)
    }

    // The sums, with 0 for one from 2^128 on.
    fn energies(&self) -> [u128; MOST_TASKS]
        ensures { (notes : List Note) (i : ℕ) → HasSums notes self.now.sums → i < MOST_TASKS
            → task_energy notes i < 2 ^ 128 → slice_index result i ≡ task_energy notes i }
    {
        let mut energies = [0; MOST_TASKS];
        for i in 0..MOST_TASKS {
            energies[i] = self.sums[i].unwrap_or(0);
        }
        energies
    }
}

/// The energy of each task, the sum over its runs, if that is below 2^128.
pub fn task_energies(notes: &[Note]) -> [u128; MOST_TASKS]
    requires { AllByRecursion (λ n. HasTaskBelow MOST_TASKS (Item.Told n)) notes.now }
    ensures { (i : ℕ) → i < MOST_TASKS → task_energy notes.now i < 2 ^ 128
        → slice_index result i ≡ task_energy notes.now i }
{
    let mut shares = Shares::new();
    for note in notes {
        shares.add(note);
    }
    shares.energies()
}
