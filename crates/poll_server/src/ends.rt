// Where the jobs of a task are done in a run.
ghost use Rattle.std.specs.Prelude.{◌≡◌, ◌≤◌, ◌-◌, ℕ, IfOk, None, length, replicate};
ghost use Rattle.dvs_base.specs.declared.limits.TheConstants.{MOST_JOBS};
ghost use Rattle.dvs_base.specs.declared.note.Note.TheVariants.{Done};
ghost use Rattle.poll_server.specs.Walks.{Hears, end_at};

use dvs_base::{NoMemory, Note, Pos};
use event_kernel::{Listener, Stopped};
use std::alloc::Global;

/// The positions at which the first jobs of a task are done, as far as the notes heard say.
#[derive(Drop)]
pub(crate) struct Ends {
    task: u32,
    ends: Vec<Option<Pos>>,
}

impl Ends {
    /// The ends of `jobs` jobs of a task before any note: none is known.
    pub(crate) fn of(alloc: Global, task: u32, jobs: u64) -> Result<Ends, NoMemory>
        requires { jobs ≤ MOST_JOBS }
        ensures task { IfOk result (λ e. e.task ≡ task) }
        ensures ends { IfOk result (λ e. e.ends.items ≡ replicate jobs None) }
    {
        let mut ends = Vec::new(alloc);
        ends.resize(jobs as usize, None)?;
        Ok(Ends { task, ends })
    }

    /// The position at which a job is done, if a note said so; jobs count from 1.
    pub(crate) fn end(&self, job: u64) -> Option<Pos>
        requires some { 1 ≤ job }
        requires within { job ≤ length self.now.ends.items }
        ensures { result ≡ end_at self.now.ends.items (job - 1) }
    {
        self.ends[job as usize - 1]
    }

    // Keeps the position, if it is the first end of the job; jobs count from 1.
    fn keep(&mut self, job: u64, at: Pos)
        ensures { (used : ℕ) → Hears self.old (Done at self.old.task job used) self.new }
    {
        if 1 <= job && job <= self.ends.len() as u64 {
            let place = job as usize - 1;
            if self.ends[place].is_none() {
                self.ends[place] = Some(at);
            }
        }
    }
}

impl Listener for Ends {
    ghost heard = { λ a n b. Hears a n b };

    ghost balked = { λ _ _ _. ⊥ };

    ghost stops = { λ _. 0 };

    fn hear(&mut self, note: &Note) -> Result<(), Stopped> {
        if let Note::Done { at, task, job, .. } = *note {
            if task == self.task {
                self.keep(job, at);
            }
        }
        Ok(())
    }
}
