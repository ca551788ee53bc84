// The kernel.
ghost use Rattle.std.specs.Prelude.{◌≡◌, ◌≤◌, ◌<◌, ℕ, OnOk, OnErr, IfOk, IsErrOf};
ghost use Rattle.dvs_base.specs.declared.note.Note.TheVariants.{End};
ghost use Rattle.sched_model.specs.Totals.{totals_of};
ghost use Rattle.sched_model.specs.States.{opening};
ghost use Rattle.event_kernel.specs.Drives.{Drives};
ghost use Rattle.event_kernel.specs.SpanNotes.{HandsOut, notes_before_end_of, HasBooked};
ghost use Rattle.event_kernel.specs.declared.kernel.KernelFault.TheVariants as fault;
ghost use Rattle.sched_model.specs.Jobs.{released_jobs};
ghost use Rattle.dvs_base.specs.declared.limits.TheConstants.{MOST_JOBS, MOST_TICKS};
ghost use Rattle.note_laws.specs.LineCounts.{AreFew};
ghost use Rattle.event_kernel.specs.Runs.{IsListOf, run_for, notes_of_run};
ghost use Rattle.event_kernel.specs.MetRun.{IsMetRun};
ghost use Rattle.dvs_base.specs.Outside.{Rose};

use crate::ending::ending;
use crate::jobs::count_jobs;
use crate::progress::{Progress, Setting};
use crate::span::Walk;
use crate::{Listener, Stopped};
use demand_list::Demands;
use dvs_base::{MOST_JOBS, NoMemory, Totals};
use energy::Account;
use governor::Governor;
use sched_model::Admitted;
use std::alloc::Global;
use std::marker::Model;

/// Why no kernel is made: the run has `count` jobs, more than `MOST_JOBS`; or memory ran out.
#[derive(Clone, Copy, Debug, PartialEq, Eq)]
pub enum KernelFault {
    TooManyJobs { count: u64 },
    NoMemory,
}

impl From<NoMemory> for KernelFault {
    ghost from_gives = { λ _ e. e ≡ fault.NoMemory };

    fn from(_e: NoMemory) -> KernelFault {
        KernelFault::NoMemory
    }
}

/// A kernel at the opening state of its plan.
#[derive(Drop)]
pub struct Kernel<'a, G: Governor> {
    pub(crate) set: Setting<'a>,
    pub(crate) progress: Progress<G>,
    account: Account,
}

impl<'a, G: Governor> Model for Kernel<'a, G> {
    ghost use Rattle.event_kernel.specs.Runs.{Run};
    ghost use Rattle.event_kernel.specs.Start.{run_of, IsAtStart};

    ghost Value = { Run };

    ghost view = { λ k. run_of k.set };

    ghost invariant = { λ k. IsAtStart G.stands G.the_kind G.demand k.set k.progress k.account };
}

// Hands the listener the `End` of a run of `ticks` ticks; the totals of the account.
fn finish<L: Listener>(ticks: u64, account: &Account, to: &mut L) -> Result<Totals, Stopped>
    ensures totals { IfOk result (λ t. t ≡ account.now.totals) }
    ensures heard { OnOk result (L.heard to.old (End ticks account.now.totals.run account.now.totals.idle) to.new) }
    ensures balked { OnErr result (L.balked to.old (End ticks account.now.totals.run account.now.totals.idle) to.new) }
    ensures later { L.stops to.old ≤ L.stops to.new }
    ensures rose { OnErr result (Rose (L.stops to.old) (L.stops to.new)) }
{
    let (totals, end) = ending(ticks, account);
    to.hear(&end)?;
    Ok(totals)
}

impl<'a, G: Governor> Kernel<'a, G> {
    /// A kernel for `ticks` ticks, 1 to 2^40, of a plan and its demands. All its memory is taken here.
    /// `TooManyJobs` comes exactly if more than `MOST_JOBS` jobs are released before tick `ticks`, with their
    /// number; `NoMemory` comes only if memory runs out.
    pub fn new(
        alloc: Global,
        plan: &'a Admitted,
        demands: &'a Demands,
        governor: G,
        ticks: u64,
    ) -> Result<Kernel<'a, G>, KernelFault>
        requires list { IsListOf plan.now demands.now }
        requires stands { G.stands governor plan.now (opening plan.now) }
        requires some_ticks { 1 ≤ ticks }
        requires low_ticks { ticks ≤ MOST_TICKS }
        ensures kernel { IfOk result (λ k. k ≡ run_for plan.now demands.now ticks) }
        ensures few { OnOk result (released_jobs plan.now ticks ≤ MOST_JOBS) }
        ensures many { (n : ℕ) → IsErrOf result (KernelFault.TooManyJobs n)
            → (n ≡ released_jobs plan.now ticks) × (MOST_JOBS < n) }
        ensures memory { IsErrOf result KernelFault.NoMemory → released_jobs plan.now ticks ≤ MOST_JOBS }
    {
        let count = count_jobs(plan, ticks);
        if count > MOST_JOBS {
            return Err(KernelFault::TooManyJobs { count });
        }
        let _admitted = plan.scheduler();
        let _within = demands.worsts();
        let set = Setting {
            plan,
            demands,
            ticks,
        };
        let progress = Progress::new(alloc, &set, governor)?;
        let account = Account::new(alloc, plan.count(), plan.machine())?;
        Ok(Kernel {
            set,
            progress,
            account,
        })
    }

    /// Hands the listener all notes of the governor's schedule, in order; the sums and counts over them. `Stopped`
    /// comes only if the listener stopped, after a proper prefix of them. Every job that is due within the run has
    /// its demand by its deadline.
    pub fn drive<L: Listener>(self, to: &mut L) -> Result<Totals, Stopped>
        ensures { Drives L.heard L.balked L.stops G.the_kind G.demand self.entry to.old to.new result }
    {
        self.drive_by(Walk::Events, to)
    }

    /// Hands the listener the notes that `drive` hands it, with the same results, but goes tick by tick, not by events.
    pub fn tick_drive<L: Listener>(self, to: &mut L) -> Result<Totals, Stopped>
        ensures { Drives L.heard L.balked L.stops G.the_kind G.demand self.entry to.old to.new result }
    {
        self.drive_by(Walk::Ticks, to)
    }

    // Runs the spans by this walk and hands the listener all notes, in order; the sums and counts over them.
    fn drive_by<L: Listener>(self, walk: Walk, to: &mut L) -> Result<Totals, Stopped>
        ensures { Drives L.heard L.balked L.stops G.the_kind G.demand self.entry to.old to.new result }
    {
        let ticks = self.set.ticks;
        let account = self.spans(walk, to)?;
        finish(ticks, &account, to)
    }

    // Runs the spans by this walk and hands the listener every note before the `End`; the account of those notes.
    pub(crate) fn spans<L: Listener>(self, walk: Walk, to: &mut L) -> Result<Account, Stopped>
        ensures booked { IfOk result (λ a. HasBooked self.entry.plan a (notes_before_end_of G.demand self.entry)) }
        ensures account_totals { IfOk result (λ a. a.totals ≡ totals_of (notes_of_run G.demand self.entry)) }
        ensures few { IfOk result (λ a. AreFew a.totals) }
        ensures met { IsMetRun G.the_kind G.demand self.entry }
        ensures told { HandsOut L.heard L.balked L.stops to.old to.new
            (notes_before_end_of G.demand self.entry) result }
    {
        let Kernel {
            set,
            mut progress,
            mut account,
        } = self;
        while progress.now() < set.ticks {
            let point = progress.span(walk, &set);
            progress.trace.notes.tell(point, &mut account, to)?;
        }
        Ok(account)
    }
}
