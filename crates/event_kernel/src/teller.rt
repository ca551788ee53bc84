// The trace of a run, written to a sink line by line and told to probes.
ghost use Rattle.std.specs.Prelude.{◌≡◌, ◌≤◌, [], ◌∷◌, ◌++◌, length, IfOk, IsOk, OnErr};
ghost use Rattle.dvs_base.specs.Outside.{Rose};
ghost use Rattle.dvs_base.specs.declared.note.Note.TheVariants.{End};
ghost use Rattle.note_laws.specs.LineCounts.{AreFew};
ghost use Rattle.trace_writer.specs.RunText.{most_lines};
ghost use Rattle.sched_model.specs.Demand.{IsAlwaysMet};
ghost use Rattle.sched_model.specs.Plan.{count, names};
ghost use Rattle.sched_model.specs.Totals.{totals_of};
ghost use Rattle.trace_text.specs.TraceText.{line_of_note, text_of_lines};
ghost use Rattle.probes.specs.Outputs.{outputs_of};
ghost use Rattle.trace_writer.specs.Lines.{WritesLines};
ghost use Rattle.trace_writer.specs.UnnotedLines.{sum_lines};
ghost use Rattle.event_kernel.specs.Runs.{notes_of_run, lines_of_run, MeetsDeadlines, MeetsDemands};
ghost use Rattle.event_kernel.specs.Tellers.{shown_by, HearsNote, BalksAt};

use crate::ending::ending;
use crate::span::Walk;
use crate::{Kernel, Listener, Stopped};
use dvs_base::{Failed, Line, Name, Note, Sink, Totals, Version};
use energy::Account;
use governor::Governor;
use probes::Probe;
use trace_writer::{Head, put_head, put_sums, tell_note};

/// The sink failed before the whole trace was written.
#[derive(Clone, Copy, Debug, PartialEq, Eq)]
pub struct WriteFault;

impl From<Failed> for WriteFault {
    fn from(_e: Failed) -> WriteFault {
        WriteFault
    }
}

impl From<Stopped> for WriteFault {
    fn from(_e: Stopped) -> WriteFault {
        WriteFault
    }
}

// A listener that puts each note's line into a sink, and then tells the probes the note. `line` is used for each.
#[derive(Drop)]
struct Teller<'a, 'b, 'c, W: Sink, P: Probe> {
    out: &'a mut W,
    probes: &'b mut Vec<P>,
    names: &'c [Name],
    line: Line,
}

impl<'a, 'b, 'c, W: Sink, P: Probe> Listener for Teller<'a, 'b, 'c, W, P> {
    ghost heard = { HearsNote W.shows P.seen };

    ghost balked = { BalksAt W.shows P.seen };

    ghost stops = { λ a. (W.shows a.out.now).faults };

    fn hear(&mut self, note: &Note) -> Result<(), Stopped> {
        Ok(tell_note(note, self.names, &mut self.line, self.out, self.probes)?)
    }
}

// Puts the lines of the energies and the `End` line, and tells the probes the `End`; the totals.
fn tell_tail<W: Sink, P: Probe>(
    head: Head<'_>,
    account: &Account,
    line: &mut Line,
    out: &mut W,
    probes: &mut Vec<P>,
) -> Result<Totals, WriteFault>
    requires { length account.now.by_task ≡ count head.plan.now }
    ensures totals { IfOk result (λ t. t ≡ account.now.totals) }
    ensures writes_tail { WritesLines (outputs_of W.shows P.seen out.old probes.old)
        (outputs_of W.shows P.seen out.new probes.new)
        (sum_lines head.entry.version head.entry.plan.now account.now.by_task ++ line_of_note (names head.entry.plan.now)
        (End head.entry.ticks account.now.totals.run account.now.totals.idle) ∷ []) result }
{
    put_sums(head, account.by_task(), out)?;
    let (totals, end) = ending(head.ticks, account);
    tell_note(&end, head.plan.names(), line, out, probes)?;
    Ok(totals)
}

// Writes the lines of a run through a teller; the totals.
fn lines_into<G: Governor, W: Sink, P: Probe>(
    kernel: Kernel<'_, G>,
    head: Head<'_>,
    teller: &mut Teller<'_, '_, '_, W, P>,
) -> Result<Totals, WriteFault>
    requires plan { head.plan.now ≡ kernel.plan }
    requires ticks { head.ticks ≡ kernel.ticks }
    requires names { teller.old.names.now ≡ names head.plan.now }
    ensures totals { IfOk result (λ t. t ≡ totals_of (notes_of_run G.demand kernel.entry)) }
    ensures few { IfOk result AreFew }
    ensures writes { WritesLines (shown_by W.shows P.seen teller.old) (shown_by W.shows P.seen teller.new)
        (lines_of_run head.entry.version head.entry.governor G.demand kernel.entry) result }
    ensures same { (teller.new.out.ghost_name ≡ teller.old.out.ghost_name)
        × (teller.new.probes.ghost_name ≡ teller.old.probes.ghost_name) }
{
    let _admitted = head.plan.scheduler();
    put_head(head, teller.out)?;
    let account = kernel.spans(Walk::Events, teller)?;
    tell_tail(head, &account, &mut teller.line, teller.out, teller.probes)
}

impl<'a, G: Governor> Kernel<'a, G> {
    /// Writes the whole trace in this version to the sink, one `put` a line, and tells the probes each note after
    /// its line was put; the totals of the notes. `WriteFault` comes only if the sink failed at some line: the lines
    /// before it were put and their notes told, the line itself was put in part, and nothing after it. It never comes
    /// if the sink was sure of as many bytes as the trace has.
    pub fn run<W: Sink, P: Probe>(
        self,
        out: &mut W,
        probes: &mut Vec<P>,
        version: Version,
    ) -> Result<Totals, WriteFault>
        ensures wrote { WritesLines (outputs_of W.shows P.seen out.old probes.old)
            (outputs_of W.shows P.seen out.new probes.new) (lines_of_run version G.the_kind G.demand self.entry) result }
        ensures sure { length (text_of_lines (lines_of_run version G.the_kind G.demand self.entry))
            ≤ (W.shows out.old).sure → IsOk result }
        ensures totals { IfOk result (λ t. t ≡ totals_of (notes_of_run G.demand self.entry)) }
        // At most one more decision than releases and completions together, so at most one more than two a job.
        ensures few { IfOk result AreFew }
        // At most seven lines for each job released in the ticks, and five more; in version 2 also two for each task.
        ensures lines { length (lines_of_run version G.the_kind G.demand self.entry)
            ≤ most_lines version self.entry.plan self.entry.ticks }
        ensures deadlines { MeetsDeadlines G.demand self.entry }
        ensures demands { IsAlwaysMet G.the_kind → MeetsDemands G.demand self.entry }
        ensures never_falls { (W.shows out.old).faults ≤ (W.shows out.new).faults }
        ensures rose { OnErr result (Rose (W.shows out.old).faults (W.shows out.new).faults) }
    {
        let head = Head {
            version,
            governor: self.progress.governor.kind(),
            plan: self.set.plan,
            ticks: self.set.ticks,
        };
        let mut teller = Teller {
            out,
            probes,
            names: head.plan.names(),
            line: Line::new(),
        };
        lines_into(self, head, &mut teller)
    }
}
