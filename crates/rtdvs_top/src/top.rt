// The top call.
ghost use Rattle.std.specs.Prelude.{◌≡◌, ◌≤◌, ◌↔◌, Some, None, map};
ghost use Rattle.dvs_base.specs.Outside.{Files, Rose};
ghost use Rattle.command_files.specs.GivenFiles.{HaveDistinctNames, MayHold, loads_since};
ghost use Rattle.rtdvs_top.specs.Asked.{command_asked, loads_asked, probes_asked};
ghost use Rattle.rtdvs_top.specs.Promised.{Promised, outside_of};
ghost use Rattle.statuses.specs.Status.{CountsLoads, CountsPuts, IsShown, Leaves, LeavesProbes};
ghost use Rattle.words.specs.declared.command.WordFault.{WordFault};

use crate::Status;
use crate::answer::answer_command;
use dvs_base::{Shelf, Sink};
use probes::Probe;
use statuses::{note_end, note_status};
use std::alloc::Global;
use words::read_words;

/// Does what the words ask for:
///
/// - `run`: writes the trace of a run
/// - `admit`: decides whether a task set is admitted
/// - `replay`, `migrate`: decides whether a trace is that of the run that it describes; writes it in version 2
/// - `workload`: writes the totals of a generated workload's runs
/// - `response`: writes the responses of a task set under RM
/// - `constrain`: writes the lowest speed for deadlines below the periods under EDF
/// - `poll`: writes when a server serves requests
/// - `least`: writes the minimum energy for some units in some ticks, with its certificate
///
/// The answer goes to `out`, and the line of a refusal to `notes`. After a run with `--probes` that is done, the line of
/// each probe that is left goes to `notes`. Two things are tested, not proved: each put has one line, and after the
/// first put to `notes` that fails no more is put there.
/// Files are loaded from `shelf` in the order tasks, machine, and then demands, trace, deadlines or requests, each
/// before it is read; `least` loads only the machine. `NoMemory` may come at any step before the first byte of `out`,
/// and never after it; a fault of `notes` changes no status.
pub fn rtdvs<S: Shelf, W: Sink, E: Sink>(
    alloc: Global,
    words: &[String],
    shelf: &mut S,
    out: &mut W,
    notes: &mut E,
    probes: &mut Vec<Box<dyn Probe>>,
) -> Status
    // Over all files that the shelf may hold, the call keeps each promise of the record `Promised`. These files are its
    // own if they are known; otherwise all that hold what its loads gave in this call.
    ensures promised { (files : Files) → MayHold (S.shows shelf.old) (S.shows shelf.new) files
        → Promised (command_asked words.now)
        (outside_of (S.shows shelf.old) (W.shows out.old) (E.shows notes.old) (map (λ b. seen b) probes.old.items))
        (outside_of (S.shows shelf.new) (W.shows out.new) (E.shows notes.new) (map (λ b. seen b) probes.new.items))
        result (Some files) }
    // There are such files, unless two loads of this call were of one name.
    ensures agree { HaveDistinctNames (loads_since (S.shows shelf.old) (S.shows shelf.new))
        → (files : Files) × MayHold (S.shows shelf.old) (S.shows shelf.new) files }
    // Over any files, the call keeps the promises that don't depend on what is in them.
    ensures any_files { Promised (command_asked words.now)
        (outside_of (S.shows shelf.old) (W.shows out.old) (E.shows notes.old) (map (λ b. seen b) probes.old.items))
        (outside_of (S.shows shelf.new) (W.shows out.new) (E.shows notes.new) (map (λ b. seen b) probes.new.items))
        result None }

    // What a status says by itself: that the words are refused, that a put failed, its cause; and what it leaves.
    ensures words { (why : WordFault) → (result ≡ Status.Words why) ↔ (command_asked words.now ≡ Err why) }
    ensures write { result ≡ Status.Write → Rose (W.shows out.old).faults (W.shows out.new).faults }
    ensures shown { IsShown result }
    ensures leaves { Leaves result out.old out.new }
    ensures kept { LeavesProbes (probes_asked (command_asked words.now)) result probes.old probes.new }

    // How the counts of failed loads and failed puts go with the status, and that loads that are guaranteed don't fail.
    ensures load_count { CountsLoads (S.shows shelf.old).faults (S.shows shelf.new).faults result }
    ensures put_count { CountsPuts (W.shows out.old).faults (W.shows out.new).faults result }
    ensures sure_loads { loads_asked (command_asked words.now) ≤ (S.shows shelf.old).sure
        → (S.shows shelf.new).faults ≡ (S.shows shelf.old).faults }
{
    let command = match read_words(words) {
        Ok(command) => command,
        Err(fault) => {
            let status = Status::Words(fault);
            note_status(&status, None, notes);
            return status;
        }
    };
    let (status, tasks) = answer_command(alloc, &command, shelf, out, probes);
    note_end(
        command.asks_probes(),
        &status,
        tasks.as_ref(),
        probes,
        notes,
    );
    status
}
