// The end of an answer.
ghost use Rattle.std.specs.Prelude.{◌≡◌, ◌≢◌, ◌≤◌, ◌*◌, length};
ghost use Rattle.dvs_base.specs.declared.limits.TheConstants.{LINE_BYTES, LONGEST_TRACE};
ghost use Rattle.rtdvs_c.specs.Replies.{call_files, filled, lengths_of, reply_of};
ghost use Rattle.rtdvs_c.specs.Texts.{last};
ghost use Rattle.rtdvs_c.specs.WordList.{asked_by};
ghost use Rattle.rtdvs_c.specs.Proves.{Proves};

use crate::files::CallFiles;
use crate::reply::reply_to;
use crate::{Lengths, NO_MEMORY, give};
use std::alloc::{AllocError, Global};

/// Does what the words ask for, as `rtdvs_call` does, and gives the end of the answer: `out` gets its last bytes, or the
/// whole answer if there is room. Of a longer answer it keeps in memory about twice the room, so a caller who needs the
/// totals of a run doesn't keep its trace.
///
/// The result is the program's exit status, also if the answer is longer than `out`; `lengths` gets the length of the
/// whole answer and of the notes. Status 9 says that memory ran out, and 10 that a word is not UTF-8.
#[unsafe(no_mangle)]
pub extern "C" fn rtdvs_end(
    alloc: Global,
    words: &[u8],
    tasks: &[u8],
    machine: &[u8],
    list: &[u8],
    out: &mut [u8],
    notes: &mut [u8],
    lengths: &mut Lengths,
) -> u8
    // the exit status, the end of the answer and the notes are those of the reply, unless memory ran out
    ensures status { result ≢ NO_MEMORY → result
        ≡ (reply_of words.now (call_files tasks.now machine.now list.now)).code }
    ensures out { result ≢ NO_MEMORY → out.new ≡ filled out.old
        (last (length out.old) (reply_of words.now (call_files tasks.now machine.now list.now)).text) }
    ensures notes { result ≢ NO_MEMORY → notes.new ≡ filled notes.old
        (reply_of words.now (call_files tasks.now machine.now list.now)).notes }
    ensures lengths { result ≢ NO_MEMORY → lengths.new ≡ lengths_of
        (reply_of words.now (call_files tasks.now machine.now list.now)) }

    // the answer is no longer than the longest trace, and the notes have at most three lines
    ensures fits { lengths.new.out ≤ LONGEST_TRACE }
    ensures short { lengths.new.notes ≤ 3 * LINE_BYTES }

    // if memory ran out there is no answer, and no note
    ensures no_out { result ≡ NO_MEMORY → out.new ≡ out.old }
    ensures no_notes { result ≡ NO_MEMORY → notes.new ≡ notes.old }
    ensures no_lengths { result ≡ NO_MEMORY → lengths.new ≡ record { out = 0; notes = 0 } }

    // what the answer proves of these files
    ensures proves { result ≢ NO_MEMORY → Proves (call_files tasks.now machine.now list.now) (asked_by words.now) }
{
    let files = CallFiles {
        tasks,
        machine,
        list,
    };
    match reply_to(alloc, words, files, out.len()) {
        Ok(reply) => {
            *lengths = give(&reply, out, notes);
            reply.code
        }
        Err(AllocError) => {
            *lengths = Lengths { out: 0, notes: 0 };
            NO_MEMORY
        }
    }
}
