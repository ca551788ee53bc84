//! The top call for C, and for each language that calls C: the program's answers over files in memory.
//!
//! Callers may rely on `rtdvs_call` to be a function of its words and its files: unless memory runs out, the exit
//! status, the answer and the lines of the notes are those of `specs/Replies.antt`, and what the answer proves is in
//! `specs/Proves.antt`.
//!
//! Why there is no premise about the system: of the system the call only asks for memory. Its files are the caller's
//! bytes, so no load fails. Its texts grow in memory, so a put fails only if memory runs out; the exit status is then
//! 9, and nothing else is said. So what the top call promises unless a load, a put or memory failed, this call promises
//! of each answer. A text above its bound, the longest trace or three lines of notes, would end the call with 9 too; no
//! clause says that there is none. Nothing is opened, read, written or printed.
#![tactic(auto)]

ghost use Rattle.std.specs.Prelude.{◌≡◌, ◌≢◌, ◌≤◌, ◌*◌, length, nat_le, if◌then◌else◌};
ghost use Rattle.dvs_base.specs.declared.limits.TheConstants.{LINE_BYTES, LONGEST_TRACE};
ghost use Rattle.rtdvs_c.specs.Replies.{call_files, code_for, filled, lengths_of, reply_of};
ghost use Rattle.rtdvs_c.specs.WordList.{ReadsEnded, asked_by};
ghost use Rattle.rtdvs_c.specs.Proves.{Proves};

mod admit;
mod causes;
mod constrain;
mod end;
mod files;
mod least;
mod number_sets;
#[cfg(test)]
mod number_tests;
mod number_types;
mod refusals;
mod reply;
mod response;
#[cfg(test)]
mod tests;
mod text;
mod word_list;

use crate::files::CallFiles;
use crate::reply::{Reply, reply_to};
use std::alloc::{AllocError, Global};

/// The exit status if the answer is longer than the room for it.
const NO_ROOM: u8 = 8;

/// The exit status if memory ran out, or if a text were above its bound.
const NO_MEMORY: u8 = 9;

/// The exit status if a word is not UTF-8.
const NO_WORDS: u8 = 10;

/// How many bytes the answer and the notes have, also if there is only room for a first part.
#[derive(Clone, Copy, Debug, PartialEq, Eq)]
#[repr(C)]
pub struct Lengths {
    pub out: usize,
    pub notes: usize,
}

// Copies as much of the text as there is room for.
fn fill(room: &mut [u8], text: &[u8])
    ensures { room.new ≡ filled room.old text.now }
{
    let len = room.len().min(text.len());
    room[..len].copy_from_slice(&text[..len]);
}

// Gives as much of the texts of a reply as there is room for, and returns the lengths of the whole answer and notes.
pub(crate) fn give(reply: &Reply, out: &mut [u8], notes: &mut [u8]) -> Lengths
    ensures out { out.new ≡ filled out.old reply.now.end.items }
    ensures notes { notes.new ≡ filled notes.old reply.now.notes.items }
    ensures lengths { result ≡ record { out = reply.now.len; notes = length reply.now.notes.items } }
{
    fill(out, &reply.end);
    fill(notes, &reply.notes);
    Lengths {
        out: reply.len,
        notes: reply.notes.len(),
    }
}

// The exit status, if there is room for this many bytes of the answer.
fn code_of(reply: &Reply, room: usize) -> u8
    ensures { result ≡ (if nat_le reply.now.len room then reply.now.code else NO_ROOM) }
{
    if reply.len <= room {
        reply.code
    } else {
        NO_ROOM
    }
}

/// Does what the words ask for, as the program `rtdvs` does, over three files in memory. `tasks` and `machine` are the
/// files of these names; `list` is the file `demands`, `trace`, `deadlines` and `requests`, after the option that the
/// command takes.
///
/// A zero byte ends each word; the end of the bytes may end the last one. The result is the program's exit status. `out`
/// gets the answer and `notes` the lines of the status, or of the probes, each as far as there is room; `lengths` gets
/// the length of each. Status 8 says that the answer is longer than `out`, 9 that memory ran out, and 10 that a word is
/// not UTF-8.
#[tactic(auto, using(crate::proofs::EndedWords::reads_ended))]
#[unsafe(no_mangle)]
pub extern "C" fn rtdvs_call(
    alloc: Global,
    words: &[u8],
    tasks: &[u8],
    machine: &[u8],
    list: &[u8],
    out: &mut [u8],
    notes: &mut [u8],
    lengths: &mut Lengths,
) -> u8
    // the exit status, the answer and the notes are those of the reply, unless memory ran out
    ensures status { result ≢ NO_MEMORY → result ≡ code_for (length out.old)
        (reply_of words.now (call_files tasks.now machine.now list.now)) }
    ensures out { result ≢ NO_MEMORY → out.new ≡ filled out.old
        (reply_of words.now (call_files tasks.now machine.now list.now)).text }
    ensures notes { result ≢ NO_MEMORY → notes.new ≡ filled notes.old
        (reply_of words.now (call_files tasks.now machine.now list.now)).notes }
    ensures lengths { result ≢ NO_MEMORY → lengths.new ≡ lengths_of
        (reply_of words.now (call_files tasks.now machine.now list.now)) }

    // the answer is no longer than the longest trace, and the notes have at most three lines
    ensures fits { lengths.new.out ≤ LONGEST_TRACE }
    ensures short { lengths.new.notes ≤ 3 * LINE_BYTES }

    // if memory ran out there is no answer, and no note
    ensures no_out { result ≡ NO_MEMORY → out.new ≡ out.old }
    ensures no_notes { result ≡ NO_MEMORY → notes.new ≡ notes.old }
    ensures no_lengths { result ≡ NO_MEMORY → lengths.new ≡ record { out = 0; notes = 0 } }

    // words with a zero byte after each are read as exactly these words
    ensures ended { ReadsEnded words.now }

    // what the answer proves of these files
    ensures proves { result ≢ NO_MEMORY → Proves (call_files tasks.now machine.now list.now) (asked_by words.now) }
{
    let files = CallFiles {
        tasks,
        machine,
        list,
    };
    match reply_to(alloc, words, files, usize::MAX) {
        Ok(reply) => {
            *lengths = give(&reply, out, notes);
            code_of(&reply, out.len())
        }
        Err(AllocError) => {
            *lengths = Lengths { out: 0, notes: 0 };
            NO_MEMORY
        }
    }
}
