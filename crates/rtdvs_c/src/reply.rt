// What a call replies.
ghost use Rattle.std.specs.Prelude.{◌≡◌, ◌≢◌, map, string_bytes, IfOk, IsOk, Some};
ghost use Rattle.statuses.specs.Status.{code_of};
ghost use Rattle.probes.specs.Program.{program_probes};
ghost use Rattle.words.specs.Reading.{command_of};
ghost use Rattle.rtdvs_c.specs.Replies.{FitsLimits, Shows, held_by};
ghost use Rattle.rtdvs_c.specs.WordList.{asked_by};
ghost use Rattle.rtdvs_c.specs.Proves.{IsReply};

use crate::NO_WORDS;
use crate::files::{CallFiles, CallShelf};
use crate::text::EndText;
use crate::word_list::{WordsFault, read_words};
use dvs_base::{LINE_BYTES, LONGEST_TRACE, Loaded};
use probes::{Probe, ProgramProbes};
use rtdvs_top::{Status, rtdvs};
use std::alloc::{AllocError, Global};

/// What a call replies: its exit status, the end of the answer's text and the length of the whole, and the lines of the
/// notes.
#[derive(Drop)]
pub(crate) struct Reply {
    pub(crate) code: u8,
    pub(crate) end: Vec<u8>,
    pub(crate) len: usize,
    pub(crate) notes: Vec<u8>,
}

// The most bytes of the notes of a call: three lines.
const LONGEST_NOTES: usize = 3 * LINE_BYTES;

// The reply of a call that ended with this status, and with these texts, of which the last `most` bytes of the answer are
// asked for. It fails if memory ran out, which is the one reason why a put of these texts fails; and it would fail if a
// text were longer than any is by the limits.
fn ended(status: Status, out: EndText, notes: EndText, most: usize) -> Result<Reply, AllocError>
    ensures reply { IfOk result (λ reply. FitsLimits reply × Shows most reply
        (record { code = code_of status; text = out.bytes; notes = notes.bytes })) }
    ensures written { IsOk result → status ≢ Status.Write }
    ensures memory { IsOk result → status ≢ Status.NoMemory }
    ensures noted { IsOk result → notes.faults ≡ 0 }
{
    if notes.faults() > 0 || out.len() as u64 > LONGEST_TRACE || notes.len() > LONGEST_NOTES {
        return Err(AllocError);
    }
    let len = out.len();
    match status {
        Status::Write | Status::NoMemory => Err(AllocError),
        status => Ok(Reply {
            code: status.code(),
            end: out.into_last(most)?,
            len,
            notes: notes.into_last(usize::MAX)?,
        }),
    }
}

// The reply to words that are UTF-8, of a call that has the program's probes.
fn reply_with(
    alloc: Global,
    words: &[String],
    files: CallFiles<'_>,
    most: usize,
    probes: &mut Vec<Box<dyn Probe>>,
) -> Result<Reply, AllocError>
    requires { map (λ b. seen b) probes.old.items ≡ program_probes }
    ensures { IfOk result (λ reply. IsReply (held_by files.entry) (Some (command_of (map string_bytes words.now)))
        most reply) }
{
    let mut shelf = CallShelf {
        files,
        loaded: Loaded::new(),
    };
    let mut out = EndText::new(alloc, most);
    let mut notes = EndText::new(alloc, usize::MAX);
    let status = rtdvs(alloc, words, &mut shelf, &mut out, &mut notes, probes);
    ended(status, out, notes, most)
}

// The reply to words that are UTF-8.
fn reply_to_texts(
    alloc: Global,
    words: &[String],
    files: CallFiles<'_>,
    most: usize,
) -> Result<Reply, AllocError>
    ensures { IfOk result (λ reply. IsReply (held_by files.entry) (Some (command_of (map string_bytes words.now)))
        most reply) }
{
    let ProgramProbes {
        speeds,
        units,
        dones,
    } = ProgramProbes::new();
    let mut probes: Vec<Box<dyn Probe>> = Vec::new(alloc);
    probes.push(Box::new(alloc, speeds)?)?;
    probes.push(Box::new(alloc, units)?)?;
    probes.push(Box::new(alloc, dones)?)?;
    reply_with(alloc, words, files, most, &mut probes)
}

/// The reply to the words that the bytes are, with the last `most` bytes of the answer. It fails if memory runs out, or
/// if a text is above its bound.
pub(crate) fn reply_to(
    alloc: Global,
    words: &[u8],
    files: CallFiles<'_>,
    most: usize,
) -> Result<Reply, AllocError>
    ensures { IfOk result (λ reply. IsReply (held_by files.entry) (asked_by words.now) most reply) }
{
    match read_words(alloc, words) {
        Ok(words) => reply_to_texts(alloc, &words, files, most),
        Err(WordsFault::NotUtf8) => Ok(Reply {
            code: NO_WORDS,
            end: Vec::new(alloc),
            len: 0,
            notes: Vec::new(alloc),
        }),
        Err(WordsFault::NoMemory) => Err(AllocError),
    }
}
