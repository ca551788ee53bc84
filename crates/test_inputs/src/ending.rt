// The expected end of a call, and what it leaves.
use std::alloc::{AllocError, Global};
use std::test::Fail;

/// The expected end of a call: its exit status, the texts on both sinks, and the numbers of failed loads, failed puts
/// of the answer and failed puts of the notes.
#[derive(Clone, Copy)]
pub struct Ending<'a> {
    pub code: u8,
    pub out: &'a str,
    pub notes: &'a str,
    pub faults: [u64; 3],
}

/// What a call left: its exit status, the bytes of both sinks, and the numbers of failed loads, failed puts of the
/// answer and failed puts of the notes.
#[derive(Drop)]
pub struct Outcome {
    pub code: u8,
    pub out: Vec<u8>,
    pub notes: Vec<u8>,
    pub faults: [u64; 3],
}

/// The bytes as text, or `?` if they aren't UTF-8. No clause says so.
pub fn shown(bytes: &[u8]) -> &str {
    std::str::from_utf8(bytes).unwrap_or("?")
}

// Compares the text with `wanted`. The error names the text and its first line that differs.
fn expect_text(name: &str, text: &str, wanted: &str) -> Result<(), Fail> {
    if text == wanted {
        return Ok(());
    }
    let mut lines = wanted.split('\n');
    for (before, line) in text.split('\n').enumerate() {
        let other = lines.next().unwrap_or("no line");
        if line != other {
            return Err(Fail::new(format_args!(
                "{name}: after {before} lines {line}, wanted {other}"
            )));
        }
    }
    Err(Fail::new(format_args!("{name}: lines are missing")))
}

impl Outcome {
    /// Compares the outcome with `ending`. The error names the words of the call and what differs.
    pub fn is(&self, words: &str, ending: Ending<'_>) -> Result<(), Fail> {
        expect_text(words, shown(&self.notes), ending.notes)?;
        expect_text(words, shown(&self.out), ending.out)?;
        if self.code != ending.code {
            let code = self.code;
            return Err(Fail::new(format_args!("{words}: status {code}")));
        }
        if self.faults != ending.faults {
            let [loads, puts, notes] = self.faults;
            return Err(Fail::new(format_args!(
                "{words}: failed {loads} loads, {puts} puts, {notes} notes"
            )));
        }
        Ok(())
    }
}

/// The part of `text` that a sink has if the put of `line`, which begins after `before` bytes, takes `taken` bytes
/// and fails. No clause says so.
pub fn first_part<'a>(text: &'a str, before: usize, line: &str, taken: u64) -> &'a str {
    let end = before.saturating_add(line.len().min(taken as usize));
    text.get(..end).unwrap_or("no part")
}

/// The text with `other` in place of the first `piece`, if it has one. No clause says so.
pub fn replaced(alloc: Global, text: &str, piece: &str, other: &str) -> Result<String, AllocError> {
    let mut whole = String::new(alloc);
    match text.split_once(piece) {
        Some((before, behind)) => {
            whole.push_str(before)?;
            whole.push_str(other)?;
            whole.push_str(behind)?;
        }
        None => whole.push_str(text)?,
    }
    Ok(whole)
}
