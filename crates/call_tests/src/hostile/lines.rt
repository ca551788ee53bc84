// The lines of a text, each of which is one put.
use dvs_base::FailAt;
use std::alloc::{AllocError, Global};
use test_inputs::first_part;

// A line of a text: the number of its put, and how many bytes of the text are before it.
#[derive(Clone, Copy)]
pub(crate) struct Line<'a> {
    text: &'a str,
    pub(crate) line: &'a str,
    number: u64,
    before: usize,
}

impl<'a> Line<'a> {
    // The lines before it and its first `taken` bytes.
    pub(crate) fn first(self, taken: u64) -> &'a str {
        first_part(self.text, self.before, self.line, taken)
    }

    // The fault of its put, which takes `taken` bytes and fails.
    pub(crate) fn failing(self, taken: u64) -> FailAt {
        fail_at(self.number, taken)
    }
}

// The fault of the put with the number `call`, which takes `taken` bytes and fails.
pub(crate) fn fail_at(call: u64, taken: u64) -> FailAt {
    FailAt { call, taken }
}

// The lines of a text, each with its line feed.
pub(crate) fn lines_of<'a>(alloc: Global, text: &'a str) -> Result<Vec<Line<'a>>, AllocError> {
    let mut lines = Vec::new(alloc);
    let mut before = 0;
    let mut number = 1;
    for line in text.split_inclusive('\n') {
        lines.push(Line {
            text,
            line,
            number,
            before,
        })?;
        before = before.saturating_add(line.len());
        number = number.saturating_add(1);
    }
    Ok(lines)
}

// The fault of the put after the last line of a text.
pub(crate) fn after(lines: &[Line<'_>]) -> FailAt {
    fail_at((lines.len() as u64).saturating_add(1), 0)
}
