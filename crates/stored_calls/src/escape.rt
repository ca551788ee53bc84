// Bytes written as text: `\\` is a backslash, `\xNN` the byte of two hexadecimal digits.
use crate::Trouble;
use std::alloc::Global;

// The value of a hexadecimal digit in lower case.
fn digit_of(byte: u8) -> Option<u8> {
    match byte {
        b'0'..=b'9' => Some(byte - b'0'),
        b'a'..=b'f' => Some(byte - b'a' + 10),
        _ => None,
    }
}

// What has been read of an escape.
#[derive(Clone, Copy)]
enum State {
    Unescaped,
    Backslash,
    Hex,
    Digit(u8),
}

/// The bytes that a text means. `Script` if an escape has no form.
pub(crate) fn unescaped(alloc: Global, text: &str) -> Result<Vec<u8>, Trouble> {
    let mut bytes = Vec::new(alloc);
    let mut state = State::Unescaped;
    for byte in text.as_bytes() {
        let (next, found) = match (state, *byte) {
            (State::Unescaped, b'\\') => (State::Backslash, None),
            (State::Unescaped, other) => (State::Unescaped, Some(other)),
            (State::Backslash, b'\\') => (State::Unescaped, Some(b'\\')),
            (State::Backslash, b'x') => (State::Hex, None),
            (State::Backslash, _) => return Err(Trouble::Script),
            (State::Hex, other) => {
                let high = digit_of(other).ok_or(Trouble::Script)?;
                (State::Digit(high), None)
            }
            (State::Digit(high), other) => {
                let low = digit_of(other).ok_or(Trouble::Script)?;
                (State::Unescaped, Some((high & 15) * 16 + (low & 15)))
            }
        };
        if let Some(value) = found {
            bytes.push(value)?;
        }
        state = next;
    }
    match state {
        State::Unescaped => Ok(bytes),
        _ => Err(Trouble::Script),
    }
}
