// The lines of a text, one after another.
ghost use Rattle.std.specs.Prelude.{◌≡◌, ◌≤◌, ◌<◌, ◌∷◌, length, IfOk};
ghost use Rattle.dvs_base.specs.Checks.{IsUnlessMemory};
ghost use Rattle.dvs_base.specs.declared.limits.TheConstants.{MOST_LINES};
ghost use Rattle.trace_reader.specs.declared.trace.TraceFault.TheVariants as fault;
ghost use Rattle.trace_reader.specs.Fields.{parts};
ghost use Rattle.trace_reader.specs.Heads.{line_at, at_line};

use crate::parts::cut;
use crate::{TraceFault, TraceKind};
use dvs_base::{LONGEST_LINE, MOST_LINES};

// The refusal of the line of this number.
pub(crate) fn refused(line: u64, kind: TraceKind) -> TraceFault
    ensures { result ≡ fault.Refused line kind }
{
    TraceFault::Refused { line, kind }
}

// The line of this number without its line feed, and the bytes after it.
pub(crate) fn line_at(number: u64, bytes: &[u8]) -> Result<(&[u8], &[u8]), TraceFault>
    ensures line { IsUnlessMemory TraceFault.NoMemory (λ p. (p.0.now, parts 10 p.1.now)) result
        (line_at number (parts 10 bytes.now)) }
    ensures rest { IfOk result (λ p. parts 10 bytes.now ≡ p.0.now ∷ parts 10 p.1.now) }
    ensures less { IfOk result (λ p. length p.1.now < length bytes.now) }
    ensures few { IfOk result (λ p. number ≤ MOST_LINES) }
{
    let (line, rest) = cut(bytes, b'\n').ok_or(refused(number, TraceKind::NoEnd))?;
    if number > MOST_LINES {
        return Err(refused(number, TraceKind::TooMany));
    }
    if line.len() > LONGEST_LINE {
        return Err(refused(number, TraceKind::TooLong));
    }
    Ok((line, rest))
}

// The value that was read, or the refusal of this line.
pub(crate) fn at_line<T>(line: u64, read: Result<T, TraceKind>) -> Result<T, TraceFault>
    ensures { result ≡ at_line line read }
{
    read.map_err(|kind| refused(line, kind))
}
