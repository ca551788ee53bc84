// Lines that are put into a sink.
ghost use Rattle.std.specs.Prelude.{◌++◌, ◌<◌, length};
ghost use Rattle.dvs_base.specs.WritesText.{WritesText};

use crate::{Failed, Line, Sink};

/// Puts a line that isn't empty.
///
/// `Failed` comes only if the sink's count of faults rose, with a first part of the line put.
pub fn put_line<W: Sink>(line: &Line, out: &mut W) -> Result<(), Failed>
    requires { 0 < length line.now }
    ensures { WritesText (W.shows out.old) (W.shows out.new) line.now result }
{
    out.put(line.as_bytes())
}

/// Puts two lines that aren't empty, one after the other.
///
/// `Failed` comes only if the sink's count of faults rose, with a first part of the two lines put.
pub fn put_two<W: Sink>(first: &Line, second: &Line, out: &mut W) -> Result<(), Failed>
    requires first { 0 < length first.now }
    requires second { 0 < length second.now }
    ensures { WritesText (W.shows out.old) (W.shows out.new) (first.now ++ second.now) result }
{
    put_line(first, out)?;
    put_line(second, out)
}
