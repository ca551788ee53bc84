// The parts of a line of text.
ghost use Rattle.std.specs.Prelude.{◌≡◌, ◌+◌, ◌≤◌, ◌++◌, length, map};
ghost use Rattle.std.specs.Fmt.{decimal};
ghost use Rattle.dvs_base.specs.declared.limits.TheConstants.{LINE_BYTES, NAME_BYTES, NUMBER_BYTES, WIDE_BYTES, POSITION_BYTES, RATIO_BYTES};
ghost use Rattle.dvs_base.specs.Parts.{part_text, most_bytes, most_of, joined, name_text};

use crate::{Line, NUMBER_BYTES, Name, Pos, Short, put_num};
use itoa::write_digits;

/// A part of a line.
#[derive(Clone, Copy)]
pub enum Part<'a> {
    /// These bytes.
    Word(&'a [u8]),
    /// A task's name.
    Named(&'a Name),
    /// A word or a key as it is shown.
    Shown(&'a Short),
    /// A number below 2^64, in decimal digits.
    Number(u64),
    /// A number below 2^128, in decimal digits.
    Wide(u128),
    /// A position as `tick:offset`.
    At(Pos),
    /// A fraction as `num/den`.
    Ratio(u128, u128),
}

/// The name as a part, which is empty if there is none. It takes no memory.
pub fn name_part(name: &Option<Name>) -> Part<'_>
    ensures text { part_text result ≡ name_text name.now }
    ensures most { most_bytes result ≤ NAME_BYTES }
{
    match name {
        Some(name) => Part::Named(name),
        None => Part::Word(b""),
    }
}

/// Appends the bytes, which fit in the line. It takes no memory.
#[inline]
pub fn push_word(line: &mut Line, bytes: &[u8])
    requires { length line.old + length bytes.now ≤ LINE_BYTES }
    ensures text { line.new ≡ line.old ++ bytes.now }
    ensures most { length line.new ≤ length line.old + length bytes.now }
{
    line.push(bytes);
}

/// Appends a name. It takes no memory.
#[inline]
pub fn push_name(line: &mut Line, name: &Name)
    requires { length line.old + NAME_BYTES ≤ LINE_BYTES }
    ensures text { line.new ≡ line.old ++ name.now }
    ensures most { length line.new ≤ length line.old + NAME_BYTES }
{
    line.push_first(name.padded(), name.len());
}

/// Appends a number of at most `NUMBER_BYTES` digits. It takes no memory.
#[inline]
pub fn push_number(line: &mut Line, n: u64)
    requires { length line.old + NUMBER_BYTES ≤ LINE_BYTES }
    ensures text { line.new ≡ line.old ++ decimal n }
    ensures most { length line.new ≤ length line.old + NUMBER_BYTES }
{
    let mut digits = [0; 2 * NUMBER_BYTES];
    let start = write_digits(n, &mut digits, NUMBER_BYTES);
    line.push_first(&digits[start..start + NUMBER_BYTES], NUMBER_BYTES - start);
}

/// Appends a number of at most `WIDE_BYTES` digits. It takes no memory.
#[inline]
pub fn push_wide(line: &mut Line, n: u128)
    requires { length line.old + WIDE_BYTES ≤ LINE_BYTES }
    ensures text { line.new ≡ line.old ++ decimal n }
    ensures most { length line.new ≤ length line.old + WIDE_BYTES }
{
    match u64::try_from(n) {
        Ok(short) => push_number(line, short),
        Err(_) => put_num(line, n),
    }
}

/// Appends a position as `tick:offset`, at most `POSITION_BYTES` bytes. It takes no memory.
#[inline]
pub fn push_position(line: &mut Line, pos: Pos)
    requires { length line.old + POSITION_BYTES ≤ LINE_BYTES }
    ensures text { line.new ≡ line.old ++ part_text (Part.At pos) }
    ensures most { length line.new ≤ length line.old + POSITION_BYTES }
{
    push_number(line, pos.tick);
    line.push(b":");
    push_number(line, pos.offset);
}

/// Appends a fraction as `num/den`, at most `RATIO_BYTES` bytes. It takes no memory.
#[inline]
pub fn push_ratio(line: &mut Line, num: u128, den: u128)
    requires { length line.old + RATIO_BYTES ≤ LINE_BYTES }
    ensures text { line.new ≡ line.old ++ part_text (Part.Ratio num den) }
    ensures most { length line.new ≤ length line.old + RATIO_BYTES }
{
    push_wide(line, num);
    line.push(b"/");
    push_wide(line, den);
}

/// Appends a part, which fits in the line. It takes no memory.
pub fn push_part(line: &mut Line, part: Part<'_>)
    requires { length line.old + most_bytes part ≤ LINE_BYTES }
    ensures text { line.new ≡ line.old ++ part_text part.entry }
    ensures most { length line.new ≤ length line.old + most_bytes part.entry }
{
    match part {
        Part::Word(bytes) => line.push(bytes),
        Part::Named(name) => line.push(name.as_bytes()),
        Part::Shown(short) => line.push(short.as_bytes()),
        Part::Number(n) => push_number(line, n),
        Part::Wide(n) => push_wide(line, n),
        Part::At(pos) => push_position(line, pos),
        Part::Ratio(num, den) => push_ratio(line, num, den),
    }
}

/// Appends these parts, one after another, which fit in the line. It takes no memory.
pub fn push_parts(line: &mut Line, parts: &[Part<'_>])
    requires { length line.old + most_of parts.now ≤ LINE_BYTES }
    ensures { line.new ≡ line.old ++ joined (map part_text parts.now) }
{
    for part in parts {
        push_part(line, *part);
    }
}

/// The line of these parts, one after another. It takes no memory.
pub fn line_of(parts: &[Part<'_>]) -> Line
    requires { most_of parts.now ≤ LINE_BYTES }
    ensures { result ≡ joined (map part_text parts.now) }
{
    let mut line = Line::new();
    push_parts(&mut line, parts);
    line
}
