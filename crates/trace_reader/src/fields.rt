// The fields of a line.
ghost use Rattle.std.specs.Prelude.{◌≡◌, ◌^◌, ◌<◌, ◌≤◌, length, position, IfOk, IfSome};
ghost use Rattle.std.specs.Str.{bytes_eq};
ghost use Rattle.dvs_base.specs.declared.limits.TheConstants.{MOST_TASKS};
ghost use Rattle.trace_reader.specs.Fields.{whole_in, wide_in, position_in, fraction_in, task_in};

use crate::TraceKind;
use crate::parts::two_parts;
use dvs_base::{Name, Pos, whole, wide};

// The field as a number below 2^64.
pub(crate) fn whole_in(field: &[u8]) -> Result<u64, TraceKind>
    ensures { result ≡ whole_in field.now }
{
    whole(field).ok_or(TraceKind::Number)
}

// The field as a number below 2^128.
pub(crate) fn wide_in(field: &[u8]) -> Result<u128, TraceKind>
    ensures { result ≡ wide_in field.now }
{
    wide(field).ok_or(TraceKind::Number)
}

// The field as a position, `tick:offset`.
#[tactic(auto, unfolding(crate::specs::Fields::position_in))]
pub(crate) fn position_in(field: &[u8]) -> Result<Pos, TraceKind>
    ensures { result ≡ position_in field.now }
{
    let (tick, offset) = two_parts(field, b':').ok_or(TraceKind::Number)?;
    let tick = whole_in(tick)?;
    let offset = whole_in(offset)?;
    Ok(Pos { tick, offset })
}

// The field as a fraction, `num/den`.
#[tactic(auto, unfolding(crate::specs::Fields::fraction_in))]
pub(crate) fn fraction_in(field: &[u8]) -> Result<(u128, u128), TraceKind>
    ensures { result ≡ fraction_in field.now }
{
    let (num, den) = two_parts(field, b'/').ok_or(TraceKind::Number)?;
    let num = wide_in(num)?;
    let den = wide_in(den)?;
    Ok((num, den))
}

// The place of the first name that is equal to the field.
fn place_in(names: &[Name], field: &[u8]) -> Option<usize>
    ensures place { result ≡ position (λ name. bytes_eq name field.now) names.now }
    ensures within { IfSome result (λ i. i < length names.now) }
{
    names.iter().position(|name| name.as_bytes() == field)
}

// The number of the task whose name is the field.
#[tactic(auto, unfolding(crate::specs::Fields::task_in))]
pub(crate) fn task_in(names: &[Name], field: &[u8]) -> Result<u32, TraceKind>
    requires { length names.now ≤ MOST_TASKS }
    ensures task { result ≡ task_in names.now field.now }
    ensures within { IfOk result (λ i. i < length names.now) }
{
    let i = place_in(names, field).ok_or(TraceKind::Task)?;
    Ok(i as u32)
}
