// The lines of a refused machine file.
ghost use Rattle.std.specs.Prelude.{◌≡◌, ◌≤◌, length};
ghost use Rattle.dvs_base.specs.declared.limits.TheConstants.{NAME_BYTES};
ghost use Rattle.freq_table.specs.FaultLines.{machine_field_word, at_point, machine_fault_text};

use crate::{MOST_POINTS, MachineFault, MachineField};
use dvs_base::{Line, Part, Short, line_of, settings_line, too_many_line};

fn machine_field_word(field: MachineField) -> &'static [u8]
    ensures text { result.now ≡ machine_field_word field }
    ensures most { length result.now ≤ 16 }
{
    match field {
        MachineField::Idle => b"idle",
        MachineField::Charge => b"charge",
        MachineField::Point => b"point",
        MachineField::Entry => b"entry",
        MachineField::Speed => b"speed",
        MachineField::Millivolts => b"millivolts",
    }
}

// The line of a refusal at this place: `what`, and then `which`.
fn point_line(place: u32, what: &[u8], which: &[u8]) -> Line
    requires what { length what.now ≤ NAME_BYTES }
    requires which { length which.now ≤ NAME_BYTES }
    ensures { result ≡ at_point place what.now which.now }
{
    settings_line(
        &Short::of(b"machine"),
        &Short::of(b"point"),
        place,
        what,
        which,
    )
}

fn too_many_points(count: u64) -> Line
    ensures { result ≡ machine_fault_text (MachineFault.TooMany count) }
{
    let machine = Short::of(b"machine");
    too_many_line(&machine, count, &Short::of(b"points"), MOST_POINTS as u64)
}

/// The line of a machine file's refusal. It takes no memory.
pub fn machine_fault_line(why: &MachineFault) -> Line
    ensures { result ≡ machine_fault_text why.now }
{
    match why {
        MachineFault::NotToml => line_of(&[Part::Word(b"machine: not TOML\n")]),
        MachineFault::UnknownKey { place, key } => {
            point_line(*place, b"unknown key ", key.as_bytes())
        }
        MachineFault::NoPoints => line_of(&[Part::Word(b"machine: no points\n")]),
        MachineFault::TooMany { count } => too_many_points(*count),
        MachineFault::Missing { place, field } => {
            point_line(*place, b"missing ", machine_field_word(*field))
        }
        MachineFault::Kind { place, field } => {
            point_line(*place, b"wrong kind of ", machine_field_word(*field))
        }
        MachineFault::Range { place, field } => {
            point_line(*place, machine_field_word(*field), b" out of range")
        }
        MachineFault::NotRising { place } => line_of(&[
            Part::Word(b"machine: point "),
            Part::Number(*place as u64),
            Part::Word(b": not rising\n"),
        ]),
        MachineFault::NoMemory => line_of(&[Part::Word(b"no memory\n")]),
    }
}
