// Why a machine file is refused.
use dvs_base::Short;

/// What a machine file names: its two settings, its array of points, an entry of it, or a key of an entry.
#[derive(Clone, Copy, Debug, PartialEq, Eq)]
pub enum MachineField {
    /// The setting `idle` of the document, in thousandths.
    Idle,
    /// The setting `charge` of the document, in work units.
    Charge,
    /// The array `point` of the document.
    Point,
    /// An entry of the array, which is not a table.
    Entry,
    /// The key `speed` of an entry, in work units per tick.
    Speed,
    /// The key `millivolts` of an entry.
    Millivolts,
}

/// The first error of a machine file. Places count from 1, and place 0 is the document itself.
#[derive(Clone, Copy, Debug, PartialEq, Eq)]
pub enum MachineFault {
    /// The bytes are not a TOML document.
    NotToml,
    /// A key that has no meaning: the least such key in order of bytes.
    UnknownKey { place: u32, key: Short },
    /// The array of points is missing or empty.
    NoPoints,
    /// There are more than [`MOST_POINTS`](crate::MOST_POINTS) points.
    TooMany { count: u64 },
    /// A point lacks this key.
    Missing { place: u32, field: MachineField },
    /// The value is of another kind.
    Kind { place: u32, field: MachineField },
    /// A number is outside its limits: `idle` 0 to 1000, `charge` 0 to 1000000, a speed 1 to 1000000, a voltage 1 to
    /// 20000 millivolts.
    Range { place: u32, field: MachineField },
    /// The speed is not above that of the point before, or the voltage is below it.
    NotRising { place: u32 },
    /// Memory ran out, which says nothing of the file.
    NoMemory,
}
