// Why a task file is refused.
use dvs_base::Short;

/// What a task file names: its array of tasks, an entry of it, or a key of an entry.
#[derive(Clone, Copy, Debug, PartialEq, Eq)]
pub enum Field {
    /// The array `task` of the document.
    Task,
    /// An entry of the array, which is not a table.
    Entry,
    /// The key `name` of an entry.
    Name,
    /// The key `period`, in ticks.
    Period,
    /// The key `worst`, in work units.
    Worst,
    /// The key `offset`, in ticks.
    Offset,
}

/// The first error of a task file. Places count from 1, and place 0 is the document itself.
#[derive(Clone, Copy, Debug, PartialEq, Eq)]
pub enum TaskFault {
    /// The bytes are not a TOML document.
    NotToml,
    /// A key that has no meaning: the least such key in order of bytes.
    UnknownKey { place: u32, key: Short },
    /// The array of tasks is missing or empty.
    NoTasks,
    /// There are more than [`MOST_TASKS`](dvs_base::MOST_TASKS) tasks.
    TooMany { count: u64 },
    /// A task lacks this key.
    Missing { place: u32, field: Field },
    /// The value is of another kind.
    Kind { place: u32, field: Field },
    /// A number is outside its limits: the period 1 to 2^40, the worst case 1 to 2^60, the offset 0 to 2^40.
    Range { place: u32, field: Field },
    /// The name is not 1 to [`NAME_BYTES`](dvs_base::NAME_BYTES) bytes of ASCII letters, digits, `_` and `-`.
    BadName { place: u32 },
    /// Two tasks have one name.
    SameName { first: u32, second: u32 },
    /// The least common multiple of the periods exceeds 2^48.
    Hyper,
    /// Memory ran out, which says nothing of the file.
    NoMemory,
}
