// What a caller gives.

/// The numbers of a task: its period in ticks, its worst case in work units, the tick of its first release, and its
/// relative deadline in ticks, which only `deadlines_of` reads.
#[derive(Clone, Copy, Debug, PartialEq, Eq)]
#[repr(C)]
pub struct GivenTask {
    pub period: u64,
    pub worst_case: u64,
    pub offset: u64,
    pub deadline: u64,
}

/// The numbers of an entry of a machine: its speed in work units per tick, and its voltage in millivolts.
#[derive(Clone, Copy, Debug, PartialEq, Eq)]
#[repr(C)]
pub struct GivenPoint {
    pub speed: u64,
    pub millivolts: u64,
}
