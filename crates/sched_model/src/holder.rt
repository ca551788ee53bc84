// The holder of a unit.

/// The holder of a unit: nobody, or a job by its task's number and its own.
#[derive(Clone, Copy, Debug, PartialEq, Eq)]
pub enum Holder {
    Nobody,
    Held(u32, u64),
}
