//! Machines: tables of speeds and voltages, read from TOML or made from a list, and the entry that a demand picks.
//! Callers may rely on every machine to have 1 to 32 points within their limits whose speeds rise and whose voltages
//! don't fall; on `read` to refuse exactly what `specs/MachineFile.antt` refuses, with that refusal; and on every call
//! without an allocator to take no memory.
#![tactic(auto)]

mod fault;
mod fault_line;
mod limits;
mod machine;
mod read;

pub use fault::{MachineFault, MachineField};
pub use fault_line::machine_fault_line;
pub use limits::{MOST_CHARGE, MOST_IDLE, MOST_MILLIVOLTS, MOST_POINTS, TOP_SPEED};
pub use machine::{Machine, Pick, Point};
