//! Calls of the whole program over files and sinks in memory, read from a list: `data/calls.txt`.
//!
//! It prints the words of each call, what the call writes to both sinks, and its exit status. The gate compares that with
//! the stored output, which doesn't come from the program: `#` lines of the list say how each part was obtained.
//! The form of the list is in `script.rt`.
//! It ends with 3 if the list can't be read, with 8 if a write fails and with 9 if memory runs out.
#![tactic(auto)]

mod escape;
mod script;
mod show;
mod stage;

use crate::script::run_line;
use crate::stage::Stage;
use dvs_base::{HostShelf, LoadFault, NoMemory, Shelf};
use std::alloc::{AllocError, AllocFailed};
use std::io;
use std::process::ExitCode;
use std::str::Utf8Error;

// The most bytes of the list.
const MOST: u64 = 1048576;

/// Why the list is not gone through to its end.
#[derive(Clone, Copy, Debug, PartialEq, Eq)]
pub(crate) enum Trouble {
    /// The list is absent, isn't text, or has a line of no form.
    Script,
    /// A write failed.
    Write,
    /// Memory ran out.
    NoMemory,
}

impl From<NoMemory> for Trouble {
    fn from(_: NoMemory) -> Trouble {
        Trouble::NoMemory
    }
}

impl From<AllocError> for Trouble {
    fn from(_: AllocError) -> Trouble {
        Trouble::NoMemory
    }
}

impl<T: Drop> From<AllocFailed<T>> for Trouble {
    fn from(_: AllocFailed<T>) -> Trouble {
        Trouble::NoMemory
    }
}

impl From<io::Error> for Trouble {
    fn from(_: io::Error) -> Trouble {
        Trouble::Write
    }
}

impl From<Utf8Error> for Trouble {
    fn from(_: Utf8Error) -> Trouble {
        Trouble::Script
    }
}

impl Trouble {
    // The exit status.
    fn code(self) -> u8 {
        match self {
            Trouble::Script => 3,
            Trouble::Write => 8,
            Trouble::NoMemory => 9,
        }
    }
}

// Makes each call of the list.
fn run_script(rt: &HostRuntime, script: &str) -> Result<(), Trouble> {
    let mut stage = Stage::new(rt.alloc());
    for line in script.split('\n') {
        run_line(rt, line, &mut stage)?;
    }
    Ok(())
}

// The same for the list that is in the folder where the program runs.
fn run_all(rt: &HostRuntime) -> Result<(), Trouble> {
    let mut shelf = HostShelf::new(rt);
    let list = match shelf.load(rt.alloc(), "calls.txt", MOST) {
        Ok(list) => list,
        Err(LoadFault::NoMemory) => return Err(Trouble::NoMemory),
        Err(_) => return Err(Trouble::Script),
    };
    let script = std::str::from_utf8(&list)?;
    run_script(rt, script)
}

fn main(rt: HostRuntime) -> ExitCode {
    match run_all(&rt) {
        Ok(()) => ExitCode::from(0),
        Err(trouble) => ExitCode::from(trouble.code()),
    }
}
