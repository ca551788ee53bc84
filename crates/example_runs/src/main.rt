//! Calls of the whole program over the files of the examples, one after another: the words of each, what it writes to both
//! streams, and its exit status. What this prints is kept beside it, and each build is compared with that.
//!
//! It ends with 3 if the list of calls can't be read, with 8 if a write fails and with 9 if memory runs out.
#![tactic(auto)]

use dvs_base::{HostShelf, HostSink, Shelf};
use probes::{Probe, ProgramProbes};
use rtdvs_top::rtdvs;
use std::alloc::AllocError;
use std::process::ExitCode;

const NO_CALLS: u8 = 3;

const NO_WRITE: u8 = 8;

const NO_MEMORY: u8 = 9;

// The most bytes of the list of calls.
const MOST: u64 = 65536;

// The words of a line.
fn words_of(rt: &impl AllocGlobal, line: &str) -> Result<Vec<String>, AllocError> {
    let alloc = rt.alloc();
    let mut words = Vec::new(alloc);
    for word in line.split(' ') {
        words.push(String::from_str(alloc, word)?)?;
    }
    Ok(words)
}

// Makes the call, and gives its exit status.
fn call(rt: &HostRuntime, line: &str) -> Result<u8, AllocError> {
    let alloc = rt.alloc();
    let words = words_of(rt, line)?;
    let made = ProgramProbes::new();
    let mut probes: Vec<Box<dyn Probe>> = Vec::new(alloc);
    probes.push(Box::new(alloc, made.speeds)?)?;
    probes.push(Box::new(alloc, made.units)?)?;
    probes.push(Box::new(alloc, made.dones)?)?;
    let mut shelf = HostShelf::new(rt);
    let mut out = HostSink::new(rt.stdout());
    let mut notes = HostSink::new(rt.stdout());
    let status = rtdvs(alloc, &words, &mut shelf, &mut out, &mut notes, &mut probes);
    Ok(status.code())
}

// Makes each call of the list, with its words before it and its status after it.
fn make_calls(rt: &HostRuntime, calls: &str) -> Result<(), u8> {
    for line in calls.lines() {
        println!(rt; "rtdvs {line}").map_err(|_| NO_WRITE)?;
        let code = call(rt, line).map_err(|_| NO_MEMORY)?;
        println!(rt; "status {code}").map_err(|_| NO_WRITE)?;
    }
    Ok(())
}

// The same for the list that lies where the program runs.
fn make_all(rt: &HostRuntime) -> Result<(), u8> {
    let mut shelf = HostShelf::new(rt);
    let list = shelf
        .load(rt.alloc(), "calls.txt", MOST)
        .map_err(|_| NO_CALLS)?;
    let calls = std::str::from_utf8(&list).map_err(|_| NO_CALLS)?;
    make_calls(rt, calls)
}

fn main(rt: HostRuntime) -> ExitCode {
    match make_all(&rt) {
        Ok(()) => ExitCode::from(0),
        Err(code) => ExitCode::from(code),
    }
}
