// Files that change between their loads: an answer is that of the bytes that the loads gave.
ghost use Rattle.std.specs.Prelude.{None};

use crate::call::{NO_FAULTS, Sinks, left_over};
use crate::twice::{TwoCalls, twice};
use dvs_base::{HostShelf, HostSink, LoadFault, Loaded, Shelf, Sink};
use std::alloc::Global;
use std::fs;
use std::process::Abort;
use std::test::Fail;
use test_inputs::{Ending, Outcome, words_of};

// One unit in each 2 ticks.
const HALF: &[u8] = b"task = [{name = \"a\", period = 2, worst = 1}]\n";

// Two units in each 3 ticks.
const TWO_THIRDS: &[u8] = b"task = [{name = \"a\", period = 3, worst = 2}]\n";

const SPEED_1: &[u8] = b"point = [{speed = 1, millivolts = 1000}]\n";

const SPEED_2: &[u8] = b"point = [{speed = 2, millivolts = 1000}]\n";

// The contents at this place, if they are of this name.
fn contents_at<'a>(contents: &[(&str, &'a [u8])], place: usize, name: &str) -> Option<&'a [u8]> {
    let (of, bytes) = *contents.get(place)?;
    if of == name { Some(bytes) } else { None }
}

// A shelf whose files change: each load gives the next contents, which are those of the name that it asks for. A load of
// another name runs out of memory.
#[derive(Drop)]
struct ChangingShelf<'a> {
    contents: &'a [(&'a str, &'a [u8])],
    loads: usize,
    loaded: Loaded,
}

impl<'a> ChangingShelf<'a> {
    fn new(contents: &'a [(&'a str, &'a [u8])]) -> ChangingShelf<'a> {
        ChangingShelf {
            contents,
            loads: 0,
            loaded: Loaded::new(),
        }
    }
}

impl<'a> Shelf for ChangingShelf<'a> {
    ghost shows = { λ s. record { held = None; gave = s.loaded.loads; faults = 0; sure = 0 } };

    fn load(&mut self, alloc: Global, name: &str, room: u64) -> Result<Vec<u8>, LoadFault> {
        let bytes = match contents_at(self.contents, self.loads, name) {
            Some(bytes) => bytes,
            None => return Err(LoadFault::NoMemory),
        };
        self.loads = self.loads.saturating_add(1);
        let most = bytes.len().min(room as usize + 1);
        match Vec::from_slice(alloc, &bytes[..most]) {
            Ok(given) => {
                self.loaded = self.loaded.and(name.as_bytes(), room, &given);
                Ok(given)
            }
            Err(_) => Err(LoadFault::NoMemory),
        }
    }
}

// Makes the call with these words twice, and returns the status of the first and the outcome of the second.
fn call_twice(
    alloc: Global,
    line: &str,
    shelf: &mut ChangingShelf<'_>,
) -> Result<(u8, Outcome), Fail> {
    let words = words_of(alloc, line)?;
    let both = TwoCalls {
        first: &words,
        second: &words,
    };
    let mut sinks = Sinks::new(alloc, 128, NO_FAULTS)?;
    let (one, two) = twice(alloc, &both, shelf, &mut sinks.out, &mut sinks.notes);
    let left = sinks.left(alloc, two.code(), 0)?;
    Ok((one.code(), left))
}

// A call that is done leaves this text, with no line and no fault.
fn done(out: &str) -> Ending<'_> {
    Ending {
        code: 0,
        out,
        notes: "",
        faults: [0, 0, 0],
    }
}

const ADMIT: &str = "admit --tasks T --machine M --scheduler edf";

// Both files change between two calls, and each call answers for what it was given.
#[test]
fn each_of_two_calls_answers_for_what_its_loads_gave(rt: HostRuntime) -> Result<(), Fail> {
    let contents: [(&str, &[u8]); 4] = [
        ("T", HALF),
        ("M", SPEED_1),
        ("T", TWO_THIRDS),
        ("M", SPEED_2),
    ];
    let mut shelf = ChangingShelf::new(&contents);
    let (first, left) = call_twice(rt.alloc(), ADMIT, &mut shelf)?;
    assert_eq!(rt; first, 0);
    left.is(ADMIT, done("admitted edf 1/2 1\nadmitted edf 2/3 2\n"))
}

const SAME_NAME: &str = "admit --tasks F --machine F --scheduler edf";

// One name gives the same contents twice, so there are files that hold them: tasks are no machine.
#[test]
fn one_name_that_gives_the_same_twice(rt: HostRuntime) -> Result<(), Fail> {
    let contents: [(&str, &[u8]); 2] = [("F", HALF), ("F", HALF)];
    let mut shelf = ChangingShelf::new(&contents);
    let refused = Ending {
        code: 4,
        out: "",
        notes: "machine: unknown key task\n",
        faults: [0, 0, 0],
    };
    left_over(rt.alloc(), SAME_NAME, &mut shelf, NO_FAULTS)?.is(SAME_NAME, refused)
}

// One name gives tasks and then a machine. No files hold both, so only what is said of any files is promised: no more
// loads than the names, no status of a failed load or put, and at status 0 no line, at every other no answer.
#[test]
fn one_name_that_gives_two_contents_in_one_call(rt: HostRuntime) -> Result<(), Fail> {
    let contents: [(&str, &[u8]); 3] = [("F", HALF), ("F", SPEED_1), ("F", TWO_THIRDS)];
    let mut shelf = ChangingShelf::new(&contents);
    let left = left_over(rt.alloc(), SAME_NAME, &mut shelf, NO_FAULTS)?;
    assert!(rt; shelf.loads <= 2);
    assert!(rt; left.code != 3 && left.code != 8);
    assert_eq!(rt; left.notes.is_empty(), left.code == 0);
    assert!(rt; left.out.is_empty() || left.code == 0);
    Ok(())
}

// Writes a file of this name anew.
fn write_file(rt: &HostRuntime, name: &str, bytes: &[u8]) -> Result<(), Fail> {
    let mut sink = HostSink::new(fs::create(rt, name)?);
    sink.put(bytes)?;
    Ok(())
}

// The system's file of tasks changes between two calls over one shelf, and the file of the machine stays.
#[test]
fn a_file_of_the_system_that_changes_between_two_calls(rt: HostRuntime) -> Result<(), Fail> {
    write_file(&rt, "M", SPEED_1)?;
    let mut shelf = HostShelf::new(&rt);
    for (tasks, text) in [
        (HALF, "admitted edf 1/2 1\n"),
        (TWO_THIRDS, "admitted edf 2/3 1\n"),
    ] {
        write_file(&rt, "T", tasks)?;
        left_over(rt.alloc(), ADMIT, &mut shelf, NO_FAULTS)?.is(ADMIT, done(text))?;
    }
    Ok(())
}
