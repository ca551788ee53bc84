// Files of one repeated character: as long as a file may be, and one byte longer.
ghost use Rattle.std.specs.Prelude.{None};

use crate::call::{Call, NO_FAULTS, left_over};
use crate::hostile::example::{ADMIT, CONSTRAIN, CONTROLLER_RUN, POLL, REPLAY};
use dvs_base::{LONGEST_FILE, LONGEST_TRACE, LoadFault, Loaded, Shelf};
use std::alloc::{AllocError, Global};
use std::test::Fail;
use test_inputs::Ending;

// A kind of file: a call with such a file, its name, its word in a refusal, and the most bytes that it may have.
#[derive(Clone, Copy)]
struct Kind {
    call: Call<'static>,
    name: &'static str,
    word: &'static str,
    most: u64,
}

const TASKS: Kind = Kind {
    call: ADMIT,
    name: "T",
    word: "tasks",
    most: LONGEST_FILE,
};

const MACHINE: Kind = Kind {
    call: ADMIT,
    name: "M",
    word: "machine",
    most: LONGEST_FILE,
};

const DEMANDS: Kind = Kind {
    call: CONTROLLER_RUN,
    name: "F",
    word: "demands",
    most: LONGEST_FILE,
};

const DEADLINES: Kind = Kind {
    call: CONSTRAIN,
    name: "F",
    word: "deadlines",
    most: LONGEST_FILE,
};

const REQUESTS: Kind = Kind {
    call: POLL,
    name: "F",
    word: "requests",
    most: LONGEST_FILE,
};

const TRACE: Kind = Kind {
    call: REPLAY,
    name: "F",
    word: "trace",
    most: LONGEST_TRACE,
};

// The files of a call; that of the kind is one character, as often as there is room for or once more.
#[derive(Drop)]
struct LongFiles {
    kind: Kind,
    byte: u8,
    over: bool,
    room: u64,
}

impl LongFiles {
    fn bytes_of(&mut self, alloc: Global, name: &str, room: u64) -> Result<Vec<u8>, AllocError> {
        if name == self.kind.name {
            self.room = room;
            let more = if self.over { 1 } else { 0 };
            vec![in alloc; self.byte; room.saturating_add(more) as usize]
        } else if name == "T" {
            Vec::from_slice(alloc, self.kind.call.tasks)
        } else {
            Vec::from_slice(alloc, self.kind.call.machine)
        }
    }
}

// A shelf of these files, and what it gave.
#[derive(Drop)]
struct LongShelf {
    files: LongFiles,
    loaded: Loaded,
}

impl Shelf for LongShelf {
    ghost shows = { λ s. record { held = None; gave = s.loaded.loads; faults = 0; sure = 0 } };

    fn load(&mut self, alloc: Global, name: &str, room: u64) -> Result<Vec<u8>, LoadFault> {
        match self.files.bytes_of(alloc, name, room) {
            Ok(bytes) if bytes.len() as u64 <= room + 1 => {
                self.loaded = self.loaded.and(name.as_bytes(), room, &bytes);
                Ok(bytes)
            }
            _ => Err(LoadFault::NoMemory),
        }
    }
}

// The end of a call whose file is refused with this line.
fn refused(line: &str) -> Ending<'_> {
    Ending {
        code: 4,
        out: "",
        notes: line,
        faults: [0, 0, 0],
    }
}

// A file of this kind that repeats this character is refused with the line, after a load for the most bytes.
fn is_refused(alloc: Global, kind: Kind, byte: u8, over: bool, line: &str) -> Result<(), Fail> {
    let whole = format!(in alloc; "{}: {line}\n", kind.word)?;
    let files = LongFiles {
        kind,
        byte,
        over,
        room: 0,
    };
    let mut shelf = LongShelf {
        files,
        loaded: Loaded::new(),
    };
    let left = left_over(alloc, kind.call.words, &mut shelf, NO_FAULTS)?;
    if shelf.files.room != kind.most {
        return Err(Fail::new(format_args!("{line}: another room")));
    }
    left.is(kind.call.words, refused(whole.as_str()))
}

// Files of the greatest length that repeat each of these characters are refused, and so is one that is a byte longer.
fn each_is_refused(alloc: Global, kind: Kind, files: &[(u8, &str)]) -> Result<(), Fail> {
    for (byte, line) in files.iter().copied() {
        is_refused(alloc, kind, byte, false, line)?;
    }
    is_refused(alloc, kind, b'a', true, "too long")
}

#[test]
fn long_task_files(rt: HostRuntime) -> Result<(), Fail> {
    each_is_refused(
        rt.alloc(),
        TASKS,
        &[
            (b'a', "not TOML"),
            (b'[', "not TOML"),
            (b'\n', "no tasks"),
            (b'#', "no tasks"),
        ],
    )
}

#[test]
fn long_machine_files(rt: HostRuntime) -> Result<(), Fail> {
    each_is_refused(
        rt.alloc(),
        MACHINE,
        &[
            (b'a', "not TOML"),
            (b'[', "not TOML"),
            (b'\n', "no points"),
            (b'#', "no points"),
        ],
    )
}

// Each kind of record: one field, many fields, none, and one that is never closed.
const HEADERS: [(u8, &str); 4] = [
    (b'a', "wrong header"),
    (b',', "wrong header"),
    (b'\n', "wrong header"),
    (b'"', "wrong header"),
];

#[test]
fn long_demand_files(rt: HostRuntime) -> Result<(), Fail> {
    each_is_refused(rt.alloc(), DEMANDS, &HEADERS)
}

#[test]
fn long_deadline_files(rt: HostRuntime) -> Result<(), Fail> {
    each_is_refused(rt.alloc(), DEADLINES, &HEADERS)
}

#[test]
fn long_request_files(rt: HostRuntime) -> Result<(), Fail> {
    each_is_refused(rt.alloc(), REQUESTS, &HEADERS)
}

#[test]
fn long_traces(rt: HostRuntime) -> Result<(), Fail> {
    each_is_refused(
        rt.alloc(),
        TRACE,
        &[(b'\n', "line 1: version"), (b'a', "line 1: no end")],
    )
}
