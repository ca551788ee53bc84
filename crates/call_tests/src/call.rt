// Calls of the whole program over files and sinks in memory, with the faults that are injected into them.
use dvs_base::{FailAt, MemShelf, MemSink, NoMemory, Shelf};
use probes::Probe;
use rtdvs_top::rtdvs;
use std::alloc::{AllocError, Global};
use std::test::Fail;
use test_inputs::{Ending, Outcome, words_of};

// The bytes that each sink of a call has room for.
const ROOM: usize = 65536;

// The bytes that each sink has room for if the answer is one short line.
const SMALL_ROOM: usize = 64;

/// A call: its files, with the names T, M and F, and its words.
#[derive(Clone, Copy)]
pub struct Call<'a> {
    pub tasks: &'a [u8],
    pub machine: &'a [u8],
    pub third: &'a [u8],
    pub words: &'a str,
}

/// The faults to inject: loads, puts of the answer and puts of the notes, by their numbers, counted from 1.
#[derive(Clone, Copy)]
pub struct Faults<'a> {
    pub loads: &'a [u64],
    pub puts: &'a [FailAt],
    pub notes: &'a [FailAt],
}

/// No faults.
pub const NO_FAULTS: Faults = Faults {
    loads: &[],
    puts: &[],
    notes: &[],
};

/// Both sinks of a call.
#[derive(Drop)]
pub struct Sinks {
    pub out: MemSink,
    pub notes: MemSink,
}

impl Sinks {
    /// Sinks with room for this many bytes each, with these faults. No clause says so.
    pub fn new(alloc: Global, room: usize, faults: Faults<'_>) -> Result<Sinks, NoMemory> {
        Ok(Sinks {
            out: MemSink::new(alloc, room, faults.puts)?,
            notes: MemSink::new(alloc, room, faults.notes)?,
        })
    }

    /// The outcome of a call that ended with this status and whose shelf counts `loads` failed loads. No clause says so.
    pub fn left(&self, alloc: Global, code: u8, loads: u64) -> Result<Outcome, AllocError> {
        Ok(Outcome {
            code,
            out: Vec::from_slice(alloc, self.out.bytes())?,
            notes: Vec::from_slice(alloc, self.notes.bytes())?,
            faults: [loads, self.out.faults(), self.notes.faults()],
        })
    }
}

/// Makes the call with these words, and returns its exit status. No clause says so.
pub fn status_of<S: Shelf>(
    alloc: Global,
    line: &str,
    shelf: &mut S,
    sinks: &mut Sinks,
    probes: &mut Vec<Box<dyn Probe>>,
) -> Result<u8, AllocError> {
    let words = words_of(alloc, line)?;
    let status = rtdvs(
        alloc,
        &words,
        shelf,
        &mut sinks.out,
        &mut sinks.notes,
        probes,
    );
    Ok(status.code())
}

/// The outcome of the call with these words over a shelf whose faults aren't counted, with these faults of the sinks,
/// whose room is small. No clause says so.
pub fn left_over<S: Shelf>(
    alloc: Global,
    line: &str,
    shelf: &mut S,
    faults: Faults<'_>,
) -> Result<Outcome, Fail> {
    let mut probes: Vec<Box<dyn Probe>> = Vec::new(alloc);
    let mut sinks = Sinks::new(alloc, SMALL_ROOM, faults)?;
    let code = status_of(alloc, line, shelf, &mut sinks, &mut probes)?;
    Ok(sinks.left(alloc, code, 0)?)
}

impl<'a> Call<'a> {
    /// These files with other words. No clause says so.
    pub fn asked(self, words: &'a str) -> Call<'a> {
        Call { words, ..self }
    }

    /// This call with another task file. No clause says so.
    pub fn with_tasks(self, tasks: &'a [u8]) -> Call<'a> {
        Call { tasks, ..self }
    }

    /// This call with another machine file. No clause says so.
    pub fn with_machine(self, machine: &'a [u8]) -> Call<'a> {
        Call { machine, ..self }
    }

    /// This call with another third file. No clause says so.
    pub fn with_third(self, third: &'a [u8]) -> Call<'a> {
        Call { third, ..self }
    }

    /// A shelf with the files of the call, whose loads with the numbers in `failing` fail. No clause says so.
    pub fn shelf(self, alloc: Global, failing: &[u64]) -> Result<MemShelf, NoMemory> {
        let mut shelf = MemShelf::new(alloc, failing)?;
        shelf.add("T", self.tasks)?;
        shelf.add("M", self.machine)?;
        shelf.add("F", self.third)?;
        Ok(shelf)
    }

    /// The outcome of the call with these probes, with these faults. No clause says what, beyond those of the program.
    pub fn probed(
        self,
        alloc: Global,
        faults: Faults<'_>,
        probes: &mut Vec<Box<dyn Probe>>,
    ) -> Result<Outcome, Fail> {
        let mut shelf = self.shelf(alloc, faults.loads)?;
        let mut sinks = Sinks::new(alloc, ROOM, faults)?;
        let code = status_of(alloc, self.words, &mut shelf, &mut sinks, probes)?;
        Ok(sinks.left(alloc, code, shelf.faults())?)
    }

    /// The outcome of the call without probes, with these faults. No clause says what, beyond those of the program.
    pub fn under(self, alloc: Global, faults: Faults<'_>) -> Result<Outcome, Fail> {
        let mut probes: Vec<Box<dyn Probe>> = Vec::new(alloc);
        self.probed(alloc, faults, &mut probes)
    }

    /// Makes the call with these faults and compares its outcome with `ending`. The error says what differs.
    pub fn ends(
        self,
        rt: &impl AllocGlobal,
        faults: Faults<'_>,
        ending: Ending<'_>,
    ) -> Result<(), Fail> {
        self.under(rt.alloc(), faults)?.is(self.words, ending)
    }

    /// Makes the call without faults and compares its status and texts with these. The error says what differs.
    pub fn leaves(
        self,
        rt: &impl AllocGlobal,
        code: u8,
        out: &str,
        notes: &str,
    ) -> Result<(), Fail> {
        let ending = Ending {
            code,
            out,
            notes,
            faults: [0, 0, 0],
        };
        self.ends(rt, NO_FAULTS, ending)
    }

    /// The call ends with 0 and leaves this text on `out` alone, or the error says what differs.
    pub fn answers(self, rt: &impl AllocGlobal, text: &str) -> Result<(), Fail> {
        self.leaves(rt, 0, text, "")
    }

    /// If this put of the answer fails, the call ends with 8 and leaves this text on `out`.
    /// Otherwise the error says what differs.
    pub fn fails_at(self, rt: &impl AllocGlobal, put: FailAt, out: &str) -> Result<(), Fail> {
        let faults = Faults {
            loads: &[],
            puts: &[put],
            notes: &[],
        };
        let ending = Ending {
            code: 8,
            out,
            notes: "write: out failed\n",
            faults: [0, 1, 0],
        };
        self.ends(rt, faults, ending)
    }

    /// A file is refused with this line: the call ends with 4 and leaves the line on `notes` alone.
    /// Otherwise the error says what differs.
    pub fn refuses_file(self, rt: &impl AllocGlobal, line: &str) -> Result<(), Fail> {
        let text = format!(in rt.alloc(); "{line}\n")?;
        self.leaves(rt, 4, "", text.as_str())
    }
}
