// What the next call is made over.
use crate::Trouble;
use dvs_base::{FailAt, MemShelf, MemSink};
use probes::What;
use rtdvs_top::rtdvs;
use std::alloc::{AllocError, Global};
use test_inputs::{Asked, of_all_tasks, probes_of};

// The bytes that each sink of a call has room for.
const ROOM: usize = 65536;

// A file that a case may have.
#[derive(Clone, Copy)]
enum Place {
    T,
    M,
    F,
    D,
}

impl Place {
    // The file of this name.
    fn named(name: &str) -> Option<Place> {
        match name {
            "T" => Some(Place::T),
            "M" => Some(Place::M),
            "F" => Some(Place::F),
            "D" => Some(Place::D),
            _ => None,
        }
    }
}

// The bytes of a file of a case; none if the case lacks it.
fn bytes_of(file: &Option<Vec<u8>>) -> &[u8] {
    match file {
        Some(bytes) => bytes,
        None => b"".as_slice(),
    }
}

/// The files of the case so far, which have the names T, M, F and D; the loads and puts that fail in the next call, counted
/// from 1, and its probes.
#[derive(Drop)]
pub(crate) struct Stage {
    t: Option<Vec<u8>>,
    m: Option<Vec<u8>>,
    f: Option<Vec<u8>>,
    d: Option<Vec<u8>>,
    last: Option<Place>,
    loads: Vec<u64>,
    puts: Vec<FailAt>,
    notes: Vec<FailAt>,
    probes: Vec<Asked>,
}

/// What a call is made over and what it leaves: the shelf, both sinks, and its exit status.
#[derive(Drop)]
pub(crate) struct Ending {
    pub(crate) shelf: MemShelf,
    pub(crate) out: MemSink,
    pub(crate) notes: MemSink,
    pub(crate) code: u8,
}

impl Stage {
    /// No files, and nothing fails.
    pub(crate) fn new(alloc: Global) -> Stage {
        Stage {
            t: None,
            m: None,
            f: None,
            d: None,
            last: None,
            loads: Vec::new(alloc),
            puts: Vec::new(alloc),
            notes: Vec::new(alloc),
            probes: Vec::new(alloc),
        }
    }

    /// A case begins: it has no files yet.
    pub(crate) fn begin_case(&mut self) {
        self.t = None;
        self.m = None;
        self.f = None;
        self.d = None;
        self.last = None;
    }

    // The bytes of a file of the case.
    fn file(&self, place: Place) -> &Option<Vec<u8>> {
        match place {
            Place::T => &self.t,
            Place::M => &self.m,
            Place::F => &self.f,
            Place::D => &self.d,
        }
    }

    fn file_mut(&mut self, place: Place) -> &mut Option<Vec<u8>> {
        match place {
            Place::T => &mut self.t,
            Place::M => &mut self.m,
            Place::F => &mut self.f,
            Place::D => &mut self.d,
        }
    }

    /// Begins the file of this name anew; `Script` if there is none of the name.
    pub(crate) fn begin(&mut self, alloc: Global, name: &str) -> Result<(), Trouble> {
        let place = Place::named(name).ok_or(Trouble::Script)?;
        *self.file_mut(place) = Some(Vec::new(alloc));
        self.last = Some(place);
        Ok(())
    }

    /// Adds bytes to the file that was begun last; `Script` if the case has none.
    pub(crate) fn add(&mut self, bytes: &[u8]) -> Result<(), Trouble> {
        let place = self.last.ok_or(Trouble::Script)?;
        match self.file_mut(place) {
            Some(file) => Ok(file.extend_from_slice(bytes)?),
            None => Err(Trouble::Script),
        }
    }

    /// Whether the word names a file that the case lacks.
    pub(crate) fn lacks(&self, word: &str) -> bool {
        match Place::named(word) {
            Some(place) => self.file(place).is_none(),
            None => false,
        }
    }

    /// In the next call this load fails.
    pub(crate) fn fail_load(&mut self, load: u64) -> Result<(), Trouble> {
        self.loads.push(load)?;
        Ok(())
    }

    /// In the next call this put of the answer fails.
    pub(crate) fn fail_put(&mut self, put: FailAt) -> Result<(), Trouble> {
        self.puts.push(put)?;
        Ok(())
    }

    /// In the next call this put of the notes fails.
    pub(crate) fn fail_note(&mut self, put: FailAt) -> Result<(), Trouble> {
        self.notes.push(put)?;
        Ok(())
    }

    /// The next call has one more probe, of all tasks: units are counted by a table, all else by a count.
    pub(crate) fn probe(&mut self, what: What, limit: Option<u64>) -> Result<(), Trouble> {
        let rule = of_all_tasks(what, limit);
        let probe = match what {
            What::Units => Asked::Table(rule),
            _ => Asked::Count(rule),
        };
        self.probes.push(probe)?;
        Ok(())
    }

    // Nothing fails any more, and there are no probes.
    fn clear(&mut self) {
        self.loads.clear();
        self.puts.clear();
        self.notes.clear();
        self.probes.clear();
    }

    // A shelf with the files of the case; one that it lacks is empty, and no call names it.
    fn shelf(&self, alloc: Global) -> Result<MemShelf, Trouble> {
        let mut shelf = MemShelf::new(alloc, &self.loads)?;
        shelf.add("T", bytes_of(&self.t))?;
        shelf.add("M", bytes_of(&self.m))?;
        shelf.add("F", bytes_of(&self.f))?;
        shelf.add("D", bytes_of(&self.d))?;
        Ok(shelf)
    }

    // The files on a shelf, and empty sinks.
    fn opened(&self, alloc: Global) -> Result<Ending, Trouble> {
        Ok(Ending {
            shelf: self.shelf(alloc)?,
            out: MemSink::new(alloc, ROOM, &self.puts)?,
            notes: MemSink::new(alloc, ROOM, &self.notes)?,
            code: 0,
        })
    }

    // Makes the call.
    fn make(&self, alloc: Global, words: &[String], ending: &mut Ending) -> Result<(), AllocError> {
        let mut probes = probes_of!(alloc, &self.probes);
        let status = rtdvs(
            alloc,
            words,
            &mut ending.shelf,
            &mut ending.out,
            &mut ending.notes,
            &mut probes,
        );
        ending.code = status.code();
        Ok(())
    }

    /// Makes the call. After it nothing fails, and there are no probes.
    pub(crate) fn call(&mut self, alloc: Global, words: &[String]) -> Result<Ending, Trouble> {
        let mut ending = self.opened(alloc)?;
        self.make(alloc, words, &mut ending)?;
        self.clear();
        Ok(ending)
    }
}
