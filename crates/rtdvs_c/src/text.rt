// A text that is written, and its end.
ghost use Rattle.std.specs.Prelude.{◌≡◌, [], Some, OnOk, OnErr, IfOk, ◌++◌, length};
ghost use Rattle.rtdvs_c.specs.Texts.{last};

use dvs_base::{Failed, Sink, Taken};
use std::alloc::{AllocError, Global};
use std::marker::Model;

/// A text that is written, of which the end is kept: at least the last `most` bytes, and at most twice as many and the
/// last piece. A put takes memory, and fails only if memory runs out.
#[derive(Drop)]
pub(crate) struct EndText {
    alloc: Global,
    kept: Vec<u8>,
    most: usize,
    taken: Taken,
    len: usize,
    faults: u64,
}

impl Model for EndText {
    ghost use Rattle.std.specs.Prelude.{◌≡◌, length};
    ghost use Rattle.rtdvs_c.specs.Texts.{TextView, IsEndOf};

    ghost Value = { TextView };

    ghost view = { λ s. record { bytes = s.taken.bytes; faults = s.faults } };

    ghost invariant = { λ s. IsEndOf s.kept.items s.taken.bytes × (s.len ≡ length s.taken.bytes) };
}

impl EndText {
    /// The empty text. It takes no memory.
    pub(crate) fn new(alloc: Global, most: usize) -> EndText
        ensures bytes { result.bytes ≡ [] }
        ensures faults { result.faults ≡ 0 }
    {
        let kept = Vec::new(alloc);
        let taken = Taken::new();
        EndText {
            alloc,
            kept,
            most,
            taken,
            len: 0,
            faults: 0,
        }
    }

    /// The length of the whole text, in bytes.
    pub(crate) fn len(&self) -> usize
        ensures { result ≡ length self.now.bytes }
    {
        self.len
    }

    /// How many puts have failed.
    pub(crate) fn faults(&self) -> u64
        ensures { result ≡ self.now.faults }
    {
        self.faults
    }

    /// The last `most` bytes of the text, or the whole text if it has fewer. It fails if memory runs out, or if fewer
    /// are kept.
    pub(crate) fn into_last(self, most: usize) -> Result<Vec<u8>, AllocError>
        ensures { IfOk result (λ v. v.items ≡ last most self.bytes) }
    {
        let count = self.len.min(most);
        let kept = self.kept.len();
        if kept < count {
            return Err(AllocError);
        }
        if kept == count {
            return Ok(self.kept);
        }
        Vec::from_slice(self.alloc, &self.kept[kept - count..])
    }

    // Leaves out the bytes before the end, if they are more than the end.
    fn cut(&mut self) -> Result<(), AllocError>
        ensures { self.new ≡ self.old }
    {
        if self.kept.len() / 2 > self.most {
            let first = self.kept.len() - self.most;
            self.kept = Vec::from_slice(self.alloc, &self.kept[first..])?;
        }
        Ok(())
    }

    // Adds the bytes. If memory runs out the text is as before.
    fn add(&mut self, bytes: &[u8]) -> Result<(), AllocError>
        ensures ok { OnOk result (self.new ≡ record self.old { bytes = self.old.bytes ++ bytes.now }) }
        ensures err { OnErr result (self.new ≡ self.old) }
    {
        let len = self.len.checked_add(bytes.len()).ok_or(AllocError)?;
        self.cut()?;
        self.kept.extend_from_slice(bytes)?;
        self.taken = self.taken.and_first(bytes, bytes.len());
        self.len = len;
        Ok(())
    }
}

impl Sink for EndText {
    ghost shows = { λ s. record { written = Some s.bytes; taken = s.bytes; faults = s.faults; sure = 0 } };

    fn put(&mut self, bytes: &[u8]) -> Result<(), Failed> {
        match self.add(bytes) {
            Ok(()) => Ok(()),
            Err(AllocError) => {
                self.faults = self.faults.saturating_add(1);
                Err(Failed)
            }
        }
    }
}
