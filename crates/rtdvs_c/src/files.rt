// The files of a call.
ghost use Rattle.std.specs.Prelude.{◌≡◌};
ghost use Rattle.std.specs.Option.{option_copied};
ghost use Rattle.dvs_base.specs.Outside.{file_of};
ghost use Rattle.rtdvs_c.specs.Replies.{held_by, shown_shelf};

use dvs_base::{LoadFault, Loaded, Shelf};
use std::alloc::Global;

/// The three files of a call.
#[derive(Clone, Copy)]
pub(crate) struct CallFiles<'a> {
    pub(crate) tasks: &'a [u8],
    pub(crate) machine: &'a [u8],
    pub(crate) list: &'a [u8],
}

impl<'a> CallFiles<'a> {
    // The file of this name.
    fn named(&self, name: &str) -> Option<&'a [u8]>
        ensures { option_copied result ≡ file_of (held_by self.now) name.now }
    {
        match name {
            "tasks" => Some(self.tasks),
            "machine" => Some(self.machine),
            "demands" | "trace" | "deadlines" | "requests" => Some(self.list),
            _ => None,
        }
    }
}

/// The shelf of a call: its files, and the loads that gave bytes. No load fails, unless memory runs out.
#[derive(Drop)]
pub(crate) struct CallShelf<'a> {
    pub(crate) files: CallFiles<'a>,
    pub(crate) loaded: Loaded,
}

impl<'a> Shelf for CallShelf<'a> {
    ghost shows = { shown_shelf };

    fn load(&mut self, alloc: Global, name: &str, room: u64) -> Result<Vec<u8>, LoadFault> {
        let file = match self.files.named(name) {
            Some(file) => file,
            None => return Err(LoadFault::Absent),
        };
        let most = file.len().min(room as usize + 1);
        match Vec::from_slice(alloc, &file[..most]) {
            Ok(bytes) => {
                self.loaded = self.loaded.and(name.as_bytes(), room, &bytes);
                Ok(bytes)
            }
            Err(_) => Err(LoadFault::NoMemory),
        }
    }
}
