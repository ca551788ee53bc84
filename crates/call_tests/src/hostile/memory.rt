// A shelf that is always out of memory.
ghost use Rattle.std.specs.Prelude.{None, []};

use crate::call::{Faults, left_over};
use crate::hostile::example::EACH_THAT_LOADS;
use crate::hostile::lines::fail_at;
use dvs_base::{FailAt, LoadFault, Shelf};
use std::alloc::Global;
use std::test::Fail;
use test_inputs::Ending;

#[derive(Drop)]
struct FullShelf {
    loads: u64,
}

impl Shelf for FullShelf {
    ghost shows = { λ s. record { held = None; gave = []; faults = 0; sure = 0 } };

    fn load(&mut self, _alloc: Global, _name: &str, _room: u64) -> Result<Vec<u8>, LoadFault> {
        self.loads = self.loads.saturating_add(1);
        Err(LoadFault::NoMemory)
    }
}

// Memory runs out at the first load of the call. If this put of the notes is to fail, the text is on `notes`, and
// `failed` puts failed.
fn is_out_of_memory(
    alloc: Global,
    line: &str,
    failing: FailAt,
    notes: &str,
    failed: u64,
) -> Result<(), Fail> {
    let mut shelf = FullShelf { loads: 0 };
    let faults = Faults {
        loads: &[],
        puts: &[],
        notes: &[failing],
    };
    let ending = Ending {
        code: 9,
        out: "",
        notes,
        faults: [0, 0, failed],
    };
    let left = left_over(alloc, line, &mut shelf, faults)?;
    if shelf.loads != 1 {
        return Err(Fail::new(format_args!("{line}: more loads than one")));
    }
    left.is(line, ending)
}

// Memory runs out at the first load of the call, if the put of the notes succeeds and if it fails.
fn runs_out_of_memory(alloc: Global, line: &str) -> Result<(), Fail> {
    is_out_of_memory(alloc, line, fail_at(2, 0), "no memory\n", 0)?;
    is_out_of_memory(alloc, line, fail_at(1, 2), "no", 1)
}

#[test]
fn out_of_memory_for_a_file(rt: HostRuntime) -> Result<(), Fail> {
    for call in &EACH_THAT_LOADS {
        runs_out_of_memory(rt.alloc(), call.words)?;
    }
    Ok(())
}
