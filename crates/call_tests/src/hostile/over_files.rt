// A sink over a file that the test writes, and a shelf that reads the file.
use dvs_base::{HostShelf, HostSink, Shelf, Sink};
use std::fs;
use std::test::Fail;

#[test]
fn a_sink_over_a_file_and_a_shelf_that_reads_it(rt: HostRuntime) -> Result<(), Fail> {
    let mut sink = HostSink::new(fs::create(&rt, "written")?);
    sink.put(b"trace 1\n")?;
    sink.put(b"")?;
    sink.put(b"plan edf none 16\n")?;
    drop(sink);
    let mut shelf = HostShelf::new(&rt);
    let bytes = shelf.load(rt.alloc(), "written", 100)?;
    assert_eq!(rt; bytes.as_slice(), b"trace 1\nplan edf none 16\n".as_slice());
    assert!(rt; shelf.load(rt.alloc(), "absent", 100).is_err());
    Ok(())
}
