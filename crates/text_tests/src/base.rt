// Worked values, and each public call once.
use crate::trickling::Trickling;
use dvs_base::{
    FailAt, HostShelf, HostSink, Line, LoadFault, MemShelf, MemSink, MemberFault, Name, Part,
    Shelf, Short, Sink, VoidSink, line_of, member_at, number_at, put_num, read_document, text_at,
    unknown_key, whole, wide,
};
use std::alloc::Global;
use std::io::{Cursor, Write};
use std::process::Abort;
use std::rt::Files;
use std::test::Fail;
use std::{fs, io};

#[test]
fn numbers_have_one_spelling(rt: HostRuntime) {
    for (text, want) in &[
        ("0", Some(0)),
        ("18446744073709551615", Some(u64::MAX)),
        ("18446744073709551616", None),
        ("", None),
        ("007", None),
        ("+7", None),
    ] {
        assert_eq!(rt; whole(text.as_bytes()), *want, "{text}");
    }
}

#[test]
fn wide_numbers_end_at_128_bits(rt: HostRuntime) {
    for (text, want) in &[
        ("340282366920938463463374607431768211455", Some(u128::MAX)),
        ("340282366920938463463374607431768211456", None),
    ] {
        assert_eq!(rt; wide(text.as_bytes()), *want, "{text}");
    }
}

#[test]
fn a_line_is_put_together(rt: HostRuntime) {
    let mut line = Line::new();
    line.push(b"n ");
    put_num(&mut line, 42);
    assert_eq!(rt; line.as_bytes(), b"n 42".as_slice());
    let same = line_of(&[Part::Word(b"n "), Part::Number(42)]);
    assert_eq!(rt; same.as_bytes(), b"n 42".as_slice());
}

#[test]
fn names_differ_from_other_texts(rt: HostRuntime) {
    assert!(rt; Name::of(b"t-1_").is_some());
    assert!(rt; Name::of(b"t 1").is_none());
    assert!(rt; Name::of(b"").is_none());
    assert_eq!(rt; Short::of(b"a b").as_bytes(), b"a?b".as_slice());
}

// A sink in memory holds these bytes, and one put has failed.
fn expect_held(rt: &impl Abort, sink: &MemSink, bytes: &[u8]) {
    assert_eq!(rt; sink.bytes(), bytes);
    assert_eq!(rt; sink.faults(), 1);
}

#[test]
fn a_listed_put_fails(rt: HostRuntime) -> Result<(), Fail> {
    let listed = [FailAt { call: 2, taken: 3 }];
    let mut sink = MemSink::new(rt.alloc(), 100, &listed)?;
    assert!(rt; sink.put(b"trace 1\n").is_ok());
    assert!(rt; sink.put(b"plan edf none 16\n").is_err());
    expect_held(&rt, &sink, b"trace 1\npla");
    Ok(())
}

#[test]
fn a_put_without_room_adds_nothing(rt: HostRuntime) -> Result<(), Fail> {
    let mut sink = MemSink::new(rt.alloc(), 4, &[])?;
    assert!(rt; sink.put(b"12345").is_err());
    assert!(rt; sink.put(b"1234").is_ok());
    expect_held(&rt, &sink, b"1234");
    Ok(())
}

// A load of the named file with this room gives these bytes or has this fault.
fn expect_load(
    rt: &(impl Abort + AllocGlobal),
    shelf: &mut impl Shelf,
    name: &str,
    room: u32,
    want: Result<&[u8], LoadFault>,
) {
    let loaded = shelf.load(rt.alloc(), name, u64::from(room));
    let bytes = match &loaded {
        Ok(bytes) => Ok(bytes.as_slice()),
        Err(fault) => Err(*fault),
    };
    assert_eq!(rt; bytes, want, "{name}, room for {room}");
}

#[test]
fn a_load_gives_one_byte_more_than_the_room(rt: HostRuntime) -> Result<(), Fail> {
    let mut shelf = MemShelf::new(rt.alloc(), &[2])?;
    shelf.add("a", b"12345")?;
    expect_load(&rt, &mut shelf, "a", 3, Ok(b"1234"));
    expect_load(&rt, &mut shelf, "a", 3, Err(LoadFault::Failed));
    expect_load(&rt, &mut shelf, "b", 3, Err(LoadFault::Absent));
    assert_eq!(rt; shelf.faults(), 1);
    Ok(())
}

#[test]
fn a_void_sink_takes_every_piece(rt: HostRuntime) {
    let mut sink = VoidSink::new();
    assert!(rt; sink.put(b"trace").is_ok());
}

#[test]
fn a_host_sink_writes_until_its_writer_is_full(rt: HostRuntime) {
    let mut kept = [0u8; 6];
    let mut sink = HostSink::new(Cursor::new(kept.as_mut_slice()));
    assert!(rt; sink.put(b"1234").is_ok());
    assert!(rt; sink.put(b"56789").is_err());
    assert_eq!(rt; kept.as_slice(), b"123456".as_slice());
}

#[test]
fn a_host_shelf_reads_files(rt: HostRuntime) -> Result<(), Fail> {
    fs::write(&rt, "present", "12345")?;
    let mut shelf = HostShelf::new(&rt);
    expect_load(&rt, &mut shelf, "present", 3, Ok(b"1234"));
    expect_load(&rt, &mut shelf, "missing", 3, Err(LoadFault::Failed));
    Ok(())
}

// The bytes of a file of this length: bytes that are as far apart as a piece of the reader is long differ.
fn long_file(alloc: Global, length: u32) -> Result<Vec<u8>, Fail> {
    let mut bytes = Vec::new(alloc);
    for place in 0..length {
        bytes.push((place % 251) as u8)?;
    }
    Ok(bytes)
}

// The loaded bytes are the first `given` bytes of a file of these bytes.
fn expect_first_bytes(rt: &impl Abort, bytes: &[u8], room: u32, loaded: &[u8], given: usize) {
    let length = bytes.len();
    assert_eq!(rt; loaded.len(), given, "{length} bytes, room for {room}");
    assert!(rt;
        bytes.starts_with(loaded),
        "{length} bytes, room for {room}"
    );
}

// A file of `length` bytes, loaded with this room, gives its first `given` bytes.
fn loads_first_bytes(
    rt: &(impl Abort + AllocGlobal + Files),
    length: u32,
    room: u32,
    given: usize,
) -> Result<(), Fail> {
    let bytes = long_file(rt.alloc(), length)?;
    fs::write(rt, "long", &bytes)?;
    let loaded = HostShelf::new(rt).load(rt.alloc(), "long", u64::from(room));
    let loaded = loaded.ok().ok_or("long")?;
    expect_first_bytes(rt, &bytes, room, &loaded, given);
    Ok(())
}

// The reader takes pieces of 4096 bytes. Files of one, two and three pieces, of `room` bytes, of one byte more and of
// two more. Files that end a byte before or after a piece, with room for more.
#[test]
fn a_host_shelf_reads_files_of_several_pieces(rt: HostRuntime) -> Result<(), Fail> {
    for (length, room, given) in [
        (4096, 4096, 4096),
        (4097, 4096, 4097),
        (4098, 4096, 4097),
        (8192, 8192, 8192),
        (8193, 8192, 8193),
        (8194, 8192, 8193),
        (12288, 12288, 12288),
        (12289, 12288, 12289),
        (12290, 12288, 12289),
        (4095, 65536, 4095),
        (4096, 4095, 4096),
        (8191, 65536, 8191),
        (8193, 65536, 8193),
        (12289, 65536, 12289),
    ] {
        loads_first_bytes(&rt, length, room, given)?;
    }
    Ok(())
}

// Loads of one host shelf of these files with each room give these bytes or have these faults.
fn expect_host_loads(
    rt: &(impl Abort + AllocGlobal),
    files: &impl Files,
    wants: &[(u32, Result<&[u8], LoadFault>)],
) {
    let mut shelf = HostShelf::new(files);
    for (room, want) in wants {
        expect_load(rt, &mut shelf, "a", *room, *want);
    }
}

#[test]
fn a_reader_that_gives_less_is_asked_again(rt: HostRuntime) {
    let files = Trickling {
        text: b"12345",
        cut: None,
    };
    expect_host_loads(&rt, &files, &[(3, Ok(b"1234"))]);
    expect_host_loads(&rt, &files, &[(4, Ok(b"12345"))]);
    expect_host_loads(&rt, &files, &[(5, Ok(b"12345"))]);
}

#[test]
fn a_read_that_fails_in_mid_stream_fails_the_load(rt: HostRuntime) {
    let files = Trickling {
        text: b"12345",
        cut: Some(3),
    };
    let failed = Err(LoadFault::Failed);
    let wants = [
        (3, failed),
        (4, failed),
        (5, failed),
        (2, Ok(b"123".as_slice())),
    ];
    expect_host_loads(&rt, &files, &wants);
}

// Takes at most three bytes a call and counts its flushes, of which the one of the number `bad` fails.
#[derive(Drop)]
struct Flushed<'a> {
    taken: &'a mut Vec<u8>,
    flushes: u64,
    bad: u64,
}

impl<'a> Write for Flushed<'a> {
    fn write(&mut self, buf: &[u8]) -> io::Result<usize> {
        let most = buf.len().min(3);
        self.taken.extend_from_slice(&buf[..most])?;
        Ok(most)
    }

    fn flush(&mut self) -> io::Result<()> {
        self.flushes = self.flushes.saturating_add(1);
        if self.flushes == self.bad {
            return Err(io::Error::from(io::ErrorKind::BrokenPipe));
        }
        Ok(())
    }
}

// The put of the number `bad` fails, so each put flushes once, however many writes it takes, and a flush that fails is
// no success.
fn fails_at_flush(rt: &(impl Abort + AllocGlobal), bad: u64) {
    let mut taken = Vec::new(rt.alloc());
    let mut sink = HostSink::new(Flushed {
        taken: &mut taken,
        flushes: 0,
        bad,
    });
    for (flush, piece) in [(1, b"12345678".as_slice()), (2, b"90"), (3, b"abcd")] {
        assert_eq!(rt; sink.put(piece).is_err(), bad == flush, "flush {bad}");
    }
    assert_eq!(rt; taken.as_slice(), b"1234567890abcd".as_slice());
}

#[test]
fn a_put_fails_with_its_flush(rt: HostRuntime) {
    fails_at_flush(&rt, 1);
    fails_at_flush(&rt, 2);
    fails_at_flush(&rt, 3);
}

#[test]
fn the_keys_of_a_document_are_read(rt: HostRuntime) -> Result<(), Fail> {
    let text = b"\xef\xbb\xbfspeed = 0x1_0\nname = 't1'\n\"\xc3\xa9\" = 1.5\n";
    let table = read_document(rt.alloc(), text).ok().ok_or("document")?;
    assert_eq!(rt; number_at(&table, "speed", 1, 16), Ok(16));
    assert_eq!(rt; number_at(&table, "speed", 1, 15), Err(MemberFault::Range));
    assert_eq!(rt; number_at(&table, "name", 1, 15), Err(MemberFault::Kind));
    assert_eq!(rt; number_at(&table, "idle", 1, 15), Err(MemberFault::Missing));
    assert_eq!(rt; text_at(&table, "name"), Ok("t1"));
    assert!(rt; member_at(&table, "name").is_some());
    let key = unknown_key(&table, &["name", "speed"]).ok_or("key")?;
    assert_eq!(rt; key.as_bytes(), b"??".as_slice());
    assert!(rt; unknown_key(&table, &["name", "speed", "é"]).is_none());
    assert!(rt; read_document(rt.alloc(), b"\xff").is_err());
    Ok(())
}
