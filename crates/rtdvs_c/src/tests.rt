// Calls of the export as C makes them. The answers are worked out by hand.
use super::end::rtdvs_end;
use super::{Lengths, rtdvs_call};
use std::alloc::Global;
use std::test::Fail;

const TASKS: &[u8] = b"[[task]]\nname = \"a\"\nperiod = 2\nworst = 1\n";

const MACHINE: &[u8] = b"[[point]]\nspeed = 1\nmillivolts = 1000\n";

const ADMIT: &[u8] = b"admit\0--tasks\0tasks\0--machine\0machine\0--scheduler\0edf\0";

const ROOM: usize = 40;

// The exit status, both texts and their lengths, if `out` has room for this many bytes.
fn left(alloc: Global, words: &[u8], room: usize) -> (u8, [u8; ROOM], [u8; ROOM], Lengths) {
    let mut out = [b'.'; ROOM];
    let mut notes = [b'.'; ROOM];
    let mut lengths = Lengths { out: 7, notes: 7 };
    let code = rtdvs_call(
        alloc,
        words,
        TASKS,
        MACHINE,
        b"",
        &mut out[..room.min(ROOM)],
        &mut notes,
        &mut lengths,
    );
    (code, out, notes, lengths)
}

// One unit in each second tick is half of what speed 1 does.
#[test]
fn answers(rt: HostRuntime) -> Result<(), Fail> {
    let (code, out, _, lengths) = left(rt.alloc(), ADMIT, ROOM);
    assert_eq!(rt; code, 0);
    assert_eq!(rt; lengths.out, 19);
    assert_eq!(rt; &out[..20], b"admitted edf 1/2 1\n.".as_slice());
    assert_eq!(rt; lengths.notes, 0);
    Ok(())
}

#[test]
fn says_how_long_an_answer_without_room_is(rt: HostRuntime) -> Result<(), Fail> {
    let (code, out, _, lengths) = left(rt.alloc(), ADMIT, 8);
    assert_eq!(rt; code, 8);
    assert_eq!(rt; lengths.out, 19);
    assert_eq!(rt; &out[..9], b"admitted.".as_slice());
    Ok(())
}

// The last word may end with the bytes, and an empty word is one.
#[test]
fn refuses_words(rt: HostRuntime) -> Result<(), Fail> {
    let (code, _, notes, lengths) = left(rt.alloc(), b"admit\0\0--tasks", ROOM);
    assert_eq!(rt; code, 2);
    assert_eq!(rt; lengths.out, 0);
    assert_eq!(rt;
        &notes[..lengths.notes.min(ROOM)],
        b"words: 2: unexpected \n".as_slice()
    );
    let (code, _, _, lengths) = left(rt.alloc(), b"admit\0\xff", ROOM);
    assert_eq!(rt; code, 10);
    assert_eq!(rt; lengths.notes, 0);
    Ok(())
}

const RUN: &[u8] =
    b"run\0--tasks\0tasks\0--machine\0machine\0--scheduler\0edf\0--governor\0none\0--ticks\0120\0";

const LONG: usize = 16384;

// The exit status, the end of the answer and its length, if there is room for this many bytes.
fn end_left(alloc: Global, words: &[u8], room: usize) -> (u8, [u8; ROOM], Lengths) {
    let mut out = [b'.'; ROOM];
    let mut notes = [b'.'; ROOM];
    let mut lengths = Lengths { out: 7, notes: 7 };
    let code = rtdvs_end(
        alloc,
        words,
        TASKS,
        MACHINE,
        b"",
        &mut out[..room.min(ROOM)],
        &mut notes,
        &mut lengths,
    );
    (code, out, lengths)
}

#[test]
fn gives_the_end_of_an_answer(rt: HostRuntime) -> Result<(), Fail> {
    let (code, out, lengths) = end_left(rt.alloc(), ADMIT, 8);
    assert_eq!(rt; code, 0);
    assert_eq!(rt; lengths.out, 19);
    assert_eq!(rt; &out[..9], b"f 1/2 1\n.".as_slice());
    let (code, out, lengths) = end_left(rt.alloc(), ADMIT, ROOM);
    assert_eq!(rt; code, 0);
    assert_eq!(rt; lengths.out, 19);
    assert_eq!(rt; &out[..20], b"admitted edf 1/2 1\n.".as_slice());
    let (code, _, lengths) = end_left(rt.alloc(), ADMIT, 0);
    assert_eq!(rt; code, 0);
    assert_eq!(rt; lengths.out, 19);
    Ok(())
}

// A trace of 120 ticks is many times as long as the room.
#[test]
fn gives_the_end_of_a_long_answer(rt: HostRuntime) -> Result<(), Fail> {
    let mut whole = [b'.'; LONG];
    let mut notes = [b'.'; ROOM];
    let mut lengths = Lengths { out: 0, notes: 0 };
    let code = rtdvs_call(
        rt.alloc(),
        RUN,
        TASKS,
        MACHINE,
        b"",
        &mut whole,
        &mut notes,
        &mut lengths,
    );
    assert_eq!(rt; code, 0);
    assert!(rt; ROOM * 8 < lengths.out && lengths.out <= LONG);
    let (code, out, end) = end_left(rt.alloc(), RUN, ROOM);
    assert_eq!(rt; code, 0);
    assert_eq!(rt; end.out, lengths.out);
    assert_eq!(rt; out.as_slice(), &whole[lengths.out - ROOM..lengths.out]);
    Ok(())
}
