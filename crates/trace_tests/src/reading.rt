// Whole traces, texts with errors, and single lines.
ghost use Rattle.std.specs.Prelude.{◌≡◌, [], ◌∷◌, codes, IfOk};

use dvs_base::{LONGEST_LINE, MOST_LINES, MOST_TICKS, Name, Note, Pos, Version};
use std::alloc::Global;
use std::process::Abort;
use std::test::Fail;
use trace_reader::{Trace, TraceFault, TraceKind, read_any, read_trace};
use trace_text::TaskLine;

const START: Pos = Pos { tick: 0, offset: 0 };

const LATER: Pos = Pos { tick: 2, offset: 2 };

// The paper's example under cycle-conserving EDF: the first two lines, the third, and the others.
const HEAD: &[u8] = b"trace 1\nplan edf cc 16\n";

const THIRD: &[u8] = b"release 0 t1 1\n";

const OTHERS: &[u8] =
    b"release 0 t2 1\nrelease 0 t3 1\nspeed 0 3 836/280\nrun 0:0 2:2 t1 1 8 128000000000\ndone 2:2 t1 1 8\nrun 2:2 3:0 t2 1 1 16000000000\nspeed 3 3 696/280\nrun 3:0 4:0 t2 1 3 48000000000\ndone 4:0 t2 1 4\nspeed 4 2 472/280\nrun 4:0 6:0 t3 1 4 36000000000\ndone 6:0 t3 1 4\nspeed 6 2 472/280\nidle 6:0 8:0 4 0\nrelease 8 t1 2\nspeed 8 3 612/280\nrun 8:0 9:1 t1 2 4 64000000000\ndone 9:1 t1 2 4\nidle 9:1 10:0 2 0\nrelease 10 t2 2\nspeed 10 2 556/280\nrun 10:0 12:0 t2 2 4 36000000000\ndone 12:0 t2 2 4\nspeed 12 2 332/280\nidle 12:0 14:0 4 0\nrelease 14 t3 2\nspeed 14 2 332/280\nrun 14:0 16:0 t3 2 4 36000000000\ndone 16:0 t3 2 4\nend 16 364000000000 0\n";

// A trace of two tasks, the second of which begins later: the lines before its energies.
const NOTES: &[u8] =
    b"trace 2\nplan edf cc 8\ntask x 4 0 4\ntask y 6 2 6\nrelease 0 x 1\nspeed 0 2 12/12\nrun 0:0 2:0 x 1 4 36000000000\ndone 2:0 x 1 4\nrelease 2 y 1\nspeed 2 2 24/12\nrun 2:0 4:0 y 1 4 36000000000\nrelease 4 x 2\nspeed 4 2 24/12\nrun 4:0 6:0 x 2 4 36000000000\ndone 6:0 x 2 4\nspeed 6 2 24/12\nrun 6:0 7:0 y 1 2 18000000000\ndone 7:0 y 1 6\nspeed 7 2 24/12\nidle 7:0 8:0 2 0\n";

// The pieces, joined one after another.
fn joined(alloc: Global, pieces: &[&[u8]]) -> Result<Vec<u8>, Fail> {
    let mut text = Vec::new(alloc);
    for piece in pieces {
        text.extend_from_slice(piece)?;
    }
    Ok(text)
}

// The names of the paper's example's tasks.
fn three_names() -> Result<[Name; 3], Fail>
    ensures { IfOk result (λ names. names ≡ codes "t1" ∷ codes "t2" ∷ codes "t3" ∷ []) }
{
    match (Name::of(b"t1"), Name::of(b"t2"), Name::of(b"t3")) {
        (Some(a), Some(b), Some(c)) => Ok([a, b, c]),
        _ => Err("name".into()),
    }
}

// The names of two tasks, the second of which begins later.
fn two_names() -> Result<[Name; 2], Fail>
    ensures { IfOk result (λ names. names ≡ codes "x" ∷ codes "y" ∷ []) }
{
    match (Name::of(b"x"), Name::of(b"y")) {
        (Some(a), Some(b)) => Ok([a, b]),
        _ => Err("name".into()),
    }
}

const X_AND_Y: [TaskLine; 2] = [
    TaskLine {
        period: 4,
        offset: 0,
        worst: 4,
    },
    TaskLine {
        period: 6,
        offset: 2,
        worst: 6,
    },
];

fn read_paper(alloc: Global, text: &[u8]) -> Result<Result<Trace, TraceFault>, Fail> {
    let names = three_names()?;
    Ok(read_trace(alloc, text, &names))
}

fn read_pair(alloc: Global, text: &[u8]) -> Result<Result<Trace, TraceFault>, Fail> {
    let names = two_names()?;
    Ok(read_any(alloc, text, &names, &X_AND_Y))
}

fn refused(line: u64, kind: TraceKind) -> Option<TraceFault> {
    Some(TraceFault::Refused { line, kind })
}

#[test]
fn the_paper_example_is_read(rt: HostRuntime) -> Result<(), Fail> {
    let text = joined(rt.alloc(), &[HEAD, THIRD, OTHERS])?;
    let trace = read_paper(rt.alloc(), &text)?.ok().ok_or("refused")?;
    assert_eq!(rt; trace.version, Version::One);
    assert_eq!(rt; trace.plan.ticks, 16);
    assert_eq!(rt; trace.notes.len(), 31);
    assert_eq!(rt;
        trace.notes[6],
        Note::Run {
            from: LATER,
            to: Pos { tick: 3, offset: 0 },
            task: 1,
            job: 1,
            units: 1,
            energy: 16000000000,
        }
    );
    Ok(())
}

#[test]
fn each_proper_prefix_has_no_end(rt: HostRuntime) -> Result<(), Fail> {
    let text = joined(rt.alloc(), &[HEAD, THIRD, OTHERS])?;
    let mut line = 1;
    for i in 0..text.len() {
        assert!(rt; line < 100);
        assert_eq!(rt;
            read_paper(rt.alloc(), &text[..i])?.err(),
            refused(line, TraceKind::NoEnd)
        );
        if text[i] == b'\n' {
            line += 1;
        }
    }
    Ok(())
}

// The refusal of the paper's example with these first two lines, third line and lines after the last.
fn paper_refused(
    alloc: Global,
    head: &[u8],
    third: &[u8],
    after: &[u8],
) -> Result<Option<TraceFault>, Fail> {
    let text = joined(alloc, &[head, third, OTHERS, after])?;
    Ok(read_paper(alloc, &text)?.err())
}

// The first two lines and the third of the paper's example, changed, and the line and the kind of its refusal.
type Changed = (&'static [u8], &'static [u8], u64, TraceKind);

// Each changed example is refused as its row says.
fn paper_refuses(rt: &(impl Abort + AllocGlobal), rows: &[Changed]) -> Result<(), Fail> {
    for (head, third, line, kind) in rows {
        let found = paper_refused(rt.alloc(), head, third, b"")?;
        assert_eq!(rt; found, refused(*line, *kind), "{line}");
    }
    Ok(())
}

// The paper's example with each of these third lines is refused at it with this kind.
fn third_refused(
    rt: &(impl Abort + AllocGlobal),
    thirds: &[&[u8]],
    kind: TraceKind,
) -> Result<(), Fail> {
    for third in thirds {
        let found = paper_refused(rt.alloc(), HEAD, third, b"")?;
        assert_eq!(rt; found, refused(3, kind));
    }
    Ok(())
}

const FIRST_LINES: &[Changed] = &[
    (b"trace 3\nplan edf cc 16\n", THIRD, 1, TraceKind::Version),
    (b"trace 2\nplan edf cc 16\n", THIRD, 1, TraceKind::Version),
    (b"trace 01\nplan edf cc 16\n", THIRD, 1, TraceKind::Version),
    (b"trace  1\nplan edf cc 16\n", THIRD, 1, TraceKind::Version),
    (b"trace 1\r\nplan edf cc 16\n", THIRD, 1, TraceKind::Version),
    (b"\ntrace 1\nplan edf cc 16\n", THIRD, 1, TraceKind::Version),
    (b"trace 1\nplan rm la 16\n", THIRD, 2, TraceKind::Plan),
    (b"trace 1\nplan edf cc 0\n", THIRD, 2, TraceKind::Plan),
    (b"trace 1\nplan edf cc 016\n", THIRD, 2, TraceKind::Plan),
    (
        b"trace 1\nplan edf cc 1099511627777\n",
        THIRD,
        2,
        TraceKind::Plan,
    ),
    (b"trace 1\nplan edf cc  16\n", THIRD, 2, TraceKind::Plan),
    (b"trace 1\nplan edf cc 16 \n", THIRD, 2, TraceKind::Plan),
    (b"trace 1\nplan cc edf 16\n", THIRD, 2, TraceKind::Plan),
    (b"trace 1\nplans edf cc 16\n", THIRD, 2, TraceKind::Plan),
    (b"trace 1\n\n", THIRD, 2, TraceKind::Plan),
];

#[test]
fn first_lines_are_the_version_and_the_plan(rt: HostRuntime) -> Result<(), Fail> {
    paper_refuses(&rt, FIRST_LINES)
}

const NO_WORDS: &[&[u8]] = &[
    b"release 0  t1 1\n",
    b" release 0 t1 1\n",
    b"release 0 t1 1 \n",
    b"release 00 t9\n",
    b"release\n",
    b"Release 0 t1 1\n",
    b"run 0:0 2:2 t1 1 8\n",
    b"idle 0:0 2:2 1 0 0\n",
    b"energy t1 0\n",
    b"\n",
];

#[test]
fn lines_of_no_word_are_refused(rt: HostRuntime) -> Result<(), Fail> {
    third_refused(&rt, NO_WORDS, TraceKind::Word)
}

const BAD_NUMBERS: &[&[u8]] = &[
    b"release 00 t1 1\n",
    b"release +0 t1 1\n",
    b"release  t1 1\n",
    b"release 18446744073709551616 t1 1\n",
    b"release 0 t1 01\n",
    b"release 00 t9 1\n",
    b"speed 0 3 836\n",
    b"speed 0 3 836/280/1\n",
    b"speed 0 3 836/0280\n",
    b"speed 0 3 340282366920938463463374607431768211456/1\n",
    b"done 2 t1 1 8\n",
    b"done 2:02 t1 1 8\n",
    b"done 2:2: t1 1 8\n",
    b"idle 0:0 1:0 1 -0\n",
    b"end 16 0x10 0\n",
];

#[test]
fn a_number_has_one_spelling(rt: HostRuntime) -> Result<(), Fail> {
    third_refused(&rt, BAD_NUMBERS, TraceKind::Number)
}

const BAD_NAMES: &[&[u8]] = &[
    b"release 0 t9 1\n",
    b"release 0 t9 01\n",
    b"done 0:0  1 0\n",
    b"run 0:0 2:2 t1\xFF 1 8 0\n",
    b"run 0:0 2:2 t1\0 1 8 0\n",
];

#[test]
fn a_name_is_that_of_a_task(rt: HostRuntime) -> Result<(), Fail> {
    third_refused(&rt, BAD_NAMES, TraceKind::Task)
}

#[test]
fn nothing_stands_after_the_end(rt: HostRuntime) -> Result<(), Fail> {
    let pieces: [&[u8]; 3] = [b"\n", b" ", THIRD];
    for after in pieces {
        assert_eq!(rt;
            paper_refused(rt.alloc(), HEAD, THIRD, after)?,
            refused(34, TraceKind::AfterEnd)
        );
    }
    assert_eq!(rt; paper_refused(rt.alloc(), HEAD, THIRD, b"")?, None);
    Ok(())
}

#[test]
fn a_line_has_at_most_255_bytes(rt: HostRuntime) -> Result<(), Fail> {
    let mut line = Vec::new(rt.alloc());
    for _ in 0..LONGEST_LINE {
        line.push(b'x')?;
    }
    let kept = joined(rt.alloc(), &[&line, b"\n"])?;
    assert_eq!(rt;
        paper_refused(rt.alloc(), HEAD, &kept, b"")?,
        refused(3, TraceKind::Word)
    );
    let longer = joined(rt.alloc(), &[&line, b"x\n"])?;
    assert_eq!(rt;
        paper_refused(rt.alloc(), HEAD, &longer, b"")?,
        refused(3, TraceKind::TooLong)
    );
    Ok(())
}

// A trace of `lines` lines.
fn long_trace(alloc: Global, lines: u64) -> Result<Vec<u8>, Fail> {
    let mut text = joined(alloc, &[HEAD])?;
    for _ in 3..lines {
        text.extend_from_slice(b"idle 0:0 0:0 0 0\n")?;
    }
    text.extend_from_slice(b"end 0 0 0\n")?;
    Ok(text)
}

#[test]
fn a_trace_has_at_most_800000_lines(rt: HostRuntime) -> Result<(), Fail> {
    let text = long_trace(rt.alloc(), MOST_LINES)?;
    let trace = read_paper(rt.alloc(), &text)?.ok().ok_or("refused")?;
    assert_eq!(rt; trace.notes.len() as u64, MOST_LINES - 2);
    let text = long_trace(rt.alloc(), MOST_LINES + 1)?;
    assert_eq!(rt;
        read_paper(rt.alloc(), &text)?.err(),
        refused(MOST_LINES + 1, TraceKind::TooMany)
    );
    Ok(())
}

#[test]
fn nothing_stands_after_an_end_on_line_800000(rt: HostRuntime) -> Result<(), Fail> {
    let mut text = long_trace(rt.alloc(), MOST_LINES)?;
    text.push(b'\n')?;
    assert_eq!(rt;
        read_paper(rt.alloc(), &text)?.err(),
        refused(MOST_LINES + 1, TraceKind::AfterEnd)
    );
    Ok(())
}

#[test]
fn a_piece_on_line_800001_has_no_end(rt: HostRuntime) -> Result<(), Fail> {
    let mut text = long_trace(rt.alloc(), MOST_LINES + 1)?;
    let _feed = text.pop();
    assert_eq!(rt;
        read_paper(rt.alloc(), &text)?.err(),
        refused(MOST_LINES + 1, TraceKind::NoEnd)
    );
    Ok(())
}

#[test]
fn numbers_reach_their_last_value(rt: HostRuntime) -> Result<(), Fail> {
    let third: &[u8] =
        b"release 18446744073709551615 t3 18446744073709551615\nspeed 0 18446744073709551615 340282366920938463463374607431768211455/340282366920938463463374607431768211455\n";
    assert_eq!(rt; paper_refused(rt.alloc(), HEAD, third, b"")?, None);
    let last =
        b"trace 1\nplan rm cc 1099511627776\nend 18446744073709551615 340282366920938463463374607431768211455 0\n";
    let trace = read_paper(rt.alloc(), last)?.ok().ok_or("refused")?;
    assert_eq!(rt; trace.plan.ticks, MOST_TICKS);
    assert_eq!(rt; trace.notes.len(), 1);
    assert_eq!(rt;
        trace.notes[0],
        Note::End {
            ticks: u64::MAX,
            run: u128::MAX,
            idle: 0,
        }
    );
    Ok(())
}

const CARRIAGE_RETURNS: &[Changed] = &[
    (b"trace 1\r\nplan edf cc 16\n", THIRD, 1, TraceKind::Version),
    (b"trace 1\nplan edf cc 16\r\n", THIRD, 2, TraceKind::Plan),
    (HEAD, b"release 0 t1 1\r\n", 3, TraceKind::Number),
    (HEAD, b"end 16 364000000000 0\r\n", 3, TraceKind::Number),
];

#[test]
fn a_carriage_return_does_not_end_a_line(rt: HostRuntime) -> Result<(), Fail> {
    paper_refuses(&rt, CARRIAGE_RETURNS)
}

#[test]
fn both_versions_are_read(rt: HostRuntime) -> Result<(), Fail> {
    let text = joined(
        rt.alloc(),
        &[
            NOTES,
            b"energy x 72000000000\nenergy y 54000000000\nend 8 126000000000 0\n",
        ],
    )?;
    let trace = read_pair(rt.alloc(), &text)?.ok().ok_or("refused")?;
    assert_eq!(rt; trace.version, Version::Two);
    assert_eq!(rt; trace.notes.len(), 17);
    let text = b"trace 1\nplan edf cc 3\nspeed 0 2 0/4\nidle 0:0 3:0 6 0\nend 3 0 0\n";
    let trace = read_pair(rt.alloc(), text)?.ok().ok_or("refused")?;
    assert_eq!(rt; trace.version, Version::One);
    Ok(())
}

// Lines, and the line and the kind of the refusal of a trace that ends with them.
type Refusal = (&'static [u8], u64, TraceKind);

// Some lines, and then others.
fn followed(alloc: Global, before: &[u8], last: &[u8]) -> Result<Vec<u8>, Fail> {
    let mut text = Vec::new(alloc);
    text.extend_from_slice(before)?;
    text.extend_from_slice(last)?;
    Ok(text)
}

// Each trace of two tasks that begins with `before` and ends with the lines of a row is refused as the row says.
fn pair_refuses(
    rt: &(impl Abort + AllocGlobal),
    before: &[u8],
    rows: &[Refusal],
) -> Result<(), Fail> {
    for row in rows {
        let (last, line, kind) = *row;
        let text = followed(rt.alloc(), before, last)?;
        let found = read_pair(rt.alloc(), &text)?.err();
        assert_eq!(rt; found, refused(line, kind), "{line}");
    }
    Ok(())
}

const WRONG_SUMS: &[Refusal] = &[
    (
        b"energy x 72000000001\nenergy y 54000000000\nend 8 0 0\n",
        21,
        TraceKind::Share,
    ),
    (
        b"energy x 72000000000\nenergy y 0\nend 8 0 0\n",
        22,
        TraceKind::Share,
    ),
    // a sum beyond 2^128 has no text
    (
        b"run 0:0 0:0 x 1 0 340282366920938463463374607431768211455\nenergy x 71999999999\n",
        22,
        TraceKind::Share,
    ),
    // the sum is one above the greatest number
    (
        b"run 0:0 0:0 x 1 0 340282366920938463463374607431768211455\nenergy x 340282366920938463463374679431768211455\n",
        22,
        TraceKind::Number,
    ),
];

#[test]
fn energies_are_the_sums(rt: HostRuntime) -> Result<(), Fail> {
    pair_refuses(&rt, NOTES, WRONG_SUMS)?;
    let right = b"energy x 72000000000\nenergy y 54000000000\nend 8 0 0\n";
    let text = joined(rt.alloc(), &[NOTES, right])?;
    assert_eq!(rt; read_pair(rt.alloc(), &text)?.err(), None);
    Ok(())
}

const WRONG_ORDERS: &[Refusal] = &[
    (b"energy y 54000000000\nend 8 0 0\n", 21, TraceKind::Order),
    (b"end 8 0 0\n", 21, TraceKind::Order),
    (b"energy x 72000000000\nend 8 0 0\n", 22, TraceKind::Order),
    (
        b"energy x 72000000000\nidle 8:0 9:0 1 0\n",
        22,
        TraceKind::Order,
    ),
    (
        b"energy x 72000000000\nidle 8:0 9:0 1 00\n",
        22,
        TraceKind::Number,
    ),
    (
        b"energy x 72000000000\nenergy y 54000000000\nenergy y 54000000000\n",
        23,
        TraceKind::Order,
    ),
    (
        b"energy x 72000000000\nenergy y 54000000000\n",
        23,
        TraceKind::NoEnd,
    ),
];

#[test]
fn energies_stand_in_file_order_before_the_end(rt: HostRuntime) -> Result<(), Fail> {
    pair_refuses(&rt, NOTES, WRONG_ORDERS)
}

const WRONG_TASKS: &[Refusal] = &[
    (b"task x 4 0 5\n", 3, TraceKind::TaskLine),
    (b"task y 4 0 4\n", 3, TraceKind::TaskLine),
    (b"task x 4 0 04\n", 3, TraceKind::TaskLine),
    (b"task x 4 0 4 \n", 3, TraceKind::TaskLine),
    (b"task x 4 0\n", 3, TraceKind::TaskLine),
    (b"release 0 x 1\n", 3, TraceKind::TaskLine),
    (b"task x 4 0 4\ntask y 6 0 6\n", 4, TraceKind::TaskLine),
    (b"task x 4 0 4\n", 4, TraceKind::NoEnd),
];

#[test]
fn the_lines_of_the_tasks_are_those_of_the_set(rt: HostRuntime) -> Result<(), Fail> {
    pair_refuses(&rt, b"trace 2\nplan edf cc 8\n", WRONG_TASKS)
}
