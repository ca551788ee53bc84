// Lines of the example of Pillai and Shin 2001, and those that only version 2 has.
use dvs_base::{GovernorKind, Line, Name, Note, Pos, Scheduler, Version};
use std::process::Abort;
use std::test::Fail;
use trace_text::{
    PlanLine, TaskLine, write_head, write_note, write_share, write_task, write_version,
};

const START: Pos = Pos { tick: 0, offset: 0 };

const LATER: Pos = Pos { tick: 2, offset: 2 };

const NOTES: &[(Note, &[u8])] = &[
    (
        Note::Run {
            from: START,
            to: LATER,
            task: 0,
            job: 1,
            units: 8,
            energy: 128000000000,
        },
        b"run 0:0 2:2 t1 1 8 128000000000\n",
    ),
    (
        Note::Speed {
            tick: 0,
            speed: 3,
            num: 836,
            den: 280,
        },
        b"speed 0 3 836/280\n",
    ),
];

// A line has this text.
fn expect_text(rt: &impl Abort, line: &Line, text: &[u8]) {
    assert_eq!(rt; line.as_bytes(), text);
}

#[test]
fn lines_of_the_paper_example(rt: HostRuntime) -> Result<(), Fail> {
    let names = [Name::of(b"t1").ok_or("name")?];
    let plan = PlanLine {
        scheduler: Scheduler::Edf,
        governor: GovernorKind::Cycle,
        ticks: 16,
    };
    let mut line = Line::new();
    write_head(&mut line, plan);
    expect_text(&rt, &line, b"plan edf cc 16\n");
    for (note, text) in NOTES {
        let mut line = Line::new();
        write_note(&mut line, note, &names);
        expect_text(&rt, &line, text);
    }
    Ok(())
}

#[test]
fn lines_of_version_2(rt: HostRuntime) -> Result<(), Fail> {
    let name = Name::of(b"t2").ok_or("name")?;
    let mut line = Line::new();
    write_version(&mut line, Version::Two);
    expect_text(&rt, &line, b"trace 2\n");
    let mut line = Line::new();
    let task = TaskLine {
        period: 6,
        offset: 2,
        worst: 6,
    };
    write_task(&mut line, &name, task);
    expect_text(&rt, &line, b"task t2 6 2 6\n");
    let mut line = Line::new();
    write_share(&mut line, &name, 54000000000);
    expect_text(&rt, &line, b"energy t2 54000000000\n");
    Ok(())
}
