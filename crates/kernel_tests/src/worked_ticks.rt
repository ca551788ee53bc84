// Ticks of the example of Pillai and Shin 2001, against the notes of the kernel. They are worked out by hand from the
// definition of the schedule, tick by tick: the speed, and the units of each task.
use crate::case::EXAMPLE;
use crate::plans::{edf_planned, rm_planned};
use crate::runs::{HeardRun, Setup, Walk, edf_run, rm_run};
use dvs_base::{GovernorKind, Note, Pos};
use std::alloc::Global;
use std::test::Fail;

// How many ticks are compared.
const TICKS: usize = 10;

// A tick: its speed, and the units that each task gets in it.
#[derive(Clone, Copy, Debug, PartialEq)]
struct Tick {
    speed: u64,
    units: [u64; 3],
}

// Sets the speed from this tick on.
fn set_speed(ticks: &mut [Tick; TICKS], from: u64, speed: u64) {
    for (at, tick) in ticks.iter_mut().enumerate() {
        if from <= at as u64 {
            tick.speed = speed;
        }
    }
}

// Adds one unit of a task at a position, and returns the position after it.
fn add_unit(ticks: &mut [Tick; TICKS], at: Pos, task: u32) -> Pos {
    let Some(tick) = ticks.get_mut(at.tick as usize) else {
        return at;
    };
    if let Some(units) = tick.units.get_mut(task as usize) {
        *units = units.saturating_add(1);
    }
    let offset = at.offset.saturating_add(1);
    if offset < tick.speed {
        Pos {
            tick: at.tick,
            offset,
        }
    } else {
        Pos {
            tick: at.tick.saturating_add(1),
            offset: 0,
        }
    }
}

// Adds the units of a segment one after the other; whether they end at `to`.
fn add_segment(ticks: &mut [Tick; TICKS], from: Pos, to: Pos, task: u32, units: u64) -> bool {
    let mut at = from;
    for _ in 0..units {
        at = add_unit(ticks, at, task);
    }
    at == to
}

// Adds the speed or the units of a note; whether its positions are right.
fn add_note(ticks: &mut [Tick; TICKS], note: &Note) -> bool {
    match note {
        Note::Speed { tick, speed, .. } => {
            set_speed(ticks, *tick, *speed);
            true
        }
        Note::Run {
            from,
            to,
            task,
            units,
            ..
        } => add_segment(ticks, *from, *to, *task, *units),
        _ => true,
    }
}

// The ticks of a run according to its notes.
fn ticks_of(run: &HeardRun) -> Result<[Tick; TICKS], Fail> {
    let mut ticks = [Tick {
        speed: 0,
        units: [0; 3],
    }; TICKS];
    for note in run.heard.all().ok_or("room for the notes")? {
        if !add_note(&mut ticks, note) {
            return Err("a segment that ends elsewhere")?;
        }
    }
    Ok(ticks)
}

// The ticks of a table.
fn table(rows: [(u64, [u64; 3]); TICKS]) -> [Tick; TICKS] {
    rows.map(|(speed, units)| Tick { speed, units })
}

// Under EDF with look-ahead. The demand is 21/8 at tick 0 and 8/5 at tick 3; later only work that can wait is left.
const EDF_AHEAD: [(u64, [u64; 3]); TICKS] = [
    (3, [3, 0, 0]),
    (3, [3, 0, 0]),
    (3, [2, 1, 0]),
    (2, [0, 2, 0]),
    (2, [0, 1, 1]),
    (2, [0, 0, 2]),
    (2, [0, 0, 1]),
    (2, [0, 0, 0]),
    (2, [2, 0, 0]),
    (2, [2, 0, 0]),
];

// The run of the example under EDF with look-ahead.
fn run_with_look_ahead(alloc: Global) -> Result<HeardRun, Fail> {
    let planned = edf_planned(alloc, EXAMPLE)?.ok_or("plan")?;
    let setup = Setup::of(&planned, EXAMPLE, TICKS as u64);
    edf_run(alloc, &setup, GovernorKind::Ahead, Walk::Events)
}

#[test]
fn ticks_under_edf_with_look_ahead(rt: HostRuntime) -> Result<(), Fail> {
    let run = run_with_look_ahead(rt.alloc())?;
    assert_eq!(rt; ticks_of(&run)?, table(EDF_AHEAD));
    Ok(())
}

// Under cycle-conserving RM. The demand is 28/8 at tick 0, 16/6 at tick 2, 2/4 at tick 4, 0/3 at tick 5, 8/2 at tick 8,
// where the second job of t1 may need 12 units, and 0/1 at tick 9.
const RM_CYCLE: [(u64, [u64; 3]); TICKS] = [
    (4, [4, 0, 0]),
    (4, [4, 0, 0]),
    (3, [0, 3, 0]),
    (3, [0, 1, 2]),
    (2, [0, 0, 2]),
    (2, [0, 0, 0]),
    (2, [0, 0, 0]),
    (2, [0, 0, 0]),
    (4, [4, 0, 0]),
    (2, [0, 0, 0]),
];

// The run of the example under cycle-conserving RM.
fn run_conserving_cycles(alloc: Global) -> Result<HeardRun, Fail> {
    let planned = rm_planned(alloc, EXAMPLE)?.ok_or("plan")?;
    let setup = Setup::of(&planned, EXAMPLE, TICKS as u64);
    rm_run(alloc, &setup, GovernorKind::Cycle, Walk::Events)
}

#[test]
fn ticks_under_cycle_conserving_rm(rt: HostRuntime) -> Result<(), Fail> {
    let run = run_conserving_cycles(rt.alloc())?;
    assert_eq!(rt; ticks_of(&run)?, table(RM_CYCLE));
    Ok(())
}
