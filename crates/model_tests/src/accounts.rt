// Accounts of worked runs.
ghost use Rattle.std.specs.Prelude.{◌≡◌, ◌≤◌, ◌<◌, ◌+◌, ◌^◌, ◌↔◌, [], IfOk, IsTrue, length};
ghost use Rattle.energy.specs.Books.{books_of, HasTask, HasRoom};

use dvs_base::{Note, Pos, Totals};
use energy::{Account, energy_of};
use freq_table::Machine;
use std::alloc::Global;
use std::process::Abort;
use std::test::Fail;
use test_inputs::example::{CONTROLLER_MACHINE, PAPER_MACHINE};

fn machine_of(alloc: Global, text: &[u8]) -> Result<Machine, Fail> {
    Ok(Machine::read(alloc, text).ok().ok_or("machine")?)
}

// A new account of `tasks` tasks on the machine of a file of `points` entries.
fn account_of(alloc: Global, text: &[u8], tasks: u32, points: u32) -> Result<Account, Fail>
    ensures { IfOk result (λ a. a ≡ books_of tasks points []) }
{
    let machine = machine_of(alloc, text)?;
    if machine.count() != points {
        return Err(Fail::from("machine"));
    }
    Ok(Account::new(alloc, tasks, &machine)?)
}

fn position((tick, offset): (u64, u64)) -> Pos {
    Pos { tick, offset }
}

// A note by its numbers, in the order of its line in a trace.
#[derive(Clone, Copy)]
enum Row {
    Release(u64, u32, u64),
    Speed(u64, u64, u128, u128),
    Run((u64, u64), (u64, u64), u32, u64, u64, u128),
    Idle((u64, u64), (u64, u64), u64, u128),
    Done((u64, u64), u32, u64, u64),
    End(u64, u128, u128),
}

fn note(row: Row) -> Note {
    match row {
        Row::Release(tick, task, job) => Note::Release { tick, task, job },
        Row::Speed(tick, speed, num, den) => Note::Speed {
            tick,
            speed,
            num,
            den,
        },
        Row::Run(from, to, task, job, units, energy) => Note::Run {
            from: position(from),
            to: position(to),
            task,
            job,
            units,
            energy,
        },
        Row::Idle(from, to, units, energy) => Note::Idle {
            from: position(from),
            to: position(to),
            units,
            energy,
        },
        Row::Done(at, task, job, used) => Note::Done {
            at: position(at),
            task,
            job,
            used,
        },
        Row::End(ticks, run, idle) => Note::End { ticks, run, idle },
    }
}

// Whether `more` fits into a sum.
fn fits(sum: u128, more: u128) -> bool
    ensures { IsTrue result → sum + more < 2 ^ 128 }
{
    sum.checked_add(more).is_some()
}

// Whether an account of `tasks` tasks and `points` entries can add a note with the entry in force.
fn can_book(account: &Account, told: &(Note, u32), tasks: u32, points: u32) -> bool
    requires tasks { length account.now.by_task ≡ tasks }
    requires points { length account.now.by_point ≡ points }
    ensures task { IsTrue result → HasTask account.now told.now.0 }
    ensures point { IsTrue result → told.now.1 < points }
    ensures room { IsTrue result → HasRoom account.now told.now.0 told.now.1 }
{
    let (note, point) = *told;
    if point >= points {
        return false;
    }
    let sums = account.totals();
    match note {
        Note::Release { task, .. } => task < tasks && sums.released < u64::MAX,
        Note::Speed { .. } => sums.decisions < u64::MAX,
        Note::Run { task, energy, .. } => {
            task < tasks
                && fits(sums.run, energy)
                && fits(account.of_task(task), energy)
                && fits(account.of_point(point), energy)
        }
        Note::Idle { energy, .. } => {
            fits(sums.idle, energy) && fits(account.of_point(point), energy)
        }
        Note::Done { task, .. } => task < tasks && sums.finished < u64::MAX,
        Note::End { .. } => true,
    }
}

// Adds the notes as far as they fit, and returns how many did.
fn book_all(account: &mut Account, rows: &[(Row, u32)], tasks: u32, points: u32) -> usize
    requires tasks { length account.old.by_task ≡ tasks }
    requires points { length account.old.by_point ≡ points }
    ensures tasks { length account.new.by_task ≡ tasks }
    ensures points { length account.new.by_point ≡ points }
{
    for (i, row) in rows.iter().enumerate() {
        let told = (note(row.0), row.1);
        if !can_book(account, &told, tasks, points) {
            return i;
        }
        account.add(&told.0, told.1);
    }
    rows.len()
}

const PAPER_NOTES: &[(Row, u32)] = &[
    (Row::Release(0, 0, 1), 1),
    (Row::Release(0, 1, 1), 1),
    (Row::Release(0, 2, 1), 1),
    (Row::Speed(0, 3, 836, 280), 1),
    (Row::Run((0, 0), (2, 2), 0, 1, 8, 128000000000), 1),
    (Row::Done((2, 2), 0, 1, 8), 1),
    (Row::Run((2, 2), (3, 0), 1, 1, 1, 16000000000), 1),
    (Row::Speed(3, 3, 696, 280), 1),
    (Row::Run((3, 0), (4, 0), 1, 1, 3, 48000000000), 1),
    (Row::Done((4, 0), 1, 1, 4), 1),
    (Row::Speed(4, 2, 472, 280), 0),
    (Row::Run((4, 0), (6, 0), 2, 1, 4, 36000000000), 0),
    (Row::Done((6, 0), 2, 1, 4), 0),
    (Row::Speed(6, 2, 472, 280), 0),
    (Row::Idle((6, 0), (8, 0), 4, 0), 0),
    (Row::Release(8, 0, 2), 0),
    (Row::Speed(8, 3, 612, 280), 1),
    (Row::Run((8, 0), (9, 1), 0, 2, 4, 64000000000), 1),
    (Row::Done((9, 1), 0, 2, 4), 1),
    (Row::Idle((9, 1), (10, 0), 2, 0), 1),
    (Row::Release(10, 1, 2), 1),
    (Row::Speed(10, 2, 556, 280), 0),
    (Row::Run((10, 0), (12, 0), 1, 2, 4, 36000000000), 0),
    (Row::Done((12, 0), 1, 2, 4), 0),
    (Row::Speed(12, 2, 332, 280), 0),
    (Row::Idle((12, 0), (14, 0), 4, 0), 0),
    (Row::Release(14, 2, 2), 0),
    (Row::Speed(14, 2, 332, 280), 0),
    (Row::Run((14, 0), (16, 0), 2, 2, 4, 36000000000), 0),
    (Row::Done((16, 0), 2, 2, 4), 0),
    (Row::End(16, 364000000000, 0), 0),
];

// The account has these totals, and its first three tasks these energies.
fn expect_sums(rt: &impl Abort, account: &Account, totals: Totals, energies: (u128, u128, u128))
    requires { 3 ≤ length account.now.by_task }
{
    assert_eq!(rt; account.totals(), totals);
    let tasks = (account.of_task(0), account.of_task(1), account.of_task(2));
    assert_eq!(rt; tasks, energies);
}

// The account has the sums of the paper's example.
fn expect_paper_sums(rt: &impl Abort, account: &Account)
    requires tasks { length account.now.by_task ≡ 3 }
    requires points { length account.now.by_point ≡ 3 }
{
    let totals = Totals {
        run: 364000000000,
        idle: 0,
        released: 6,
        finished: 6,
        decisions: 8,
    };
    let energies = (192000000000, 100000000000, 72000000000);
    expect_sums(rt, account, totals, energies);
    let points = (
        account.of_point(0),
        account.of_point(1),
        account.of_point(2),
    );
    assert_eq!(rt; points, (108000000000, 256000000000, 0));
}

#[test]
fn paper_example_is_booked(rt: HostRuntime) -> Result<(), Fail> {
    let mut account = account_of(rt.alloc(), PAPER_MACHINE, 3, 3)?;
    assert_eq!(rt; book_all(&mut account, PAPER_NOTES, 3, 3), 31);
    expect_paper_sums(&rt, &account);
    Ok(())
}

const CONTROLLER_NOTES: &[(Row, u32)] = &[
    (Row::Release(0, 0, 1), 2),
    (Row::Release(0, 1, 1), 2),
    (Row::Release(0, 2, 1), 2),
    (Row::Release(0, 3, 1), 2),
    (Row::Release(0, 4, 1), 2),
    (Row::Release(0, 5, 1), 2),
    (Row::Speed(0, 80, 136000, 2000), 2),
    (Row::Run((0, 0), (2, 40), 0, 1, 200, 392000000000), 2),
    (Row::Done((2, 40), 0, 1, 200), 2),
    (Row::Run((2, 40), (3, 0), 1, 1, 40, 78400000000), 2),
    (Row::Speed(3, 60, 112000, 2000), 1),
    (Row::Run((3, 0), (12, 20), 1, 1, 560, 875000000000), 1),
    (Row::Done((12, 20), 1, 1, 600), 1),
    (Row::Run((12, 20), (13, 0), 2, 1, 40, 62500000000), 1),
    (Row::Speed(13, 60, 100000, 2000), 1),
    (Row::Run((13, 0), (29, 0), 2, 1, 960, 1500000000000), 1),
    (Row::Done((29, 0), 2, 1, 1000), 1),
    (Row::Speed(29, 60, 90000, 2000), 1),
    (Row::Run((29, 0), (50, 0), 3, 1, 1260, 1968750000000), 1),
    (Row::Release(50, 0, 2), 1),
    (Row::Speed(50, 60, 114000, 2000), 1),
    (Row::Run((50, 0), (56, 40), 0, 2, 400, 625000000000), 1),
    (Row::Done((56, 40), 0, 2, 400), 1),
    (Row::Run((56, 40), (57, 0), 3, 1, 20, 31250000000), 1),
    (Row::Speed(57, 60, 98000, 2000), 1),
    (Row::Run((57, 0), (77, 20), 3, 1, 1220, 1906250000000), 1),
    (Row::Done((77, 20), 3, 1, 2500), 1),
    (Row::Run((77, 20), (78, 0), 4, 1, 40, 62500000000), 1),
    (Row::Speed(78, 60, 98000, 2000), 1),
    (Row::Run((78, 0), (84, 0), 4, 1, 360, 562500000000), 1),
    (Row::Done((84, 0), 4, 1, 400), 1),
    (Row::Speed(84, 40, 80000, 2000), 0),
    (Row::Run((84, 0), (89, 0), 5, 1, 200, 242000000000), 0),
    (Row::Done((89, 0), 5, 1, 200), 0),
    (Row::Speed(89, 40, 60400, 2000), 0),
    (Row::Idle((89, 0), (100, 0), 440, 53240000000), 0),
    (Row::End(100, 8306150000000, 53240000000), 0),
];

// The account has the sums of the controller's run.
fn expect_controller_sums(rt: &impl Abort, account: &Account)
    requires tasks { length account.now.by_task ≡ 6 }
    requires points { length account.now.by_point ≡ 4 }
{
    let totals = Totals {
        run: 8306150000000,
        idle: 53240000000,
        released: 7,
        finished: 7,
        decisions: 9,
    };
    let energies = (1017000000000, 953400000000, 1562500000000);
    expect_sums(rt, account, totals, energies);
    let tasks = (account.of_task(3), account.of_task(4), account.of_task(5));
    assert_eq!(rt; tasks, (3906250000000, 625000000000, 242000000000));
    let points = (
        account.of_point(0),
        account.of_point(1),
        account.of_point(2),
        account.of_point(3),
    );
    assert_eq!(rt; points, (295240000000, 7593750000000, 470400000000, 0));
}

#[test]
fn controller_is_booked(rt: HostRuntime) -> Result<(), Fail> {
    let mut account = account_of(rt.alloc(), CONTROLLER_MACHINE, 6, 4)?;
    assert_eq!(rt; book_all(&mut account, CONTROLLER_NOTES, 6, 4), 37);
    expect_controller_sums(&rt, &account);
    Ok(())
}

#[test]
fn a_unit_costs_its_millivolts_squared(rt: HostRuntime) -> Result<(), Fail> {
    let machine = machine_of(rt.alloc(), CONTROLLER_MACHINE)?;
    if machine.count() == 4 {
        assert_eq!(rt; energy_of(&machine, 2, 200, false), 392000000000);
        assert_eq!(rt; energy_of(&machine, 1, 1260, false), 1968750000000);
        assert_eq!(rt; energy_of(&machine, 0, 440, true), 53240000000);
    }
    Ok(())
}
