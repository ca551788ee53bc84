// The workloads of worked seeds.
ghost use Rattle.std.specs.Prelude.{◌≤◌};
ghost use Rattle.dvs_base.specs.declared.limits.TheConstants.{MOST_TASKS};
ghost use Rattle.demand_list.specs.Demands.{HasWorstsOf};

use demand_list::Demands;
use freq_table::{Machine, Point};
use std::alloc::Global;
use std::test::Fail;
use task_model::TaskSet;
use workload::make;

// What is expected of a task: its name, its period, its worst case and the units of its jobs 1 to 4.
#[derive(Drop)]
struct Told {
    name: &'static [u8],
    period: u64,
    worst: u64,
    units: [u64; 4],
}

// Whether a task is as expected, with no offset, and its fifth job at its worst case.
fn is_as_told(tasks: &TaskSet, demands: &Demands, task: u32, told: &Told) -> bool
    requires { HasWorstsOf tasks.now demands.now }
{
    if task >= tasks.count() {
        return false;
    }
    let made = tasks.task(task);
    let units = [
        demands.units(task, 1),
        demands.units(task, 2),
        demands.units(task, 3),
        demands.units(task, 4),
    ];
    made.name.as_bytes() == told.name
        && (made.period, made.worst, made.offset) == (told.period, told.worst, 0)
        && units == told.units
        && demands.units(task, 5) == told.worst
}

// Whether the workload of a seed has `count` tasks, and task `task` as expected.
fn makes(alloc: Global, seed: u64, count: u32, task: u32, told: &Told) -> bool
    requires some { 1 ≤ count }
    requires few { count ≤ MOST_TASKS }
{
    match make(alloc, seed, count) {
        Ok((tasks, _, demands)) => {
            tasks.count() == count && is_as_told(&tasks, &demands, task, told)
        }
        Err(_) => false,
    }
}

#[test]
fn seed_one_makes_one_task(rt: HostRuntime) {
    let told = Told {
        name: b"w1",
        period: 200,
        worst: 5759,
        units: [4353, 235, 2251, 5627],
    };
    assert!(rt; makes(rt.alloc(), 1, 1, 0, &told));
}

#[test]
fn a_few_tasks_share_the_speed(rt: HostRuntime) {
    let first = Told {
        name: b"w1",
        period: 100,
        worst: 9807,
        units: [2610, 2366, 7985, 1105],
    };
    assert!(rt; makes(rt.alloc(), 7, 3, 0, &first));
    let last = Told {
        name: b"w3",
        period: 50,
        worst: 3366,
        units: [749, 322, 717, 85],
    };
    assert!(rt; makes(rt.alloc(), 7, 3, 2, &last));
}

#[test]
fn many_tasks_of_great_seeds(rt: HostRuntime) {
    let last = Told {
        name: b"w64",
        period: 20,
        worst: 189,
        units: [20, 104, 112, 3],
    };
    assert!(rt; makes(rt.alloc(), u64::MAX, 64, 63, &last));
    let last = Told {
        name: b"w32",
        period: 20,
        worst: 212,
        units: [204, 112, 65, 61],
    };
    assert!(rt; makes(rt.alloc(), 2026, 32, 31, &last));
}

// Whether a machine has exactly these four points.
fn has_points(machine: &Machine, points: &[Point; 4]) -> bool {
    machine.count() == 4
        && machine.point(0) == points[0]
        && machine.point(1) == points[1]
        && machine.point(2) == points[2]
        && machine.point(3) == points[3]
}

#[test]
fn the_machine_has_four_speeds(rt: HostRuntime) -> Result<(), Fail> {
    let (_, machine, _) = make(rt.alloc(), 1, 1)?;
    let points = [(250, 2000), (500, 3000), (750, 4000), (1000, 5000)].map(|(
        speed,
        millivolts,
    )| Point { speed, millivolts });
    assert!(rt; has_points(&machine, &points));
    assert_eq!(rt; (machine.idle(), machine.charge()), (100, 0));
    Ok(())
}
