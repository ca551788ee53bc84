// Demand lists and demand files of the tasks t1 (worst case 12), t2 (12) and t3 (4).
ghost use Rattle.std.specs.Prelude.{◌≡◌, length, IfOk};

use demand_list::{Column, DemandFault, Demands};
use dvs_base::Short;
use std::alloc::Global;
use std::test::Fail;
use task_model::TaskSet;

const TASKS: &[u8] =
    b"[[task]]\nname = \"t1\"\nperiod = 8\nworst = 12\n[[task]]\nname = \"t2\"\nperiod = 10\nworst = 12\n[[task]]\nname = \"t3\"\nperiod = 14\nworst = 4\n";

fn three_tasks(alloc: Global) -> Result<TaskSet, Fail>
    ensures { IfOk result (λ tasks. length tasks ≡ 3) }
{
    match TaskSet::read(alloc, TASKS) {
        Ok(tasks) if tasks.count() == 3 => Ok(tasks),
        _ => Err("tasks".into()),
    }
}

#[test]
fn a_row_once_set_stays(rt: HostRuntime) -> Result<(), Fail> {
    let mut demands = Demands::worst_only(rt.alloc(), &[12, 12, 4])?;
    assert!(rt; matches!(demands.set(0, 1, 8), Ok(true)));
    assert!(rt; matches!(demands.set(0, 1, 7), Ok(false)));
    let units = [
        demands.units(0, 1),
        demands.units(0, 2),
        demands.units(2, 1),
    ];
    assert_eq!(rt; units, [8, 12, 4]);
    Ok(())
}

#[test]
fn rows_are_found_that_came_before_and_after_one_out_of_order(rt: HostRuntime) -> Result<(), Fail> {
    let mut demands = Demands::worst_only(rt.alloc(), &[12, 12, 4])?;
    assert!(rt; matches!(demands.set(1, 3, 8), Ok(true)));
    assert_eq!(rt; demands.units(1, 3), 8);
    assert!(rt; matches!(demands.set(0, 5, 7), Ok(true)));
    assert!(rt; matches!(demands.set(2, 1, 3), Ok(true)));
    let units = [
        demands.units(0, 5),
        demands.units(1, 3),
        demands.units(2, 1),
        demands.units(1, 1),
    ];
    assert_eq!(rt; units, [7, 8, 3, 12]);
    Ok(())
}

// The units of the jobs 1 and 99 of t1 by a demand file.
fn units_of(alloc: Global, text: &[u8]) -> Result<(u64, u64), Fail> {
    let tasks = three_tasks(alloc)?;
    let demands = Demands::read(alloc, text, &tasks).ok().ok_or("file")?;
    Ok((demands.units(0, 1), demands.units(0, 99)))
}

#[test]
fn rows_of_a_file_are_read(rt: HostRuntime) -> Result<(), Fail> {
    for (text, first, last) in [
        (b"task,job,units\n".as_slice(), 12, 12),
        (b"task,job,units\nt1,1,8\nt1,99,5\n", 8, 5),
        (
            b"\xEF\xBB\xBFtask,job,units\r\n\"t1\",\"1\",8\r\nt1,99,\"5\"",
            8,
            5,
        ),
        (b"task,job,units\rt1,99,5\r\"t\"1,1,8", 8, 5),
    ] {
        assert_eq!(rt; units_of(rt.alloc(), text)?, (first, last));
    }
    Ok(())
}

// An error of a demand file, with an unknown name as text.
#[derive(Clone, Copy)]
enum Why {
    Header,
    Fields(u64, u64),
    UnknownTask(u64, &'static str),
    BadNumber(u64, Column),
    JobZero(u64),
    Repeated(u64, u32, u64),
    OverWorst(u32, u64, u64, u64),
}

fn fault(why: Why) -> DemandFault {
    match why {
        Why::Header => DemandFault::Header,
        Why::Fields(row, count) => DemandFault::Fields { row, count },
        Why::UnknownTask(row, name) => DemandFault::UnknownTask {
            row,
            name: Short::of(name.as_bytes()),
        },
        Why::BadNumber(row, column) => DemandFault::BadNumber { row, column },
        Why::JobZero(row) => DemandFault::JobZero { row },
        Why::Repeated(row, task, job) => DemandFault::Repeated { row, task, job },
        Why::OverWorst(task, job, units, worst) => DemandFault::OverWorst {
            task,
            job,
            units,
            worst,
        },
    }
}

const REFUSALS: &[(&str, Why)] = &[
    ("", Why::Header),
    ("task,job\nt1,0,1\n", Why::Header),
    ("task,job,units\nt1,1,8\nt1,0\n", Why::Fields(2, 2)),
    ("task,job,units\nt9,0,1\n", Why::UnknownTask(1, "t9")),
    ("task,job,units\nt1,01,x\n", Why::BadNumber(1, Column::Job)),
    ("task,job,units\nt1,0,x\n", Why::JobZero(1)),
    ("task,job,units\nt1,1,x\n", Why::BadNumber(1, Column::Units)),
    ("task,job,units\nt1,1,8\nt1,1,13\n", Why::Repeated(2, 0, 1)),
    ("task,job,units\nt2,2,13\n", Why::OverWorst(1, 2, 13, 12)),
];

#[test]
fn the_first_refusal_is_the_answer(rt: HostRuntime) -> Result<(), Fail> {
    let alloc = rt.alloc();
    let tasks = three_tasks(alloc)?;
    for (text, why) in REFUSALS {
        let found = Demands::read(alloc, text.as_bytes(), &tasks).err();
        assert_eq!(rt; found, Some(fault(*why)), "{text}");
    }
    Ok(())
}
