// Deadline files of the tasks a (period 4) and b (period 6).
use deadline_list::{DeadlineFault, Deadlines};
use dvs_base::Short;
use std::test::Fail;
use task_model::TaskSet;

const TASKS: &str =
    r#"task = [{name = "a", period = 4, worst = 2}, {name = "b", period = 6, worst = 3}]"#;

#[test]
fn the_first_refusal_is_the_answer(rt: HostRuntime) -> Result<(), Fail> {
    let alloc = rt.alloc();
    let tasks = TaskSet::read(alloc, TASKS.as_bytes()).ok().ok_or("tasks")?;
    for (text, want) in [
        (b"".as_slice(), DeadlineFault::Header),
        (b"task,job\na,0\n", DeadlineFault::Header),
        (
            b"task,deadline\na,1\na\n",
            DeadlineFault::Fields { row: 2, count: 1 },
        ),
        (
            b"task,deadline\nc,x\n",
            DeadlineFault::UnknownTask {
                row: 1,
                name: Short::of(b"c"),
            },
        ),
        (
            b"task,deadline\na,01\n",
            DeadlineFault::BadNumber { row: 1 },
        ),
        (b"task,deadline\na,5\n", DeadlineFault::Range { row: 1 }),
        (b"task,deadline\na,0\n", DeadlineFault::Range { row: 1 }),
        (
            b"task,deadline\nb,6\nb,7\n",
            DeadlineFault::Range { row: 2 },
        ),
        (
            b"task,deadline\nb,6\nb,5\n",
            DeadlineFault::Repeated { row: 2, task: 1 },
        ),
    ] {
        let found = Deadlines::read(alloc, text, &tasks).err();
        assert_eq!(rt; found, Some(want));
    }
    Ok(())
}

#[test]
fn a_task_without_a_row_has_its_period(rt: HostRuntime) -> Result<(), Fail> {
    let alloc = rt.alloc();
    let tasks = TaskSet::read(alloc, TASKS.as_bytes()).ok().ok_or("tasks")?;
    let deadlines = Deadlines::read(alloc, b"task,deadline\nb,5\n", &tasks)
        .ok()
        .ok_or("deadlines")?;
    if tasks.count() != 2 {
        return Err("tasks".into());
    }
    assert_eq!(rt; [deadlines.of(0), deadlines.of(1)], [4, 5]);
    Ok(())
}
