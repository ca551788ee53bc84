// Task files, and sets made from a list.
use dvs_base::{MOST_TASKS, Short};
use std::alloc::{AllocError, Global};
use std::process::Abort;
use std::test::Fail;
use task_model::{Field, LATEST_OFFSET, TaskFault, TaskSet};

const PAPER_SET: &str =
    "[[task]]\nname = \"t1\"\nperiod = 8\nworst = 12\n[[task]]\nname = \"t2\"\nperiod = 10\nworst = 12\n[[task]]\nname = \"t3\"\nperiod = 14\nworst = 4\n";

// An error of a task file, with an unknown key as text.
#[derive(Clone, Copy)]
enum Why {
    Missing(u32, Field),
    Kind(u32, Field),
    Range(u32, Field),
    UnknownKey(u32, &'static str),
    NotToml,
    NoTasks,
    BadName(u32),
    SameName(u32, u32),
    Hyper,
}

fn fault(why: Why) -> TaskFault {
    match why {
        Why::Missing(place, field) => TaskFault::Missing { place, field },
        Why::Kind(place, field) => TaskFault::Kind { place, field },
        Why::Range(place, field) => TaskFault::Range { place, field },
        Why::UnknownKey(place, key) => TaskFault::UnknownKey {
            place,
            key: Short::of(key.as_bytes()),
        },
        Why::NotToml => TaskFault::NotToml,
        Why::NoTasks => TaskFault::NoTasks,
        Why::BadName(place) => TaskFault::BadName { place },
        Why::SameName(first, second) => TaskFault::SameName { first, second },
        Why::Hyper => TaskFault::Hyper,
    }
}

const REFUSALS: &[(&str, Why)] = &[
    ("", Why::NoTasks),
    ("task = []", Why::NoTasks),
    ("task = 1", Why::Kind(0, Field::Task)),
    ("task = \"\"", Why::Kind(0, Field::Task)),
    ("task = [", Why::NotToml),
    ("task = [9223372036854775808]", Why::NotToml),
    ("zz = 1\nbcd = 2\ntask = []", Why::UnknownKey(0, "bcd")),
    ("task = [1]", Why::Kind(1, Field::Entry)),
    (
        "task = [{name = \"a\", period = 1, worst = 1}, {phase = 1}]",
        Why::UnknownKey(2, "phase"),
    ),
    ("task = [{}]", Why::Missing(1, Field::Name)),
    ("task = [{name = 1}]", Why::Kind(1, Field::Name)),
    ("task = [{name = \"a b\"}]", Why::BadName(1)),
    ("task = [{name = \"a\"}]", Why::Missing(1, Field::Period)),
    (
        "task = [{name = \"a\", period = 1.0}]",
        Why::Kind(1, Field::Period),
    ),
    (
        "task = [{name = \"a\", period = 1979-05-27}]",
        Why::Kind(1, Field::Period),
    ),
    (
        "task = [{name = \"a\", period = \"1\"}]",
        Why::Kind(1, Field::Period),
    ),
    (
        "task = [{name = \"a\", period = 0, worst = 0}]",
        Why::Range(1, Field::Period),
    ),
    (
        "task = [{name = \"a\", period = -1}]",
        Why::Range(1, Field::Period),
    ),
    (
        "task = [{name = \"a\", period = 1099511627777}]",
        Why::Range(1, Field::Period),
    ),
    (
        "task = [{name = \"a\", period = 1}]",
        Why::Missing(1, Field::Worst),
    ),
    (
        "task = [{name = \"a\", period = 1, worst = 1152921504606846977}]",
        Why::Range(1, Field::Worst),
    ),
    (
        "task = [{name = \"a\", period = 1, worst = 1, offset = 1.0}]",
        Why::Kind(1, Field::Offset),
    ),
    (
        "task = [{name = \"a\", period = 1, worst = 1, offset = -1}]",
        Why::Range(1, Field::Offset),
    ),
    (
        "task = [{name = \"a\", period = 1, worst = 1, offset = 1099511627777}]",
        Why::Range(1, Field::Offset),
    ),
    (
        "task = [{name = \"a\", period = 1, worst = 1}, {name = \"a\", period = 1, worst = 1}]",
        Why::SameName(1, 2),
    ),
    (
        "task = [{name = \"a\", period = 1099511627775, worst = 1}, {name = \"b\", period = 1099511627776, worst = 1}]",
        Why::Hyper,
    ),
];

// The error of a task file.
fn refusal_of(alloc: Global, text: &[u8]) -> Option<TaskFault> {
    TaskSet::read(alloc, text).err()
}

#[test]
fn the_first_error_is_the_refusal(rt: HostRuntime) {
    for (text, want) in REFUSALS {
        let found = refusal_of(rt.alloc(), text.as_bytes());
        assert_eq!(rt; found, Some(fault(*want)), "{text}");
    }
    let found = refusal_of(rt.alloc(), b"\xff");
    assert_eq!(rt; found, Some(TaskFault::NotToml));
}

// The set of a task file.
fn read_set(alloc: Global, text: &str) -> Result<TaskSet, Fail> {
    Ok(TaskSet::read(alloc, text.as_bytes()).ok().ok_or("set")?)
}

// The set of the file that is written of a set.
fn written_set(alloc: Global, set: &TaskSet) -> Result<TaskSet, Fail> {
    let text = set.write(alloc)?;
    read_set(alloc, text.as_str())
}

// Whether the set finds this name at a place, and the task there has it.
fn has_name(set: &TaskSet, place: u32, name: &[u8]) -> bool {
    set.find(name) == Some(place) && place < set.count() && set.task(place).name.as_bytes() == name
}

// The period, the worst case and the offset of the task at a place.
fn numbers_of(set: &TaskSet, place: u32) -> Option<(u64, u64, u64)> {
    if place >= set.count() {
        return None;
    }
    let task = set.task(place);
    Some((task.period, task.worst, task.offset))
}

// The set has the tasks of the paper and no other.
fn expect_paper_set(rt: &impl Abort, set: &TaskSet) {
    assert_eq!(rt; (set.count(), set.hyper()), (3, 280));
    assert_eq!(rt; set.find(b"t4"), None);
    for (place, name, numbers) in [
        (0, b"t1", (8, 12, 0)),
        (1, b"t2", (10, 12, 0)),
        (2, b"t3", (14, 4, 0)),
    ] {
        assert!(rt; has_name(set, place, name));
        assert_eq!(rt; numbers_of(set, place), Some(numbers));
    }
}

#[test]
fn the_same_tree_is_the_same_set(rt: HostRuntime) -> Result<(), Fail> {
    for text in [
        PAPER_SET,
        "\u{feff}task = [{name = \"t1\", period = 0x8, worst = 1_2}, {name = 't2', period = 10, worst = 0b1100}, {name = \"t3\", period = 14, worst = 4}]",
        "[[task]]\n\"name\" = \"t1\"\nperiod = +8\nworst = 12\n[[task]]\nworst = 12\nperiod = 0o12\nname = \"t\\u0032\"\n[[task]]\nname = \"t3\"\nperiod = 14\nworst = 4",
    ] {
        let set = read_set(rt.alloc(), text)?;
        expect_paper_set(&rt, &set);
    }
    Ok(())
}

// The set has two tasks, of which the second has the latest offset.
fn expect_latest_offset(rt: &impl Abort, set: &TaskSet) {
    assert_eq!(rt; set.count(), 2);
    assert_eq!(rt;
        (set.task(0).offset, set.task(1).offset),
        (0, LATEST_OFFSET)
    );
}

#[test]
fn an_offset_is_read_and_written(rt: HostRuntime) -> Result<(), Fail> {
    let text =
        "task = [{name = \"x\", period = 4, worst = 4}, {offset = 1099511627776, name = \"y\", period = 6, worst = 6}]";
    let set = read_set(rt.alloc(), text)?;
    expect_latest_offset(&rt, &set);
    let again = written_set(rt.alloc(), &set)?;
    expect_latest_offset(&rt, &again);
    Ok(())
}

#[test]
fn a_set_is_made_of_its_tasks(rt: HostRuntime) -> Result<(), Fail> {
    let read = read_set(rt.alloc(), PAPER_SET)?;
    let set = TaskSet::of(rt.alloc(), read.as_slice())?;
    expect_paper_set(&rt, &set);
    Ok(())
}

// A task file with `count` tasks of period 64 and worst case 1.
fn file_of(alloc: Global, count: usize) -> Result<String, AllocError> {
    let mut text = String::new(alloc);
    for i in 0..count {
        let entry = format!(in alloc; "[[task]]\nname = \"t{i}\"\nperiod = 64\nworst = 1\n")?;
        text.push_str(entry.as_str())?;
    }
    Ok(text)
}

// The number of tasks and the hyperperiod of a file with `count` tasks, otherwise its error.
fn read_many(alloc: Global, count: usize) -> Result<Result<(u32, u64), TaskFault>, AllocError> {
    let text = file_of(alloc, count)?;
    match TaskSet::read(alloc, text.as_bytes()) {
        Ok(set) => Ok(Ok((set.count(), set.hyper()))),
        Err(fault) => Ok(Err(fault)),
    }
}

#[test]
fn sixty_four_tasks_are_the_most(rt: HostRuntime) -> Result<(), Fail> {
    let most = read_many(rt.alloc(), MOST_TASKS)?.ok();
    assert_eq!(rt; most, Some((64, 64)));
    let more = read_many(rt.alloc(), MOST_TASKS + 1)?;
    assert!(rt; matches!(more, Err(TaskFault::TooMany { count: 65 })));
    Ok(())
}

#[test]
fn a_written_set_is_read_again(rt: HostRuntime) -> Result<(), Fail> {
    let read = read_set(rt.alloc(), PAPER_SET)?;
    let back = written_set(rt.alloc(), &read)?;
    expect_paper_set(&rt, &back);
    Ok(())
}
