// Machine files, machines made from a list, and the entries that demands pick.
use dvs_base::Short;
use freq_table::{Machine, MachineFault, MachineField, Pick, Point};
use grid_fraction::Frac;
use std::process::Abort;
use std::test::Fail;

const PAPER_MACHINE: &str =
    "[[point]]\nspeed = 2\nmillivolts = 3000\n[[point]]\nspeed = 3\nmillivolts = 4000\n[[point]]\nspeed = 4\nmillivolts = 5000\n";

// An error of a machine file, with an unknown key as text.
#[derive(Clone, Copy)]
enum Why {
    Missing(u32, MachineField),
    Kind(u32, MachineField),
    Range(u32, MachineField),
    UnknownKey(u32, &'static str),
    NotToml,
    NoPoints,
    NotRising(u32),
}

fn fault(why: Why) -> MachineFault {
    match why {
        Why::Missing(place, field) => MachineFault::Missing { place, field },
        Why::Kind(place, field) => MachineFault::Kind { place, field },
        Why::Range(place, field) => MachineFault::Range { place, field },
        Why::UnknownKey(place, key) => MachineFault::UnknownKey {
            place,
            key: Short::of(key.as_bytes()),
        },
        Why::NotToml => MachineFault::NotToml,
        Why::NoPoints => MachineFault::NoPoints,
        Why::NotRising(place) => MachineFault::NotRising { place },
    }
}

const REFUSALS: &[(&str, Why)] = &[
    ("", Why::NoPoints),
    ("point = []", Why::NoPoints),
    ("point = 1", Why::Kind(0, MachineField::Point)),
    ("point = [", Why::NotToml),
    ("points = []\nidles = 1", Why::UnknownKey(0, "idles")),
    ("idle = \"\"\ncharge = -1", Why::Kind(0, MachineField::Idle)),
    ("idle = 1001", Why::Range(0, MachineField::Idle)),
    ("charge = 1.5", Why::Kind(0, MachineField::Charge)),
    (
        "idle = 1000\ncharge = 1000001",
        Why::Range(0, MachineField::Charge),
    ),
    ("idle = 1000\ncharge = 1000000", Why::NoPoints),
    ("point = [1]", Why::Kind(1, MachineField::Entry)),
    ("point = [{volts = 1}]", Why::UnknownKey(1, "volts")),
    (
        "point = [{millivolts = 0}]",
        Why::Missing(1, MachineField::Speed),
    ),
    (
        "point = [{speed = true}]",
        Why::Kind(1, MachineField::Speed),
    ),
    ("point = [{speed = 0}]", Why::Range(1, MachineField::Speed)),
    (
        "point = [{speed = 1000001}]",
        Why::Range(1, MachineField::Speed),
    ),
    (
        "point = [{speed = 1}]",
        Why::Missing(1, MachineField::Millivolts),
    ),
    (
        "point = [{speed = 1, millivolts = 20001}]",
        Why::Range(1, MachineField::Millivolts),
    ),
    (
        "point = [{speed = 1, millivolts = 5}, {speed = 1, millivolts = 5}]",
        Why::NotRising(2),
    ),
    (
        "point = [{speed = 1, millivolts = 5}, {speed = 2, millivolts = 4}]",
        Why::NotRising(2),
    ),
];

#[test]
fn the_first_error_is_the_refusal(rt: HostRuntime) {
    for (text, want) in REFUSALS {
        let found = Machine::read(rt.alloc(), text.as_bytes()).err();
        assert_eq!(rt; found, Some(fault(*want)), "{text}");
    }
}

#[test]
fn a_machine_has_at_most_32_points(rt: HostRuntime) -> Result<(), Fail> {
    let alloc = rt.alloc();
    let mut text = String::new(alloc);
    for speed in 1..34 {
        let entry = format!(in alloc; "[[point]]\nspeed = {speed}\nmillivolts = 1\n")?;
        text.push_str(entry.as_str())?;
    }
    let found = Machine::read(alloc, text.as_bytes()).err();
    assert_eq!(rt; found, Some(MachineFault::TooMany { count: 33 }));
    Ok(())
}

#[test]
fn the_first_entry_that_meets_is_picked(rt: HostRuntime) -> Result<(), Fail> {
    let machine = Machine::read(rt.alloc(), PAPER_MACHINE.as_bytes())
        .ok()
        .ok_or("the paper's machine")?;
    for (num, den, index, met) in [
        (836, 280, 1, true),
        (0, 1, 0, true),
        (4, 1, 2, true),
        (17, 4, 2, false),
    ] {
        assert_eq!(rt; machine.lowest(Frac { num, den }), Pick { index, met });
    }
    let two = Machine::of(
        rt.alloc(),
        0,
        0,
        &[
            Point {
                speed: 6,
                millivolts: 3000,
            },
            Point {
                speed: 12,
                millivolts: 5000,
            },
        ],
    )?;
    assert_eq!(rt;
        two.lowest(Frac { num: 15, den: 1 }),
        Pick {
            index: 1,
            met: false
        }
    );
    assert_eq!(rt; (two.count(), two.top()), (2, 12));
    Ok(())
}

// Asserts that the machine has this idle, charge and count, and these points (place, speed, millivolts).
fn has_parts(
    rt: &impl Abort,
    machine: &Machine,
    numbers: (u64, u64, u32),
    points: &[(u32, u64, u64)],
) {
    assert_eq!(rt;
        (machine.idle(), machine.charge(), machine.count()),
        numbers
    );
    for (i, speed, millivolts) in points {
        if *i < machine.count() {
            let point = Point {
                speed: *speed,
                millivolts: *millivolts,
            };
            assert_eq!(rt; machine.point(*i), point);
        }
    }
}

#[test]
fn a_copy_is_equal(rt: HostRuntime) -> Result<(), Fail> {
    let alloc = rt.alloc();
    let text =
        b"idle = 100\ncharge = 0x2\npoint = [{speed = 40, millivolts = 1_100}, {millivolts = 1100, speed = 60}]";
    let machine = Machine::read(alloc, text).ok().ok_or("machine")?;
    let copy = machine.copy(alloc)?;
    has_parts(&rt, &copy, (100, 2, 2), &[(0, 40, 1100), (1, 60, 1100)]);
    Ok(())
}

// Asserts that the machine has the three points of the example, and idle and charge 0.
fn is_example(rt: &impl Abort, machine: &Machine) {
    has_parts(
        rt,
        machine,
        (0, 0, 3),
        &[(0, 2, 3000), (1, 3, 4000), (2, 4, 5000)],
    );
}

#[test]
fn the_example_is_read_copied_and_made(rt: HostRuntime) -> Result<(), Fail> {
    let alloc = rt.alloc();
    let read = Machine::read(alloc, PAPER_MACHINE.as_bytes())
        .ok()
        .ok_or("machine")?;
    is_example(&rt, &read);
    let copy = read.copy(alloc)?;
    is_example(&rt, &copy);
    let made = Machine::of(alloc, 0, 0, read.as_slice())?;
    is_example(&rt, &made);
    Ok(())
}
