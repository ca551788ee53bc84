// The order of a handful of entries, and each public call at each order.
ghost use Rattle.std.specs.Prelude.{◌≡◌};

use ready_queue::{ByDue, ByPeriod, Entry, Queue};
use std::test::Fail;

fn entry(task: u32, due: u64, period: u64) -> Entry
    ensures { result ≡ record { task = task; due = due; period = period } }
{
    Entry { task, due, period }
}

#[test]
fn equal_deadlines_go_by_the_task(rt: HostRuntime) -> Result<(), Fail> {
    let mut queue = Queue::new(rt.alloc(), 4, ByDue)?;
    queue.insert(entry(1, 10, 10));
    queue.insert(entry(0, 10, 10));
    queue.insert(entry(3, 10, 10));
    queue.insert(entry(2, 8, 8));
    assert_eq!(rt; queue.len(), 4);
    assert_eq!(rt; queue.first(), Some(entry(2, 8, 8)));
    for want in [
        Some(entry(2, 8, 8)),
        Some(entry(0, 10, 10)),
        Some(entry(1, 10, 10)),
        Some(entry(3, 10, 10)),
        None,
    ] {
        assert_eq!(rt; queue.take_first(), want);
    }
    assert_eq!(rt; queue.len(), 0);
    assert_eq!(rt; queue.first(), None);
    Ok(())
}

#[test]
fn a_replaced_first_entry_goes_by_its_deadline(rt: HostRuntime) -> Result<(), Fail> {
    let mut queue = Queue::new(rt.alloc(), 3, ByDue)?;
    queue.insert(entry(1, 10, 10));
    queue.insert(entry(0, 8, 8));
    queue.insert(entry(2, 20, 20));
    queue.replace_first(entry(0, 16, 8));
    assert_eq!(rt; queue.len(), 3);
    for want in [entry(1, 10, 10), entry(0, 16, 8), entry(2, 20, 20)] {
        assert_eq!(rt; queue.take_first(), Some(want));
    }
    Ok(())
}

#[test]
fn shorter_periods_go_first(rt: HostRuntime) -> Result<(), Fail> {
    let mut queue = Queue::new(rt.alloc(), 6, ByPeriod)?;
    queue.insert(entry(5, 30, 9));
    queue.insert(entry(4, 20, 9));
    queue.insert(entry(0, 90, 14));
    assert_eq!(rt; queue.take_first(), Some(entry(4, 20, 9)));
    queue.insert(entry(2, 70, 8));
    queue.insert(entry(4, 40, 9));
    assert_eq!(rt; queue.len(), 4);
    for want in [
        entry(2, 70, 8),
        entry(4, 40, 9),
        entry(5, 30, 9),
        entry(0, 90, 14),
    ] {
        assert_eq!(rt; queue.take_first(), Some(want));
    }
    assert_eq!(rt; queue.take_first(), None);
    Ok(())
}
