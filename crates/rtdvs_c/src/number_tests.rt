// Calls with numbers as C makes them. The answers are worked out by hand.
use super::admit::rtdvs_admit;
use super::causes::*;
use super::constrain::rtdvs_constrain;
use super::least::rtdvs_least;
use super::number_types::{Admission, LeastEnergy, Refusal, Responses, Settings, Wide, Work};
use super::response::rtdvs_response;
use dvs_base::{MOST_JOBS, MOST_TASKS};
use freq_table::TOP_SPEED;
use numbers::{GivenPoint, GivenTask};
use std::alloc::Global;
use std::test::Fail;

const ZERO: Wide = Wide { low: 0, high: 0 };

const NONE: Refusal = Refusal {
    cause: NO_CAUSE,
    place: 0,
    num: ZERO,
    cap: ZERO,
};

// A task without an offset, whose deadline is its period.
fn task(period: u64, worst_case: u64) -> GivenTask {
    within(period, worst_case, period)
}

// A task without an offset.
fn within(period: u64, worst_case: u64, deadline: u64) -> GivenTask {
    GivenTask {
        period,
        worst_case,
        offset: 0,
        deadline,
    }
}

// The exit status and the answer under a scheduler, on a machine of one speed.
fn admission(alloc: Global, tasks: &[GivenTask], speed: u64, scheduler: u64) -> (u8, Admission) {
    let points = [GivenPoint {
        speed,
        millivolts: 1000,
    }];
    let settings = Settings {
        idle: 0,
        charge: 0,
        scheduler,
    };
    let mut answer = Admission {
        num: ZERO,
        den: ZERO,
        speed: 9,
        refusal: NONE,
    };
    let code = rtdvs_admit(alloc, tasks, &points, &settings, &mut answer);
    (code, answer)
}

// The exit status and the answer of the exact test on a machine of speed 1.
fn responses(alloc: Global, tasks: &[GivenTask]) -> (u8, Responses) {
    let points = [GivenPoint {
        speed: 1,
        millivolts: 1000,
    }];
    let settings = Settings {
        idle: 0,
        charge: 0,
        scheduler: 0,
    };
    let mut answer = Responses {
        ticks: [9; MOST_TASKS],
        refusal: NONE,
    };
    let code = rtdvs_response(alloc, tasks, &points, &settings, &mut answer);
    (code, answer)
}

// The first task's work in a hyperperiod of 127 * 2^40 ticks is 127 * 2^58 units, and the second one's 2^40.
#[test]
fn admits_by_wide_numbers(rt: HostRuntime) -> Result<(), Fail> {
    let tasks = [task(1 << 40, 1 << 58), task(127, 1)];
    let (code, answer) = admission(rt.alloc(), &tasks, TOP_SPEED, EDF);
    assert_eq!(rt; code, 0);
    assert_eq!(rt; answer.num.high, 1);
    assert_eq!(rt; answer.num.low, 18_158_514_797_069_467_648);
    assert_eq!(rt;
        answer.den,
        Wide {
            low: 127 << 40,
            high: 0
        }
    );
    assert_eq!(rt; answer.speed, TOP_SPEED);
    assert_eq!(rt; answer.refusal, NONE);
    Ok(())
}

// Under RM the second task asks for its 2 units and twice for the first one's, in 3 ticks at speed 1.
#[test]
fn denies_under_rm_by_the_task(rt: HostRuntime) -> Result<(), Fail> {
    let (code, answer) = admission(rt.alloc(), &[task(2, 1), task(3, 2)], 1, RM);
    assert_eq!(rt; code, 1);
    assert_eq!(rt; answer.speed, 0);
    assert_eq!(rt; answer.refusal.cause, RM_TEST);
    assert_eq!(rt; answer.refusal.place, 2);
    assert_eq!(rt; answer.refusal.num, Wide { low: 4, high: 0 });
    assert_eq!(rt; answer.refusal.cap, Wide { low: 3, high: 0 });
    Ok(())
}

#[test]
fn refuses_a_period_and_a_scheduler(rt: HostRuntime) -> Result<(), Fail> {
    let (code, answer) = admission(rt.alloc(), &[task(2, 1), task(0, 1)], 1, EDF);
    assert_eq!(rt; code, 4);
    assert_eq!(rt; answer.refusal.cause, PERIOD);
    assert_eq!(rt; answer.refusal.place, 2);
    let (code, answer) = admission(rt.alloc(), &[task(2, 1)], 1, 2);
    assert_eq!(rt; code, 2);
    assert_eq!(rt; answer.refusal.cause, SCHEDULER);
    Ok(())
}

// At tick 10 the third task's 3 units, three jobs of the first task and two of the second are 10 units; at 7, 8 and 9
// they are 9, 9 and 10.
#[test]
fn responds_by_ticks(rt: HostRuntime) -> Result<(), Fail> {
    let (code, answer) = responses(rt.alloc(), &[task(4, 1), task(12, 3), task(6, 2)]);
    assert_eq!(rt; code, 0);
    assert_eq!(rt; &answer.ticks[..4], [1, 10, 3, 0].as_slice());
    assert_eq!(rt; answer.refusal, NONE);
    Ok(())
}

// The exit status and the lowest speed for deadlines, on a machine of the speeds 1 and 2.
fn constrained(alloc: Global, tasks: &[GivenTask]) -> (u8, Admission) {
    let points = [
        GivenPoint {
            speed: 1,
            millivolts: 1000,
        },
        GivenPoint {
            speed: 2,
            millivolts: 2000,
        },
    ];
    let settings = Settings {
        idle: 0,
        charge: 0,
        scheduler: 7,
    };
    let mut answer = Admission {
        num: ZERO,
        den: ZERO,
        speed: 9,
        refusal: NONE,
    };
    let code = rtdvs_constrain(alloc, tasks, &points, &settings, &mut answer);
    (code, answer)
}

// By tick 2 the first job of each task is due, 3 units in 2 ticks; by tick 6 they are 5 units.
#[test]
fn constrains_to_the_second_speed(rt: HostRuntime) -> Result<(), Fail> {
    let (code, answer) = constrained(rt.alloc(), &[within(6, 1, 2), within(4, 2, 2)]);
    assert_eq!(rt; code, 0);
    assert_eq!(rt; answer.num, Wide { low: 3, high: 0 });
    assert_eq!(rt; answer.den, Wide { low: 2, high: 0 });
    assert_eq!(rt; answer.speed, 2);
    assert_eq!(rt; answer.refusal, NONE);
    Ok(())
}

// By tick 1 the first task's 3 units are due, and speed 2 does 2.
#[test]
fn denies_a_demand_by_its_tick(rt: HostRuntime) -> Result<(), Fail> {
    let (code, answer) = constrained(rt.alloc(), &[within(6, 3, 1), task(4, 1)]);
    assert_eq!(rt; code, 1);
    assert_eq!(rt; answer.refusal.cause, DEMAND);
    assert_eq!(rt; answer.refusal.place, 1);
    assert_eq!(rt; answer.refusal.num, Wide { low: 3, high: 0 });
    assert_eq!(rt; answer.refusal.cap, Wide { low: 2, high: 0 });
    Ok(())
}

#[test]
fn refuses_a_deadline_above_the_period(rt: HostRuntime) -> Result<(), Fail> {
    let (code, answer) = constrained(rt.alloc(), &[task(6, 1), within(4, 1, 5)]);
    assert_eq!(rt; code, 4);
    assert_eq!(rt; answer.refusal.cause, DEADLINE);
    assert_eq!(rt; answer.refusal.place, 2);
    assert_eq!(rt; answer.speed, 0);
    Ok(())
}

// The hyperperiod is the most jobs in ticks: the first task has as many jobs in it, and the second one has one.
#[test]
fn refuses_too_many_jobs(rt: HostRuntime) -> Result<(), Fail> {
    let (code, answer) = constrained(rt.alloc(), &[task(1, 1), task(MOST_JOBS, 1)]);
    assert_eq!(rt; code, 5);
    assert_eq!(rt; answer.refusal.cause, JOBS);
    assert_eq!(rt;
        answer.refusal.num,
        Wide {
            low: MOST_JOBS + 1,
            high: 0
        }
    );
    assert_eq!(rt;
        answer.refusal.cap,
        Wide {
            low: MOST_JOBS,
            high: 0
        }
    );
    Ok(())
}

// The exit status and the least energy for units in two ticks, at 1000 millivolts a unit a tick, at 2000 two.
fn least(alloc: Global, units: u64) -> (u8, LeastEnergy) {
    let points = [
        GivenPoint {
            speed: 1,
            millivolts: 1000,
        },
        GivenPoint {
            speed: 2,
            millivolts: 2000,
        },
    ];
    let settings = Settings {
        idle: 0,
        charge: 0,
        scheduler: 0,
    };
    let mut answer = LeastEnergy {
        rounds: 9,
        low: 9,
        low_ticks: 9,
        high: 9,
        high_ticks: 9,
        energy: ZERO,
        unit_price: ZERO,
        tick_price: ZERO,
        tick_minus: 9,
        refusal: NONE,
    };
    let work = Work { units, ticks: 2 };
    let code = rtdvs_least(alloc, &points, &settings, &work, &mut answer);
    (code, answer)
}

// Three units in two ticks: a tick with 1 unit costs 10^9, one with 2 units 8 * 10^9. At 7 * 10^9 a unit and minus
// 6 * 10^9 a tick both cost what they do, and a tick without a unit costs less than 0.
#[test]
fn least_by_two_corners(rt: HostRuntime) -> Result<(), Fail> {
    let (code, answer) = least(rt.alloc(), 3);
    assert_eq!(rt; code, 0);
    assert_eq!(rt; (answer.low, answer.low_ticks), (1, 1));
    assert_eq!(rt; (answer.high, answer.high_ticks), (2, 1));
    assert_eq!(rt;
        answer.energy,
        Wide {
            low: 9_000_000_000,
            high: 0
        }
    );
    assert_eq!(rt;
        answer.unit_price,
        Wide {
            low: 7_000_000_000,
            high: 0
        }
    );
    assert_eq!(rt;
        answer.tick_price,
        Wide {
            low: 6_000_000_000,
            high: 0
        }
    );
    assert_eq!(rt; answer.tick_minus, 1);
    assert_eq!(rt; answer.refusal, NONE);
    Ok(())
}

#[test]
fn denies_too_many_units(rt: HostRuntime) -> Result<(), Fail> {
    let (code, answer) = least(rt.alloc(), 5);
    assert_eq!(rt; code, 1);
    assert_eq!(rt; answer.refusal.cause, UNITS);
    assert_eq!(rt; answer.refusal.num, Wide { low: 5, high: 0 });
    assert_eq!(rt; answer.refusal.cap, Wide { low: 4, high: 0 });
    Ok(())
}
