// The traces of runs of the example of Pillai and Shin 2001 under the governor reserve, each worked out by hand.
ghost use Rattle.std.specs.Prelude.{◌≤◌, OnOk};
ghost use Rattle.dvs_base.specs.declared.limits.TheConstants.{MOST_TICKS};
ghost use Rattle.governor.specs.Speeds.{unchanging};
ghost use Rattle.event_kernel.specs.Runs.{IsListOf, MeetsDeadlines};
ghost use Rattle.reserve_gov.specs.Reserved.{reserved_demand};

use crate::case::EXAMPLE;
use crate::plans::{Planned, edf_planned, rm_planned};
use dvs_base::{MemSink, Version};
use event_kernel::Kernel;
use probes::CountProbe;
use reserve_gov::Reserve;
use std::alloc::Global;
use std::test::Fail;

// EDF. The hyperperiod is 280, so the rates are 12*35 = 420, 12*28 = 336 and 4*20 = 80, and the static demand is
// 836/280. A tenth of 836 is 83.6, so 84 with rounding up: the reserved demand is 920/280. It is above 3 (840/280) and
// within 4 (1120/280), so the speed is 4, where static's is 3.
// Each decision publishes the same demand: at tick 0, at each release, and at each tick after a completion. At speed 4,
// 4 units take a tick, and each costs 5000*5000*1000 = 25 * 10^9. The jobs run one after the other, since each is
// complete before the next release: t1 for 2 ticks, t2 and t3 for 1 each, then t1, t2 and t3 from their releases at 8,
// 10 and 14 for 1 each. These are 28 units, 700 * 10^9. Idle units cost nothing on this machine.
const EDF_TRACE: &str = r#"trace 1
plan edf static 16
release 0 t1 1
release 0 t2 1
release 0 t3 1
speed 0 4 920/280
run 0:0 2:0 t1 1 8 200000000000
done 2:0 t1 1 8
speed 2 4 920/280
run 2:0 3:0 t2 1 4 100000000000
done 3:0 t2 1 4
speed 3 4 920/280
run 3:0 4:0 t3 1 4 100000000000
done 4:0 t3 1 4
speed 4 4 920/280
idle 4:0 8:0 16 0
release 8 t1 2
speed 8 4 920/280
run 8:0 9:0 t1 2 4 100000000000
done 9:0 t1 2 4
speed 9 4 920/280
idle 9:0 10:0 4 0
release 10 t2 2
speed 10 4 920/280
run 10:0 11:0 t2 2 4 100000000000
done 11:0 t2 2 4
speed 11 4 920/280
idle 11:0 14:0 12 0
release 14 t3 2
speed 14 4 920/280
run 14:0 15:0 t3 2 4 100000000000
done 15:0 t3 2 4
speed 15 4 920/280
idle 15:0 16:0 4 0
end 16 700000000000 0
"#;

// RM. In a period of t1 its level can ask for 12 units; in one of t2 for 2*12 + 12 = 36; in one of t3 for
// 2*12 + 2*12 + 4 = 52. The greatest of 12/8, 36/10 and 52/14 is 52/14. A tenth of 52 is 5.2, so 6 with rounding up.
// 58/14 is above the highest speed, 4 = 56/14, so the reserved demand is 56/14. Up to tick 8 the jobs run as under EDF.
const RM_TRACE: &str = r#"trace 1
plan rm static 8
release 0 t1 1
release 0 t2 1
release 0 t3 1
speed 0 4 56/14
run 0:0 2:0 t1 1 8 200000000000
done 2:0 t1 1 8
speed 2 4 56/14
run 2:0 3:0 t2 1 4 100000000000
done 3:0 t2 1 4
speed 3 4 56/14
run 3:0 4:0 t3 1 4 100000000000
done 4:0 t3 1 4
speed 4 4 56/14
idle 4:0 8:0 16 0
end 8 400000000000 0
"#;

// The trace of a run under reserve, which meets every deadline.
fn trace_of(alloc: Global, planned: &Planned, ticks: u64) -> Result<Vec<u8>, Fail>
    requires list { IsListOf planned.now.plan planned.now.demands }
    requires some_ticks { 1 ≤ ticks }
    requires low_ticks { ticks ≤ MOST_TICKS }
    ensures { OnOk result (MeetsDeadlines (unchanging reserved_demand)
        (record { plan = planned.now.plan; demands = planned.now.demands; ticks = ticks })) }
{
    let mut out = MemSink::new(alloc, 4096, &[])?;
    let mut probes: Vec<CountProbe> = Vec::new(alloc);
    let governor = Reserve::new(&planned.plan);
    let kernel = Kernel::new(alloc, &planned.plan, &planned.demands, governor, ticks)?;
    kernel.run(&mut out, &mut probes, Version::One)?;
    Ok(Vec::from_slice(alloc, out.bytes())?)
}

// The trace of the example under EDF.
fn edf_trace(alloc: Global) -> Result<Vec<u8>, Fail> {
    let planned = edf_planned(alloc, EXAMPLE)?.ok_or("plan")?;
    trace_of(alloc, &planned, 16)
}

#[test]
fn example_under_edf(rt: HostRuntime) -> Result<(), Fail> {
    let trace = edf_trace(rt.alloc())?;
    assert_eq!(rt; std::str::from_utf8(&trace), Ok(EDF_TRACE));
    Ok(())
}

// The trace of the example under RM.
fn rm_trace(alloc: Global) -> Result<Vec<u8>, Fail> {
    let planned = rm_planned(alloc, EXAMPLE)?.ok_or("plan")?;
    trace_of(alloc, &planned, 8)
}

#[test]
fn example_under_rm(rt: HostRuntime) -> Result<(), Fail> {
    let trace = rm_trace(rt.alloc())?;
    assert_eq!(rt; std::str::from_utf8(&trace), Ok(RM_TRACE));
    Ok(())
}
