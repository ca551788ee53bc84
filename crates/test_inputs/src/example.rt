// The inputs that several crates of tests share: the example of Pillai and Shin 2001, with 4 units for a millisecond
// at full speed; a battery-driven controller; and two tasks, one or both of which are first released after tick 0.

/// The tasks of the example of Pillai and Shin 2001.
pub const PAPER_TASKS: &[u8] = br#"
task = [
    {name = "t1", period = 8, worst = 12},
    {name = "t2", period = 10, worst = 12},
    {name = "t3", period = 14, worst = 4},
]
"#;

/// The tasks of the example of Pillai and Shin 2001 with first releases after tick 0.
pub const LATE_TASKS: &[u8] = br#"
task = [
    {name = "t1", period = 8, worst = 12, offset = 3},
    {name = "t2", period = 10, worst = 12, offset = 1},
    {name = "t3", period = 14, worst = 4, offset = 5},
]
"#;

/// The machine of the example of Pillai and Shin 2001.
pub const PAPER_MACHINE: &[u8] = br#"
point = [
    {speed = 2, millivolts = 3000},
    {speed = 3, millivolts = 4000},
    {speed = 4, millivolts = 5000},
]
"#;

/// The demands of the jobs of the example of Pillai and Shin 2001.
pub const PAPER_DEMANDS: &[u8] =
    b"task,job,units\nt1,1,8\nt1,2,4\nt2,1,4\nt2,2,4\nt3,1,4\nt3,2,4\n";

/// A demand file without rows: each job needs its worst case.
pub const NO_DEMANDS: &[u8] = b"task,job,units\n";

/// The trace of the example of Pillai and Shin 2001 at the highest speed, with each job at its worst case.
pub const NONE_TRACE: &str = "trace 1
plan edf none 16
release 0 t1 1
release 0 t2 1
release 0 t3 1
speed 0 4 4/1
run 0:0 3:0 t1 1 12 300000000000
done 3:0 t1 1 12
speed 3 4 4/1
run 3:0 6:0 t2 1 12 300000000000
done 6:0 t2 1 12
speed 6 4 4/1
run 6:0 7:0 t3 1 4 100000000000
done 7:0 t3 1 4
speed 7 4 4/1
idle 7:0 8:0 4 0
release 8 t1 2
speed 8 4 4/1
run 8:0 10:0 t1 2 8 200000000000
release 10 t2 2
speed 10 4 4/1
run 10:0 11:0 t1 2 4 100000000000
done 11:0 t1 2 12
speed 11 4 4/1
run 11:0 14:0 t2 2 12 300000000000
done 14:0 t2 2 12
release 14 t3 2
speed 14 4 4/1
run 14:0 15:0 t3 2 4 100000000000
done 15:0 t3 2 4
speed 15 4 4/1
idle 15:0 16:0 4 0
end 16 1400000000000 0
";

/// The trace of the example of Pillai and Shin 2001 under cycle-conserving EDF, with `PAPER_DEMANDS`.
pub const CYCLE_TRACE: &[u8] = b"trace 1
plan edf cc 16
release 0 t1 1
release 0 t2 1
release 0 t3 1
speed 0 3 836/280
run 0:0 2:2 t1 1 8 128000000000
done 2:2 t1 1 8
run 2:2 3:0 t2 1 1 16000000000
speed 3 3 696/280
run 3:0 4:0 t2 1 3 48000000000
done 4:0 t2 1 4
speed 4 2 472/280
run 4:0 6:0 t3 1 4 36000000000
done 6:0 t3 1 4
speed 6 2 472/280
idle 6:0 8:0 4 0
release 8 t1 2
speed 8 3 612/280
run 8:0 9:1 t1 2 4 64000000000
done 9:1 t1 2 4
idle 9:1 10:0 2 0
release 10 t2 2
speed 10 2 556/280
run 10:0 12:0 t2 2 4 36000000000
done 12:0 t2 2 4
speed 12 2 332/280
idle 12:0 14:0 4 0
release 14 t3 2
speed 14 2 332/280
run 14:0 16:0 t3 2 4 36000000000
done 16:0 t3 2 4
end 16 364000000000 0
";

/// The tasks of the battery-driven controller.
pub const CONTROLLER_TASKS: &[u8] = br#"
task = [
    {name = "imu", period = 50, worst = 796},
    {name = "radio", period = 100, worst = 1196},
    {name = "motor", period = 200, worst = 1996},
    {name = "baro", period = 250, worst = 2496},
    {name = "log", period = 400, worst = 3996},
    {name = "ui", period = 1000, worst = 9996},
]
"#;

/// The machine of the battery-driven controller.
pub const CONTROLLER_MACHINE: &[u8] = br#"
idle = 100
charge = 2
point = [
    {speed = 40, millivolts = 1100},
    {speed = 60, millivolts = 1250},
    {speed = 80, millivolts = 1400},
    {speed = 100, millivolts = 1600},
]
"#;

/// The demands of the jobs of the controller; lines end with a carriage return, and some fields are in quotes.
pub const CONTROLLER_DEMANDS: &[u8] =
    b"task,job,units\r\n\"imu\",1,196\r\n\"imu\",2,396\r\nradio,1,596\r\nmotor,1,996\r\nlog,\"1\",396\r\nui,1,196\r\n";

/// Two tasks; the first release of the second is at tick 2.
pub const TWO_TASKS: &[u8] =
    br#"task = [{name = "x", period = 4, worst = 4}, {name = "y", period = 6, worst = 6, offset = 2}]"#;

/// Two tasks, both first released at tick 2; the first decision, at tick 0, has a demand of 0.
pub const BOTH_AT_2: &[u8] =
    br#"task = [{name = "x", period = 4, worst = 4, offset = 2}, {name = "y", period = 6, worst = 6, offset = 2}]"#;

/// Two tasks, one of which is first released after tick 99.
pub const ONE_BEYOND: &[u8] =
    br#"task = [{name = "x", period = 4, worst = 4}, {name = "z", period = 6, worst = 6, offset = 100}]"#;

/// The trace of `TWO_TASKS` on `PAPER_MACHINE` under cycle-conserving EDF, in version 1.
pub const TWO_TRACE_1: &[u8] = b"trace 1
plan edf cc 8
release 0 x 1
speed 0 2 12/12
run 0:0 2:0 x 1 4 36000000000
done 2:0 x 1 4
release 2 y 1
speed 2 2 24/12
run 2:0 4:0 y 1 4 36000000000
release 4 x 2
speed 4 2 24/12
run 4:0 6:0 x 2 4 36000000000
done 6:0 x 2 4
speed 6 2 24/12
run 6:0 7:0 y 1 2 18000000000
done 7:0 y 1 6
speed 7 2 24/12
idle 7:0 8:0 2 0
end 8 126000000000 0
";

/// The trace of `TWO_TASKS` on `PAPER_MACHINE` under cycle-conserving EDF, in version 2.
pub const TWO_TRACE_2: &str = "trace 2
plan edf cc 8
task x 4 0 4
task y 6 2 6
release 0 x 1
speed 0 2 12/12
run 0:0 2:0 x 1 4 36000000000
done 2:0 x 1 4
release 2 y 1
speed 2 2 24/12
run 2:0 4:0 y 1 4 36000000000
release 4 x 2
speed 4 2 24/12
run 4:0 6:0 x 2 4 36000000000
done 6:0 x 2 4
speed 6 2 24/12
run 6:0 7:0 y 1 2 18000000000
done 7:0 y 1 6
speed 7 2 24/12
idle 7:0 8:0 2 0
energy x 72000000000
energy y 54000000000
end 8 126000000000 0
";
