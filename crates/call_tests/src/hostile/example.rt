// Calls that succeed, with their texts, and two that don't.
use crate::call::Call;
use test_inputs::example::{
    CONTROLLER_DEMANDS, CONTROLLER_MACHINE, CONTROLLER_TASKS, CYCLE_TRACE, PAPER_MACHINE,
    PAPER_TASKS, TWO_TASKS, TWO_TRACE_1,
};

pub(crate) const CONTROLLER_RUN: Call = Call {
    tasks: CONTROLLER_TASKS,
    machine: CONTROLLER_MACHINE,
    third: CONTROLLER_DEMANDS,
    words: "run --tasks T --machine M --scheduler edf --governor cc --ticks 100 --demands F",
};

pub(crate) const NONE_RUN: Call = Call {
    tasks: PAPER_TASKS,
    machine: PAPER_MACHINE,
    third: b"",
    words: "run --tasks T --machine M --scheduler edf --governor none --ticks 16",
};

pub(crate) const TWO_RUN: Call = Call {
    tasks: TWO_TASKS,
    machine: PAPER_MACHINE,
    third: b"",
    words: "run --tasks T --machine M --scheduler edf --governor cc --ticks 8 --format 2",
};

pub(crate) const ADMIT: Call = Call {
    tasks: PAPER_TASKS,
    machine: PAPER_MACHINE,
    third: b"",
    words: "admit --tasks T --machine M --scheduler rm",
};

pub(crate) const ADMITTED: &str = "admitted rm 52/14 4\n";

pub(crate) const REPLAY: Call = Call {
    tasks: PAPER_TASKS,
    machine: PAPER_MACHINE,
    third: CYCLE_TRACE,
    words: "replay --tasks T --machine M --trace F",
};

pub(crate) const REPLAYED: &str = "replayed 6 6 364000000000 0\n";

pub(crate) const WORKLOAD: Call = Call {
    tasks: b"",
    machine: b"",
    third: b"",
    words: "workload --seed 1",
};

// The text that an independent script, which goes tick by tick, prints for the seed 1.
pub(crate) const WORKLOADS: &str = "workload 1 32 50000
none 29150 29150 19227 644393500000000000 60560650000000000
static 29150 29150 23323 412411840000000000 18758816000000000
cc 29150 29150 23379 409752736000000000 18301726400000000
la 29150 29150 24710 375964840000000000 46516000000000
";

// The call that migrates the two tasks' trace from version 1 to version 2.
pub(crate) const MIGRATE: Call = Call {
    tasks: TWO_TASKS,
    machine: PAPER_MACHINE,
    third: TWO_TRACE_1,
    words: "migrate --tasks T --machine M --trace F",
};

// A server of 4 units in 5 ticks, with its requests.
pub(crate) const POLL: Call = Call {
    tasks: br#"task = [{name = "s", period = 5, worst = 4}, {name = "a", period = 10, worst = 10}]"#,
    machine: PAPER_MACHINE,
    third: b"arrival,units\n0,3\n1,6\n12,1\n",
    words: "poll --tasks T --machine M --requests F --server s --scheduler edf --governor none --ticks 15",
};

pub(crate) const POLLED: &str = "served 1 0 3 1 0:3
served 2 1 6 3 10:2
pending 3 12 1
polled 2 725000000000 0
";

// The responses of the example: 12 units, then 24 and 28, at 4 units a tick.
pub(crate) const RESPONSE: Call = Call {
    tasks: PAPER_TASKS,
    machine: PAPER_MACHINE,
    third: b"",
    words: "response --tasks T --machine M",
};

pub(crate) const RESPONSES: &str = "response t1 3
response t2 6
response t3 7
";

// Deadlines up to the periods: the work due is 2, 5, 7, 9 and 12 at the ticks 2, 5, 6, 10 and 11.
pub(crate) const CONSTRAIN: Call = Call {
    tasks: br#"task = [{name = "a", period = 4, worst = 2}, {name = "b", period = 6, worst = 3}]"#,
    machine: b"point = [{speed = 1, millivolts = 1000}, {speed = 2, millivolts = 1000}]",
    third: b"task,deadline\na,2\nb,5\n",
    words: "constrain --tasks T --machine M --deadlines F",
};

pub(crate) const CONSTRAINED: &str = "constrained 7/6 2\n";

pub(crate) const LEAST: Call = Call {
    tasks: b"",
    machine: PAPER_MACHINE,
    third: b"",
    words: "least --machine M --units 28 --ticks 16",
};

pub(crate) const LEAST_ENERGY: &str = "least 2 0 4 2 28 504000000000
prices 18000000000 plus 0
";

// Three tasks that ask for one unit more than the highest speed does.
pub(crate) const DENIED: Call = Call {
    tasks: br#"
task = [
    {name = "a", period = 3, worst = 12},
    {name = "b", period = 4, worst = 12},
    {name = "c", period = 12, worst = 61},
]
"#,
    machine: b"point = [{speed = 6, millivolts = 3000}, {speed = 12, millivolts = 5000}]",
    third: b"",
    words: "run --tasks T --machine M --scheduler edf --governor none --ticks 3",
};

// A demand one unit above the worst case.
pub(crate) const OVER_WORST: Call = Call {
    tasks: PAPER_TASKS,
    machine: PAPER_MACHINE,
    third: b"task,job,units\nt2,2,13\n",
    words: "run --tasks T --machine M --scheduler edf --governor cc --ticks 16 --demands F --probes",
};

// A call of each command that loads files.
pub(crate) const EACH_THAT_LOADS: [Call; 8] = [
    CONTROLLER_RUN,
    ADMIT,
    REPLAY,
    MIGRATE,
    RESPONSE,
    CONSTRAIN,
    POLL,
    LEAST,
];
