// The command or the error that each list of words is read as.
use dvs_base::{GovernorKind, MOST_TICKS, Scheduler, Short, Version};
use std::alloc::Global;
use std::test::Fail;
use words::{Command, Opt, WordFault, read_words};

// An error of words, with its place and its word as text.
#[derive(Clone, Copy)]
enum Why {
    BadCommand(&'static str),
    Unexpected(u64, &'static str),
    Repeated(u64, &'static str),
    NoValue(u64, &'static str),
    BadValue(u64, &'static str),
    Missing(Opt),
    Pair,
}

// A line, and the error that its words have.
type Refusal = (&'static str, Why);

fn fault(why: Why) -> WordFault {
    let short = |word: &str| Short::of(word.as_bytes());
    match why {
        Why::BadCommand(word) => WordFault::BadCommand { word: short(word) },
        Why::Unexpected(place, word) => WordFault::Unexpected {
            place,
            word: short(word),
        },
        Why::Repeated(place, word) => WordFault::Repeated {
            place,
            word: short(word),
        },
        Why::NoValue(place, word) => WordFault::NoValue {
            place,
            word: short(word),
        },
        Why::BadValue(place, word) => WordFault::BadValue {
            place,
            word: short(word),
        },
        Why::Missing(option) => WordFault::Missing { option },
        Why::Pair => WordFault::Pair,
    }
}

// The words of a line, which single spaces part; two spaces enclose an empty word.
fn words_of(alloc: Global, line: &str) -> Result<Vec<String>, Fail> {
    let mut words = Vec::new(alloc);
    for word in line.split(' ') {
        words.push(String::from_str(alloc, word)?)?;
    }
    Ok(words)
}

fn fault_of(alloc: Global, line: &str) -> Result<Option<WordFault>, Fail> {
    let words = words_of(alloc, line)?;
    match read_words(&words) {
        Ok(_) => Ok(None),
        Err(fault) => Ok(Some(fault)),
    }
}

fn is_read_as(alloc: Global, line: &str, command: Command<'_>) -> Result<bool, Fail> {
    let words = words_of(alloc, line)?;
    Ok(read_words(&words) == Ok(command))
}

// The words of each line have its error, or the failure names the line.
fn refuses(alloc: Global, rows: &[Refusal]) -> Result<(), Fail> {
    for (line, why) in rows {
        if fault_of(alloc, line)? != Some(fault(*why)) {
            return Err(Fail::new(format_args!("{line}")));
        }
    }
    Ok(())
}

// The words of each line are the command, or the failure names the line.
fn reads(alloc: Global, lines: &[&str], command: Command<'_>) -> Result<(), Fail> {
    for line in lines {
        if !is_read_as(alloc, line, command)? {
            return Err(Fail::new(format_args!("{line}")));
        }
    }
    Ok(())
}

const FEW_WORDS: &[Refusal] = &[
    ("run --ticks 0", Why::BadValue(3, "0")),
    ("run --tasks a", Why::Missing(Opt::Machine)),
    (
        "run --tasks t --machine m --scheduler rm --governor la --ticks 1 --demands d",
        Why::Pair,
    ),
];

#[test]
fn missing_file_and_bad_words(rt: HostRuntime) -> Result<(), Fail> {
    assert!(rt; read_words(&[]) == Err(WordFault::NoCommand));
    refuses(rt.alloc(), FEW_WORDS)
}

#[test]
fn options_come_in_any_order(rt: HostRuntime) -> Result<(), Fail> {
    let run = Command::Run {
        tasks: "t",
        machine: "m",
        demands: Some("d"),
        scheduler: Scheduler::Edf,
        governor: GovernorKind::Ahead,
        ticks: 16,
        probes: false,
        version: Version::One,
    };
    let lines = [
        "run --tasks t --machine m --scheduler edf --governor la --ticks 16 --demands d",
        "run --demands d --ticks 16 --governor la --scheduler edf --machine m --tasks t",
        "run --governor la --tasks t --ticks 16 --machine m --demands d --scheduler edf",
    ];
    reads(rt.alloc(), &lines, run)?;
    let admit = Command::Admit {
        tasks: "t",
        machine: "m",
        scheduler: Scheduler::Rm,
    };
    let lines = [
        "admit --tasks t --machine m --scheduler rm",
        "admit --tasks t --scheduler rm --machine m",
        "admit --machine m --tasks t --scheduler rm",
        "admit --machine m --scheduler rm --tasks t",
        "admit --scheduler rm --tasks t --machine m",
        "admit --scheduler rm --machine m --tasks t",
    ];
    reads(rt.alloc(), &lines, admit)
}

#[test]
fn a_value_may_look_like_an_option(rt: HostRuntime) -> Result<(), Fail> {
    let run = Command::Run {
        tasks: "--machine",
        machine: "--tasks",
        demands: None,
        scheduler: Scheduler::Rm,
        governor: GovernorKind::Cycle,
        ticks: MOST_TICKS,
        probes: false,
        version: Version::One,
    };
    reads(
        rt.alloc(),
        &[
            "run --tasks --machine --machine --tasks --scheduler rm --governor cc --ticks 1099511627776",
        ],
        run,
    )
}

const NO_COMMANDS: &[Refusal] = &[
    ("walk --ticks 0", Why::BadCommand("walk")),
    ("", Why::BadCommand("")),
    ("Run --ticks 0", Why::BadCommand("Run")),
    ("--tasks run", Why::BadCommand("--tasks")),
    ("--help", Why::BadCommand("--help")),
];

#[test]
fn the_first_word_is_the_command(rt: HostRuntime) -> Result<(), Fail> {
    refuses(rt.alloc(), NO_COMMANDS)
}

const OTHER_OPTIONS: &[Refusal] = &[
    ("admit --ticks 0", Why::Unexpected(2, "--ticks")),
    (
        "admit --tasks t --governor cc",
        Why::Unexpected(4, "--governor"),
    ),
    ("admit --demands", Why::Unexpected(2, "--demands")),
    ("run --trace r", Why::Unexpected(2, "--trace")),
    ("run --seed 1", Why::Unexpected(2, "--seed")),
    ("run run", Why::Unexpected(2, "run")),
    ("run  ", Why::Unexpected(2, "")),
    ("run --task t", Why::Unexpected(2, "--task")),
    ("run --tasks=t", Why::Unexpected(2, "--tasks=t")),
    ("run --tasks t --ticks 1 t", Why::Unexpected(6, "t")),
];

#[test]
fn options_of_other_commands_are_unexpected(rt: HostRuntime) -> Result<(), Fail> {
    refuses(rt.alloc(), OTHER_OPTIONS)
}

const TWICE: &[Refusal] = &[
    (
        "run --tasks a --machine m --tasks b",
        Why::Repeated(6, "--tasks"),
    ),
    ("run --tasks a --tasks b", Why::Repeated(4, "--tasks")),
    ("run --machine a --machine a", Why::Repeated(4, "--machine")),
    (
        "run --scheduler rm --scheduler edf",
        Why::Repeated(4, "--scheduler"),
    ),
    (
        "run --governor la --governor cc",
        Why::Repeated(4, "--governor"),
    ),
    ("run --ticks 1 --ticks 2", Why::Repeated(4, "--ticks")),
    ("run --demands a --demands b", Why::Repeated(4, "--demands")),
    (
        "run --tasks a --probes --machine m --tasks b",
        Why::Repeated(7, "--tasks"),
    ),
];

#[test]
fn each_option_stands_at_most_once(rt: HostRuntime) -> Result<(), Fail> {
    refuses(rt.alloc(), TWICE)
}

const TWICE_WITHOUT_A_VALUE: &[Refusal] = &[
    ("run --tasks a --tasks", Why::Repeated(4, "--tasks")),
    ("run --ticks 1 --ticks 0", Why::Repeated(4, "--ticks")),
    ("run --tasks --tasks --tasks", Why::Repeated(4, "--tasks")),
    ("run --ticks 0 --ticks 1", Why::BadValue(3, "0")),
    ("run --ticks 0 --seed", Why::BadValue(3, "0")),
];

#[test]
fn repeated_comes_before_no_value_and_bad_value(rt: HostRuntime) -> Result<(), Fail> {
    refuses(rt.alloc(), TWICE_WITHOUT_A_VALUE)
}

const NO_LAST_VALUE: &[Refusal] = &[
    ("run --tasks", Why::NoValue(2, "--tasks")),
    ("run --machine", Why::NoValue(2, "--machine")),
    ("run --scheduler", Why::NoValue(2, "--scheduler")),
    ("run --governor", Why::NoValue(2, "--governor")),
    ("run --ticks", Why::NoValue(2, "--ticks")),
    ("run --demands", Why::NoValue(2, "--demands")),
    (
        "run --tasks --machine --machine",
        Why::NoValue(4, "--machine"),
    ),
];

#[test]
fn the_last_option_needs_its_value(rt: HostRuntime) -> Result<(), Fail> {
    refuses(rt.alloc(), NO_LAST_VALUE)
}

const BAD_VALUES: &[Refusal] = &[
    ("run --tasks ", Why::BadValue(3, "")),
    ("run --demands ", Why::BadValue(3, "")),
    ("run --scheduler EDF", Why::BadValue(3, "EDF")),
    ("run --scheduler --governor", Why::BadValue(3, "--governor")),
    ("run --governor full", Why::BadValue(3, "full")),
    (
        "run --ticks 1099511627777",
        Why::BadValue(3, "1099511627777"),
    ),
    ("run --ticks 01", Why::BadValue(3, "01")),
    ("run --ticks +1", Why::BadValue(3, "+1")),
];

#[test]
fn values_keep_their_rules(rt: HostRuntime) -> Result<(), Fail> {
    refuses(rt.alloc(), BAD_VALUES)
}

const MISSING: &[Refusal] = &[
    ("run", Why::Missing(Opt::Tasks)),
    ("run --ticks 1 --machine m", Why::Missing(Opt::Tasks)),
    (
        "run --machine m --tasks t --ticks 1",
        Why::Missing(Opt::Scheduler),
    ),
    (
        "run --scheduler rm --machine m --tasks t",
        Why::Missing(Opt::Governor),
    ),
    (
        "run --governor la --scheduler rm --machine m --tasks t",
        Why::Missing(Opt::Ticks),
    ),
    ("admit", Why::Missing(Opt::Tasks)),
    (
        "admit --scheduler edf --tasks t",
        Why::Missing(Opt::Machine),
    ),
    ("admit --machine m --tasks t", Why::Missing(Opt::Scheduler)),
];

#[test]
fn missing_names_the_first_of_the_table(rt: HostRuntime) -> Result<(), Fail> {
    refuses(rt.alloc(), MISSING)
}

const WORKLOADS: &[Refusal] = &[
    ("workload --seed 007", Why::BadValue(3, "007")),
    (
        "workload --seed 18446744073709551616",
        Why::BadValue(3, "18446744073709551616"),
    ),
    ("workload --seed 1 --seed 2", Why::Repeated(4, "--seed")),
    ("workload --seed", Why::NoValue(2, "--seed")),
    ("workload --tasks t", Why::Unexpected(2, "--tasks")),
    ("workload", Why::Missing(Opt::Seed)),
];

#[test]
fn a_workload_has_a_seed(rt: HostRuntime) -> Result<(), Fail> {
    let greatest = Command::Workload {
        seed: 18446744073709551615,
    };
    reads(
        rt.alloc(),
        &["workload --seed 18446744073709551615"],
        greatest,
    )?;
    reads(
        rt.alloc(),
        &["workload --seed 0"],
        Command::Workload { seed: 0 },
    )?;
    refuses(rt.alloc(), WORKLOADS)
}

const REPLAYS: &[Refusal] = &[
    ("replay --trace", Why::NoValue(2, "--trace")),
    ("replay --trace ", Why::BadValue(3, "")),
    ("replay --trace r --trace r", Why::Repeated(4, "--trace")),
    ("replay --trace r --tasks t", Why::Missing(Opt::Machine)),
    ("replay --tasks t --machine m", Why::Missing(Opt::Trace)),
    (
        "replay --tasks t --scheduler edf",
        Why::Unexpected(4, "--scheduler"),
    ),
];

#[test]
fn a_trace_is_replayed(rt: HostRuntime) -> Result<(), Fail> {
    let replay = Command::Replay {
        tasks: "t",
        machine: "m",
        trace: "r",
    };
    reads(
        rt.alloc(),
        &["replay --trace r --machine m --tasks t"],
        replay,
    )?;
    refuses(rt.alloc(), REPLAYS)
}

const MIGRATIONS: &[Refusal] = &[
    ("migrate --trace", Why::NoValue(2, "--trace")),
    ("migrate --trace r --trace r", Why::Repeated(4, "--trace")),
    ("migrate --trace r --machine m", Why::Missing(Opt::Tasks)),
    ("migrate --tasks t --machine m", Why::Missing(Opt::Trace)),
    (
        "migrate --tasks t --format 2",
        Why::Unexpected(4, "--format"),
    ),
    ("Migrate --tasks t", Why::BadCommand("Migrate")),
];

#[test]
fn a_trace_is_migrated(rt: HostRuntime) -> Result<(), Fail> {
    let migrate = Command::Migrate {
        tasks: "t",
        machine: "m",
        trace: "r",
    };
    reads(
        rt.alloc(),
        &["migrate --machine m --trace r --tasks t"],
        migrate,
    )?;
    refuses(rt.alloc(), MIGRATIONS)
}

const LEAST_ENERGIES: &[Refusal] = &[
    ("least", Why::Missing(Opt::Machine)),
    ("least --ticks 1 --machine m", Why::Missing(Opt::Units)),
    ("least --machine m --units 1", Why::Missing(Opt::Ticks)),
    ("least --units 1 --ticks 1", Why::Missing(Opt::Machine)),
    ("least --tasks t --units 1", Why::Unexpected(2, "--tasks")),
    ("least --units 1 --units 1", Why::Repeated(4, "--units")),
    ("least --units 1 --units", Why::Repeated(4, "--units")),
    ("least --machine m --units", Why::NoValue(4, "--units")),
];

#[test]
fn a_least_energy_names_units_and_ticks(rt: HostRuntime) -> Result<(), Fail> {
    let most = Command::Least {
        machine: "m",
        units: 18446744073709551615,
        ticks: MOST_TICKS,
    };
    reads(
        rt.alloc(),
        &["least --ticks 1099511627776 --units 18446744073709551615 --machine m"],
        most,
    )?;
    let none = Command::Least {
        machine: "--units",
        units: 0,
        ticks: 1,
    };
    reads(
        rt.alloc(),
        &["least --units 0 --machine --units --ticks 1"],
        none,
    )?;
    refuses(rt.alloc(), LEAST_ENERGIES)
}

const LEAST_NUMBERS: &[Refusal] = &[
    ("least --units 01", Why::BadValue(3, "01")),
    ("least --units -1", Why::BadValue(3, "-1")),
    ("least --units ", Why::BadValue(3, "")),
    (
        "least --units 18446744073709551616",
        Why::BadValue(3, "18446744073709551616"),
    ),
    ("least --units 1 --ticks 0", Why::BadValue(5, "0")),
    (
        "least --units 1 --ticks 1099511627777",
        Why::BadValue(5, "1099511627777"),
    ),
    ("least --machine ", Why::BadValue(3, "")),
    ("run --units 1", Why::Unexpected(2, "--units")),
    ("workload --units 1", Why::Unexpected(2, "--units")),
];

#[test]
fn numbers_of_a_least_energy_keep_their_rules(rt: HostRuntime) -> Result<(), Fail> {
    refuses(rt.alloc(), LEAST_NUMBERS)
}

const PROBES_AND_VERSIONS: &[Refusal] = &[
    ("run --probes", Why::Missing(Opt::Tasks)),
    ("run --probes true", Why::Unexpected(3, "true")),
    ("run --probes --probes", Why::Repeated(3, "--probes")),
    ("run --probes --demands", Why::NoValue(3, "--demands")),
    ("run --probes --machine ", Why::BadValue(4, "")),
    (
        "run --tasks a --probes --tasks b",
        Why::Repeated(5, "--tasks"),
    ),
    ("run --format 1 --format 2", Why::Repeated(4, "--format")),
    ("run --format", Why::NoValue(2, "--format")),
    ("run --format 3", Why::BadValue(3, "3")),
    ("run --format 01", Why::BadValue(3, "01")),
    ("admit --probes", Why::Unexpected(2, "--probes")),
    ("admit --format 1", Why::Unexpected(2, "--format")),
];

#[test]
fn probes_and_a_version_may_be_asked_for(rt: HostRuntime) -> Result<(), Fail> {
    let run = Command::Run {
        tasks: "t",
        machine: "m",
        demands: None,
        scheduler: Scheduler::Edf,
        governor: GovernorKind::Plain,
        ticks: 1,
        probes: true,
        version: Version::Two,
    };
    reads(
        rt.alloc(),
        &[
            "run --format 2 --ticks 1 --probes --governor none --scheduler edf --machine m --tasks t",
        ],
        run,
    )?;
    refuses(rt.alloc(), PROBES_AND_VERSIONS)
}

const RESPONSES: &[Refusal] = &[
    ("response", Why::Missing(Opt::Tasks)),
    ("response --tasks t", Why::Missing(Opt::Machine)),
    ("response --machine ", Why::BadValue(3, "")),
    (
        "response --tasks t --scheduler rm",
        Why::Unexpected(4, "--scheduler"),
    ),
];

#[test]
fn response_times_are_asked_for(rt: HostRuntime) -> Result<(), Fail> {
    let response = Command::Response {
        tasks: "t",
        machine: "m",
    };
    reads(rt.alloc(), &["response --machine m --tasks t"], response)?;
    refuses(rt.alloc(), RESPONSES)
}

const DEADLINES: &[Refusal] = &[
    (
        "constrain --tasks t --machine m",
        Why::Missing(Opt::Deadlines),
    ),
    (
        "constrain --deadlines d --tasks t",
        Why::Missing(Opt::Machine),
    ),
    ("constrain --deadlines ", Why::BadValue(3, "")),
    (
        "constrain --tasks t --demands d",
        Why::Unexpected(4, "--demands"),
    ),
];

#[test]
fn deadlines_below_periods_are_asked_for(rt: HostRuntime) -> Result<(), Fail> {
    let constrain = Command::Constrain {
        tasks: "t",
        machine: "m",
        deadlines: "d",
    };
    reads(
        rt.alloc(),
        &["constrain --deadlines d --machine m --tasks t"],
        constrain,
    )?;
    refuses(rt.alloc(), DEADLINES)
}

const POLLINGS: &[Refusal] = &[
    ("poll", Why::Missing(Opt::Tasks)),
    ("poll --tasks t", Why::Missing(Opt::Machine)),
    ("poll --tasks t --machine m", Why::Missing(Opt::Requests)),
    (
        "poll --tasks t --machine m --requests r --ticks 1",
        Why::Missing(Opt::Server),
    ),
    (
        "poll --tasks t --machine m --server s --requests r --scheduler rm --governor la --ticks 1",
        Why::Pair,
    ),
    ("poll --server ", Why::BadValue(3, "")),
    ("poll --requests ", Why::BadValue(3, "")),
    ("poll --server", Why::NoValue(2, "--server")),
    (
        "poll --requests r --requests r",
        Why::Repeated(4, "--requests"),
    ),
    ("poll --demands d", Why::Unexpected(2, "--demands")),
    ("run --server s", Why::Unexpected(2, "--server")),
];

#[test]
fn a_polling_names_its_server(rt: HostRuntime) -> Result<(), Fail> {
    let poll = Command::Poll {
        tasks: "t",
        machine: "m",
        requests: "r",
        server: "s",
        scheduler: Scheduler::Rm,
        governor: GovernorKind::Cycle,
        ticks: 15,
    };
    reads(
        rt.alloc(),
        &[
            "poll --ticks 15 --server s --governor cc --requests r --scheduler rm --machine m --tasks t",
        ],
        poll,
    )?;
    refuses(rt.alloc(), POLLINGS)
}
