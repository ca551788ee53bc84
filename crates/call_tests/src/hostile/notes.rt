// Puts of the notes that fail: the status stays the same, and nothing more is put.
use crate::call::{Call, Faults};
use crate::hostile::example::{ADMIT, CONSTRAIN, DENIED, LEAST, OVER_WORST, POLL, RESPONSE};
use crate::hostile::lines::{Line, after, lines_of};
use crate::hostile::puts::TAKEN;
use dvs_base::FailAt;
use std::test::Fail;
use test_inputs::Ending;
use test_inputs::example::{PAPER_MACHINE, PAPER_TASKS, TWO_TASKS};

// The put of the notes that `failing` names fails, and the call ends as `ending` says.
fn ends_at_note(
    rt: &impl AllocGlobal,
    call: Call<'_>,
    failing: FailAt,
    ending: Ending<'_>,
) -> Result<(), Fail> {
    let faults = Faults {
        loads: &[],
        puts: &[],
        notes: &[failing],
    };
    call.ends(rt, faults, ending)
}

// The put of a line of the notes fails after each number of bytes. The call writes nothing to `out`.
fn note_fails(rt: &impl AllocGlobal, call: Call<'_>, code: u8, line: Line<'_>) -> Result<(), Fail> {
    for taken in TAKEN {
        let failed = Ending {
            code,
            out: "",
            notes: line.first(taken),
            faults: [0, 0, 1],
        };
        ends_at_note(rt, call, line.failing(taken), failed)?;
    }
    Ok(())
}

// A put of the notes that isn't made changes nothing.
fn note_is_not_put(
    rt: &impl AllocGlobal,
    call: Call<'_>,
    code: u8,
    text: &str,
    put: FailAt,
) -> Result<(), Fail> {
    let whole = Ending {
        code,
        out: "",
        notes: text,
        faults: [0, 0, 0],
    };
    ends_at_note(rt, call, put, whole)
}

// Each put of these notes, one for each line, fails in turn, and one after them isn't made.
fn each_note_fails(
    rt: &impl AllocGlobal,
    call: Call<'_>,
    code: u8,
    text: &str,
) -> Result<(), Fail> {
    let lines = lines_of(rt.alloc(), text)?;
    for line in &lines {
        note_fails(rt, call, code, *line)?;
    }
    note_is_not_put(rt, call, code, text, after(&lines))
}

// A trace of one tick, which goes to t2; under `none` the example's first tick goes to t1.
const DIFFERENT: Call = Call {
    tasks: PAPER_TASKS,
    machine: PAPER_MACHINE,
    third: b"trace 1
plan edf none 1
release 0 t1 1
release 0 t2 1
release 0 t3 1
speed 0 4 4/1
run 0:0 1:0 t2 1 4 100000000000
end 1 100000000000 0
",
    words: "replay --tasks T --machine M --trace F",
};

// The notes of a trace that differs.
const DIFFERENCE: &str = "differs: line 7
wanted: run 0:0 1:0 t1 1 4 100000000000
found: run 0:0 1:0 t2 1 4 100000000000
";

// Each put of the notes of each of these calls, which have these statuses and these notes, fails in turn.
fn all_notes_fail(rt: &impl AllocGlobal, cases: &[(Call<'_>, u8, &str)]) -> Result<(), Fail> {
    for (call, code, text) in cases {
        each_note_fails(rt, *call, *code, text)?;
    }
    Ok(())
}

#[test]
fn each_note_of_each_status_fails(rt: HostRuntime) -> Result<(), Fail> {
    let no_value = ADMIT.asked("admit --tasks T --machine");
    let no_file = ADMIT.asked("admit --tasks T --machine X --scheduler rm");
    let long = ADMIT.asked(
        "run --tasks T --machine M --scheduler edf --governor la --ticks 1000000",
    );
    let cases = [
        (DENIED, 1, "denied edf 145 144\n"),
        (no_value, 2, "words: 4: no value for --machine\n"),
        (no_file, 3, "load: machine\n"),
        (ADMIT.with_machine(b""), 4, "machine: no points\n"),
        (long, 5, "limit: 296429 jobs, at most 100000\n"),
        (OVER_WORST, 6, "over worst: t2 2 13 12\n"),
        (DIFFERENT, 7, DIFFERENCE),
    ];
    all_notes_fail(&rt, &cases)
}

// The first task asks for 8 units in its period of 2 ticks, and the second for one unit more.
const MISSES: &[u8] =
    br#"task = [{name = "a", period = 2, worst = 8}, {name = "b", period = 4, worst = 1}]"#;

const SLOW: &[u8] = b"point = [{speed = 1, millivolts = 1000}]";

// Each command but `run` that denies what it is given, while each note fails.
fn each_denial_fails(rt: &impl AllocGlobal) -> Result<(), Fail> {
    let too_many = LEAST.asked("least --machine M --units 65 --ticks 16");
    let cases = [
        (too_many, 1, "denied units 65 64\n"),
        (RESPONSE.with_tasks(MISSES), 1, "misses b 17 16\n"),
        (RESPONSE.with_tasks(TWO_TASKS), 1, "denied offset y\n"),
        (CONSTRAIN.with_machine(SLOW), 1, "denied demand 6 7 6\n"),
    ];
    all_notes_fail(rt, &cases)
}

#[test]
fn each_note_of_the_commands_beyond_a_run_fails(rt: HostRuntime) -> Result<(), Fail> {
    each_denial_fails(&rt)?;
    let no_file = LEAST.asked("least --machine X --units 1 --ticks 1");
    let one_field = CONSTRAIN.with_third(b"task,deadline\nc");
    let no_server = POLL.asked(
        "poll --tasks T --machine M --requests F --server z --scheduler edf --governor none --ticks 15",
    );
    let migrated = DIFFERENT.asked("migrate --tasks T --machine M --trace F");
    let cases = [
        (no_file, 3, "load: machine\n"),
        (one_field, 4, "deadlines: row 1: 1 fields\n"),
        (POLL.with_third(b"arrival\n"), 4, "requests: wrong header\n"),
        (no_server, 4, "tasks: no task z\n"),
        (migrated, 7, DIFFERENCE),
    ];
    all_notes_fail(&rt, &cases)
}
