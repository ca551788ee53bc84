// Generated cases: a task file, a machine file and a demand file for each seed.
use crate::case::Case;
use std::alloc::{AllocError, Global};
use test_inputs::Draws;

// One of eight numbers.
fn one_of(draws: &mut Draws, choices: [u64; 8]) -> u64 {
    choices[draws.below(8) as usize]
}

// The files of a generated case.
#[derive(Drop)]
pub(crate) struct WorkloadFiles {
    tasks: String,
    machine: String,
    demands: String,
}

// A machine with one to three points, and its highest speed.
fn make_machine(alloc: Global, draws: &mut Draws) -> Result<(String, u64), AllocError> {
    let idle = one_of(draws, [0, 0, 0, 100, 100, 500, 999, 1000]);
    let charge = one_of(draws, [0, 0, 0, 0, 0, 1, 1, 2]);
    let mut text = format!(in alloc; "idle = {idle}\ncharge = {charge}\n")?;
    let mut speed: u64 = 0;
    let mut millivolts: u64 = 1000;
    for _ in 0..1 + draws.below(3) {
        speed = speed.saturating_add(1 + draws.below(3));
        let point = format!(in alloc; "[[point]]\nspeed = {speed}\nmillivolts = {millivolts}\n")?;
        text.push_str(point.as_str())?;
        millivolts = millivolts.saturating_add(one_of(
            draws,
            [0, 1, 250, 500, 500, 750, 1000, 1500],
        ));
    }
    Ok((text, speed))
}

// Rows for some of the first six jobs of a task, one in four of them with no work.
fn make_rows(
    alloc: Global,
    draws: &mut Draws,
    task: u64,
    worst: u64,
) -> Result<String, AllocError> {
    let mut text = String::new(alloc);
    for job in 1..7 {
        if draws.below(3) > 0 {
            let units = draws.below(worst.max(1)).saturating_add(draws.below(2));
            let units = if draws.below(4) == 0 { 0 } else { units };
            let row = format!(in alloc; "t{task},{job},{units}\n")?;
            text.push_str(row.as_str())?;
        }
    }
    Ok(text)
}

impl WorkloadFiles {
    // One to four tasks whose hyperperiod divides 24, on a machine on which most such sets are admitted.
    pub(crate) fn from_seed(alloc: Global, seed: u64) -> Result<WorkloadFiles, AllocError> {
        let mut draws = Draws::from_seed(seed);
        let (machine, top) = make_machine(alloc, &mut draws)?;
        let mut tasks = String::new(alloc);
        let mut demands = String::from_str(alloc, "task,job,units\n")?;
        let count = 1 + draws.below(4);
        for task in 0..count {
            let period = one_of(&mut draws, [2, 3, 4, 6, 6, 8, 12, 24]);
            let offset = one_of(&mut draws, [0, 0, 0, 1, 2, 5, 7, 40]);
            let most = (period.saturating_mul(top) / count).max(1);
            let worst = if draws.below(3) == 0 {
                most
            } else {
                1 + draws.below(most)
            };
            let entry = format!(in alloc;
                "[[task]]\nname = \"t{task}\"\nperiod = {period}\nworst = {worst}\noffset = {offset}\n"
            )?;
            tasks.push_str(entry.as_str())?;
            demands.push_str(make_rows(alloc, &mut draws, task, worst)?.as_str())?;
        }
        Ok(WorkloadFiles {
            tasks,
            machine,
            demands,
        })
    }

    // The files as a case.
    pub(crate) fn case(&self) -> Case<'_> {
        Case {
            tasks: self.tasks.as_bytes(),
            machine: self.machine.as_bytes(),
            demands: self.demands.as_bytes(),
            words: "",
        }
    }
}
