// Generating a workload from a seed.
ghost use Rattle.std.specs.Prelude.{◌≡◌, ◌<◌, ◌≤◌, ◌*◌, None, length, map, slice_index, IfOk, OnOk};
ghost use Rattle.dvs_base.specs.declared.kind.Scheduler.TheVariants.{Edf};
ghost use Rattle.dvs_base.specs.declared.limits.TheConstants.{MOST_TASKS};
ghost use Rattle.task_model.specs.DemandRows.{named_units};
ghost use Rattle.task_model.specs.Tasks.{IsTaskSet};
ghost use Rattle.demand_list.specs.Demands.{with_row};
ghost use Rattle.sched_model.specs.Plan.{plan_of};
ghost use Rattle.sched_model.specs.Tests.{IsEdfFeasible};
ghost use Rattle.workload.specs.Draws.{next_state, draw_of, state_after};
ghost use Rattle.workload.specs.Workload.{made_name, task_by, made_tasks, made_demands, made_machine, IsMade};

use crate::draws::Draws;
use demand_list::Demands;
use dvs_base::{Line, Name, NoMemory, put_num};
use freq_table::{Machine, Point};
use std::alloc::Global;
use task_model::{Task, TaskSet};

// The periods, in ticks.
const PERIODS: [u64; 8] = [20, 25, 40, 50, 100, 125, 200, 250];

// The highest speed of the machine, in work units per tick.
const MADE_SPEED: u64 = 1000;

// How many jobs of each task have a row in the demand list.
const JOBS: u32 = 4;

// The name of a task: `w` and its number from 1 on.
fn made_name(task: u32) -> Name
    requires { task < MOST_TASKS }
    ensures { result ≡ made_name task }
{
    let mut line = Line::new();
    line.push(b"w");
    put_num(&mut line, u128::from(task) + 1);
    Name::of(line.as_bytes()).unwrap()
}

// Task `task` of `count` tasks, by the next two draws.
fn make_task(draws: &mut Draws, count: u32, task: u32) -> Task
    requires own { task < count }
    requires few { count ≤ MOST_TASKS }
    ensures draws { draws.new.state ≡ next_state (next_state draws.old.state) }
    ensures task { result ≡ task_by count task (draw_of (next_state draws.old.state)) (draw_of draws.new.state) }
{
    let period = PERIODS[(draws.draw() % 8) as usize];
    let share = MADE_SPEED * period / u64::from(count);
    Task {
        name: made_name(task),
        period,
        worst: 1 + draws.draw() % share,
        offset: 0,
    }
}

// `count` tasks, by two draws each.
fn make_tasks(alloc: Global, draws: &mut Draws, count: u32) -> Result<Vec<Task>, NoMemory>
    requires { count ≤ MOST_TASKS }
    ensures draws { OnOk result (draws.new.state ≡ state_after draws.old.state (2 * count)) }
    ensures tasks { IfOk result (λ tasks. tasks.items ≡ made_tasks draws.old.state count) }
{
    let mut tasks = Vec::new(alloc);
    for task in 0..count {
        tasks.push(make_task(draws, count, task))?;
    }
    Ok(tasks)
}

// Adds a row for a job that has none.
fn add_row(demands: &mut Demands, task: u32, job: u64, units: u64) -> Result<(), NoMemory>
    requires task { task < length demands.old.worsts }
    requires job { 1 ≤ job }
    requires units { units ≤ slice_index demands.old.worsts task }
    requires free { named_units demands.old.rows task job ≡ None }
    ensures rows { OnOk result
        (demands.new.rows ≡ with_row demands.old.rows (record { task = task; job = job; units = units })) }
    ensures worsts { OnOk result (demands.new.worsts ≡ demands.old.worsts) }
{
    demands.set(task, job, units)?;
    Ok(())
}

// The declared worst cases of the tasks.
fn worsts_of(alloc: Global, tasks: &[Task]) -> Result<Vec<u64>, NoMemory>
    ensures { IfOk result (λ worsts. worsts.items ≡ map (λ t. t.worst) tasks.now) }
{
    let worsts: Vec<u64> = tasks.iter().map(|task| task.worst).collect(alloc)?;
    Ok(worsts)
}

// The demand list with drawn units for the first jobs of each task.
fn make_demands(alloc: Global, draws: &mut Draws, tasks: &[Task]) -> Result<Demands, NoMemory>
    requires { IsTaskSet tasks.now }
    ensures { IfOk result (λ demands. demands ≡ made_demands tasks.now draws.old.state) }
{
    let worsts = worsts_of(alloc, tasks)?;
    let mut demands = Demands::worst_only(alloc, &worsts)?;
    for row in 0..JOBS * tasks.len() as u32 {
        let task = row / JOBS;
        let units = draws.draw() % (tasks[task as usize].worst + 1);
        add_row(&mut demands, task, u64::from(row % JOBS) + 1, units)?;
    }
    Ok(demands)
}

// The machine, which is the same for all seeds.
fn make_machine(alloc: Global) -> Result<Machine, NoMemory>
    ensures { IfOk result (λ machine. machine ≡ made_machine) }
{
    let points = [
        Point {
            speed: 250,
            millivolts: 2000,
        },
        Point {
            speed: 500,
            millivolts: 3000,
        },
        Point {
            speed: 750,
            millivolts: 4000,
        },
        Point {
            speed: MADE_SPEED,
            millivolts: 5000,
        },
    ];
    Machine::of(alloc, 100, 0, &points)
}

/// A workload of `tasks` tasks, 1 to [`MOST_TASKS`](dvs_base::MOST_TASKS), with a machine and demands, from a seed:
/// periods in ticks, worst cases and demands in work units. It fails only if memory runs out.
pub fn make(alloc: Global, seed: u64, tasks: u32) -> Result<(TaskSet, Machine, Demands), NoMemory>
    requires some { 1 ≤ tasks }
    requires few { tasks ≤ MOST_TASKS }
    ensures made { IfOk result (λ made. IsMade seed tasks made.0 made.1 made.2) }
    // The highest speed does the work of each hyperperiod.
    ensures feasible { IfOk result (λ made. IsEdfFeasible (plan_of made.0 made.1 Edf)) }
{
    let mut draws = Draws::new(seed);
    let list = make_tasks(alloc, &mut draws, tasks)?;
    let set = TaskSet::of(alloc, &list)?;
    let machine = make_machine(alloc)?;
    let demands = make_demands(alloc, &mut draws, &list)?;
    Ok((set, machine, demands))
}
