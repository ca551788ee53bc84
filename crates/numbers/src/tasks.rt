// The task set of numbers.
ghost use Rattle.std.specs.Prelude.{◌≡◌, ◌≤◌, ◌<◌, [], ◌∷◌, length, nat_le, IfOk, vec_len};
ghost use Rattle.dvs_base.specs.Checks.{IsUnlessMemory};
ghost use Rattle.dvs_base.specs.declared.limits.TheConstants.{MOST_TASKS};
ghost use Rattle.task_model.specs.declared.limits.TheConstants.{LONGEST_HYPERPERIOD};
ghost use Rattle.task_model.specs.Tasks.{IsTask, hyper_of};
ghost use Rattle.task_model.specs.TaskFile.{within_hyper};
ghost use Rattle.numbers.specs.Given.{given_name, task_number, given_task, given_tasks_from, tasks_of_given};
ghost use Rattle.numbers.specs.Kept.{AreGiven};

use crate::given::GivenTask;
use dvs_base::{MOST_TASKS, Name, NoMemory};
use grid_fraction::lcm_within;
use std::alloc::Global;
use task_model::{
    Field, LATEST_OFFSET, LONGEST_HYPERPERIOD, LONGEST_PERIOD, MOST_WORK, Task, TaskFault, TaskSet,
};

// The name of task i, counted from 0: two letters from `aa` to `hh`.
fn given_name(i: u32) -> Name
    requires { i < MOST_TASKS }
    ensures { result ≡ given_name i }
{
    let bytes = [b'a' + (i / 8) as u8, b'a' + (i % 8) as u8];
    Name::of(&bytes).unwrap()
}

// A number of the task at this place, if it is within its limits.
fn task_number(place: u32, field: Field, least: u64, most: u64, n: u64) -> Result<u64, TaskFault>
    ensures { result ≡ task_number place field least most n }
{
    if least <= n && n <= most {
        Ok(n)
    } else {
        Err(TaskFault::Range { place, field })
    }
}

// Task i of its numbers, counted from 0.
fn task_of(i: u32, given: GivenTask) -> Result<Task, TaskFault>
    requires { i < MOST_TASKS }
    ensures meaning { result ≡ given_task i given }
    ensures limits { IfOk result (λ t. IsTask t) }
    ensures name { IfOk result (λ t. t.name ≡ given_name i) }
{
    let place = i + 1;
    let period = task_number(place, Field::Period, 1, LONGEST_PERIOD, given.period)?;
    let worst = task_number(place, Field::Worst, 1, MOST_WORK, given.worst_case)?;
    let offset = task_number(place, Field::Offset, 0, LATEST_OFFSET, given.offset)?;
    Ok(Task {
        name: given_name(i),
        period,
        worst,
        offset,
    })
}

// The tasks of these numbers, of which there are at most `MOST_TASKS`.
fn read_tasks(alloc: Global, given: &[GivenTask]) -> Result<Vec<Task>, TaskFault>
    requires { length given.now ≤ MOST_TASKS }
    ensures meaning { IsUnlessMemory TaskFault.NoMemory (λ v. v.items) result (given_tasks_from [] given.now) }
    ensures limits { IfOk result (λ v. AreGiven v.items) }
    ensures count { IfOk result (λ v. vec_len v ≡ length given.now) }
{
    let mut tasks: Vec<Task> = Vec::new(alloc);
    for one in given {
        let task = task_of(tasks.len() as u32, *one)?;
        tasks.push(task).map_err(|_| TaskFault::NoMemory)?;
    }
    Ok(tasks)
}

// Whether the least common multiple of the tasks' periods is within the limit.
fn is_within_hyper(alloc: Global, tasks: &[Task]) -> Result<bool, NoMemory>
    requires { AreGiven tasks.now }
    ensures { IfOk result (λ b. b ≡ nat_le (hyper_of tasks.now) LONGEST_HYPERPERIOD) }
{
    let periods = tasks.iter().map(|t| t.period).collect::<Vec<u64>>(alloc)?;
    Ok(lcm_within(&periods, LONGEST_HYPERPERIOD).is_some())
}

// The set of these tasks, if the least common multiple of their periods is within the limit.
fn set_of(alloc: Global, tasks: &[Task]) -> Result<TaskSet, TaskFault>
    requires limits { AreGiven tasks.now }
    requires some { 1 ≤ length tasks.now }
    requires few { length tasks.now ≤ MOST_TASKS }
    ensures meaning { IsUnlessMemory TaskFault.NoMemory (λ s. s) result (within_hyper tasks.now) }
    ensures same { IfOk result (λ s. s ≡ tasks.now) }
{
    match is_within_hyper(alloc, tasks) {
        Ok(true) => TaskSet::of(alloc, tasks).map_err(|_| TaskFault::NoMemory),
        Ok(false) => Err(TaskFault::Hyper),
        Err(NoMemory) => Err(TaskFault::NoMemory),
    }
}

/// The set of tasks with these numbers, in this order; otherwise the refusal of a file of such tasks: first their
/// number, 1 to 64; then of each task the period, 1 to 2^40 ticks, the worst case, 1 to 2^60 work units, and the offset,
/// at most 2^40 ticks; and then their hyperperiod, at most 2^48 ticks. It fails otherwise only if memory runs out.
pub fn tasks_of(alloc: Global, given: &[GivenTask]) -> Result<TaskSet, TaskFault>
    ensures meaning { IsUnlessMemory TaskFault.NoMemory (λ s. s) result (tasks_of_given given.now) }
    ensures one_each { IfOk result (λ s. length s ≡ length given.now) }
{
    if given.is_empty() {
        return Err(TaskFault::NoTasks);
    }
    if given.len() > MOST_TASKS {
        return Err(TaskFault::TooMany {
            count: given.len() as u64,
        });
    }
    let tasks = read_tasks(alloc, given)?;
    set_of(alloc, &tasks)
}
