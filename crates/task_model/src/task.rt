// Tasks, and sets of them.
ghost use Rattle.std.specs.Prelude.{◌≡◌, ◌<◌, ◌≤◌, length, Some, None, IfOk, vec_len};
ghost use Rattle.std.specs.Option.{option_copied};
ghost use Rattle.dvs_base.specs.Parts.{name_of, name_text};
ghost use Rattle.dvs_base.specs.declared.limits.TheConstants.{MOST_TASKS};
ghost use Rattle.task_model.specs.declared.limits.TheConstants.{LONGEST_HYPERPERIOD};
ghost use Rattle.task_model.specs.Tasks.{IsTask, IsTaskSet, hyper_of, names_of, task_at, where_within, FindsOffset, first_offset};
ghost use Rattle.task_model.specs.Limits.{AreTasks};
ghost use Rattle.task_model.specs.TaskFile.{place_of};

use crate::limits::LONGEST_HYPERPERIOD;
use dvs_base::{MOST_TASKS, Name, NoMemory};
use grid_fraction::lcm_within;
use std::alloc::Global;
use std::marker::Model;

/// A periodic task (Liu and Layland 1973): from the tick `offset` on, every `period` ticks a job is released, which
/// needs at most `worst` work units and is due at the next release.
#[derive(Clone, Copy, Debug, PartialEq, Eq)]
pub struct Task {
    pub name: Name,
    pub period: u64,
    pub worst: u64,
    pub offset: u64,
}

/// Tasks within the limits, in the order of their file. Their names are distinct.
#[derive(Drop)]
pub struct TaskSet {
    tasks: Vec<Task>,
    hyper: u64,
}

impl Model for TaskSet {
    ghost use Rattle.std.specs.Prelude.{List};
    ghost use Rattle.task_model.specs.declared.task.Task.{Task};
    ghost use Rattle.task_model.specs.Tasks.{IsTaskSet, hyper_of};
    ghost use Rattle.std.specs.Prelude.{◌≡◌};

    ghost Value = { List Task };

    ghost view = { λ s. s.tasks.items };

    ghost invariant = { λ s. IsTaskSet s.tasks.items × (s.hyper ≡ hyper_of s.tasks.items) };
}

// The place of the first task with this name.
pub(crate) fn place_of(tasks: &[Task], name: &[u8]) -> Option<usize>
    ensures { result ≡ place_of tasks.now name.now }
{
    tasks.iter().position(|t| t.name.as_bytes() == name)
}

// The least common multiple of the tasks' periods, if it is within the limit.
fn hyper_within(alloc: Global, tasks: &[Task]) -> Result<Option<u64>, NoMemory>
    requires { AreTasks tasks.now }
    ensures { IfOk result (λ h. h ≡ where_within LONGEST_HYPERPERIOD (hyper_of tasks.now) (hyper_of tasks.now)) }
{
    let periods = tasks.iter().map(|t| t.period).collect::<Vec<u64>>(alloc)?;
    Ok(lcm_within(&periods, LONGEST_HYPERPERIOD))
}

impl TaskSet {
    // The set of these tasks, if the least common multiple of their periods is within the limit.
    pub(crate) fn within(alloc: Global, tasks: Vec<Task>) -> Result<Option<TaskSet>, NoMemory>
        requires limits { AreTasks tasks.items }
        requires some { 1 ≤ vec_len tasks }
        requires few { vec_len tasks ≤ MOST_TASKS }
        ensures { IfOk result (λ s. s ≡ where_within LONGEST_HYPERPERIOD (hyper_of tasks.items) tasks.items) }
    {
        let Some(hyper) = hyper_within(alloc, &tasks)? else {
            return Ok(None);
        };
        Ok(Some(TaskSet { tasks, hyper }))
    }

    /// The set of these tasks, in this order. It fails only if memory runs out.
    pub fn of(alloc: Global, tasks: &[Task]) -> Result<TaskSet, NoMemory>
        requires { IsTaskSet tasks.now }
        ensures { IfOk result (λ s. s ≡ tasks.now) }
    {
        let kept = Vec::from_slice(alloc, tasks)?;
        let set = TaskSet::within(alloc, kept)?;
        Ok(set.unwrap())
    }

    /// How many tasks there are, 1 to 64.
    pub fn count(&self) -> u32
        ensures count { result ≡ length self.now }
        ensures some { 1 ≤ result }
        ensures few { result ≤ MOST_TASKS }
    {
        self.tasks.len() as u32
    }

    /// A task, by its number from 0 on.
    pub fn task(&self, i: u32) -> Task
        requires { i < length self.now }
        ensures task { result ≡ task_at self.now i }
        ensures limits { IsTask result }
    {
        self.tasks[i as usize]
    }

    /// The least common multiple of the periods in ticks, at most 2^48. The releases repeat after this many ticks.
    pub fn hyper(&self) -> u64
        ensures hyper { result ≡ hyper_of self.now }
        ensures low { result ≤ LONGEST_HYPERPERIOD }
    {
        self.hyper
    }

    /// The number of the one task with this name, and None exactly if no task has it.
    pub fn find(&self, name: &[u8]) -> Option<u32>
        ensures { result ≡ place_of self.now name.now }
    {
        Some(place_of(&self.tasks, name)? as u32)
    }

    /// The first task in file order with an offset other than 0, and None exactly if no task has one. Tasks count
    /// from 0.
    pub fn first_offset(&self) -> Option<u32>
        ensures finds { FindsOffset (λ k. (task_at self.now k).offset) (length self.now) result }
        ensures is { result ≡ first_offset (λ k. (task_at self.now k).offset) (length self.now) }
    {
        for i in 0..self.count() {
            if self.task(i).offset != 0 {
                return Some(i);
            }
        }
        None
    }

    /// The tasks, in their order, and the limits that every set keeps.
    pub fn as_slice(&self) -> &[Task]
        ensures tasks { result.now ≡ self.now }
        ensures limits { IsTaskSet self.now }
    {
        &self.tasks
    }
}

/// The name of a task of the set, by its number from 0 on, if there is a set and it has this task. It takes no
/// memory.
pub fn task_name(tasks: Option<&TaskSet>, task: u32) -> Option<Name>
    ensures { name_text result ≡ name_of (names_of (option_copied tasks.entry)) task }
{
    match tasks {
        Some(tasks) if task < tasks.count() => Some(tasks.task(task).name),
        _ => None,
    }
}
