// The order of tasks by a key, and among equal keys by number; under RM the key is the period.
ghost use Rattle.std.specs.Prelude.{◌≡◌, ◌<◌, IfOk, length, map};
ghost use Rattle.std.specs.Option.{ForSome};
ghost use Rattle.grid_fraction.specs.Numbers.{list_below};
ghost use Rattle.task_model.specs.Tasks.{task_at};
ghost use Rattle.sched_model.specs.Priority.{stands_before, earlier_of, in_order, AreInOrder};

use dvs_base::NoMemory;
use std::alloc::Global;
use task_model::TaskSet;

/// Whether task `j` comes before task `i` in RM order.
pub fn stands_before(tasks: &TaskSet, j: u32, i: u32) -> bool
    requires first { j < length tasks.now }
    requires second { i < length tasks.now }
    ensures { result ≡ stands_before (λ k. (task_at tasks.now k).period) j i }
{
    let first = tasks.task(j).period;
    let second = tasks.task(i).period;
    first < second || (first == second && j < i)
}

/// The earlier in RM order of task `i` and another; task `i` if there is no other.
pub fn earlier_of(tasks: &TaskSet, other: Option<u32>, i: u32) -> u32
    requires first { i < length tasks.now }
    requires second { ForSome other (λ k. k < length tasks.now) }
    ensures { result ≡ earlier_of (λ k. (task_at tasks.now k).period) other i }
{
    match other {
        Some(k) if !stands_before(tasks, i, k) => k,
        _ => i,
    }
}

// Each task's period and number, in the order of the numbers.
fn keys_of(alloc: Global, tasks: &TaskSet) -> Result<Vec<(u128, u32)>, NoMemory>
    ensures { IfOk result (λ v. v.items ≡ list_below (length tasks.now) (λ i. ((task_at tasks.now i).period, i))) }
{
    let mut keys = Vec::new(alloc);
    for i in 0..tasks.count() {
        keys.push((u128::from(tasks.task(i).period), i))?;
    }
    Ok(keys)
}

// The task numbers of the keys, in their order.
fn numbers_of(alloc: Global, keys: &[(u128, u32)]) -> Result<Vec<u32>, NoMemory>
    ensures { IfOk result (λ v. v.items ≡ map (λ k. k.1) keys.now) }
{
    Ok(keys.iter().map(|key| key.1).collect::<Vec<u32>>(alloc)?)
}

/// The numbers that the keys are of, in the order of the keys, and among equal keys by number.
#[tactic(auto, using(crate::proofs::SortedKeys::sorted_keys))]
pub fn numbers_in_order(alloc: Global, keys: Vec<(u128, u32)>) -> Result<Vec<u32>, NoMemory>
    ensures { IfOk result (λ v. AreInOrder keys.items v.items) }
{
    let mut sorted = keys;
    sorted.sort_unstable();
    numbers_of(alloc, &sorted)
}

/// The tasks' numbers in RM order: by period, and tasks of equal periods in file order. `NoMemory` if memory ran out.
pub fn rm_order(alloc: Global, tasks: &TaskSet) -> Result<Vec<u32>, NoMemory>
    ensures { IfOk result (λ v. v.items ≡ in_order (λ i. (task_at tasks.now i).period) (length tasks.now)) }
{
    let keys = keys_of(alloc, tasks)?;
    numbers_in_order(alloc, keys)
}
