// The responses of a task set on a machine.
ghost use Rattle.std.specs.Prelude.{◌≡◌, ◌<◌, ◌≤◌, ◌^◌, IfOk, OnOk, IfErr, MatchResult, None, Some, length, slice_index, vec_capacity, [], ℕ};
ghost use Rattle.dvs_base.specs.Checks.{IsUnlessMemory};
ghost use Rattle.dvs_base.specs.declared.kind.Scheduler.TheVariants.{Rm};
ghost use Rattle.task_model.specs.Tasks.{task_at, NoneOffset};
ghost use Rattle.sched_model.specs.Plan.{plan_of, count, period};
ghost use Rattle.sched_model.specs.Priority.{in_order};
ghost use Rattle.governor.specs.Worst.{level_work_in};
ghost use Rattle.rm_response_laws.specs.Responses.{response, AllRespond, IsUnserved, MeetsAllDeadlines};
ghost use Rattle.rm_response.specs.Loads.{AreBefore, AreLoads};
ghost use Rattle.rm_response.specs.Fits.{IsFirstFit};
ghost use Rattle.rm_response.specs.Earlier.{HasNodes, HasFullNodes};
ghost use Rattle.rm_response.specs.Denials.{IsFirstLate, responses, AreLeast, misses_at, IsResponseDenial, IsMissedAtPeriod, IsShownMiss, exact_answer};
ghost use Rattle.rm_response.specs.Known.{AreAllKnown, late_task};

use crate::earlier::Earlier;
use crate::inputs::{Span, Supply};
use crate::left::Left;
use crate::loads::{load_of, work_of};
use crate::search::{first_fitting, fits, raised};
use crate::supply::full_supply;
use freq_table::Machine;
use sched_model::{rm_order, worst};
use std::alloc::Global;
use std::marker::Model;
use task_model::TaskSet;

// The most times that the first ticks are raised for one task before the ticks up to the task's period are halved.
const MOST_STEPS: u32 = 250;

/// The response of each task in ticks, in file order: the least tick at which its first job is complete under RM at
/// the highest speed when all jobs have their worst cases.
#[derive(Drop)]
pub struct Response {
    ticks: Vec<u64>,
}

impl Model for Response {
    ghost use Rattle.std.specs.Prelude.{ℕ, List};

    ghost Value = { List ℕ };

    ghost view = { λ r. r.ticks.items };

    ghost invariant = { λ r. Unit {0} };
}

impl Response {
    /// The response of a task in ticks, 1 to its period; tasks count from 0.
    pub fn of(&self, task: u32) -> u64
        requires { task < length self.now }
        ensures { result ≡ slice_index self.now task }
    {
        self.ticks[task as usize]
    }
}

/// Why a task set has no responses.
#[derive(Clone, Copy, Debug, PartialEq, Eq)]
pub enum ResponseFault {
    /// `task` has an offset, so first jobs don't show the longest response times. It is the first such task in file
    /// order; tasks count from 0.
    Offset { task: u32 },
    /// No task has an offset, and in each number of ticks up to its period the work that `task` and those before it
    /// can ask for exceeds what the highest speed does. In the period itself it is `num` work units, against `cap`.
    /// The task is the first such task in RM order; tasks count from 0.
    Misses { task: u32, num: u128, cap: u128 },
    /// Memory ran out. No task has an offset, and nothing else is known about the tasks.
    NoMemory,
}

// A task without a response, and the work in work units that its level can ask for in its period.
#[derive(Clone, Copy)]
struct Late {
    task: u32,
    work: u128,
}

// The first of the ticks of the span into which `rest` units fit beside the earlier loads; one more than the last if there
// is none. The nodes are made here, so that a task that needs no search does not pay for them. If memory runs out, the
// search has fewer of them and takes longer.
#[inline(never)]
fn searched(supply: Supply, earlier: &mut Earlier, rest: u128, span: Span) -> u64
    requires loads { AreLoads supply earlier.old.loads.items }
    requires nodes { HasNodes supply earlier.old }
    ensures first { IsFirstFit supply earlier.old.loads.items rest span.first span.last result }
    ensures loads { earlier.new.loads ≡ earlier.old.loads }
    ensures nodes { HasNodes supply earlier.new }
{
    let _made = earlier.make_nodes(supply);
    first_fitting(supply, Left::of(&earlier.loads, &earlier.nodes), rest, span)
}

// The response of task i in ticks; one more than its period if it has none. `from` is a number of ticks, and fewer
// ticks don't serve its level. The earlier loads are the tasks before it.
fn response_of(tasks: &TaskSet, machine: &Machine, earlier: &mut Earlier, from: u64, i: u32) -> u64
    requires task { i < length tasks.now }
    requires before { AreBefore (plan_of tasks.now machine.now Rm) i earlier.old.loads.items }
    requires nodes { HasFullNodes (plan_of tasks.now machine.now Rm) earlier.old }
    requires some { 1 ≤ from }
    requires unserved { IsUnserved (plan_of tasks.now machine.now Rm) i from }
    ensures response { result ≡ response (plan_of tasks.now machine.now Rm) i }
    ensures loads { earlier.new.loads ≡ earlier.old.loads }
    ensures nodes { HasFullNodes (plan_of tasks.now machine.now Rm) earlier.new }
{
    let _task_limits = tasks.as_slice();
    let last = tasks.task(i).period;
    if from > last {
        return last + 1;
    }
    let supply = full_supply(tasks, machine);
    let job = u128::from(worst(tasks, machine, i));
    let loads = earlier.loads.as_slice();
    let first = raised(supply, loads, job, Span { first: from, last }, MOST_STEPS);
    if first > last || fits(supply, loads, job, first) {
        return first;
    }
    searched(supply, earlier, job, Span { first, last })
}

// The responses in file order, written over `entries`. They are computed in RM order, and the error is the first task
// in it without a response. `earlier` has room for all tasks.
fn respond(
    mut entries: Vec<u64>,
    mut earlier: Earlier,
    order: &[u32],
    tasks: &TaskSet,
    machine: &Machine,
) -> Result<Vec<u64>, Late>
    requires one_each { length entries.items ≡ length tasks.now }
    requires no_loads { earlier.loads.items ≡ [] }
    requires room { length tasks.now ≤ vec_capacity earlier.loads }
    requires order { let p = plan_of tasks.now machine.now Rm in order.now ≡ in_order (period p) (count p) }
    ensures known { IfOk result (λ v. AreAllKnown (plan_of tasks.now machine.now Rm) v.items) }
    ensures late { let p = plan_of tasks.now machine.now Rm in
        IfErr result (λ e. IsFirstLate (period p) (response p) (count p) e.task) }
    ensures work { let p = plan_of tasks.now machine.now Rm in
        IfErr result (λ e. e.work ≡ level_work_in p (period p e.task) e.task) }
    ensures found { let p = plan_of tasks.now machine.now Rm in
        MatchResult result (λ v. late_task p ≡ None) (λ e. late_task p ≡ Some e.task) }
{
    let _task_limits = tasks.as_slice();
    let _machine_limits = machine.as_slice();
    let mut from = 1;
    for &task in order {
        let response = response_of(tasks, machine, &mut earlier, from, task);
        let period = tasks.task(task).period;
        if response > period {
            let work = u128::from(worst(tasks, machine, task)) + work_of(&earlier.loads, period);
            return Err(Late { task, work });
        }
        entries[task as usize] = response;
        earlier.add(load_of(tasks, machine, task), response);
        from = response;
    }
    Ok(entries)
}

// The fault of a task without a response, with the numbers of its period.
fn miss_fault(tasks: &TaskSet, machine: &Machine, late: Late) -> ResponseFault
    requires task { late.task < length tasks.now }
    requires work { let p = plan_of tasks.now machine.now Rm in
        late.work ≡ level_work_in p (period p late.task) late.task }
    ensures { result ≡ misses_at (plan_of tasks.now machine.now Rm) late.task }
{
    ResponseFault::Misses {
        task: late.task,
        num: late.work,
        cap: u128::from(machine.top()) * u128::from(tasks.task(late.task).period),
    }
}

/// The response of each task under RM at the highest speed `fm`, in file order: the least `t` from 1 to its period
/// such that the sum of `ceil(t/Pj)*Cj`, over it and the tasks before it in RM order, is at most `fm*t` (Joseph and
/// Pandya 1986). `Offset` exactly if some task has an offset, otherwise `Misses` exactly if some task has no
/// response, unless memory runs out.
pub fn rm_response(
    alloc: Global,
    tasks: &TaskSet,
    machine: &Machine,
) -> Result<Response, ResponseFault>
    ensures answer { IsUnlessMemory ResponseFault.NoMemory (λ r. r) result
        (exact_answer (plan_of tasks.now machine.now Rm)) }
    ensures responses { IfOk result (λ r. r ≡ responses (plan_of tasks.now machine.now Rm)) }
    ensures one_each { IfOk result (λ r. length r ≡ length tasks.now) }
    ensures no_offset { OnOk result (NoneOffset (λ k. (task_at tasks.now k).offset) (length tasks.now)) }
    ensures each { OnOk result (AllRespond (plan_of tasks.now machine.now Rm)) }
    ensures deadlines { OnOk result (MeetsAllDeadlines (plan_of tasks.now machine.now Rm)) }
    ensures least { IfOk result (AreLeast (plan_of tasks.now machine.now Rm)) }
    ensures denial { IfErr result (IsResponseDenial (plan_of tasks.now machine.now Rm)) }
    ensures missed { IfErr result (IsMissedAtPeriod (plan_of tasks.now machine.now Rm)) }
    ensures shown { IfErr result IsShownMiss }
{
    let _task_limits = tasks.as_slice();
    let _machine_limits = machine.as_slice();
    if let Some(task) = tasks.first_offset() {
        return Err(ResponseFault::Offset { task });
    }
    let count = tasks.count() as usize;
    let order = rm_order(alloc, tasks).map_err(|_| ResponseFault::NoMemory)?;
    let entries = vec![in alloc; 0; count].map_err(|_| ResponseFault::NoMemory)?;
    let earlier = Earlier::with_capacity(alloc, count).map_err(|_| ResponseFault::NoMemory)?;
    match respond(entries, earlier, &order, tasks, machine) {
        Ok(ticks) => Ok(Response { ticks }),
        Err(late) => Err(miss_fault(tasks, machine, late)),
    }
}
