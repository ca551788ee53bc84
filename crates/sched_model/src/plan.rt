// Admitted plans.
ghost use Rattle.std.specs.Prelude.{◌≡◌, ◌<◌, ◌≤◌, IfOk, slice_index, map};
ghost use Rattle.dvs_base.specs.Widths.{u64_end};
ghost use Rattle.dvs_base.specs.declared.limits.TheConstants.{MOST_TASKS};
ghost use Rattle.task_model.specs.declared.limits.TheConstants.{LONGEST_PERIOD, LATEST_OFFSET, LONGEST_HYPERPERIOD};
ghost use Rattle.freq_table.specs.Tables.{IsTable};
ghost use Rattle.task_model.specs.Tasks.{IsTaskSet};
ghost use Rattle.sched_model.specs.Plan.{plan_of, count, names, task, period, offset, worst, hyper};
ghost use Rattle.sched_model.specs.Priority.{in_order};
ghost use Rattle.sched_model.specs.StaticDemand.{static_demand};
ghost use Rattle.sched_model.specs.Admission.{PassesTest, IsAdmitted};

use crate::order::rm_order;
use crate::static_demand::static_demand;
use dvs_base::{Name, NoMemory, Scheduler};
use freq_table::Machine;
use grid_fraction::Frac;
use std::alloc::Global;
use std::marker::Model;
use task_model::{Task, TaskSet};

/// Tasks on a machine under a scheduler whose test they pass.
#[derive(Drop)]
pub struct Admitted {
    tasks: Vec<Task>,
    name_list: Vec<Name>,
    machine: Machine,
    scheduler: Scheduler,
    rm_order: Vec<u32>,
    hyperperiod: u64,
    static_fraction: Frac,
}

impl Model for Admitted {
    ghost use Rattle.sched_model.specs.Plan.{Plan};
    ghost use Rattle.sched_model.specs.Admission.{HoldsPlan};

    ghost Value = { Plan };

    ghost view = { λ a. record { tasks = a.tasks.items; machine = a.machine; scheduler = a.scheduler } };

    ghost invariant = { λ a. HoldsPlan (record { tasks = a.tasks.items; machine = a.machine; scheduler = a.scheduler }) a.name_list.items a.rm_order.items a.hyperperiod a.static_fraction };
}

// The tasks of a set, in its order; they keep the limits of a task set.
fn tasks_of(alloc: Global, tasks: &TaskSet) -> Result<Vec<Task>, NoMemory>
    ensures list { IfOk result (λ v. v.items ≡ tasks.now) }
    ensures limits { IfOk result (λ v. IsTaskSet v.items) }
{
    Ok(Vec::from_slice(alloc, tasks.as_slice())?)
}

// The names of tasks, in their order.
fn names_of(alloc: Global, tasks: &[Task]) -> Result<Vec<Name>, NoMemory>
    ensures { IfOk result (λ v. v.items ≡ map (λ t. t.name) tasks.now) }
{
    let mut list = Vec::new(alloc);
    for task in tasks {
        list.push(task.name)?;
    }
    Ok(list)
}

impl Admitted {
    /// The plan of `tasks` on `machine` under `scheduler`, whose test they pass. The only error is `NoMemory`.
    pub fn with(
        alloc: Global,
        tasks: &TaskSet,
        machine: &Machine,
        scheduler: Scheduler,
    ) -> Result<Admitted, NoMemory>
        requires { PassesTest scheduler (plan_of tasks.now machine.now scheduler) }
        ensures { IfOk result (λ plan. plan ≡ plan_of tasks.now machine.now scheduler) }
    {
        let list = tasks_of(alloc, tasks)?;
        let machine = machine.copy(alloc)?;
        let static_fraction = static_demand(tasks, &machine, scheduler);
        let rm_order = rm_order(alloc, tasks)?;
        let name_list = names_of(alloc, &list)?;
        Ok(Admitted {
            tasks: list,
            name_list,
            machine,
            scheduler,
            rm_order,
            hyperperiod: tasks.hyper(),
            static_fraction,
        })
    }

    /// The number of tasks, 1 to 64.
    pub fn count(&self) -> u32
        ensures count { result ≡ count self.now }
        ensures some { 1 ≤ result }
        ensures few { result ≤ MOST_TASKS }
    {
        self.tasks.len() as u32
    }

    /// The tasks' names, by their numbers.
    pub fn names(&self) -> &[Name]
        ensures { result.now ≡ names self.now }
    {
        &self.name_list
    }

    /// The period of a task in ticks.
    pub fn period(&self, i: u32) -> u64
        requires { i < count self.now }
        ensures period { result ≡ period self.now i }
        ensures some { 1 ≤ result }
        ensures low { result ≤ LONGEST_PERIOD }
    {
        self.tasks[i as usize].period
    }

    /// The tick of the first release of a task.
    pub fn offset(&self, i: u32) -> u64
        requires { i < count self.now }
        ensures offset { result ≡ offset self.now i }
        ensures low { result ≤ LATEST_OFFSET }
    {
        self.tasks[i as usize].offset
    }

    /// The declared worst case of a task in work units, without the charge.
    pub fn declared(&self, i: u32) -> u64
        requires { i < count self.now }
        ensures { result ≡ (task self.now i).worst }
    {
        self.tasks[i as usize].worst
    }

    /// The worst case of a task in work units, with the charge for two switches of speed.
    pub fn worst(&self, i: u32) -> u64
        requires { i < count self.now }
        ensures { result ≡ worst self.now i }
    {
        self.tasks[i as usize].worst + self.machine.job_charge()
    }

    /// The k-th task in RM order, counted from 0.
    pub fn ranked(&self, k: u32) -> u32
        requires { k < count self.now }
        ensures { result ≡ slice_index (in_order (period self.now) (count self.now)) k }
    {
        self.rm_order[k as usize]
    }

    /// The hyperperiod in ticks, the least common multiple of the periods.
    pub fn hyper(&self) -> u64
        ensures hyper { result ≡ hyper self.now }
        ensures low { result ≤ LONGEST_HYPERPERIOD }
    {
        self.hyperperiod
    }

    /// The machine. The plan is within the limits and passes its scheduler's test.
    pub fn machine(&self) -> &Machine
        ensures machine { result.now ≡ self.now.machine }
        ensures limits { IsTable result.now }
        ensures admitted { IsAdmitted self.now }
    {
        &self.machine
    }

    /// The scheduler. The plan is within the limits and passes its test.
    pub fn scheduler(&self) -> Scheduler
        ensures scheduler { result ≡ self.now.scheduler }
        ensures admitted { IsAdmitted self.now }
    {
        self.scheduler
    }

    /// The static demand in units per tick, not reduced (Pillai and Shin 2001).
    #[tactic(auto, using(crate::proofs::StaticShare::static_den))]
    pub fn static_demand(&self) -> Frac
        ensures static_demand { result ≡ static_demand self.now }
        ensures some_den { 1 ≤ result.den }
        ensures low_den { result.den ≤ u64_end }
    {
        self.static_fraction
    }
}
