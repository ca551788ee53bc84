// Plans that the tests share.
use edf_admit::edf_admit;
use freq_table::Machine;
use sched_model::Admitted;
use std::alloc::Global;
use std::test::Fail;
use task_model::TaskSet;

// The plan of tasks on a machine under EDF.
pub(crate) fn edf_plan(alloc: Global, tasks: &[u8], machine: &[u8]) -> Result<Admitted, Fail> {
    let tasks = TaskSet::read(alloc, tasks).ok().ok_or("tasks")?;
    let machine = Machine::read(alloc, machine).ok().ok_or("machine")?;
    Ok(edf_admit(alloc, &tasks, &machine).ok().ok_or("plan")?)
}
