// A task set, written as a document.
ghost use Rattle.std.specs.Prelude.{◌≡◌, ◌<◌, ◌^◌, pos, true, Ok, IfOk, OnOk, map, string_bytes};
ghost use Rattle.dvs_base.specs.Text.{is_name};
ghost use Rattle.toml.specs.Data.{string, integer};
ghost use Rattle.toml.specs.View.{view, table_view, items_of, array_view};
ghost use Rattle.task_model.specs.Tasks.{IsTask};
ghost use Rattle.task_model.specs.Limits.{AreTasks};
ghost use Rattle.task_model.specs.TaskFile.{task_file};
ghost use Rattle.task_model.specs.Written.{put_member, task_data, document};

use crate::task::{Task, TaskSet};
use dvs_base::{Name, NoMemory};
use std::alloc::Global;
use toml::{Table, Value};

fn name_value(alloc: Global, name: &Name) -> Result<Value, NoMemory>
    requires { is_name name.now ≡ true }
    ensures { IfOk result (λ v. view v ≡ string name.now) }
{
    let text = std::str::from_utf8(name.as_bytes()).unwrap();
    Ok(Value::string(alloc, text)?)
}

fn number_value(n: u64) -> Value
    requires { n < 2 ^ 63 }
    ensures { view result ≡ integer (pos n) }
{
    Value::from(n as i64)
}

// Puts a value at a key of the table.
fn put(alloc: Global, table: &mut Table, key: &str, value: Value) -> Result<(), NoMemory>
    ensures { OnOk result (table_view table.new ≡ put_member key.now (view value) (table_view table.old)) }
{
    let kept = String::from_str(alloc, key)?;
    table.insert(kept, value)?;
    Ok(())
}

fn task_value(alloc: Global, task: &Task) -> Result<Value, NoMemory>
    requires { IsTask task.now }
    ensures { IfOk result (λ v. view v ≡ task_data task.now) }
{
    let mut table = Table::new(alloc);
    put(alloc, &mut table, "name", name_value(alloc, &task.name)?)?;
    if task.offset > 0 {
        put(alloc, &mut table, "offset", number_value(task.offset))?;
    }
    put(alloc, &mut table, "period", number_value(task.period))?;
    put(alloc, &mut table, "worst", number_value(task.worst))?;
    Ok(Value::Table(table))
}

fn task_values(alloc: Global, tasks: &[Task]) -> Result<Vec<Value>, NoMemory>
    requires { AreTasks tasks.now }
    ensures { IfOk result (λ v. map view v.items ≡ map task_data tasks.now) }
{
    let mut values: Vec<Value> = Vec::new(alloc);
    for task in tasks {
        let value = task_value(alloc, task)?;
        values.push(value)?;
    }
    Ok(values)
}

fn document_of(alloc: Global, tasks: &[Task]) -> Result<Table, NoMemory>
    requires { AreTasks tasks.now }
    ensures { IfOk result (λ t. table_view t ≡ document tasks.now) }
{
    let mut table = Table::new(alloc);
    let values = task_values(alloc, tasks)?;
    put(alloc, &mut table, "task", Value::Array(values))?;
    Ok(table)
}

impl TaskSet {
    /// A document whose meaning is this set, so that reading it gives the set again. It fails only if memory runs
    /// out.
    pub fn write(&self, alloc: Global) -> Result<String, NoMemory>
        ensures { IfOk result (λ text. task_file (string_bytes text) ≡ Ok self.now) }
    {
        let table = document_of(alloc, self.as_slice())?;
        toml::table_to_string(alloc, &table).map_err(|_| NoMemory)
    }
}
