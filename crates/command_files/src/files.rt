// The files that the words name: loaded and read.
ghost use Rattle.std.specs.Prelude.{◌≡◌, ◌<◌, ◌^◌, Some, map, option_map, IfOk, IfErr};
ghost use Rattle.command_files.specs.Meanings.{longest, bytes_at, tasks_at, machine_at, demands_at};
ghost use Rattle.command_files.specs.Files.{if_named};
ghost use Rattle.command_files.specs.GivenFiles.{ForFiles};
ghost use Rattle.command_files.specs.Loads.{IsLoadStep, one_file, each_of};
ghost use Rattle.statuses.specs.Status.{IsOfFile};

use demand_list::{Demands, worst_list};
use dvs_base::{LONGEST_FILE, LONGEST_TRACE, LoadFault, Shelf};
use freq_table::Machine;
use statuses::{FileKind, Status, TextFault};
use std::alloc::Global;
use task_model::TaskSet;

// The longest file of a kind that is read, in bytes.
fn longest(file: FileKind) -> u64
    ensures longest { result ≡ longest file }
    ensures room { result < 2 ^ 32 }
{
    match file {
        FileKind::Trace => LONGEST_TRACE,
        FileKind::Tasks
        | FileKind::Machine
        | FileKind::Demands
        | FileKind::Deadlines
        | FileKind::Requests => LONGEST_FILE,
    }
}

/// The bytes of a file of a kind. `Load` if the shelf lacks the name or its load failed, `Text` if the file is
/// longer than its kind may be, in bytes.
pub fn load_file<S: Shelf>(
    alloc: Global,
    file: FileKind,
    name: &str,
    shelf: &mut S,
) -> Result<Vec<u8>, Status>
    ensures step { ForFiles (S.shows shelf.old) (S.shows shelf.new)
        (IsLoadStep (one_file file name.now (bytes_at file name.now)) (S.shows shelf.old) (S.shows shelf.new) result
        (λ v. v.items)) }
    ensures of_file { IfErr result IsOfFile }
{
    let most = longest(file);
    let bytes = match shelf.load(alloc, name, most) {
        Ok(bytes) => bytes,
        Err(LoadFault::NoMemory) => return Err(Status::NoMemory),
        Err(LoadFault::Failed | LoadFault::Absent) => return Err(Status::Load { file }),
    };
    if bytes.len() as u64 > most {
        return Err(Status::Text(TextFault::TooLong { file }));
    }
    Ok(bytes)
}

/// The tasks of a file. `Load` and `Text` as for its bytes; `Text` if it isn't a task file, with its first fault.
pub fn load_tasks<S: Shelf>(alloc: Global, name: &str, shelf: &mut S) -> Result<TaskSet, Status>
    ensures step { ForFiles (S.shows shelf.old) (S.shows shelf.new) (IsLoadStep (one_file FileKind.Tasks name.now
        (tasks_at name.now)) (S.shows shelf.old) (S.shows shelf.new) result (λ v. v)) }
    ensures of_file { IfErr result IsOfFile }
{
    let bytes = load_file(alloc, FileKind::Tasks, name, shelf)?;
    Ok(TaskSet::read(alloc, &bytes)?)
}

/// The machine of a file. `Load` and `Text` as for its bytes; `Text` if it isn't a machine file, with its first fault.
pub fn load_machine<S: Shelf>(alloc: Global, name: &str, shelf: &mut S) -> Result<Machine, Status>
    ensures step { ForFiles (S.shows shelf.old) (S.shows shelf.new) (IsLoadStep (one_file FileKind.Machine name.now
        (machine_at name.now)) (S.shows shelf.old) (S.shows shelf.new) result (λ v. v)) }
    ensures of_file { IfErr result IsOfFile }
{
    let bytes = load_file(alloc, FileKind::Machine, name, shelf)?;
    Ok(Machine::read(alloc, &bytes)?)
}

// The demands of a named file.
fn load_named_demands<S: Shelf>(
    alloc: Global,
    name: &str,
    tasks: &TaskSet,
    shelf: &mut S,
) -> Result<Demands, Status>
    ensures step { ForFiles (S.shows shelf.old) (S.shows shelf.new) (IsLoadStep (one_file FileKind.Demands name.now
        (demands_at tasks.now (Some name.now))) (S.shows shelf.old) (S.shows shelf.new) result (λ v. v)) }
    ensures worsts { IfOk result (λ d. d.worsts ≡ map (λ t. t.worst) tasks.now) }
{
    let bytes = load_file(alloc, FileKind::Demands, name, shelf)?;
    Ok(Demands::read(alloc, &bytes, tasks)?)
}

/// The demands of a file, or every job's worst case if none is named. `Load` and `Text` as for its bytes; `Text` or
/// `OverWorst` if it isn't a demand file of these tasks, with its first fault.
pub fn load_demands<S: Shelf>(
    alloc: Global,
    name: Option<&str>,
    tasks: &TaskSet,
    shelf: &mut S,
) -> Result<Demands, Status>
    ensures step { ForFiles (S.shows shelf.old) (S.shows shelf.new) (IsLoadStep
        (each_of (if_named FileKind.Demands (option_map (λ s. s.now) name.entry))
        (demands_at tasks.now (option_map (λ s. s.now) name.entry)))
        (S.shows shelf.old) (S.shows shelf.new) result (λ v. v)) }
    ensures worsts { IfOk result (λ d. d.worsts ≡ map (λ t. t.worst) tasks.now) }
{
    match name {
        Some(name) => load_named_demands(alloc, name, tasks, shelf),
        None => worst_list(alloc, tasks).map_err(|_| Status::NoMemory),
    }
}
