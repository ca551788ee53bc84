// Accounts of a run's energy.
ghost use Rattle.std.specs.Prelude.{◌≡◌, ◌<◌, [], IfOk, length, replicate, slice_index};
ghost use Rattle.energy.specs.Books.{books_of, account_after, HasTask, HasRoom, KeepsSums};

use dvs_base::{NoMemory, Note, Totals};
use freq_table::Machine;
use std::alloc::Global;
use std::marker::Model;

/// The sums and counts over the notes that the account was told: the totals, and the energy of each task and of each
/// entry of the machine's table.
#[derive(Drop)]
pub struct Account {
    sums: Totals,
    tasks: Vec<u128>,
    points: Vec<u128>,
}

impl Model for Account {
    ghost use Rattle.energy.specs.Books.{Books};

    ghost Value = { Books };

    ghost view = { λ a. record { totals = a.sums; by_task = a.tasks.items; by_point = a.points.items } };
}

// `count` zeros.
fn zeros(alloc: Global, count: u32) -> Result<Vec<u128>, NoMemory>
    ensures { IfOk result (λ v. v.items ≡ replicate count 0) }
{
    Ok(vec![in alloc; 0u128; count as usize]?)
}

impl Account {
    /// An account for `tasks` tasks and the entries of a machine, with sums of 0. It fails only if memory runs out.
    pub fn new(alloc: Global, tasks: u32, machine: &Machine) -> Result<Account, NoMemory>
        ensures { IfOk result (λ a. a ≡ books_of tasks (length machine.now.points) []) }
    {
        let tasks = zeros(alloc, tasks)?;
        let points = zeros(alloc, machine.count())?;
        Ok(Account {
            sums: Totals {
                run: 0,
                idle: 0,
                released: 0,
                finished: 0,
                decisions: 0,
            },
            tasks,
            points,
        })
    }

    /// Adds one more note, with the entry in force. The energy of a `Run` note goes to the run sum, to its task and to
    /// the entry, that of an `Idle` note to the idle sum and to the entry; `Release`, `Done` and `Speed` notes are
    /// counted.
    pub fn add(&mut self, note: &Note, point: u32)
        requires task { HasTask self.old note.now }
        requires point { point < length self.old.by_point }
        requires room { HasRoom self.old note.now point }
        ensures booked { self.new ≡ account_after self.old note.now point }
        // An account that had the sums over some notes has the sums over them and this one.
        ensures sums { KeepsSums self.old self.new note.now point }
    {
        match *note {
            Note::Release { .. } => self.sums.released += 1,
            Note::Speed { .. } => self.sums.decisions += 1,
            Note::Run { task, energy, .. } => {
                self.sums.run += energy;
                self.tasks[task as usize] += energy;
                self.points[point as usize] += energy;
            }
            Note::Idle { energy, .. } => {
                self.sums.idle += energy;
                self.points[point as usize] += energy;
            }
            Note::Done { .. } => self.sums.finished += 1,
            Note::End { .. } => {}
        }
    }

    /// The sums of the energies and the counts of releases, completions and decisions.
    pub fn totals(&self) -> Totals
        ensures { result ≡ self.now.totals }
    {
        self.sums
    }

    /// The energy of each task's segments.
    pub fn by_task(&self) -> &[u128]
        ensures { result.now ≡ self.now.by_task }
    {
        &self.tasks
    }

    /// The energy of a task's segments.
    pub fn of_task(&self, task: u32) -> u128
        requires { task < length self.now.by_task }
        ensures { result ≡ slice_index self.now.by_task task }
    {
        self.tasks[task as usize]
    }

    /// The energy of the segments at an entry, idle ones too.
    pub fn of_point(&self, point: u32) -> u128
        requires { point < length self.now.by_point }
        ensures { result ≡ slice_index self.now.by_point point }
    {
        self.points[point as usize]
    }
}
