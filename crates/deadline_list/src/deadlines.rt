// Relative deadlines of tasks.
ghost use Rattle.std.specs.Prelude.{◌≡◌, ◌<◌, length, slice_index};

use std::marker::Model;

/// A relative deadline in ticks for each task of a set, in the set's order, each from 1 to the task's period.
#[derive(Drop)]
pub struct Deadlines {
    pub(crate) ticks: Vec<u64>,
}

impl Model for Deadlines {
    ghost use Rattle.std.specs.Prelude.{List, ℕ};

    ghost Value = { List ℕ };

    ghost view = { λ d. d.ticks.items };
}

impl Deadlines {
    /// The relative deadline of a task, in ticks.
    pub fn of(&self, task: u32) -> u64
        requires { task < length self.now }
        ensures { result ≡ slice_index self.now task }
    {
        self.ticks[task as usize]
    }

    /// The relative deadlines in ticks, in the tasks' order.
    pub fn ticks(&self) -> &[u64]
        ensures { result.now ≡ self.now }
    {
        &self.ticks
    }
}
