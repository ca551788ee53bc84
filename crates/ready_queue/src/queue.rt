// The queue.
ghost use Rattle.std.specs.Prelude.{◌≡◌, ◌<◌, [], ◌∷◌, length, drop, IfOk, IfSome, MatchOption, slice_get};
ghost use Rattle.ready_queue.specs.Entries.{IsAbsent, IsOfFirst, with_entry, ComesFirst};

use crate::heap::{rise, sink};
use crate::{Entry, Order};
use dvs_base::NoMemory;
use std::alloc::Global;
use std::marker::Model;

/// A queue of entries of distinct tasks below a limit, by an order.
#[derive(Drop)]
pub struct Queue<O: Order> {
    heap: Vec<Entry>,
    order: O,
}

impl<O: Order> Model for Queue<O> {
    ghost use Rattle.std.specs.Prelude.{vec_capacity};
    ghost use Rattle.ready_queue.specs.Entries.{QueueView, ordered_entries};
    ghost use Rattle.ready_queue.specs.Heaps.{HoldsQueue};

    ghost Value = { QueueView };

    ghost view = { λ q. record { limit = vec_capacity q.heap; entries = ordered_entries O.comes_before q.heap.items } };

    ghost invariant = { λ q. HoldsQueue O.comes_before (vec_capacity q.heap) q.heap.items };
}

impl<O: Order> Queue<O> {
    /// An empty queue for the tasks below `n`. All its memory is taken here. The only error is `NoMemory`.
    pub fn new(alloc: Global, n: u32, order: O) -> Result<Queue<O>, NoMemory>
        ensures { IfOk result (λ q. q ≡ record { limit = n; entries = [] }) }
    {
        let heap = Vec::with_capacity(alloc, n as usize)?;
        Ok(Queue { heap, order })
    }

    /// Adds an entry of a task that is not in the queue.
    pub fn insert(&mut self, e: Entry)
        requires task { e.task < self.old.limit }
        requires absent { IsAbsent e.task self.old.entries }
        ensures entries { self.new.entries ≡ with_entry O.comes_before e self.old.entries }
        ensures limit { self.new.limit ≡ self.old.limit }
    {
        let at = self.heap.len();
        self.heap.push_reserved(e);
        rise(&mut self.heap, &self.order, at);
    }

    /// The entry that comes before all others; `None` exactly if the queue is empty.
    pub fn first(&self) -> Option<Entry>
        ensures value { result ≡ slice_get self.now.entries 0 }
        ensures first { IfSome result (λ e. ComesFirst O.comes_before e self.now.entries) }
    {
        self.heap.first().copied()
    }

    /// Takes out and returns the entry that comes before all others; `None` exactly if the queue is empty.
    pub fn take_first(&mut self) -> Option<Entry>
        ensures entries { MatchOption result ((self.old.entries ≡ []) × (self.new.entries ≡ []))
            (λ e. self.old.entries ≡ e ∷ self.new.entries) }
        ensures first { IfSome result (λ e. ComesFirst O.comes_before e self.old.entries) }
        ensures out { IfSome result (λ e. IsAbsent e.task self.new.entries) }
        ensures limit { self.new.limit ≡ self.old.limit }
    {
        if self.heap.is_empty() {
            return None;
        }
        let first = self.heap.swap_remove(0);
        sink(&mut self.heap, &self.order);
        Some(first)
    }

    /// Replaces the entry that comes before all others by another of the same task.
    pub fn replace_first(&mut self, e: Entry)
        requires { IsOfFirst e.task self.old.entries }
        ensures entries { self.new.entries ≡ with_entry O.comes_before e (drop 1 self.old.entries) }
        ensures out { IsAbsent e.task (drop 1 self.old.entries) }
        ensures limit { self.new.limit ≡ self.old.limit }
    {
        self.heap[0] = e;
        sink(&mut self.heap, &self.order);
    }

    /// The number of entries.
    pub fn len(&self) -> u32
        ensures { result ≡ length self.now.entries }
    {
        self.heap.len() as u32
    }
}
