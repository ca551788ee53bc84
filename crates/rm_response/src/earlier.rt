// The loads of the earlier tasks, with the nodes of a search beside them.
ghost use Rattle.std.specs.Prelude.{◌≡◌, ◌≤◌, ◌<◌, ◌+◌, ◌^◌, IfOk, [], insert, slice_index_or, vec_len, vec_capacity};
ghost use Rattle.std.specs.List.{remove};
ghost use Rattle.rm_response.specs.Loads.{AreLoads, IsJoined, IsAdded, work_of};

use crate::inputs::{Load, Supply};
use crate::loads::{place_among, place_of};
use crate::nodes::node_of;
use crate::relaxed::Relaxed;
use dvs_base::MOST_TASKS;
use std::alloc::{AllocError, Global};

/// The loads of the earlier tasks. A node is at the number of the last loads that it is for; only a search makes nodes.
#[derive(Drop)]
pub(crate) struct Earlier {
    pub(crate) loads: Vec<Load>,
    pub(crate) nodes: Vec<Relaxed>,
}

impl Earlier {
    ghost use Rattle.rm_response.specs.Earlier.{HasNodes, KeepsNodes};

    // No loads, with room for some.
    pub(crate) fn with_capacity(alloc: Global, capacity: usize) -> Result<Earlier, AllocError>
        ensures none { IfOk result (λ e. e.loads.items ≡ []) }
        ensures no_nodes { IfOk result (λ e. e.nodes.items ≡ []) }
        ensures capacity { IfOk result (λ e. vec_capacity e.loads ≡ capacity) }
    {
        Ok(Earlier {
            loads: Vec::with_capacity(alloc, capacity)?,
            nodes: Vec::new(alloc),
        })
    }

    // Takes out the load at a place. The nodes for loads after it stay.
    fn take_out(&mut self, place: usize) -> Load
        requires { place < vec_len self.old.loads }
        ensures value { result ≡ slice_index_or self.old.loads.items place result }
        ensures items { self.new.loads.items ≡ remove self.old.loads.items place }
        ensures capacity { vec_capacity self.old.loads ≤ vec_capacity self.new.loads }
        ensures nodes { KeepsNodes self.old self.new }
    {
        self.nodes.truncate(self.loads.len() - place);
        self.loads.remove(place)
    }

    // Puts a load into a place. The nodes for loads after it stay.
    fn put_in(&mut self, place: usize, load: Load)
        requires place { place ≤ vec_len self.old.loads }
        requires room { vec_len self.old.loads < vec_capacity self.old.loads }
        ensures items { self.new.loads.items ≡ insert self.old.loads.items place load }
        ensures capacity { vec_capacity self.old.loads ≤ vec_capacity self.new.loads }
        ensures nodes { KeepsNodes self.old self.new }
    {
        self.nodes.truncate(self.loads.len() - place + 1);
        let _room_was_reserved = self.loads.insert(place, load);
    }

    // Takes out the load of the same period, if there is one, and makes one of both.
    fn joined(&mut self, load: Load) -> Load
        requires { load.worst + work_of self.old.loads.items 1 ≤ 2 ^ 61 }
        ensures joined { IsJoined load self.old.loads.items result self.new.loads.items }
        ensures capacity { vec_capacity self.old.loads ≤ vec_capacity self.new.loads }
        ensures nodes { KeepsNodes self.old self.new }
    {
        let Some(place) = place_of(&self.loads, load.period) else {
            return load;
        };
        let other = self.take_out(place);
        Load {
            period: load.period,
            worst: load.worst + other.worst,
            rate: load.rate + other.rate,
        }
    }

    // Puts a load with this response into its place, as one with the load of the same period.
    pub(crate) fn add(&mut self, load: Load, response: u64)
        requires room { vec_len self.old.loads < vec_capacity self.old.loads }
        requires low { load.worst + work_of self.old.loads.items 1 ≤ 2 ^ 61 }
        ensures added { IsAdded response load self.old.loads.items self.new.loads.items }
        ensures capacity { vec_capacity self.old.loads ≤ vec_capacity self.new.loads }
        ensures nodes { KeepsNodes self.old self.new }
    {
        let both = self.joined(load);
        let place = place_among(&self.loads, both.worst, response);
        self.put_in(place, both);
    }

    // Makes the nodes that are not there, for the last loads from the fewest on.
    pub(crate) fn make_nodes(&mut self, supply: Supply) -> Result<(), AllocError>
        requires loads { AreLoads supply self.old.loads.items }
        requires nodes { HasNodes supply self.old }
        ensures loads { self.new.loads ≡ self.old.loads }
        ensures nodes { HasNodes supply self.new }
    {
        let missing = MOST_TASKS.saturating_sub(self.nodes.len());
        self.nodes.reserve(missing)?;
        while self.nodes.len() <= self.loads.len() {
            let first = self.loads.len() - self.nodes.len();
            let node = node_of(supply, &self.loads[first..]);
            self.nodes.push(node)?;
        }
        Ok(())
    }
}
