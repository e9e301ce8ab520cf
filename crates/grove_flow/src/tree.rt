ghost use Rattle.std.specs.Prelude.{◌≡◌, ℕ, ◌+◌, ◌<◌, ◌≤◌, ◌⊎◌, ◌+ℤ◌, pos, length, replicate, slice_index, slice_set};
ghost use Rattle.std.specs.Prelude.{IfOk, MatchOption};
ghost use Rattle.grove_flow.specs.Networks.{IsArcOf, IsMet, arc_at, place};
ghost use Rattle.grove_flow.specs.States.{AreNear};
ghost use Rattle.grove_flow.specs.Trees.{AreEarly, AreRaisedTo, IsKey, IsLive, IsSearchTree, IsTreeOf};
ghost use Rattle.grove_flow.specs.Reaches.{IsAhead, IsBehind, IsNew, IsNoStep};

use crate::state::State;
use crate::{Arc, Network};
use grove_base::NoMemory;
use std::alloc::Global;

/// What a search has reached from its source, along residual arcs: along an arc, or back along one with an amount.
#[derive(Drop)]
pub struct Tree {
    /// A variable's number in the order of reaching, from 1; 0 until it is reached.
    pub ranks: Vec<u64>,
    /// The arc by which a variable was reached.
    pub vias: Vec<usize>,
    /// How much can be sent to a variable from the source.
    pub rooms: Vec<u64>,
    /// The distance of a variable from the source, in reduced costs: the slacks along the way.
    pub entries: Vec<u64>,
}

impl Tree {
    pub fn new(alloc: Global, count: usize) -> Result<Self, NoMemory>
        ensures tree { IfOk result (λ tree. IsTreeOf count tree) }
    {
        let ranks = vec![in alloc; 0u64; count]?;
        let vias = vec![in alloc; 0usize; count]?;
        let rooms = vec![in alloc; 0u64; count]?;
        let entries = vec![in alloc; 0u64; count]?;
        Ok(Tree {
            ranks,
            vias,
            rooms,
            entries,
        })
    }

    /// The source alone is reached.
    pub fn begin(&mut self, source: usize, room: u64)
        requires tree { IsTreeOf (length self.old.ranks.items) self.old }
        requires source { source < length self.old.ranks.items }
        ensures ranks { self.new.ranks.items ≡ slice_set (replicate (length self.old.ranks.items) 0) source 1 }
        ensures vias { self.new.vias.items ≡ self.old.vias.items }
        ensures rooms { self.new.rooms.items ≡ slice_set self.old.rooms.items source room }
        ensures entries { self.new.entries.items ≡ slice_set self.old.entries.items source 0 }
    {
        self.ranks.fill(0);
        self.ranks[source] = 1;
        self.rooms[source] = room;
        self.entries[source] = 0;
    }

    /// One more variable is reached.
    pub fn enter(&mut self, v: usize, rank: u64, via: usize, room: u64, entry: u64)
        requires tree { IsTreeOf (length self.old.ranks.items) self.old }
        requires v { v < length self.old.ranks.items }
        ensures ranks { self.new.ranks.items ≡ slice_set self.old.ranks.items v rank }
        ensures vias { self.new.vias.items ≡ slice_set self.old.vias.items v via }
        ensures rooms { self.new.rooms.items ≡ slice_set self.old.rooms.items v room }
        ensures entries { self.new.entries.items ≡ slice_set self.old.entries.items v entry }
    {
        self.ranks[v] = rank;
        self.vias[v] = via;
        self.rooms[v] = room;
        self.entries[v] = entry;
    }

    /// The key of the i-th arc, where it leads on from what is reached.
    pub fn key_at(&self, network: &Network, state: &State, i: usize) -> Option<u64>
        requires tree { IsSearchTree network.now state.now self.now }
        requires within { i < length network.now.arcs.items }
        ensures { MatchOption result
            (IsNoStep (arc_at network.now.arcs.items i) (slice_index state.now.amounts.items i) self.now.ranks.items)
            (λ key. IsLive network.now state.now self.now i key) }
    {
        self.key_of(network.arcs[i], state.amounts[i], &state.places)
    }

    // The distance of the variable that an arc leads on to, along this arc.
    fn key_of(&self, arc: Arc, amount: u64, places: &[i64]) -> Option<u64>
        requires tree { IsTreeOf (length places.now) self.now }
        requires early { AreEarly self.now }
        requires arc { IsArcOf (length places.now) arc }
        requires near { AreNear places.now }
        requires met { IsMet arc places.now }
        ensures { MatchOption result (IsNoStep arc amount self.now.ranks.items)
            (λ key. IsKey arc amount places.now self.now.ranks.items self.now.entries.items key) }
    {
        let (from, to) = (arc.from as usize, arc.to as usize);
        let leaves = self.ranks[from] > 0;
        let arrives = self.ranks[to] > 0;
        if leaves && !arrives {
            Some(self.entries[from] + slack(arc, places))
        } else if arrives && !leaves && amount > 0 {
            Some(self.entries[to])
        } else {
            None
        }
    }

    /// The variable that an arc leads on to, and how much can be sent there from the source.
    pub fn reach(&self, arc: Arc, amount: u64) -> (usize, u64)
        requires arc { IsArcOf (length self.now.ranks.items) arc }
        requires tree { IsTreeOf (length self.now.ranks.items) self.now }
        requires new { IsNew arc amount self.now.ranks.items }
        ensures within { result.0 < length self.now.ranks.items }
        ensures entry { IsAhead arc self.now.ranks.items self.now.rooms.items result.0 result.1
            ⊎ IsBehind arc amount self.now.ranks.items self.now.rooms.items result.0 result.1 }
    {
        let (from, to) = (arc.from as usize, arc.to as usize);
        if self.ranks[to] == 0 {
            (to, self.rooms[from])
        } else {
            (from, self.rooms[to].min(amount))
        }
    }

    /// Raises the places of all that is reached by what is left of the distance that the search has gone.
    pub fn settle(&self, places: &mut [i64], distance: u64)
        requires tree { IsTreeOf (length places.old) self.now }
        requires near { AreNear places.old }
        requires entered { (v : ℕ) → 0 < slice_index self.now.ranks.items v → slice_index self.now.entries.items v
            ≤ distance }
        requires distance { distance ≤ 36028797018963968 }
        ensures { AreRaisedTo distance self.now.ranks.items self.now.entries.items places.old places.new }
    {
        for (v, place) in places.iter_mut().enumerate() {
            if self.ranks[v] > 0 {
                *place += (distance - self.entries[v]) as i64;
            }
        }
    }
}

// How far an arc is from being tight: its reduced cost.
fn slack(arc: Arc, places: &[i64]) -> u64
    requires arc { IsArcOf (length places.now) arc }
    requires near { AreNear places.now }
    requires met { IsMet arc places.now }
    ensures slack { place places.now arc.from +ℤ arc.least +ℤ pos result ≡ place places.now arc.to }
    ensures most { result ≤ 36028797018963968 }
{
    let apart = places[arc.to as usize] - places[arc.from as usize];
    (apart - arc.least) as u64
}
