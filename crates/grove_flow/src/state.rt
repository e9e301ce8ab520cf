ghost use Rattle.std.specs.Prelude.{◌≡◌, ◌≢◌, ℕ, ◌<◌, length, replicate, slice_index, IfOk};
ghost use Rattle.grove_flow.specs.Networks.{IsNetwork, IsStart};
ghost use Rattle.grove_flow.specs.Flows.{takes};
ghost use Rattle.grove_flow.specs.States.{AreNamed, gives};
ghost use Rattle.grove_flow.specs.Trees.{IsStateOf};
ghost use Rattle.grove_flow.specs.Searches.{IsReady};

use crate::pushing::push;
use crate::search::Search;
use crate::{Arc, Network};
use grove_base::NoMemory;
use std::alloc::Global;

/// A flow that is not whole yet, with the places as its potentials: what a network's conditions of optimality say
/// holds at each moment, and what is missing is that all is sent.
#[derive(Drop)]
pub struct State {
    /// What is sent along each arc.
    pub amounts: Vec<u64>,
    /// The place of each variable.
    pub places: Vec<i64>,
    /// What each variable still has to give away.
    pub excess: Vec<u64>,
    /// What each variable still has to take in.
    pub unmet: Vec<u64>,
}

impl State {
    /// Nothing is sent yet.
    pub fn new(alloc: Global, network: &Network, start: &[i64]) -> Result<Self, NoMemory>
        requires network { IsNetwork network.now.needs.items network.now.arcs.items }
        requires start { IsStart network.now.needs.items network.now.arcs.items start.now }
        ensures state { IfOk result (λ state. IsStateOf network.now state) }
    {
        read_ends(&network.arcs);
        let count = network.needs.len();
        let amounts = vec![in alloc; 0u64; network.arcs.len()]?;
        let places = Vec::from_slice(alloc, start)?;
        let mut excess = vec![in alloc; 0u64; count]?;
        let mut unmet = vec![in alloc; 0u64; count]?;
        share_out(&network.needs, &mut excess, &mut unmet);
        Ok(State {
            amounts,
            places,
            excess,
            unmet,
        })
    }

    /// Sends what every variable has to give.
    pub fn fulfil(&mut self, network: &Network, search: &mut Search) -> Result<(), NoMemory>
        requires state { IsStateOf network.now self.old }
        requires ready { IsReady network.now search.old }
        ensures state { IfOk result (λ done. IsStateOf network.now self.new) }
        ensures given { IfOk result (λ done. (v : ℕ) → v < length network.now.needs.items
            → slice_index self.new.excess.items v ≡ 0) }
    {
        for source in 0..self.excess.len() {
            self.drain(network, search, source)?;
        }
        Ok(())
    }

    // Sends what one variable has to give.
    fn drain(
        &mut self,
        network: &Network,
        search: &mut Search,
        source: usize,
    ) -> Result<(), NoMemory>
        requires state { IsStateOf network.now self.old }
        requires ready { IsReady network.now search.old }
        requires source { source < length network.now.needs.items }
        ensures state { IfOk result (λ done. IsStateOf network.now self.new) }
        ensures ready { IfOk result (λ done. IsReady network.now search.new) }
        ensures given { IfOk result (λ done. slice_index self.new.excess.items source ≡ 0) }
        ensures others { IfOk result (λ done. (v : ℕ) → v ≢ source → slice_index self.new.excess.items v
            ≡ slice_index self.old.excess.items v) }
    {
        while self.excess[source] > 0 {
            self.augment(network, search, source)?;
        }
        Ok(())
    }

    // Sends some of what one variable has to give along a shortest augmenting path, to the nearest variable that has
    // to take.
    fn augment(
        &mut self,
        network: &Network,
        search: &mut Search,
        source: usize,
    ) -> Result<(), NoMemory>
        requires state { IsStateOf network.now self.old }
        requires ready { IsReady network.now search.old }
        requires source { source < length network.now.needs.items }
        requires some { 0 < slice_index self.old.excess.items source }
        ensures state { IfOk result (λ done. IsStateOf network.now self.new) }
        ensures ready { IfOk result (λ done. IsReady network.now search.new) }
        ensures less { IfOk result
            (λ done. slice_index self.new.excess.items source < slice_index self.old.excess.items source) }
        ensures others { IfOk result (λ done. (v : ℕ) → v ≢ source → slice_index self.new.excess.items v
            ≡ slice_index self.old.excess.items v) }
    {
        let target = search.find(network, self, source)?;
        let tree = &search.tree;
        tree.settle(&mut self.places, tree.entries[target]);
        let most = self.unmet[target];
        let by = push(&network.arcs, &mut self.amounts, tree, source, target, most);
        self.excess[source] -= by;
        self.unmet[target] -= by;
        Ok(())
    }
}

// An arc names its ends in 32 bits, so there are not many variables. The proof learns it by reading each arc.
fn read_ends(arcs: &[Arc])
    ensures { AreNamed arcs.now }
{
    for arc in arcs {
        prove!(arc.to <= u32::MAX);
    }
}

// What every variable has to give and to take at first.
fn share_out(needs: &[i64], excess: &mut [u64], unmet: &mut [u64])
    requires excess { excess.old ≡ replicate (length needs.now) 0 }
    requires unmet { unmet.old ≡ replicate (length needs.now) 0 }
    ensures excess { (v : ℕ) → slice_index excess.new v ≡ gives needs.now v }
    ensures unmet { (v : ℕ) → slice_index unmet.new v ≡ takes needs.now v }
{
    for (v, need) in needs.iter().enumerate() {
        if *need < 0 {
            excess[v] = need.unsigned_abs();
        } else {
            unmet[v] = *need as u64;
        }
    }
}
