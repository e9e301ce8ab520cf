ghost use Rattle.std.specs.Prelude.{◌≡◌, ◌≢◌, ℕ, ◌<◌, ◌≤◌, ◌⊎◌, length, IfNone, IfSome, OnOk};
ghost use Rattle.std.specs.BinaryHeap.{heap_items, IsHeap};
ghost use Rattle.std.specs.Ordering.{nat_cmp, ordering_then};
ghost use Rattle.std.proofs.Props.{props};

use crate::Network;
use crate::fan::{Fan, Fans};
use crate::state::State;
use crate::tree::Tree;
use grove_base::NoMemory;
use std::alloc::Global;
use std::cmp::Reverse;
use std::collections::BinaryHeap;

/// Residual arcs by their keys, the least first: an arc's key says how far the search has gone once the arc is tight.
#[derive(Drop)]
pub struct Queue {
    heap: BinaryHeap<Reverse<(u64, usize)>>,
    ghost ordered: { IsHeap (λ x y. ordering_then (nat_cmp y.0.0 x.0.0) (nat_cmp y.0.1 x.0.1)) (heap_items heap) } by { Prim.hlevel props },
}

impl Queue {
    ghost use Rattle.grove_flow.specs.Networks.{arc_at};
    ghost use Rattle.grove_flow.specs.Fans.{AreFans, IsFan, end_of};
    ghost use Rattle.grove_flow.specs.Trees.{IsLive, IsSearchTree};
    ghost use Rattle.grove_flow.specs.Queues.{AreQueued, AreQueuedPast, NamesArcsAlone, HasEntry, entries_of};

    pub fn new(alloc: Global) -> Self
        ensures { (key arc : ℕ) → HasEntry result key arc → ⊥ }
    {
        Queue {
            heap: BinaryHeap::new(alloc),
        }
    }

    pub fn clear(&mut self)
        ensures { (key arc : ℕ) → HasEntry self.new key arc → ⊥ }
    {
        self.heap.clear();
    }

    fn push(&mut self, key: u64, arc: usize) -> Result<(), NoMemory>
        ensures kept { OnOk result ((k a : ℕ) → HasEntry self.old k a → HasEntry self.new k a) }
        ensures added { OnOk result (HasEntry self.new key arc) }
        ensures only { OnOk result ((k a : ℕ) → HasEntry self.new k a → ((k ≡ key) × (a ≡ arc))
            ⊎ HasEntry self.old k a) }
    {
        Ok(self.heap.push(Reverse((key, arc)))?)
    }

    fn pop(&mut self) -> Option<(u64, usize)>
        ensures none { IfNone result ((k a : ℕ) → HasEntry self.old k a → ⊥) }
        ensures least { IfSome result (λ e. (k a : ℕ) → HasEntry self.old k a → e.0 ≤ k) }
        ensures taken { IfSome result (λ e. HasEntry self.old e.0 e.1) }
        ensures rest { IfSome result (λ e. (k a : ℕ) → HasEntry self.old k a → ((k ≡ e.0) × (a ≡ e.1))
            ⊎ HasEntry self.new k a) }
        ensures back { (k a : ℕ) → HasEntry self.new k a → HasEntry self.old k a }
        ensures shorter { IfSome result (λ e. entries_of self.new < entries_of self.old) }
    {
        let Reverse(entry) = self.heap.pop()?;
        Some(entry)
    }

    /// Takes out the nearest arc that leads on, with its key. An arc that was put in no longer leads on once both its
    /// ends are reached.
    pub fn next(&mut self, network: &Network, state: &State, tree: &Tree) -> Option<(u64, usize)>
        requires tree { IsSearchTree network.now state.now tree.now }
        requires queued { AreQueued network.now state.now tree.now self.old }
        requires within { NamesArcsAlone network.now self.old }
        ensures none { IfNone result ((i key : ℕ) → IsLive network.now state.now tree.now i key → ⊥) }
        ensures live { IfSome result (λ e. IsLive network.now state.now tree.now e.1 e.0) }
        ensures least { IfSome result (λ e. (i key : ℕ) → IsLive network.now state.now tree.now i key → e.0 ≤ key) }
        ensures rest { IfSome result (λ e. (i key : ℕ) → IsLive network.now state.now tree.now i key → i ≢ e.1
            → HasEntry self.new key i) }
        ensures within { NamesArcsAlone network.now self.new }
    {
        while let Some((key, i)) = self.pop() {
            if tree.key_at(network, state, i) == Some(key) {
                return Some((key, i));
            }
        }
        None
    }

    /// Puts in the arcs at a variable that lead on.
    pub fn offer(
        &mut self,
        network: &Network,
        state: &State,
        tree: &Tree,
        fans: &Fans,
        v: usize,
    ) -> Result<(), NoMemory>
        requires tree { IsSearchTree network.now state.now tree.now }
        requires fans { AreFans network.now fans.now }
        requires v { v < length network.now.needs.items }
        requires past { AreQueuedPast v network.now state.now tree.now self.old }
        requires within { NamesArcsAlone network.now self.old }
        ensures queued { OnOk result (AreQueued network.now state.now tree.now self.new) }
        ensures within { OnOk result (NamesArcsAlone network.now self.new) }
    {
        self.offer_chain(network, state, tree, &fans.outs, v)?;
        self.offer_chain(network, state, tree, &fans.ins, v)?;
        Ok(())
    }

    fn offer_chain(
        &mut self,
        network: &Network,
        state: &State,
        tree: &Tree,
        fan: &Fan,
        v: usize,
    ) -> Result<(), NoMemory>
        requires tree { IsSearchTree network.now state.now tree.now }
        requires fan { IsFan fan.now.end network.now fan.now }
        requires v { v < length network.now.needs.items }
        requires within { NamesArcsAlone network.now self.old }
        ensures offered { OnOk result (((i key : ℕ) → HasEntry self.old key i → HasEntry self.new key i)
            × ((i key : ℕ) → IsLive network.now state.now tree.now i key
            → end_of fan.now.end (arc_at network.now.arcs.items i) ≡ v → HasEntry self.new key i)) }
        ensures within { OnOk result (NamesArcsAlone network.now self.new) }
    {
        let mut next = fan.last[v];
        while let Some(i) = next {
            if let Some(key) = tree.key_at(network, state, i) {
                self.push(key, i)?;
            }
            next = fan.before[i];
        }
        Ok(())
    }
}
