ghost use Rattle.std.specs.Prelude.{◌≡◌, ℕ, List, ◌+◌, ◌<◌, ◌^◌, length, IfOk, None, slice_get, slice_index_or};
ghost use Rattle.grove_tree.specs.Rules.{IsWithinLimits};
ghost use Rattle.grove_access.specs.Lists.{nodes_of, lengths_of, AreNodes};
ghost use Rattle.grove_access.specs.ListFaults.{AreLengths};
ghost use Rattle.grove_plan.specs.Faults.{step_fault};
ghost use Rattle.grove_plan.specs.Tallies.{IsTally, is_free, is_holding, holds_node, first_holding};
ghost use Rattle.grove_tree.specs.Trees.{IsTree, parent_of};
ghost use Rattle.grove_plan.specs.declared.tally.Hold.TheVariants.{Free};

use crate::{PlanFault, Step};
use grove_access::AccessList;
use grove_tree::{Node, Tree};
use std::alloc::{AllocError, Global};

/// What a plan did with a node so far.
#[derive(Clone, Copy, Debug, PartialEq, Eq)]
pub enum Hold {
    /// It was never locked.
    Free,
    /// It is held.
    Held,
    /// It was held, and is no more.
    Done,
}

impl Hold {
    fn is_free(self) -> bool
        ensures { result ≡ is_free self }
    {
        matches!(self, Hold::Free)
    }

    fn is_held(self) -> bool
        ensures { result ≡ is_holding self }
    {
        matches!(self, Hold::Held)
    }
}

/// What is known of a plan that is followed step by step.
#[derive(Debug, Drop)]
pub struct Tally {
    /// By the nodes' numbers.
    pub holds: Vec<Hold>,
    /// Some node was locked.
    pub later: bool,
    /// How many accesses were done.
    pub accesses: u32,
    /// The weight of all nodes held.
    pub weight: u64,
    /// What the accesses cost so far.
    pub cost: u64,
}

impl Tally {
    /// Before the first step.
    pub fn new(alloc: Global, tree: &Tree) -> Result<Tally, AllocError>
        ensures { (lengths : List ℕ) (plan : List Step) → IfOk result (IsTally tree.now lengths plan 0) }
    {
        let holds = Vec::from_elem(alloc, Hold::Free, tree.len() as usize)?;
        Ok(Tally {
            holds,
            later: false,
            accesses: 0,
            weight: 0,
            cost: 0,
        })
    }

    fn hold(&self, node: Node) -> Hold
        requires { node < length self.now.holds.items }
        ensures { result ≡ slice_index_or self.now.holds.items node Free }
    {
        self.holds[node.number() as usize]
    }

    fn holds_parent(&self, tree: &Tree, node: Node) -> bool
        requires tree { IsTree tree.now }
        requires within { node < length tree.now }
        requires nodes { length self.now.holds.items ≡ length tree.now }
        ensures { result ≡ holds_node self.now.holds.items (parent_of tree.now node) }
    {
        match tree.parent(node) {
            Some(parent) => self.hold(parent).is_held(),
            None => false,
        }
    }

    /// The first rule that the step at the position breaks.
    pub fn fault_at(
        &self,
        tree: &Tree,
        list: &AccessList,
        plan: &[Step],
        position: usize,
    ) -> Option<PlanFault>
        requires fits { AreNodes tree.now (nodes_of list.now) }
        requires within { position < length plan.now }
        requires few { length plan.now < 2 ^ 32 }
        requires tallied { IsTally tree.now (lengths_of list.now) plan.now position self.now }
        ensures { result ≡ step_fault tree.now (nodes_of list.now) plan.now position (slice_get plan.now position) }
    {
        let step = position as u32;
        match plan[position] {
            Step::Lock(node) => {
                if node.number() >= tree.len() {
                    Some(PlanFault::Strange(step))
                } else if !self.hold(node).is_free() {
                    Some(PlanFault::Relock(step))
                } else if self.later && !self.holds_parent(tree, node) {
                    Some(PlanFault::ParentNotHeld(step))
                } else {
                    None
                }
            }
            Step::Unlock(node) => {
                if node.number() >= tree.len() {
                    Some(PlanFault::Strange(step))
                } else if !self.hold(node).is_held() {
                    Some(PlanFault::NotHeld(step))
                } else {
                    None
                }
            }
            Step::Access(access) => {
                if access >= list.len() {
                    Some(PlanFault::Strange(step))
                } else if access != self.accesses {
                    Some(PlanFault::WrongAccess(step))
                } else if !self.hold(list.get(access).node).is_held() {
                    Some(PlanFault::AccessNotHeld(step))
                } else {
                    None
                }
            }
        }
    }

    /// Takes the step at the position, which breaks no rule.
    pub fn take(&mut self, tree: &Tree, list: &AccessList, plan: &[Step], position: usize)
        requires limits { IsWithinLimits tree.now }
        requires lengths { AreLengths (lengths_of list.now) }
        requires within { position < length plan.now }
        requires few { length plan.now < 2 ^ 32 }
        requires faultless { step_fault tree.now (nodes_of list.now) plan.now position (slice_get plan.now position)
            ≡ None }
        requires tallied { IsTally tree.now (lengths_of list.now) plan.now position self.old }
        ensures { IsTally tree.now (lengths_of list.now) plan.now (position + 1) self.new }
    {
        match plan[position] {
            Step::Lock(node) => {
                self.holds[node.number() as usize] = Hold::Held;
                self.later = true;
                self.weight += u64::from(tree.weight(node));
            }
            Step::Unlock(node) => {
                self.holds[node.number() as usize] = Hold::Done;
                self.weight -= u64::from(tree.weight(node));
            }
            Step::Access(access) => {
                self.accesses += 1;
                self.cost += self.weight * u64::from(list.get(access).length);
            }
        }
    }

    /// The lowest node that is held.
    pub fn first_held(&self) -> Option<Node>
        requires { length self.now.holds.items < 2 ^ 32 }
        ensures { result ≡ first_holding self.now.holds.items }
    {
        for (node, hold) in self.holds.iter().enumerate() {
            if hold.is_held() {
                return Some(Node::new(node as u32));
            }
        }
        None
    }
}
