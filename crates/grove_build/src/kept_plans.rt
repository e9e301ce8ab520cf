ghost use Rattle.std.specs.Prelude.{◌≡◌, ◌+◌, ◌≤◌, ◌<◌, [], List, length, IfOk, OnOk, IfSome, IfNone};
ghost use Rattle.grove_tree.specs.Trees.{Rows};
ghost use Rattle.grove_access.specs.declared.access.Access.{Access};
ghost use Rattle.grove_access.specs.Lists.{nodes_of, AreNodes};
ghost use Rattle.grove_build.specs.Batches.{IsPlanned};
ghost use Rattle.grove_build.specs.KeptPlans.{IsKeptAt, IsKeptIn, AreSettledFor};
ghost use Rattle.grove_build.specs.Keeping.{kept_of, AreTargetsOf, AddsAtMost, StayKept, IsFirstFor, HoldsAt};

use crate::planning::{Planned, plan};
use crate::targets::{Target, targets_of};
pub use counts::PlanCounts;
use grove_access::AccessList;
use grove_tree::{NoMemory, Tree};
use indexmap::IndexMap;
use std::alloc::Global;
use std::marker::Model;

mod batches;
mod counts;

/// No more plans are kept.
const MOST_KEPT: usize = 1024;

/// What was planned over a tree, at most 1024 times, by what a plan depends on beside the tree: the nodes and the
/// lengths of its list's accesses.
#[derive(Debug, Drop)]
pub struct KeptPlans {
    plans: IndexMap<Vec<Target>, Planned>,
    counts: PlanCounts,
}

impl Model for KeptPlans {
    ghost use Rattle.std.specs.Prelude.{List, ◌≤◌, length, map};
    ghost use Rattle.grove_build.specs.KeptPlans.{Kept};
    ghost use Rattle.grove_build.specs.Keeping.{kept_of};

    ghost Value = { List Kept };

    ghost view = { λ kept. map (λ entry. kept_of entry.0.items entry.1) kept.plans.entries };

    ghost invariant = { λ kept. length kept.plans.entries ≤ 1024 };
}

impl KeptPlans {
    /// Nothing is kept yet.
    pub fn new(alloc: Global) -> KeptPlans
        ensures { result ≡ [] }
    {
        KeptPlans {
            plans: IndexMap::new(alloc),
            counts: PlanCounts::default(),
        }
    }

    /// Keeps nothing any more: what was planned over a tree is no good once its weights change. It takes no memory.
    pub fn forget(&mut self)
        ensures { self.new ≡ [] }
    {
        self.plans.clear();
    }

    /// How many are kept.
    pub fn len(&self) -> usize
        ensures number { result ≡ length self.now }
        ensures few { length self.now ≤ 1024 }
    {
        self.plans.len()
    }

    /// For how many lists a plan was given, and how many of these had to be planned.
    pub fn counts(&self) -> PlanCounts {
        self.counts
    }

    /// What the planner answers for the list, which is planned only where nothing is kept for it. The only error is
    /// running out of memory.
    pub fn plan(
        &mut self,
        alloc: Global,
        tree: &Tree,
        list: &AccessList,
    ) -> Result<Planned, NoMemory>
        requires fits { AreNodes tree.now (nodes_of list.now) }
        requires settled { AreSettledFor tree.now self.old }
        ensures planned { IfOk result (IsPlanned tree.now list.now) }
        ensures settled { AreSettledFor tree.now self.new }
        ensures kept { OnOk result (IsKeptIn self.new list.now) }
        ensures known { IsKeptIn self.old list.now → self.new ≡ self.old }
    {
        let place = self.place(alloc, tree, list)?;
        let planned = self.at(place).copy(alloc)?;
        self.note_given();
        Ok(planned)
    }

    /// Where the list's plan stands, which is planned first where nothing is kept for the list.
    fn place(&mut self, alloc: Global, tree: &Tree, list: &AccessList) -> Result<usize, NoMemory>
        requires fits { AreNodes tree.now (nodes_of list.now) }
        requires settled { AreSettledFor tree.now self.old }
        ensures stands { IfOk result (IsKeptAt self.new list.now) }
        ensures settled { AreSettledFor tree.now self.new }
        ensures known { IsKeptIn self.old list.now → self.new ≡ self.old }
    {
        let targets = targets_of(alloc, list)?;
        if let Some(place) = self.place_of(&targets) {
            return Ok(place);
        }
        let planned = plan(alloc, tree, list)?;
        self.make_room();
        self.keep(targets, planned)
    }

    /// Where the plan of these targets stands.
    fn place_of(&self, targets: &Vec<Target>) -> Option<usize>
        ensures first { IfSome result
            (λ place. (list : List Access) → AreTargetsOf list targets.now.items → IsFirstFor self.now list place) }
        ensures none { IfNone result ((list : List Access) → AreTargetsOf list targets.now.items
            → ¬ IsKeptIn self.now list) }
    {
        self.plans.get_index_of(targets)
    }

    /// The plan at a place.
    fn at(&self, place: usize) -> &Planned
        requires { place < length self.now }
        ensures { HoldsAt self.now place result.now }
    {
        &self.plans[place]
    }

    /// Forgets all plans where there is no room for one more.
    fn make_room(&mut self)
        ensures room { length self.new < 1024 }
        ensures settled { (rows : Rows) → AreSettledFor rows self.old → AreSettledFor rows self.new }
    {
        if self.len() >= MOST_KEPT {
            self.forget();
        }
    }

    /// Keeps one plan more, for which there is room, and tells where it stands.
    fn keep(&mut self, targets: Vec<Target>, planned: Planned) -> Result<usize, NoMemory>
        requires room { length self.old < 1024 }
        ensures stands { IfOk result
            (λ place. (list : List Access) → AreTargetsOf list targets.items → IsKeptAt self.new list place) }
        ensures others { AddsAtMost self.old (kept_of targets.items planned) self.new }
        ensures stay { OnOk result (StayKept self.old self.new) }
        ensures grows { length self.new ≤ length self.old + 1 }
    {
        let (place, _) = self.plans.insert_full(targets, planned)?;
        self.counts.note_planned();
        Ok(place)
    }

    /// Counts that what is kept of one list was given.
    pub fn note_given(&mut self)
        ensures { self.new ≡ self.old }
    {
        self.counts.note_given();
    }

    /// Counts that the lists of a batch were given their plans.
    fn note_batch(&mut self, lists: usize)
        ensures { self.new ≡ self.old }
    {
        self.counts.note_batch(lists);
    }
}
