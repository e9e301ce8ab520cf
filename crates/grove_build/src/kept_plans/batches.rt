ghost use Rattle.std.specs.Prelude.{◌≡◌, ◌+◌, ◌≤◌, [], length, All, IfOk, OnOk};
ghost use Rattle.std.specs.List.{AllZip};
ghost use Rattle.indexmap.specs.IndexMap.{values};
ghost use Rattle.grove_tree.specs.Trees.{Rows};
ghost use Rattle.grove_access.specs.Lists.{nodes_of, lengths_of, AreNodes};
ghost use Rattle.grove_build.specs.Batches.{IsPlanned};
ghost use Rattle.grove_build.specs.Settled.{IsSettled};
ghost use Rattle.grove_build.specs.KeptPlans.{IsKeptIn, AreSettledFor};
ghost use Rattle.grove_build.specs.Keeping.{AreMissing, AreKeptFrom, StayKept, IsCopyFor};

use crate::kept_plans::{KeptPlans, MOST_KEPT};
use crate::parts::plan_parts;
use crate::planning::{Planned, copy_of};
use crate::targets::{Target, targets_of};
use grove_access::AccessList;
use grove_plan::Plan;
use grove_tree::{Gate, NoMemory, Tree};
use indexmap::IndexMap;
use std::alloc::Global;
use std::thread::Threads;

impl KeptPlans {
    /// The settled plan of each list, in the lists' order. Up to `workers` threads plan those for which nothing is
    /// kept, and lists with the same targets are planned once. The gate is called with k, and 0, just before the k-th
    /// of these is planned, counted from 0 in the order in which they first occur. The only error is running out
    /// of memory.
    pub fn plan_all<R: Threads + Sync, G: Gate + Sync>(
        &mut self,
        rt: &R,
        alloc: Global,
        tree: &Tree,
        lists: &[AccessList],
        workers: u32,
        gate: &G,
    ) -> Result<Vec<Plan>, NoMemory>
        requires few { length lists.now ≤ 256 }
        requires fit { All (λ list. AreNodes tree.now (nodes_of list)) lists.now }
        requires settled { AreSettledFor tree.now self.old }
        ensures plans { IfOk result
            (λ plans. AllZip (λ list plan. IsSettled tree.now (nodes_of list) (lengths_of list) plan) lists.now
            plans.items) }
        ensures settled { AreSettledFor tree.now self.new }
    {
        self.fill(rt, alloc, tree, lists, workers, gate)?;
        self.plan_each(alloc, tree, lists)
    }

    /// Plans those lists for which nothing is kept, as `plan_all` does, and keeps their plans.
    pub(crate) fn fill<R: Threads + Sync, G: Gate + Sync>(
        &mut self,
        rt: &R,
        alloc: Global,
        tree: &Tree,
        lists: &[AccessList],
        workers: u32,
        gate: &G,
    ) -> Result<(), NoMemory>
        requires few { length lists.now ≤ 256 }
        requires fit { All (λ list. AreNodes tree.now (nodes_of list)) lists.now }
        requires settled { AreSettledFor tree.now self.old }
        ensures complete { OnOk result (All (IsKeptIn self.new) lists.now) }
        ensures settled { AreSettledFor tree.now self.new }
    {
        let missing = self.missing_with_room(alloc, lists)?;
        let planned = plan_parts(rt, alloc, tree, gate, workers, 0, &missing)?;
        self.keep_each(alloc, &missing, planned)
    }

    /// A copy of what is kept for each list.
    pub(crate) fn copies_of(
        &self,
        alloc: Global,
        lists: &[AccessList],
    ) -> Result<Vec<Planned>, NoMemory>
        requires { All (IsKeptIn self.now) lists.now }
        ensures { IfOk result (λ copies. AllZip (IsCopyFor self.now) lists.now copies.items) }
    {
        let mut copies = Vec::with_capacity(alloc, lists.len())?;
        for list in lists {
            let targets = targets_of(alloc, list)?;
            let Some(place) = self.place_of(&targets) else {
                unreachable!()
            };
            let copy = self.at(place).copy(alloc)?;
            copies.push(copy)?;
        }
        Ok(copies)
    }

    /// The lists that have to be planned. Where there is no room for their plans, all others are forgotten first.
    fn missing_with_room<'a>(
        &mut self,
        alloc: Global,
        lists: &'a [AccessList],
    ) -> Result<Vec<&'a AccessList>, NoMemory>
        requires few { length lists.now ≤ 256 }
        ensures missing { IfOk result (λ missing. AreMissing self.new lists.now missing.items) }
        ensures room { IfOk result (λ missing. length self.new + length missing.items ≤ 1024) }
        ensures settled { (rows : Rows) → AreSettledFor rows self.old → AreSettledFor rows self.new }
    {
        let missing = self.missing(alloc, lists)?;
        if self.len() + missing.len() <= MOST_KEPT {
            return Ok(missing);
        }
        self.forget();
        self.missing(alloc, lists)
    }

    /// The lists for which nothing is kept, one of those that have the same targets.
    fn missing<'a>(
        &self,
        alloc: Global,
        lists: &'a [AccessList],
    ) -> Result<Vec<&'a AccessList>, NoMemory>
        ensures { IfOk result (λ missing. AreMissing self.now lists.now missing.items) }
    {
        let mut parts = IndexMap::new(alloc);
        self.add_missing(alloc, lists, &mut parts)?;
        Ok(parts.values().copied().collect(alloc)?)
    }

    /// Adds those lists to `parts`, which is empty at first.
    fn add_missing<'a>(
        &self,
        alloc: Global,
        lists: &'a [AccessList],
        parts: &mut IndexMap<Vec<Target>, &'a AccessList>,
    ) -> Result<(), NoMemory>
        requires { parts.old.entries ≡ [] }
        ensures { OnOk result (AreMissing self.now lists.now (values parts.new)) }
    {
        for list in lists {
            let targets = targets_of(alloc, list)?;
            if self.place_of(&targets).is_none() {
                parts.insert(targets, list)?;
            }
        }
        Ok(())
    }

    /// Keeps what was planned for each of the parts, the last first.
    fn keep_each(
        &mut self,
        alloc: Global,
        parts: &[&AccessList],
        mut planned: Vec<Planned>,
    ) -> Result<(), NoMemory>
        requires each { length planned.items ≡ length parts.now }
        requires room { length self.old + length parts.now ≤ 1024 }
        ensures kept { OnOk result (AreKeptFrom self.new parts.now 0) }
        ensures stay { OnOk result (StayKept self.old self.new) }
        ensures settled { (rows : Rows)
            → AllZip (λ part planned. IsPlanned rows part.now planned) parts.now planned.items
            → AreSettledFor rows self.old → AreSettledFor rows self.new }
    {
        while let Some(last) = planned.pop() {
            let targets = targets_of(alloc, parts[planned.len()])?;
            self.keep(targets, last)?;
        }
        Ok(())
    }

    /// The settled plan of each list, in the lists' order, by the caller alone, who starts no thread. Lists for which
    /// nothing is kept are planned. The only error is running out of memory.
    pub fn plan_each(
        &mut self,
        alloc: Global,
        tree: &Tree,
        lists: &[AccessList],
    ) -> Result<Vec<Plan>, NoMemory>
        requires fit { All (λ list. AreNodes tree.now (nodes_of list)) lists.now }
        requires settled { AreSettledFor tree.now self.old }
        ensures plans { IfOk result
            (λ plans. AllZip (λ list plan. IsSettled tree.now (nodes_of list) (lengths_of list) plan) lists.now
            plans.items) }
        ensures settled { AreSettledFor tree.now self.new }
    {
        let mut plans = Vec::with_capacity(alloc, lists.len())?;
        for list in lists {
            let place = self.place(alloc, tree, list)?;
            let plan = copy_of(alloc, &self.at(place).plan)?;
            plans.push(plan)?;
        }
        self.note_batch(lists.len());
        Ok(plans)
    }
}
