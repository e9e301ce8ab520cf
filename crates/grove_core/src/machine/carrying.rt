ghost use Rattle.std.specs.Prelude.{◌≡◌, ◌+◌, ◌<◌, ◌≤◌, ◌^◌, ◌↔◌, IsTrue, ℕ, ℤ, ◌++◌, length, true, false, Some, slice_get};
ghost use Rattle.grove_access.specs.Effects.{record_at};
ghost use Rattle.grove_access.specs.Carries.{present_at, carry_settled, IsSound};
ghost use Rattle.grove_base.specs.Numbers.{count_below};
ghost use Rattle.grove_core.specs.Runs.{list_of, plan_of, steps_done, next_step, holds, run_replies};
ghost use Rattle.grove_core.specs.Kept.{past_of};
ghost use Rattle.grove_core.specs.Cores.{Owns};
ghost use Rattle.grove_core.specs.Carried.{records_of, IsOf, after_steps, replies_in};
ghost use Rattle.grove_core.specs.CarriedTests.{Knows, KnowsAll, HasAll, Follows};

use crate::following::{follows, has_value, is_owner, step_at};
use crate::machine::Core;
use grove_access::{Carry, Entry, Known};
use grove_plan::Step;
use grove_tree::Node;

impl<'a> Core<'a> {
    /// Does the accesses that the carry's job did on the records that it has out, with the replies that it had, where
    /// the carry is of this core as it is now.
    pub fn take_carried(&mut self, carry: &Carry) -> bool
        ensures taken { IsTrue result ↔ IsOf self.old carry.now }
        ensures added { result ≡ true → self.new ≡ after_steps self.old carry.now.txn (length carry.now.entries) }
        ensures records { result ≡ true → (node : ℕ) (value : ℤ) → present_at carry.now node ≡ Some value
            → slice_get (records_of self.new) node ≡ Some value }
        ensures replies { result ≡ true → run_replies self.old.jobs self.old.opening (past_of self.new) carry.now.txn
            ≡ run_replies self.old.jobs self.old.opening (past_of self.old) carry.now.txn
            ++ replies_in carry.now.entries }
        ensures next { result ≡ true → next_step self.old.jobs (past_of self.new) carry.now.txn
            ≡ slice_get (plan_of self.old.jobs carry.now.txn)
            (steps_done (past_of self.old) carry.now.txn + length carry.now.entries) }
        ensures settled { result ≡ true → IsOf self.new (carry_settled carry.now) }
        ensures unchanged { result ≡ false → self.new ≡ self.old }
    {
        self.is_out(carry) && self.take_entries(carry)
    }

    /// Does the accesses that the carry's job did, as far as they are its next steps: what they find and leave is not
    /// compared. False where there is no such job, or one is another step.
    pub fn take_entries(&mut self, carry: &Carry) -> bool
        ensures job { result ≡ true → carry.now.txn < length self.old.jobs }
        ensures follows { result ≡ true → Follows (list_of self.old.jobs carry.now.txn)
            (plan_of self.old.jobs carry.now.txn) (steps_done (past_of self.old) carry.now.txn) carry.now.entries }
        ensures added { result ≡ true → self.new ≡ after_steps self.old carry.now.txn (length carry.now.entries) }
        ensures fits { IsOf self.old carry.now → result ≡ true }
        ensures unchanged { result ≡ false → self.new ≡ self.old }
        ensures next { result ≡ true → next_step self.old.jobs (past_of self.new) carry.now.txn
            ≡ slice_get (plan_of self.old.jobs carry.now.txn)
            (steps_done (past_of self.old) carry.now.txn + length carry.now.entries) }
        ensures batch { (self.new.tree ≡ self.old.tree) × (self.new.jobs ≡ self.old.jobs)
            × (self.new.opening ≡ self.old.opening) }
    {
        let txn = carry.txn();
        if txn as usize >= self.jobs().len() {
            return false;
        }
        if !self.continues(txn, carry.entries()) {
            return false;
        }
        for entry in carry.entries() {
            self.access(txn, entry.number);
        }
        true
    }

    // Is what the carry has out what its job holds, known as it is?
    fn is_out(&self, carry: &Carry) -> bool
        ensures knows { result ≡ true → KnowsAll self.now carry.now.txn carry.now.known }
        ensures has { result ≡ true → HasAll self.now carry.now }
        ensures no { result ≡ false → IsOf self.now carry.now → ⊥ }
        ensures sound { IsSound carry.now.known carry.now.entries }
    {
        let txn = carry.txn();
        if txn as usize >= self.jobs().len() {
            return false;
        }
        if !self.knows_all(txn, carry.known()) {
            return false;
        }
        self.has_all(carry)
    }

    /// The step that is so many ahead of a job's next one.
    pub fn step_ahead(&self, txn: u32, ahead: usize) -> Option<Step>
        requires { ahead < 2 ^ 32 }
        ensures { result ≡ slice_get (plan_of self.now.jobs txn) (steps_done (past_of self.now) txn + ahead) }
    {
        let jobs = self.jobs();
        if txn as usize >= jobs.len() {
            return None;
        }
        let job = &jobs[txn as usize];
        step_at(job, self.steps_done(txn) + ahead)
    }

    /// The record of a node as it is now.
    pub fn value(&self, node: Node) -> i64
        requires { node < length self.now.tree }
        ensures { result ≡ record_at (records_of self.now) node }
    {
        self.records.get(node)
    }

    // How many steps a job has done.
    fn steps_done(&self, txn: u32) -> usize
        requires { txn < length self.now.jobs }
        ensures steps_done { result ≡ steps_done (past_of self.now) txn }
        ensures few { result < 2 ^ 32 }
    {
        self.progress[txn as usize].steps_done
    }

    /// The job that holds the node.
    pub fn holder(&self, node: Node) -> Option<u32>
        ensures { Owns self.now.jobs (past_of self.now) node result }
    {
        match self.owners.get(node.number() as usize) {
            Some(owner) => owner.holder(),
            None => None,
        }
    }

    // Does the job hold the node?
    fn holds(&self, txn: u32, node: Node) -> bool
        ensures { result ≡ holds self.now.jobs (past_of self.now) txn node }
    {
        is_owner(self.holder(node), txn)
    }

    fn knows_all(&self, txn: u32, known: &[Known]) -> bool
        ensures { IsTrue result ↔ KnowsAll self.now txn known.now }
    {
        for item in known {
            if !self.knows(txn, *item) {
                return false;
            }
        }
        true
    }

    fn knows(&self, txn: u32, item: Known) -> bool
        ensures { IsTrue result ↔ Knows self.now txn item }
    {
        self.holds(txn, item.node) && has_value(self.records(), item)
    }

    // Is each node out that the job holds? What the carry knows is held and apart, so as many are.
    fn has_all(&self, carry: &Carry) -> bool
        requires job { carry.now.txn < length self.now.jobs }
        requires knows { KnowsAll self.now carry.now.txn carry.now.known }
        ensures { IsTrue result ↔ HasAll self.now carry.now }
    {
        carry.known().len() == self.held_nodes(carry.txn())
    }

    // How many nodes the job holds.
    fn held_nodes(&self, txn: u32) -> usize
        requires { txn < length self.now.jobs }
        ensures number { result
            ≡ count_below (length self.now.tree) (λ node. holds self.now.jobs (past_of self.now) txn node) }
        ensures within { (node : ℕ) → holds self.now.jobs (past_of self.now) txn node ≡ true
            → node < length self.now.tree }
    {
        self.progress[txn as usize].held_nodes
    }

    fn continues(&self, txn: u32, entries: &[Entry]) -> bool
        requires job { txn < length self.now.jobs }
        requires few { length entries.now ≤ 64 }
        ensures { IsTrue result
            ↔ Follows (list_of self.now.jobs txn) (plan_of self.now.jobs txn) (steps_done (past_of self.now) txn)
            entries.now }
    {
        let job = &self.jobs()[txn as usize];
        follows(job, self.steps_done(txn), entries)
    }
}
