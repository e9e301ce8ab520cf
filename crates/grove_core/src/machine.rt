ghost use Rattle.std.specs.Prelude.{◌≡◌, ℕ, ◌≤◌, ◌<◌, ◌∷◌, [], ◌++◌, length, reverse, IfOk, OnOk, OnErr, IfErr};
ghost use Rattle.std.specs.Prelude.{MatchOption, Some, true, false, IsTrue, IfSome, IfNone, ◌↔◌};
ghost use Rattle.grove_core.specs.Runs.{plan_of, next_step, AllLegal, IsRun, IsFinished, MayHappen, IsRefused, IsFree};
ghost use Rattle.grove_core.specs.Runs.{IsHeldBy, is_marked, run_records, run_replies, waits_of};
ghost use Rattle.grove_core.specs.RunBounds.{most_events};
ghost use Rattle.grove_tree.specs.Trees.{IsTree};
ghost use Rattle.grove_core.specs.Orders.{first_lock, lock_time, earlier};
ghost use Rattle.grove_core.specs.Laws.{CanGoOn};
ghost use Rattle.grove_core.specs.Openings.{AllFit, IsFirstFault};
ghost use Rattle.grove_core.specs.Replays.{IsFirstUnfinished};
ghost use Rattle.grove_core.specs.Kept.{past_of};
ghost use Rattle.grove_core.specs.Cores.{IsFirst, IsTried};

use crate::following::is_owner;
use crate::locking::{Locked, first_lock, time_in};
use crate::opening::{judge_all, mark_firsts, room, start_all};
use crate::owner::Owner;
use crate::progress::Progress;
use crate::{Event, Job, OpenFault, StepFault};
use grove_access::{Records, Reply};
use grove_plan::Step;
use grove_tree::{NoMemory, Node, Tree};
use std::alloc::Global;
use std::marker::Model;

mod carrying;
mod replaying;

/// Jobs over the records of a tree, and what has happened to them so far.
#[derive(Drop)]
pub struct Core<'a> {
    tree: &'a Tree,
    jobs: &'a [Job],
    opening: Records,
    history: Vec<Event>,
    records: Records,
    progress: Vec<Progress>,
    owners: Vec<Owner>,
    waits: Vec<u32>,
    /// Of each node whether some job locks it first: the serial order asks for the times of these nodes' locks alone.
    firsts: Vec<bool>,
}

impl<'a> Model for Core<'a> {
    ghost use Rattle.std.specs.Prelude.{reverse, vec_capacity};
    ghost use Rattle.grove_core.specs.Kept.{CoreState};
    ghost use Rattle.grove_core.specs.Cores.{IsCore};

    ghost Value = { CoreState };

    ghost view = { λ core. record {
      tree = core.tree.now;
      jobs = core.jobs.now;
      opening = core.opening;
      history = core.history.items;
    } };

    ghost invariant = { λ core. IsCore
        record {
          tree = core.tree.now;
          jobs = core.jobs.now;
          opening = core.opening;
          past = reverse core.history.items;
        }
        record {
          room = vec_capacity core.history;
          records = core.records;
          progress = core.progress.items;
          owners = core.owners.items;
          waits = core.waits.items;
          firsts = core.firsts.items;
        } };
}

impl<'a> Core<'a> {
    /// The core of these jobs over the tree, before the first event. It keeps a copy of the records and borrows the
    /// rest. After `BadPlan` and `Memory` nothing has changed; `Memory` may come before `BadPlan`.
    pub fn open(
        alloc: Global,
        tree: &'a Tree,
        records: &Records,
        jobs: &'a [Job],
    ) -> Result<Core<'a>, OpenFault>
        requires lists { AllFit tree.now jobs.now }
        requires records { length records.now ≡ length tree.now }
        requires few { length jobs.now ≤ 256 }
        ensures new { IfOk result
            (λ core. core ≡ record { tree = tree.now; jobs = jobs.now; opening = records.now; history = [] }) }
        ensures legal { OnOk result (AllLegal tree.now jobs.now) }
        ensures fault { IfErr result (λ fault. IsFirstFault tree.now jobs.now fault) }
    {
        judge_all(alloc, tree, jobs)?;
        Ok(Core::open_legal(alloc, tree, records, jobs)?)
    }

    /// The same of jobs whose plans are known to be legal: none is judged again.
    pub fn open_legal(
        alloc: Global,
        tree: &'a Tree,
        records: &Records,
        jobs: &'a [Job],
    ) -> Result<Core<'a>, NoMemory>
        requires legal { AllLegal tree.now jobs.now }
        requires records { length records.now ≡ length tree.now }
        requires few { length jobs.now ≤ 256 }
        ensures { IfOk result
            (λ core. core ≡ record { tree = tree.now; jobs = jobs.now; opening = records.now; history = [] }) }
    {
        let nodes = tree.len() as usize;
        let opening = records.copy(alloc)?;
        let history = Vec::with_capacity(alloc, room(jobs))?;
        let records = records.copy(alloc)?;
        let progress = start_all(alloc, jobs)?;
        let owners = vec![in alloc; Owner::Nobody; nodes]?;
        let waits = vec![in alloc; 0; nodes]?;
        let firsts = mark_firsts(alloc, nodes, jobs)?;
        Ok(Core {
            tree,
            jobs,
            opening,
            history,
            records,
            progress,
            owners,
            waits,
            firsts,
        })
    }

    /// The tree that the core was opened with.
    pub fn tree(&self) -> &Tree
        ensures { result.now ≡ self.now.tree }
    {
        self.tree
    }

    /// The jobs that the core was opened with. What holds of every core is told here.
    pub fn jobs(&self) -> &[Job]
        ensures jobs { result.now ≡ self.now.jobs }
        ensures few { length self.now.jobs ≤ 256 }
        ensures tree { IsTree self.now.tree }
        ensures legal { AllLegal self.now.tree self.now.jobs }
        ensures opened { length self.now.opening ≡ length self.now.tree }
        ensures run { IsRun self.now.jobs (past_of self.now) }
    {
        self.jobs
    }

    /// The records that the core was opened with.
    pub fn opening(&self) -> &Records
        ensures { result.now ≡ self.now.opening }
    {
        &self.opening
    }

    /// The events that were accepted, the earliest first.
    pub fn history(&self) -> &[Event]
        ensures events { result.now ≡ self.now.history }
        ensures few { length self.now.history ≤ most_events self.now.jobs }
    {
        &self.history
    }

    /// The records as they are now.
    pub fn records(&self) -> &Records
        ensures { result.now ≡ run_records self.now.jobs self.now.opening (past_of self.now) }
    {
        &self.records
    }

    /// The records as they are now, given out.
    pub fn into_records(self) -> Records
        ensures { result ≡ run_records self.entry.jobs self.entry.opening (past_of self.entry) }
    {
        let Core { records, .. } = self;
        records
    }

    /// The replies of a job, one for each access that it has done.
    pub fn replies(&self, txn: u32) -> &[Reply]
        requires { txn < length self.now.jobs }
        ensures { result.now ≡ run_replies self.now.jobs self.now.opening (past_of self.now) txn }
    {
        self.progress[txn as usize].replies.as_slice()
    }

    /// How often a lock of the node was marked.
    pub fn waits(&self, node: Node) -> u32
        requires { node < length self.now.tree }
        ensures { result ≡ waits_of self.now.jobs (past_of self.now) node }
    {
        let place = node.number() as usize;
        self.waits[place]
    }

    /// Does the event, where it may happen, and adds it to the history. A refusal changes nothing; it names the first
    /// reason in the order of `StepFault`.
    pub fn step(&mut self, event: Event) -> Result<(), StepFault>
        ensures accepted { OnOk result (MayHappen self.old.jobs (past_of self.old) event) }
        ensures added { OnOk result (self.new ≡ record self.old { history = self.old.history ++ event ∷ [] }) }
        ensures refused { IfErr result (λ fault. IsRefused self.old.jobs (past_of self.old) event fault) }
        ensures unchanged { OnErr result (self.new ≡ self.old) }
    {
        match event {
            Event::Take(txn) => self.take(txn),
            Event::Mark(txn) => self.mark(txn),
        }
    }

    fn take(&mut self, txn: u32) -> Result<(), StepFault>
        ensures { IsTried (Event.Take txn) self.old self.new result }
    {
        match self.next_step(txn)? {
            Step::Lock(node) => self.try_lock(txn, node),
            Step::Unlock(node) => {
                self.unlock(txn, node);
                Ok(())
            }
            Step::Access(access) => {
                self.access(txn, access);
                Ok(())
            }
        }
    }

    fn mark(&mut self, txn: u32) -> Result<(), StepFault>
        ensures { IsTried (Event.Mark txn) self.old self.new result }
    {
        match self.next_step(txn)? {
            Step::Lock(node) => self.try_mark(txn, node),
            Step::Unlock(_) | Step::Access(_) => Err(StepFault::NotBlocked),
        }
    }

    /// Does the job's next step, which is a lock of the node, where no other job holds it. A refusal changes nothing.
    pub fn try_lock(&mut self, txn: u32, node: Node) -> Result<(), StepFault>
        requires { next_step self.old.jobs (past_of self.old) txn ≡ Some (Step.Lock node) }
        ensures { IsTried (Event.Take txn) self.old self.new result }
    {
        match self.other_holder(txn, node) {
            Some(holder) => Err(StepFault::Blocked(holder)),
            None => {
                self.lock(txn, node);
                Ok(())
            }
        }
    }

    fn try_mark(&mut self, txn: u32, node: Node) -> Result<(), StepFault>
        requires { next_step self.old.jobs (past_of self.old) txn ≡ Some (Step.Lock node) }
        ensures { IsTried (Event.Mark txn) self.old self.new result }
    {
        let Some(holder) = self.other_holder(txn, node) else {
            return Err(StepFault::NotBlocked);
        };
        if self.is_marked(txn, node) {
            return Err(StepFault::Marked);
        }
        self.count_mark(txn, node, holder);
        Ok(())
    }

    /// Is each job at the end of its plan? Where one isn't, some job's next step may be done.
    pub fn is_finished(&self) -> bool
        ensures finished { IsTrue result ↔ IsFinished self.now.jobs (past_of self.now) }
        ensures going { result ≡ false → CanGoOn self.now.jobs (past_of self.now) }
    {
        self.first_unfinished().is_none()
    }

    /// The lowest job that isn't at the end of its plan.
    pub(crate) fn first_unfinished(&self) -> Option<u32>
        ensures finished { MatchOption result (IsFinished self.now.jobs (past_of self.now))
            (IsFirstUnfinished self.now.jobs (past_of self.now)) }
        ensures going { IfSome result (λ txn. CanGoOn self.now.jobs (past_of self.now)) }
    {
        for txn in 0..self.jobs.len() {
            if self.progress[txn].steps_done < self.jobs[txn].plan.steps().len() {
                return Some(txn as u32);
            }
        }
        None
    }

    /// The node that a job locks first.
    pub(crate) fn first_lock(&self, txn: u32) -> Option<Node>
        requires { txn < length self.now.jobs }
        ensures first { result ≡ first_lock (plan_of self.now.jobs txn) }
        ensures within { IfSome result (λ node. node < length self.now.tree) }
    {
        first_lock(self.jobs[txn as usize].plan.steps())
    }

    /// Is it known that no job locked the node after this one?
    pub(crate) fn locked_last(&self, txn: u32, node: Node) -> bool
        requires { node < length self.now.tree }
        ensures { result ≡ true → (u : ℕ)
            → earlier (lock_time self.now.jobs (past_of self.now) txn node)
            (lock_time self.now.jobs (past_of self.now) u node) ≡ false }
    {
        is_owner(self.owners[node.number() as usize].last(), txn)
    }

    /// How many events came before a job's lock of a node that some job locks first.
    pub(crate) fn lock_time(&self, txn: u32, node: Node) -> Option<usize>
        requires { IsFirst self.now.jobs node }
        ensures { result ≡ lock_time self.now.jobs (past_of self.now) txn node }
    {
        match self.progress.get(txn as usize) {
            Some(progress) => time_in(progress.locked.as_slice(), node),
            None => None,
        }
    }

    /// The next step of a job.
    fn next_step(&self, txn: u32) -> Result<Step, StepFault>
        ensures step { IfOk result (λ step. next_step self.now.jobs (past_of self.now) txn ≡ Some step) }
        ensures take { IfErr result (λ fault. IsRefused self.now.jobs (past_of self.now) (Event.Take txn) fault) }
        ensures mark { IfErr result (λ fault. IsRefused self.now.jobs (past_of self.now) (Event.Mark txn) fault) }
    {
        if txn as usize >= self.jobs().len() {
            return Err(StepFault::NoTxn);
        }
        match self.step_ahead(txn, 0) {
            Some(step) => Ok(step),
            None => Err(StepFault::Ended),
        }
    }

    /// The job other than this one that holds the node which this one is to lock, if there is one.
    fn other_holder(&self, txn: u32, node: Node) -> Option<u32>
        requires { next_step self.now.jobs (past_of self.now) txn ≡ Some (Step.Lock node) }
        ensures { MatchOption result (IsFree self.now.jobs (past_of self.now) txn node)
            (λ holder. IsHeldBy self.now.jobs (past_of self.now) txn node holder) }
    {
        match self.owners[node.number() as usize].holder() {
            Some(holder) if holder != txn => Some(holder),
            _ => None,
        }
    }

    /// Has the next step of the job, a lock, a mark?
    fn is_marked(&self, txn: u32, node: Node) -> bool
        requires { next_step self.now.jobs (past_of self.now) txn ≡ Some (Step.Lock node) }
        ensures { result ≡ is_marked (past_of self.now) txn }
    {
        self.progress[txn as usize].marked
    }

    /// A lock of the node that comes now, where its time will be asked for.
    fn lock_to_keep(&self, node: Node) -> Option<Locked>
        requires { node < length self.now.tree }
        ensures kept { IfSome result (λ lock. lock ≡ record { node = node; time = length self.now.history }) }
        ensures left { IfNone result (IsFirst self.now.jobs node → ⊥) }
    {
        if !self.firsts[node.number() as usize] {
            return None;
        }
        let time = self.history.len();
        Some(Locked { node, time })
    }

    fn lock(&mut self, txn: u32, node: Node)
        requires next { next_step self.old.jobs (past_of self.old) txn ≡ Some (Step.Lock node) }
        requires free { IsFree self.old.jobs (past_of self.old) txn node }
        ensures { self.new ≡ record self.old { history = self.old.history ++ Event.Take txn ∷ [] } }
    {
        let kept = self.lock_to_keep(node);
        let progress = &mut self.progress[txn as usize];
        progress.lock(kept);
        self.owners[node.number() as usize] = Owner::Holder(txn);
        self.history.push_reserved(Event::Take(txn));
    }

    /// Does the job's next step, which lets the node go.
    pub fn unlock(&mut self, txn: u32, node: Node)
        requires { next_step self.old.jobs (past_of self.old) txn ≡ Some (Step.Unlock node) }
        ensures { self.new ≡ record self.old { history = self.old.history ++ Event.Take txn ∷ [] } }
    {
        let progress = &mut self.progress[txn as usize];
        progress.unlock();
        self.owners[node.number() as usize] = Owner::Last(txn);
        self.history.push_reserved(Event::Take(txn));
    }

    fn access(&mut self, txn: u32, access: u32)
        requires { next_step self.old.jobs (past_of self.old) txn ≡ Some (Step.Access access) }
        ensures { self.new ≡ record self.old { history = self.old.history ++ Event.Take txn ∷ [] } }
    {
        let access = self.jobs[txn as usize].list.get(access);
        let reply = self.records.apply(&access);
        let progress = &mut self.progress[txn as usize];
        progress.answer(reply);
        self.history.push_reserved(Event::Take(txn));
    }

    fn count_mark(&mut self, txn: u32, node: Node, _holder: u32)
        requires next { next_step self.old.jobs (past_of self.old) txn ≡ Some (Step.Lock node) }
        requires blocked { IsHeldBy self.old.jobs (past_of self.old) txn node _holder }
        requires unmarked { is_marked (past_of self.old) txn ≡ false }
        ensures { self.new ≡ record self.old { history = self.old.history ++ Event.Mark txn ∷ [] } }
    {
        let progress = &mut self.progress[txn as usize];
        progress.mark();
        self.waits[node.number() as usize] += 1;
        self.history.push_reserved(Event::Mark(txn));
    }
}
