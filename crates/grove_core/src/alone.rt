ghost use Rattle.std.specs.Prelude.{◌≡◌, ℕ, ◌<◌, ◌≤◌, [], ◌∷◌, length, map, reverse, slice_range, Some};
ghost use Rattle.std.specs.Prelude.{vec_capacity, IfOk, OnErr};
ghost use Rattle.grove_access.specs.Effects.{records_after};
ghost use Rattle.grove_access.specs.Lists.{nodes_of, AreBelow};
ghost use Rattle.grove_plan.specs.Plans.{locks};
ghost use Rattle.grove_core.specs.Runs.{list_of, plan_of, AllLegal};
ghost use Rattle.grove_core.specs.Orders.{order_by};
ghost use Rattle.grove_core.specs.Laws.{IsEachOnce};
ghost use Rattle.grove_core.specs.Alone.{locks_some, comes_after, accesses_below};
ghost use Rattle.grove_core.specs.DoneAlone.{IsDoneFrom, start_of, own_replies};
ghost use Rattle.grove_core.specs.Doing.{Does, HasRoomFor, IsReadyFor};

use crate::Job;
use crate::locking::first_lock;
use crate::ordering::order_by;
use crate::preceding::Precedence;
use grove_access::{Access, AccessList, Op, Records, Reply};
use grove_plan::Step;
use grove_tree::{NoMemory, Node, Tree};
use std::alloc::Global;

/// What jobs come to beside the records that were done alone, one after the other by their numbers.
#[derive(Debug, Drop)]
pub struct DoneAlone {
    /// The jobs in their serial order.
    pub order: Vec<u32>,
    /// The replies of all accesses, one job's after the other's.
    pub replies: Vec<Reply>,
    /// For each access one that puts back what it overwrote.
    pub overwritten: Vec<Access>,
}

/// Does the jobs in place, one after the other by their numbers, each from its first step to its last. Nobody else has
/// the records, so no lock is looked at, and what it costs are the accesses; where there are several jobs, their order
/// costs a look through their plans. It is refused before any change.
pub fn do_alone(
    alloc: Global,
    tree: &Tree,
    records: &mut Records,
    jobs: &[Job],
) -> Result<DoneAlone, NoMemory>
    requires legal { AllLegal tree.now jobs.now }
    requires records { length records.old ≡ length tree.now }
    requires few { length jobs.now ≤ 256 }
    ensures done { IfOk result (IsDoneFrom tree.now jobs.now records.old records.new) }
    ensures refused { OnErr result (records.new ≡ records.old) }
{
    let mut done = DoneAlone::with_room(alloc, jobs)?;
    order_alone(tree, jobs, &mut done.order);
    done.do_all(records, jobs);
    Ok(done)
}

impl DoneAlone {
    /// The replies of each of these jobs.
    pub fn replies_of<'a>(
        &'a self,
        alloc: Global,
        jobs: &[Job],
    ) -> Result<Vec<&'a [Reply]>, NoMemory>
        requires few { length jobs.now ≤ 256 }
        requires all { start_of jobs.now (length jobs.now) ≤ length self.now.replies.items }
        ensures { IfOk result
            (λ lists. map (λ list. list.now) lists.items ≡ own_replies jobs.now self.now.replies.items) }
    {
        let mut lists = Vec::with_capacity(alloc, jobs.len())?;
        let mut start = 0;
        for job in 0..jobs.len() {
            let end = start + jobs[job].list.len() as usize;
            lists.push(part(&self.replies, start, end))?;
            start = end;
        }
        Ok(lists)
    }

    /// Puts back what the accesses overwrote, the last one's first.
    pub fn undo(self, records: &mut Records)
        requires { AreBelow (length records.old) (nodes_of self.overwritten.items) }
        ensures { records.new ≡ records_after (reverse self.overwritten.items) records.old }
    {
        let DoneAlone {
            mut overwritten,
            order: _,
            replies: _,
        } = self;
        while let Some(access) = overwritten.pop() {
            let _ = records.apply(&access);
        }
    }

    /// Nothing done yet, with room for all that the jobs come to.
    fn with_room(alloc: Global, jobs: &[Job]) -> Result<DoneAlone, NoMemory>
        requires { length jobs.now ≤ 256 }
        ensures { IfOk result (IsReadyFor jobs.now) }
    {
        let accesses = accesses_in(jobs);
        let order = Vec::with_capacity(alloc, jobs.len())?;
        let replies = Vec::with_capacity(alloc, accesses)?;
        let overwritten = Vec::with_capacity(alloc, accesses)?;
        Ok(DoneAlone {
            order,
            replies,
            overwritten,
        })
    }

    /// Does the lists of the jobs, one after the other.
    fn do_all(&mut self, records: &mut Records, jobs: &[Job])
        requires fit { (t : ℕ) → t < length jobs.now → AreBelow (length records.old) (nodes_of (list_of jobs.now t)) }
        requires room { HasRoomFor (length (accesses_below (list_of jobs.now) (length jobs.now))) self.old }
        ensures { Does (accesses_below (list_of jobs.now) (length jobs.now)) records.old records.new self.old self.new }
    {
        for txn in 0..jobs.len() {
            self.do_list(records, &jobs[txn].list);
        }
    }

    /// Does the accesses of a list in order.
    fn do_list(&mut self, records: &mut Records, list: &AccessList)
        requires fits { AreBelow (length records.old) (nodes_of list.now) }
        requires room { HasRoomFor (length list.now) self.old }
        ensures { Does list.now records.old records.new self.old self.new }
    {
        for place in 0..list.len() {
            self.do_access(records, list.get(place));
        }
    }

    /// Does an access, and keeps its reply and what it overwrote.
    fn do_access(&mut self, records: &mut Records, access: Access)
        requires within { access.node < length records.old }
        requires room { HasRoomFor 1 self.old }
        ensures { Does (access ∷ []) records.old records.new self.old self.new }
    {
        let old = records.get(access.node);
        let reply = records.apply(&access);
        self.replies.push_reserved(reply);
        self.overwritten.push_reserved(storing(access, old));
    }
}

/// An access that stores the number where this one goes.
fn storing(access: Access, number: i64) -> Access
    ensures node { result.node ≡ access.node }
    ensures op { result.op ≡ Op.Set number }
{
    Access {
        node: access.node,
        op: Op::Set(number),
        length: access.length,
    }
}

/// The replies from one place to another.
fn part(replies: &[Reply], start: usize, end: usize) -> &[Reply]
    requires ordered { start ≤ end }
    requires within { end ≤ length replies.now }
    ensures { result.now ≡ slice_range replies.now start end }
{
    &replies[start..end]
}

/// How many accesses the jobs have.
fn accesses_in(jobs: &[Job]) -> usize
    requires { length jobs.now ≤ 256 }
    ensures { result ≡ length (accesses_below (list_of jobs.now) (length jobs.now)) }
{
    let mut accesses = 0;
    for txn in 0..jobs.len() {
        accesses += jobs[txn].list.len() as usize;
    }
    accesses
}

/// Puts jobs in order that are done alone.
fn order_alone(tree: &Tree, jobs: &[Job], order: &mut Vec<u32>)
    requires legal { AllLegal tree.now jobs.now }
    requires few { length jobs.now ≤ 256 }
    requires empty { order.old.items ≡ [] }
    requires room { length jobs.now ≤ vec_capacity order.old }
    ensures order { order.new.items ≡ order_by tree.now jobs.now (comes_after jobs.now) }
    ensures once { IsEachOnce order.new.items (length jobs.now) }
{
    if jobs.len() == 1 {
        order.push_reserved(0);
        // What holds of every tree is told with its length.
        let _nodes = tree.len();
        return;
    }
    order_by(tree, jobs, &InTurn { jobs }, order);
}

/// Jobs done alone, one after the other.
#[derive(Drop)]
struct InTurn<'a> {
    jobs: &'a [Job],
}

/// A job comes after another where its number is greater and it locks the other's first node.
impl Precedence for InTurn<'_> {
    ghost use Rattle.std.specs.Prelude.{length};
    ghost use Rattle.grove_core.specs.Alone.{comes_after};

    ghost number = { λ turn. length turn.jobs.now };

    ghost after = { λ turn. comes_after turn.jobs.now };

    fn first_after(&self, txn: u32, order: &[u32]) -> usize {
        let Some(node) = first_lock(self.jobs[txn as usize].plan.steps()) else {
            return order.len();
        };
        for (index, placed) in order.iter().enumerate() {
            if txn < *placed && locks_node(self.jobs, *placed, node) {
                return index;
            }
        }
        order.len()
    }
}

/// Does the plan of a job lock the node?
fn locks_node(jobs: &[Job], txn: u32, node: Node) -> bool
    ensures { result ≡ locks_some (plan_of jobs.now txn) (Some node) }
{
    match jobs.get(txn as usize) {
        Some(job) => some_locks(job.plan.steps(), node),
        None => false,
    }
}

/// Does some step lock the node?
fn some_locks(steps: &[Step], node: Node) -> bool
    ensures { result ≡ locks_some steps.now (Some node) }
{
    for step in steps {
        if is_lock_of(*step, node) {
            return true;
        }
    }
    false
}

fn is_lock_of(step: Step, node: Node) -> bool
    ensures { result ≡ locks node (Some step) }
{
    match step {
        Step::Lock(locked) => locked == node,
        Step::Unlock(_) | Step::Access(_) => false,
    }
}
