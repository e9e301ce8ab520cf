ghost use Rattle.std.specs.Prelude.{◌≡◌, ◌<◌, ◌≤◌, ◌+◌, ◌↔◌, [], length, Some, None, IfSome, IfNone, IsTrue};
ghost use Rattle.grove_access.specs.Carries.{carry_settled};
ghost use Rattle.grove_plan.specs.declared.step.Step.{Step as PlanStep};
ghost use Rattle.grove_core.specs.Runs.{next_step, AllLegal, MayHappen};
ghost use Rattle.grove_core.specs.Kept.{past_of};
ghost use Rattle.grove_core.specs.Carried.{IsOf};
ghost use Rattle.grove_run.specs.Books.{after_event, marked, core_taken, step_after, HasNoStep, IsForeign, IsBlockedAt};
ghost use Rattle.grove_run.specs.Books.{IsSameBatch, Moved, IsDone};

use crate::{BookStep, CarryStep};
use grove_access::Carry;
use grove_core::{Core, Event, Job, StepFault};
use grove_plan::Step;
use grove_tree::Node;
use std::marker::Model;

mod waiting;

/// A core, and how many of its jobs are claimed: the jobs below that number.
#[derive(Drop)]
pub struct Book<'a> {
    core: Core<'a>,
    claimed: u32,
}

impl<'a> Model for Book<'a> {
    ghost use Rattle.std.specs.Prelude.{◌≤◌, length};
    ghost use Rattle.grove_run.specs.Books.{BookState};

    ghost Value = { BookState };

    ghost view = { λ book. record { core = book.core; claimed = book.claimed } };

    ghost invariant = { λ book. book.claimed ≤ length book.core.jobs };
}

impl<'a> Book<'a> {
    /// The book of a core of which no job is claimed.
    pub fn open(core: Core<'a>) -> Book<'a>
        ensures { result ≡ record { core = core.entry; claimed = 0 } }
    {
        Book { core, claimed: 0 }
    }

    /// Claims the lowest job that isn't claimed.
    pub fn claim(&mut self) -> Option<u32>
        ensures lowest { IfSome result (λ txn. txn ≡ self.old.claimed) }
        ensures job { IfSome result (λ txn. txn < length self.old.core.jobs) }
        ensures claimed { IfSome result (λ txn. self.new ≡ record self.old { claimed = self.old.claimed + 1 }) }
        ensures none { IfNone result (self.old.claimed ≡ length self.old.core.jobs) }
        ensures unchanged { IfNone result (self.new ≡ self.old) }
    {
        if self.claimed as usize == self.core.jobs().len() {
            return None;
        }
        let txn = self.claimed;
        self.claimed += 1;
        Some(txn)
    }

    /// The jobs that aren't claimed.
    pub(crate) fn unclaimed(&self) -> &[Job] {
        let jobs = self.core.jobs();
        &jobs[self.claimed as usize..]
    }

    /// The core of the book.
    pub fn into_core(self) -> Core<'a>
        ensures { result ≡ self.entry.core }
    {
        let Book { core, claimed: _ } = self;
        core
    }

    /// Does the next step of a job.
    pub fn step(&mut self, txn: u32) -> BookStep
        requires { txn < length self.old.core.jobs }
        ensures claims { self.new.claimed ≡ self.old.claimed }
        ensures stepped { result ≡ BookStep.Stepped
            → MayHappen self.old.core.jobs (past_of self.old.core) (Event.Take txn)
            × (self.new.core ≡ after_event self.old.core (Event.Take txn)) }
        ensures blocked { result ≡ BookStep.Blocked → IsBlockedAt self.old.core txn
            × (self.new.core ≡ marked self.old.core txn) }
        ensures ended { result ≡ BookStep.Ended → (next_step self.old.core.jobs (past_of self.old.core) txn ≡ None)
            × (self.new ≡ self.old) }
    {
        match self.core.step(Event::Take(txn)) {
            Ok(()) => BookStep::Stepped,
            Err(StepFault::Blocked(_)) => {
                mark(&mut self.core, txn);
                BookStep::Blocked
            }
            Err(_) => BookStep::Ended,
        }
    }

    /// Takes in the accesses that the carry's job did on the records that it has out, and then does its next step, a
    /// lock or an unlock.
    pub fn carry_step(&mut self, carry: &mut Carry) -> CarryStep
        ensures claims { self.new.claimed ≡ self.old.claimed }
        ensures foreign { result ≡ CarryStep.Foreign → IsForeign self.old.core carry.old }
        ensures kept { result ≡ CarryStep.Foreign → (self.new ≡ self.old) × (carry.new ≡ carry.old) }
        ensures fits { (result ≡ CarryStep.Foreign → ⊥) → IsOf self.old.core carry.old
            × (HasNoStep carry.old (step_after self.old.core carry.old) → ⊥) }
        ensures ended { result ≡ CarryStep.Ended → (step_after self.old.core carry.old ≡ None)
            × (self.new.core ≡ core_taken self.old.core carry.old) × (carry.new ≡ carry_settled carry.old) }
        ensures stepped { result ≡ CarryStep.Stepped → (step : PlanStep)
            × (step_after self.old.core carry.old ≡ Some step)
            × (self.new.core ≡ after_event (core_taken self.old.core carry.old) (Event.Take carry.old.txn))
            × Moved (core_taken self.old.core carry.old) (carry_settled carry.old) step carry.new }
        ensures blocked { result ≡ CarryStep.Blocked → IsBlockedAt (core_taken self.old.core carry.old) carry.old.txn
            × (self.new.core ≡ marked (core_taken self.old.core carry.old) carry.old.txn)
            × (carry.new ≡ carry_settled carry.old) }
        ensures stays { (result ≡ CarryStep.Foreign → ⊥) → IsOf self.new.core carry.new }
    {
        let next = self.core.step_ahead(carry.txn(), carry.entries().len());
        if has_no_step(carry, &next) {
            return CarryStep::Foreign;
        }
        if !self.core.take_carried(carry) {
            return CarryStep::Foreign;
        }
        carry.settle();
        match next {
            Some(step) => do_step(&mut self.core, carry, step),
            None => CarryStep::Ended,
        }
    }

    /// Does what `carry_step` does, for the only holder of a carry since before its job's first step: what it has out
    /// isn't compared. After `Foreign` some of it may be done.
    pub(crate) fn carry_on(&mut self, carry: &mut Carry) -> CarryStep
        ensures claims { self.new.claimed ≡ self.old.claimed }
        ensures same { IsSameBatch self.old.core self.new.core }
        ensures ended { result ≡ CarryStep.Ended → (step_after self.old.core carry.old ≡ None)
            × (self.new.core ≡ core_taken self.old.core carry.old) × (carry.new ≡ carry_settled carry.old) }
        ensures stepped { result ≡ CarryStep.Stepped → (step : PlanStep)
            × (step_after self.old.core carry.old ≡ Some step)
            × (self.new.core ≡ after_event (core_taken self.old.core carry.old) (Event.Take carry.old.txn))
            × Moved (core_taken self.old.core carry.old) (carry_settled carry.old) step carry.new }
        ensures blocked { result ≡ CarryStep.Blocked → IsBlockedAt (core_taken self.old.core carry.old) carry.old.txn
            × (self.new.core ≡ marked (core_taken self.old.core carry.old) carry.old.txn)
            × (carry.new ≡ carry_settled carry.old) }
    {
        if !self.core.take_entries(carry) {
            return CarryStep::Foreign;
        }
        carry.settle();
        match self.core.step_ahead(carry.txn(), 0) {
            Some(step) => do_step(&mut self.core, carry, step),
            None => CarryStep::Ended,
        }
    }
}

// Can the step not be done with the carry?
fn has_no_step(carry: &Carry, step: &Option<Step>) -> bool
    ensures { IsTrue result ↔ HasNoStep carry.now step.now }
{
    match step {
        Some(Step::Lock(_)) => carry.is_full(),
        Some(Step::Access(_)) => true,
        Some(Step::Unlock(_)) | None => false,
    }
}

// Does the step that a job stands before. Foreign where the carry doesn't fit it, which of the core it does; the step
// of a lock or an unlock may be done then.
fn do_step(core: &mut Core, carry: &mut Carry, step: Step) -> CarryStep
    requires settled { carry.old.entries ≡ [] }
    requires next { next_step core.old.jobs (past_of core.old) carry.old.txn ≡ Some step }
    ensures done { (result ≡ CarryStep.Foreign → ⊥) → IsDone core.old carry.old step result core.new carry.new }
    ensures fits { IsOf core.old carry.old → (HasNoStep carry.old (Some step) → ⊥) → result ≡ CarryStep.Foreign → ⊥ }
    ensures stays { (result ≡ CarryStep.Foreign → ⊥) → IsOf core.old carry.old → IsOf core.new carry.new }
    ensures same { IsSameBatch core.old core.new }
{
    let _ = core.jobs();
    let _ = carry.txn();
    match step {
        Step::Lock(node) => lock(core, carry, node),
        Step::Unlock(node) => unlock(core, carry, node),
        Step::Access(_) => CarryStep::Foreign,
    }
}

fn lock(core: &mut Core, carry: &mut Carry, node: Node) -> CarryStep
    requires legal { AllLegal core.old.tree core.old.jobs }
    requires next { next_step core.old.jobs (past_of core.old) carry.old.txn ≡ Some (Step.Lock node) }
    ensures done { (result ≡ CarryStep.Foreign → ⊥)
        → IsDone core.old carry.old (Step.Lock node) result core.new carry.new }
    ensures fits { IsOf core.old carry.old → (length carry.old.known ≡ carry.old.most_nodes → ⊥)
        → result ≡ CarryStep.Foreign → ⊥ }
    ensures same { IsSameBatch core.old core.new }
{
    let txn = carry.txn();
    let value = core.value(node);
    match core.try_lock(txn, node) {
        Ok(()) if carry.put(node, value) => CarryStep::Stepped,
        Ok(()) => CarryStep::Foreign,
        Err(_) => {
            mark(core, txn);
            CarryStep::Blocked
        }
    }
}

fn unlock(core: &mut Core, carry: &mut Carry, node: Node) -> CarryStep
    requires legal { AllLegal core.old.tree core.old.jobs }
    requires settled { carry.old.entries ≡ [] }
    requires next { next_step core.old.jobs (past_of core.old) carry.old.txn ≡ Some (Step.Unlock node) }
    ensures done { (result ≡ CarryStep.Foreign → ⊥)
        → IsDone core.old carry.old (Step.Unlock node) result core.new carry.new }
    ensures fits { IsOf core.old carry.old → result ≡ CarryStep.Foreign → ⊥ }
    ensures same { IsSameBatch core.old core.new }
{
    core.unlock(carry.txn(), node);
    match carry.give(node) {
        Some(_) => CarryStep::Stepped,
        None => CarryStep::Foreign,
    }
}

// Marks the lock at which a job is blocked, where it has no mark.
fn mark(core: &mut Core, txn: u32)
    requires { IsBlockedAt core.old txn }
    ensures { core.new ≡ marked core.old txn }
{
    let _ = core.step(Event::Mark(txn));
}
