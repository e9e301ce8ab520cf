ghost use Rattle.grove_run.specs.Runs.{IsCoreOf};

use crate::sleepers::{SLOTS, Sleep, Sleepers, Woken};
use crate::{Book, CarryStep};
use grove_access::Carry;
use grove_core::{Core, Job};
use grove_tree::Node;
use std::marker::{Brand, Model, PhantomData};

/// Which batch it is: a tree, jobs and records. Each run picks them.
pub trait Batch {
    ghost use Rattle.std.specs.Prelude.{List, ℤ};
    ghost use Rattle.grove_tree.specs.Trees.{Rows};
    ghost use Rattle.grove_core.specs.declared.job.Job.{Job};

    ghost tree: { Rows };

    ghost jobs: { List Job };

    ghost opening: { List ℤ };
}

impl Batch for Brand {
    ghost use Rattle.std.specs.Prelude.{[]};

    ghost tree = { [] };

    ghost jobs = { [] };

    ghost opening = { [] };
}

/// The book of a batch, as the workers share it.
#[derive(Drop)]
pub struct Register<'a, B: Batch> {
    book: Book<'a>,
    /// The carry of each worker, until it begins.
    carries: Vec<Option<Carry>>,
    /// Some worker can't go on: its carry wasn't of its job.
    foreign: bool,
    sleepers: Sleepers,
    of: PhantomData<B>,
}

impl<'a, B: Batch> Model for Register<'a, B> {
    ghost use Rattle.grove_run.specs.Books.{BookState};
    ghost use Rattle.grove_run.specs.Runs.{IsCoreOf};

    ghost Value = { BookState };

    ghost view = { λ register. register.book };

    ghost invariant = { λ register. IsCoreOf B.tree B.jobs B.opening register.book.core };
}

impl<'a, B: Batch> Register<'a, B> {
    pub fn new(book: Book<'a>, carries: Vec<Option<Carry>>) -> Self
        requires { IsCoreOf B.tree B.jobs B.opening book.core }
    {
        Register {
            book,
            carries,
            foreign: false,
            sleepers: Sleepers::new(),
            of: PhantomData,
        }
    }

    /// Takes out a worker's carry.
    pub fn take_carry(&mut self, slot: usize) -> Option<Carry> {
        match self.carries.get_mut(slot) {
            Some(carry) => carry.take(),
            None => None,
        }
    }

    /// Claims the lowest job that isn't claimed.
    pub fn claim(&mut self) -> Option<u32> {
        self.book.claim()
    }

    /// The jobs that aren't claimed.
    pub fn unclaimed(&self) -> &[Job] {
        self.book.unclaimed()
    }

    /// Does the step of a carry.
    pub fn carry_step(&mut self, carry: &mut Carry) -> CarryStep {
        self.book.carry_on(carry)
    }

    /// The worker of a slot falls asleep, whose carry's job is blocked at the lock of a node, at this place of its
    /// plan. It sleeps for the last node in its way: it can let nothing go before it has that one, and isn't woken at
    /// those before.
    pub fn fall_asleep(&mut self, slot: usize, carry: &Carry, node: Node, place: usize) {
        let last = self.book.last_in_way(carry.txn(), place);
        self.sleep_for(slot, carry, last.unwrap_or(node), place);
    }

    /// Lets a worker that was woken sleep on, where its job holds nothing and another has come into its way. So no job
    /// keeps others from a node before it can begin.
    pub fn sleep_on(&mut self, slot: usize, carry: &Carry, place: usize) -> bool {
        if self.foreign || !carry.known().is_empty() {
            return false;
        }
        let Some(last) = self.book.last_in_way(carry.txn(), place) else {
            return false;
        };
        self.sleep_for(slot, carry, last, place);
        true
    }

    fn sleep_for(&mut self, slot: usize, carry: &Carry, node: Node, place: usize) {
        let sleep = Sleep {
            node,
            txn: carry.txn(),
            place,
            holds_some: !carry.known().is_empty(),
        };
        self.sleepers.enter(slot, sleep);
    }

    /// May somebody sleep for the node?
    pub fn may_wait_for(&self, node: Node) -> bool {
        self.sleepers.may_wait_for(node)
    }

    /// Takes out whom to wake when the node is let go: who slept for it and has nobody in the way any more, but only
    /// one of those whose jobs hold nothing. That one locks the node too, and the others sleep for it. Who has another
    /// job in the way sleeps for that one's node.
    pub fn whom_to_wake(&mut self, node: Node) -> Woken {
        let mut woken = Woken::new();
        let mut begins = false;
        for slot in 0..SLOTS {
            let Some(sleep) = self.sleepers.leave(slot, node) else {
                continue;
            };
            match self.book.last_in_way(sleep.txn, sleep.place) {
                Some(other) => self.sleepers.enter(
                    slot,
                    Sleep {
                        node: other,
                        ..sleep
                    },
                ),
                None if sleep.holds_some => woken.add(slot),
                None if begins => self.sleepers.enter(slot, sleep),
                None => {
                    woken.add(slot);
                    begins = true;
                }
            }
        }
        woken
    }

    /// Can some worker not go on?
    pub fn is_foreign(&self) -> bool {
        self.foreign
    }

    /// Remembers that a worker can't go on, since its carry isn't of its job.
    pub fn set_foreign(&mut self) {
        self.foreign = true;
    }

    /// The core of the batch.
    pub fn into_core(self) -> Core<'a>
        ensures { IsCoreOf B.tree B.jobs B.opening result }
    {
        let Register {
            book,
            carries: _,
            foreign: _,
            sleepers: _,
            of: _,
        } = self;
        book.into_core()
    }
}
