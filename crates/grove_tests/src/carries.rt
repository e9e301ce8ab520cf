use crate::fixtures::{A, access, lock, two_leaves, unlock};
use crate::scripts::{Script, job_of};
use grove_access::{Carry, Op, Records, Reply};
use grove_core::{Core, Job, all_fit};
use grove_plan::Step;
use grove_run::{Book, BookStep, CarryStep};
use grove_tree::{Node, Tree};
use std::alloc::Global;
use std::process::Abort;

/// A book of the job over records 0, 10 and 0, in which nothing has happened.
fn book_of<'a>(rt: &impl Abort, alloc: Global, tree: &'a Tree, jobs: &'a [Job; 1]) -> Book<'a> {
    let records = Records::new(alloc, &[0, 10, 0]).expect(rt, "room for records");
    assert!(rt; records.fits(tree) && all_fit(tree, jobs));
    Book::open(Core::open(alloc, tree, &records, jobs).expect(rt, "a core"))
}

/// The carry has the record out, and the book does the job's next step by itself.
fn steps_apart(rt: &impl Abort, alloc: Global, tree: &Tree, jobs: &[Job; 1]) {
    let list = &jobs[0].list;
    let mut carry = Carry::new(alloc, 0, list, 1).expect(rt, "a carry");
    let mut book = book_of(rt, alloc, tree, jobs);
    assert!(rt; book.carry_step(&mut carry) == CarryStep::Stepped);
    assert!(rt; carry.value(Node::new(A)) == Some(10));
    assert!(rt; book.step(0) == BookStep::Stepped);
    assert!(rt; carry.apply(list, 0) == Some(Reply::Value(11)));
    assert!(rt; book.carry_step(&mut carry) == CarryStep::Foreign);
}

#[test]
fn a_carry_is_foreign_after_another_step(rt: HostRuntime) {
    let alloc = rt.alloc();
    let tree = two_leaves(&rt, alloc);
    let script = Script {
        accesses: &[access(A, Op::Add(1))],
        steps: &[lock(A), Step::Access(0), unlock(A)],
    };
    let jobs = [job_of(&rt, alloc, &tree, &script)];
    steps_apart(&rt, alloc, &tree, &jobs);
}
