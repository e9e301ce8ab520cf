use crate::fixtures::{A, B, access, read, two_leaves};
use crate::meeting::Meeting;
use grove_access::{Access, AccessList, Op};
use grove_build::plan_batch;
use grove_tree::Tree;
use std::alloc::Global;
use std::process::Abort;
use std::thread::Threads;

fn lists_of(rt: &impl Abort, alloc: Global, tree: &Tree, batch: &[&[Access]]) -> Vec<AccessList> {
    let mut lists = Vec::new(alloc);
    for accesses in batch {
        let list = AccessList::new(alloc, tree, accesses).expect(rt, "a list");
        lists.push(list).expect(rt, "room for a list");
    }
    lists
}

/// Plans the lists of a batch by two workers: two plans are made, both at once.
fn plans_two<R: Abort + Threads + Sync>(rt: &R, alloc: Global, batch: &[&[Access]]) {
    let tree = two_leaves(rt, alloc);
    let lists = lists_of(rt, alloc, &tree, batch);
    assert!(rt; lists.len() <= 256 && lists.iter().all(|list| list.fits(&tree)));
    let meeting = Meeting::at_step(0, 0, 1);
    let plans = plan_batch(rt, alloc, &tree, &lists, 2, &meeting);
    assert!(rt; plans.is_ok() && meeting.has_met());
    assert_eq!(rt; meeting.calls(), 2);
}

#[test]
fn lists_with_the_same_targets_are_planned_once_and_others_at_once(rt: HostRuntime) {
    let by_node: [&[Access]; 4] = [
        &[access(A, Op::Get)],
        &[access(A, Op::Set(1))],
        &[access(B, Op::Get)],
        &[access(A, Op::Add(2))],
    ];
    let by_length: [&[Access]; 2] = [&[read(A, 1), read(B, 10)], &[read(A, 10), read(B, 1)]];
    plans_two(&rt, rt.alloc(), &by_node);
    plans_two(&rt, rt.alloc(), &by_length);
}
