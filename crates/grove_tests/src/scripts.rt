use crate::fixtures::{lock, read, unlock};
use grove_access::{Access, AccessList};
use grove_core::Job;
use grove_plan::{Plan, Step};
use grove_tree::Tree;
use std::alloc::Global;
use std::process::Abort;

/// A job's accesses and the steps of its plan.
#[derive(Clone, Copy)]
pub struct Script<'a> {
    pub accesses: &'a [Access],
    pub steps: &'a [Step],
}

pub fn job_of(rt: &impl Abort, alloc: Global, tree: &Tree, script: &Script) -> Job {
    assert!(rt; script.steps.len() < 100);
    let list = AccessList::new(alloc, tree, script.accesses).expect(rt, "a list");
    let steps = Vec::from_slice(alloc, script.steps).expect(rt, "room for steps");
    Job {
        list,
        plan: Plan::new(steps),
    }
}

/// A job that reads a node, which alone is held.
pub fn reads(rt: &impl Abort, alloc: Global, tree: &Tree, node: u32) -> Job {
    let script = Script {
        accesses: &[read(node, 1)],
        steps: &[lock(node), Step::Access(0), unlock(node)],
    };
    job_of(rt, alloc, tree, &script)
}
