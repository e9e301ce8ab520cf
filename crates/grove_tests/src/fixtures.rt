use grove_access::{Access, Op};
use grove_plan::Step;
use grove_tree::{Node, Row, Tree};
use std::alloc::{AllocGlobal, Global};
use std::process::Abort;
use std::sync::Wait;
use std::thread::Threads;

/// What a test's threads are given: memory, threads of their own, and leave to wait and to fail.
pub trait Host: AllocGlobal + Abort + Threads + Wait + Sync {}

impl<R: AllocGlobal + Abort + Threads + Wait + Sync> Host for R {}

/// How often anybody looks.
pub const MOST_LOOKS: u32 = 20_000_000;

/// The first leaf of the trees with two, `/a`.
pub const A: u32 = 1;

/// The second one, `/b`.
pub const B: u32 = 2;

/// A tree of the rows with these parents, names and weights.
pub fn tree_of(rt: &impl Abort, alloc: Global, rows: &[(Option<u32>, &str, u32)]) -> Tree {
    let mut list = Vec::new(alloc);
    for (parent, name, weight) in rows {
        let row = Row {
            parent: *parent,
            name: String::from_str(alloc, name).expect(rt, "room for a name"),
            weight: *weight,
        };
        list.push(row).expect(rt, "room for a row");
    }
    Tree::build(alloc, &list).expect(rt, "a tree")
}

/// A root with two leaves; each node weighs 1.
pub fn two_leaves(rt: &impl Abort, alloc: Global) -> Tree {
    let rows = [(None, "", 1), (Some(0), "a", 1), (Some(0), "b", 1)];
    tree_of(rt, alloc, &rows)
}

pub fn access(node: u32, op: Op) -> Access {
    let node = Node::new(node);
    Access {
        node,
        op,
        length: 1,
    }
}

/// A read that takes so many slots.
pub fn read(node: u32, length: u32) -> Access {
    Access {
        length,
        ..access(node, Op::Get)
    }
}

pub fn lock(node: u32) -> Step {
    Step::Lock(Node::new(node))
}

pub fn unlock(node: u32) -> Step {
    Step::Unlock(Node::new(node))
}
