//! What the calls are made on.
ghost use Rattle.std.specs.Prelude.{IfSome};
ghost use Rattle.grove_access.specs.Lists.{nodes_of, AreNodes};

use grove_access::{Access, AccessList, Op, Records};
use grove_core::Job;
use grove_plan::{Plan, Step};
use grove_store::Store;
use grove_tree::{Node, Row, Tree};
use std::alloc::Global;

/// The nodes of the trees with two leaves: `/`, `/a` and `/b`.
pub const ROOT: u32 = 0;

pub const A: u32 = 1;

pub const B: u32 = 2;

/// A node's parent, name and weight.
pub type NodeRow = (Option<u32>, &'static str, u32);

pub fn tree_of(alloc: Global, nodes: &[NodeRow]) -> Option<Tree> {
    let mut rows = Vec::new(alloc);
    for (parent, name, weight) in nodes {
        let name = String::from_str(alloc, name).ok()?;
        rows.push(Row {
            parent: *parent,
            name,
            weight: *weight,
        })
        .ok()?;
    }
    Tree::build(alloc, &rows).ok()
}

/// A root of this weight with two leaves that weigh 1 each.
pub fn leaves_below(alloc: Global, weight: u32) -> Option<Tree> {
    tree_of(
        alloc,
        &[(None, "", weight), (Some(0), "a", 1), (Some(0), "b", 1)],
    )
}

/// A store of one worker, over two leaves below a root of this weight, with the records 0, 10 and 20.
pub fn store_below(alloc: Global, weight: u32) -> Option<Store> {
    let tree = leaves_below(alloc, weight)?;
    let records = Records::new(alloc, &[0, 10, 20]).ok()?;
    if !records.fits(&tree) {
        return None;
    }
    Store::open(alloc, tree, records, 1).ok()
}

pub fn access(node: u32, op: Op) -> Access {
    Access {
        node: Node::new(node),
        op,
        length: 1,
    }
}

pub fn get(node: u32) -> Access {
    access(node, Op::Get)
}

pub fn list_of(alloc: Global, tree: &Tree, accesses: &[Access]) -> Option<AccessList>
    ensures { IfSome result (λ list. AreNodes tree.now (nodes_of list)) }
{
    AccessList::new(alloc, tree, accesses).ok()
}

/// A job whose plan has `/a` locked while its accesses are done.
pub fn job_at_a(alloc: Global, tree: &Tree, accesses: &[Access]) -> Option<Job> {
    let list = list_of(alloc, tree, accesses)?;
    let mut steps = Vec::new(alloc);
    steps.push(Step::Lock(Node::new(A))).ok()?;
    for number in 0..list.len() {
        steps.push(Step::Access(number)).ok()?;
    }
    steps.push(Step::Unlock(Node::new(A))).ok()?;
    if steps.len() > 100 {
        return None;
    }
    Some(Job {
        list,
        plan: Plan::new(steps),
    })
}
