ghost use Rattle.std.specs.Prelude.{◌≤◌};

use crate::again::tell;
use crate::again::values::{A, B, ROOT, get, leaves_below, list_of, tree_of};
use grove_access::{Access, AccessList};
use grove_build::{plan, plan_batch};
use grove_proof::check;
use grove_span::span;
use grove_tree::{OpenGate, Tree};
use std::alloc::{AllocGlobal, Global};
use std::thread::Threads;

/// Plans the reads of a leaf and of one that is a node deeper.
pub fn plan_deep<R: AllocGlobal + Print>(rt: &R) -> Option<()> {
    let nodes = [
        (None, "", 9),
        (Some(0), "y", 1),
        (Some(0), "p", 1),
        (Some(2), "x", 3),
    ];
    let tree = tree_of(rt.alloc(), &nodes)?;
    tell(rt, "Tree::build", &tree.len());
    plan_over(rt, &tree, &[get(1), get(3)])
}

/// Plans the reads of two leaves, of which the second takes so many slots.
pub fn plan_flat<R: AllocGlobal + Print>(rt: &R, length: u32) -> Option<()> {
    let tree = leaves_below(rt.alloc(), 5)?;
    tell(rt, "Tree::build", &tree.len());
    let second = Access { length, ..get(B) };
    plan_over(rt, &tree, &[get(A), second])
}

fn plan_over<R: AllocGlobal + Print>(rt: &R, tree: &Tree, accesses: &[Access]) -> Option<()> {
    let list = list_of(rt.alloc(), tree, accesses)?;
    tell(rt, "AccessList::new", &list.len());
    let rows = span(rt.alloc(), tree, &list).ok()?;
    tell(rt, "span", &rows);
    let planned = plan(rt.alloc(), tree, &list).ok()?;
    tell(rt, "plan", &(planned.cost, planned.plan.steps()));
    let cost = check(rt.alloc(), tree, &list, &planned.plan, &planned.flow).ok()?;
    tell(rt, "check", &cost);
    Some(())
}

/// Plans five lists together by 1, 2, 3 and 16 workers.
pub fn plan_batches<R: AllocGlobal + Print + Threads + Sync>(rt: &R) -> Option<()> {
    let tree = leaves_below(rt.alloc(), 5)?;
    let lists = five_lists(rt.alloc(), &tree)?;
    tell(rt, "lists", &lists.len());
    for workers in [1, 2, 3, 16] {
        plan_by(rt, &tree, &lists, workers)?;
    }
    Some(())
}

fn five_lists(alloc: Global, tree: &Tree) -> Option<Vec<AccessList>> {
    let each: [&[Access]; 5] = [
        &[],
        &[get(A)],
        &[get(A), get(B)],
        &[get(A), get(B), get(A)],
        &[get(ROOT), get(A)],
    ];
    let mut lists = Vec::new(alloc);
    for accesses in each {
        lists.push(list_of(alloc, tree, accesses)?).ok()?;
    }
    Some(lists)
}

fn plan_by<R: AllocGlobal + Print + Threads + Sync>(
    rt: &R,
    tree: &Tree,
    lists: &[AccessList],
    workers: u32,
) -> Option<()>
    requires { (1 ≤ workers) × (workers ≤ 16) }
{
    if lists.len() > 256 || !lists.iter().all(|list| list.fits(tree)) {
        return None;
    }
    let plans = plan_batch(rt, rt.alloc(), tree, lists, workers, &OpenGate).ok()?;
    for planned in &plans {
        tell(rt, "plan_batch", &(planned.cost, planned.plan.steps()));
    }
    Some(())
}
