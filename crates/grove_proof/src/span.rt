ghost use Rattle.std.specs.Prelude.{◌≡◌, ℕ, ◌<◌, ◌^◌, length, map, IfOk, MatchOption};
ghost use Rattle.grove_tree.specs.Trees.{IsTree, IsAbove};
ghost use Rattle.grove_access.specs.Lists.{nodes_of, AreNodes};
ghost use Rattle.grove_access.specs.Forced.{IsForcedByTree, forced_nodes};
ghost use Rattle.grove_proof.specs.Flows.{node_of};
ghost use Rattle.grove_proof.specs.Faults.{IsFirstDifference};
ghost use Rattle.grove_proof.specs.Tables.{IsMeet, IsLowest, IsMarked, MarksWay, MarksForced};

use crate::FlowRow;
use grove_access::AccessList;
use grove_tree::{Node, Tree};
use std::alloc::{AllocError, Global};

/// The lowest node above both nodes.
fn meet(tree: &Tree, first: Node, second: Node) -> Node
    requires tree { IsTree tree.now }
    requires first { first < length tree.now }
    requires second { second < length tree.now }
    ensures { IsMeet tree.now first second result }
{
    let mut left = first;
    let mut right = second;
    while left != right {
        if left < right {
            match tree.parent(right) {
                Some(parent) => right = parent,
                None => unreachable!(),
            }
        } else {
            match tree.parent(left) {
                Some(parent) => left = parent,
                None => unreachable!(),
            }
        }
    }
    left
}

/// The lowest node above all accessed nodes.
fn lowest_common(tree: &Tree, list: &AccessList) -> Node
    requires tree { IsTree tree.now }
    requires fits { AreNodes tree.now (nodes_of list.now) }
    requires some { 0 < length list.now }
    ensures lowest { IsLowest tree.now (nodes_of list.now) (length list.now) result }
{
    let mut lowest = list.get(0).node;
    for access in 1..list.len() {
        lowest = meet(tree, lowest, list.get(access).node);
    }
    lowest
}

/// Marks the nodes from a node up to one above it.
fn mark_way(tree: &Tree, top: Node, from: Node, marks: &mut [bool])
    requires tree { IsTree tree.now }
    requires within { from < length tree.now }
    requires above { IsAbove tree.now top from }
    requires size { length marks.old ≡ length tree.now }
    ensures { MarksWay tree.now top from marks.old marks.new }
{
    let mut at = from;
    while at != top {
        marks[at.number() as usize] = true;
        match tree.parent(at) {
            Some(parent) => at = parent,
            None => unreachable!(),
        }
    }
    marks[at.number() as usize] = true;
}

/// Marks the nodes from each accessed node up to the lowest common one.
fn mark_ways(tree: &Tree, list: &AccessList, top: Node, marks: &mut [bool])
    requires tree { IsTree tree.now }
    requires fits { AreNodes tree.now (nodes_of list.now) }
    requires lowest { IsLowest tree.now (nodes_of list.now) (length list.now) top }
    requires size { length marks.old ≡ length tree.now }
    requires none { (v : ℕ) → IsMarked marks.old v → ⊥ }
    ensures sound { (v : ℕ) → IsMarked marks.new v → IsForcedByTree tree.now (nodes_of list.now) v }
    ensures complete { (v : ℕ) → IsForcedByTree tree.now (nodes_of list.now) v → IsMarked marks.new v }
{
    for access in 0..list.len() {
        mark_way(tree, top, list.get(access).node, marks);
    }
}

/// For each node of the tree, whether the list forces it.
fn forced_marks(alloc: Global, tree: &Tree, list: &AccessList) -> Result<Vec<bool>, AllocError>
    requires tree { IsTree tree.now }
    requires fits { AreNodes tree.now (nodes_of list.now) }
    ensures { IfOk result (λ marks. MarksForced tree.now (nodes_of list.now) marks.items) }
{
    let mut marks = vec![in alloc; false; tree.len() as usize]?;
    if list.len() > 0 {
        let top = lowest_common(tree, list);
        mark_ways(tree, list, top, &mut marks);
    }
    Ok(marks)
}

/// The nodes that the list forces, ascending.
pub fn forced_nodes(alloc: Global, tree: &Tree, list: &AccessList) -> Result<Vec<Node>, AllocError>
    requires tree { IsTree tree.now }
    requires fits { AreNodes tree.now (nodes_of list.now) }
    ensures { IfOk result (λ span. span.items ≡ forced_nodes tree.now (nodes_of list.now)) }
{
    let marks = forced_marks(alloc, tree, list)?;
    let mut span = vec![in alloc]?;
    for number in 0..tree.len() {
        if marks[number as usize] {
            span.push(Node::new(number))?;
        }
    }
    Ok(span)
}

/// The first place where the rows' nodes differ from the span.
pub fn first_stranger(span: &[Node], rows: &[FlowRow]) -> Option<u32>
    requires few { length rows.now < 2 ^ 32 }
    ensures { MatchOption result (map node_of rows.now ≡ span.now)
        (λ place. IsFirstDifference (map node_of rows.now) span.now place) }
{
    let shorter = span.len().min(rows.len());
    for place in 0..shorter {
        if rows[place].node != span[place] {
            return Some(place as u32);
        }
    }
    if span.len() == rows.len() {
        None
    } else {
        Some(shorter as u32)
    }
}
