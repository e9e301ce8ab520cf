ghost use Rattle.std.specs.Prelude.{◌≡◌, ℕ, suc, ◌<◌, ◌≤◌, ◌++◌, ◌∷◌, [], length, IfOk, OnOk, map, Some};
ghost use Rattle.std.specs.Prelude.{option_and_then};
ghost use Rattle.grove_tree.specs.Trees.{parent_of, weight_of};
ghost use Rattle.grove_access.specs.Lists.{nodes_of, lengths_of, AreNodes};
ghost use Rattle.grove_access.specs.Forced.{forced_nodes};
ghost use Rattle.grove_span.specs.SpanRows.{node_of_row, find_place, HaveParents, HaveWeights, HaveAccesses};
ghost use Rattle.grove_span.specs.SpanRows.{IsAccessedSo};
ghost use Rattle.grove_span.specs.Ways.{IsLowestCommon, IsNextOnWay, AreAscending, IsListedTo, IsRising};
ghost use Rattle.grove_span.specs.Ways.{HaveSlots, TellsOf};

use crate::SpanRow;
use crate::visit::{Visits, visits_at, visits_of};
use grove_access::AccessList;
use grove_tree::{NoMemory, Node, Tree};
use std::alloc::Global;

/// A tree is at most 32 deep.
const MOST_ON_A_WAY: usize = 33;

/// The rows of the forced nodes with numbers below the next, ascending, and these numbers.
#[derive(Drop)]
struct Listed {
    rows: Vec<SpanRow>,
    numbers: Vec<u32>,
    next: u32,
}

impl Listed {
    /// Lists the node, which is the target or above it, behind those above it that aren't listed yet.
    #[cycle(listing)]
    fn push_way(
        &mut self,
        tree: &Tree,
        list: &AccessList,
        target: Node,
        node: Node,
    ) -> Result<(), NoMemory>
        requires fits { AreNodes tree.now (nodes_of list.now) }
        requires way { IsNextOnWay tree.now (nodes_of list.now) (lengths_of list.now) self.old.next target node
            self.old.numbers.items self.old.rows.items }
        ensures next { OnOk result (self.new.next ≡ suc node) }
        ensures listed { OnOk result
            (IsListedTo tree.now (nodes_of list.now) (lengths_of list.now) self.new.next self.new.numbers.items
            self.new.rows.items) }
    {
        self.push_above(tree, list, target, node)?;
        // The limits that hold of every tree are told with its length.
        let _nodes = tree.len();
        let place = parent_place(tree.parent(node), &self.numbers);
        let visits = visits_at(list, node, node == target);
        self.push(row_of(tree, list, node, place, visits))?;
        Ok(())
    }

    /// Lists the nodes above a node on the way that aren't listed yet.
    #[cycle(listing)]
    fn push_above(
        &mut self,
        tree: &Tree,
        list: &AccessList,
        target: Node,
        node: Node,
    ) -> Result<(), NoMemory>
        requires fits { AreNodes tree.now (nodes_of list.now) }
        requires way { IsNextOnWay tree.now (nodes_of list.now) (lengths_of list.now) self.old.next target node
            self.old.numbers.items self.old.rows.items }
        ensures way { OnOk result
            (IsNextOnWay tree.now (nodes_of list.now) (lengths_of list.now) self.new.next target node
            self.new.numbers.items self.new.rows.items) }
        ensures parent { OnOk result ((parent : ℕ) → parent_of tree.now node ≡ Some parent → parent < self.new.next) }
    {
        let _nodes = tree.len();
        let Some(parent) = tree.parent(node) else {
            return Ok(());
        };
        if parent.number() < self.next {
            return Ok(());
        }
        self.push_way(tree, list, target, parent)?;
        Ok(())
    }

    /// Lists one more row.
    fn push(&mut self, row: SpanRow) -> Result<(), NoMemory>
        requires { row.node < 4096 }
        ensures rows { OnOk result (self.new.rows.items ≡ self.old.rows.items ++ row ∷ []) }
        ensures numbers { OnOk result (self.new.numbers.items ≡ self.old.numbers.items ++ row.node ∷ []) }
        ensures next { OnOk result (self.new.next ≡ suc row.node) }
    {
        let number = row.node.number();
        self.numbers.push(number)?;
        self.next = number + 1;
        self.rows.push(row)?;
        Ok(())
    }
}

/// The place of the parent among ascending numbers.
fn parent_place(parent: Option<Node>, numbers: &[u32]) -> Option<u32>
    requires few { length numbers.now ≤ 4096 }
    requires rising { IsRising numbers.now }
    ensures { result ≡ option_and_then (λ parent. find_place parent numbers.now) parent }
{
    match parent {
        Some(parent) => place_of(parent.number(), numbers),
        None => None,
    }
}

/// The place of the number among ascending ones. Mostly it is the last.
fn place_of(number: u32, numbers: &[u32]) -> Option<u32>
    requires few { length numbers.now ≤ 4096 }
    requires rising { IsRising numbers.now }
    ensures { result ≡ find_place number numbers.now }
{
    let count = numbers.len();
    if count > 0 && numbers[count - 1] == number {
        return Some(count as u32 - 1);
    }
    match numbers.binary_search(&number) {
        Ok(place) => Some(place as u32),
        Err(_) => None,
    }
}

/// The row of a node with these visits.
fn row_of(
    tree: &Tree,
    list: &AccessList,
    node: Node,
    parent: Option<u32>,
    visits: Visits,
) -> SpanRow
    requires within { node < length tree.now }
    requires tells { TellsOf (nodes_of list.now) (length (nodes_of list.now)) node visits }
    requires slots { HaveSlots (lengths_of list.now) visits }
    ensures node { result.node ≡ node }
    ensures parent { result.parent ≡ parent }
    ensures weight { result.weight ≡ weight_of tree.now node }
    ensures accesses { IsAccessedSo (nodes_of list.now) (lengths_of list.now) result }
{
    let Visits {
        first,
        last,
        from,
        until,
    } = visits;
    SpanRow {
        node,
        parent,
        weight: tree.weight(node),
        first,
        last,
        from,
        until,
    }
}

/// The rows of the forced nodes: those on the ways down from the top to the targets.
pub fn forced_rows(
    alloc: Global,
    tree: &Tree,
    list: &AccessList,
    top: Node,
    targets: &[u32],
) -> Result<Vec<SpanRow>, NoMemory>
    requires fits { AreNodes tree.now (nodes_of list.now) }
    requires top { IsLowestCommon tree.now (nodes_of list.now) top }
    requires within { top < length tree.now }
    requires targets { AreAscending (nodes_of list.now) targets.now }
    ensures nodes { IfOk result (λ rows. map node_of_row rows.items ≡ forced_nodes tree.now (nodes_of list.now)) }
    ensures parents { IfOk result (λ rows. HaveParents tree.now (nodes_of list.now) rows.items) }
    ensures weights { IfOk result (λ rows. HaveWeights tree.now rows.items) }
    ensures accesses { IfOk result (λ rows. HaveAccesses (nodes_of list.now) (lengths_of list.now) rows.items) }
{
    // That the rows are a tree's is told with their number.
    let nodes = tree.len();
    let most = targets
        .len()
        .saturating_mul(MOST_ON_A_WAY)
        .min(nodes as usize);
    let rows = Vec::with_capacity(alloc, most)?;
    let numbers = Vec::with_capacity(alloc, most)?;
    let mut listed = Listed {
        rows,
        numbers,
        next: top.number(),
    };
    for target in targets {
        if *target >= listed.next {
            let target = Node::new(*target);
            listed.push_way(tree, list, target, target)?;
        }
    }
    Ok(listed.rows)
}
