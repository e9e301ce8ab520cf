ghost use Rattle.std.specs.Prelude.{◌≡◌, ◌<◌, ◌⊎◌, ℕ, true, length, IfSome};
ghost use Rattle.grove_tree.specs.Trees.{weight_of, IsAbove};
ghost use Rattle.grove_access.specs.Effects.{record_at};
ghost use Rattle.grove_table.specs.Confirming.{HasNode};
ghost use Rattle.grove_table.specs.Tables.{IsAdded, IsOfLine, IsTreeOf};

use crate::Line;
use crate::tree_making::{Absent, Origin};
use grove_access::Records;
use grove_tree::{Node, Tree};

/// Are the tree and its records those of the lines? For each node, `origins` says what it comes from.
pub fn is_tree_of(
    tree: &Tree,
    records: &Records,
    lines: &[Line],
    origins: &[Origin],
    absent: Absent,
) -> bool
    ensures { result ≡ true → IsTreeOf absent lines.now tree.now records.now }
{
    records.fits(tree)
        && have_nodes(tree, records, lines)
        && have_lines(tree, records, lines, origins, absent)
}

/// Has each line its node?
fn have_nodes(tree: &Tree, records: &Records, lines: &[Line]) -> bool
    requires fits { length records.now ≡ length tree.now }
    ensures { result ≡ true → (place : ℕ) → place < length lines.now → HasNode tree.now records.now lines.now place }
{
    for place in 0..lines.len() {
        if !has_node(tree, records, lines, place) {
            return false;
        }
    }
    true
}

/// Has the line its node?
fn has_node(tree: &Tree, records: &Records, lines: &[Line], place: usize) -> bool
    requires fits { length records.now ≡ length tree.now }
    ensures { result ≡ true → HasNode tree.now records.now lines.now place }
{
    node_of(tree, records, lines, place).is_some()
}

/// Are the node's weight and value those of the line?
fn is_as_said(tree: &Tree, records: &Records, line: &Line, node: Node) -> bool
    requires node { node < length tree.now }
    requires record { node < length records.now }
    ensures weight { result ≡ true → weight_of tree.now node ≡ line.now.weight }
    ensures value { result ≡ true → record_at records.now node ≡ line.now.value }
{
    tree.weight(node) == line.weight && records.get(node) == line.value
}

/// Does each node come from the lines?
fn have_lines(
    tree: &Tree,
    records: &Records,
    lines: &[Line],
    origins: &[Origin],
    absent: Absent,
) -> bool
    requires fits { length records.now ≡ length tree.now }
    ensures { result ≡ true → (node : ℕ) → node < length tree.now
        → IsOfLine tree.now records.now lines.now node ⊎ IsAdded absent tree.now records.now lines.now node }
{
    for number in 0..tree.len() {
        let Some(origin) = origins.get(number as usize) else {
            return false;
        };
        if !comes_from(tree, records, lines, Node::new(number), *origin, absent) {
            return false;
        }
    }
    true
}

/// Does a node come from the lines as it is said?
fn comes_from(
    tree: &Tree,
    records: &Records,
    lines: &[Line],
    node: Node,
    origin: Origin,
    absent: Absent,
) -> bool
    requires fits { length records.now ≡ length tree.now }
    requires node { node < length tree.now }
    ensures { result ≡ true → IsOfLine tree.now records.now lines.now node
        ⊎ IsAdded absent tree.now records.now lines.now node }
{
    match origin {
        Origin::Line(place) => is_of_line(tree, records, lines, node, place),
        Origin::Above(place) => {
            absent == Absent::Added
                && tree.weight(node) == 1
                && records.get(node) == 0
                && is_above_line(tree, records, lines, node, place)
        }
    }
}

/// Is a node that of a line?
fn is_of_line(tree: &Tree, records: &Records, lines: &[Line], node: Node, place: usize) -> bool
    requires fits { length records.now ≡ length tree.now }
    ensures { result ≡ true → IsOfLine tree.now records.now lines.now node }
{
    match node_of(tree, records, lines, place) {
        Some(found) => found.number() == node.number(),
        None => false,
    }
}

/// The node of a line, if it has the line's weight and value.
#[tactic(auto, using(crate::proofs::Lines::node_found, crate::proofs::Lines::node_had))]
fn node_of(tree: &Tree, records: &Records, lines: &[Line], place: usize) -> Option<Node>
    requires fits { length records.now ≡ length tree.now }
    ensures line { IfSome result (IsOfLine tree.now records.now lines.now) }
    ensures has { IfSome result (λ _. HasNode tree.now records.now lines.now place) }
{
    let line = lines.get(place)?;
    let node = tree.find(&line.path)?;
    if is_as_said(tree, records, line, node) {
        Some(node)
    } else {
        None
    }
}

/// Is a node above that of a line?
fn is_above_line(tree: &Tree, records: &Records, lines: &[Line], node: Node, place: usize) -> bool
    requires fits { length records.now ≡ length tree.now }
    requires node { node < length tree.now }
    ensures { result ≡ true → (low : ℕ) × IsOfLine tree.now records.now lines.now low × IsAbove tree.now node low }
{
    match node_of(tree, records, lines, place) {
        Some(low) => tree.is_above(node, low),
        None => false,
    }
}
