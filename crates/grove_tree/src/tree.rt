ghost use Rattle.std.specs.Prelude.{◌≡◌, ◌≢◌, ℕ, ◌<◌, ◌↔◌, length, IsTrue, IfOk, OnOk, IfErr, IsErrOf};
ghost use Rattle.std.specs.Prelude.{IfSome, Some, None, string_bytes};
ghost use Rattle.grove_tree.specs.Trees.{IsTree, IsAbove, parent_of, weight_of, depth_of};
ghost use Rattle.grove_tree.specs.Paths.{path_of, node_at, names_within};
ghost use Rattle.grove_tree.specs.Rules.{tree_fault_of, IsWithinLimits, AreTreeRows};
ghost use Rattle.grove_tree.specs.BuiltRows.{rows_of};

use crate::copying::copy_of_rows;
use crate::depth::depths_of;
use crate::finding::child_on;
use crate::guesses::Guesses;
use crate::rules::{fault_of, is_on_way, parent_of_row};
use crate::{NoMemory, Node, Row, TreeFault};
use std::alloc::Global;
use std::marker::Model;

mod copies;
mod weights;

/// How many bytes most paths have at most.
const USUAL_PATH: usize = 64;

/// A tree of at most 4,096 nodes, no deeper than 32, numbered in preorder.
#[derive(Debug, Drop)]
pub struct Tree {
    /// The rows that it was built from, with the weights that the nodes have now.
    rows: Vec<Row>,
    /// How many parents are above each node.
    depths: Vec<u32>,
    /// Where to look first for a node by its name.
    guesses: Guesses,
}

impl Model for Tree {
    ghost use Rattle.std.specs.Prelude.{length};
    ghost use Rattle.grove_tree.specs.Trees.{Rows};
    ghost use Rattle.grove_tree.specs.Rules.{AreTreeRows};
    ghost use Rattle.grove_tree.specs.BuiltRows.{rows_of};
    ghost use Rattle.grove_tree.specs.Depths.{AreDepths};

    ghost Value = { Rows };

    ghost view = { λ tree. rows_of tree.rows.items };

    ghost invariant = { λ tree. AreTreeRows (rows_of tree.rows.items)
        × AreDepths (rows_of tree.rows.items) (length tree.rows.items) tree.depths.items };
}

impl Tree {
    /// Builds the tree of the rows, which stand in preorder: each after its parent's, children in the order given.
    /// Where several rules are broken, the fault is that of the first row at fault, and of that row the first in the
    /// order of
    /// `TreeFault`; running out of memory comes last.
    pub fn build(alloc: Global, rows: &[Row]) -> Result<Tree, TreeFault>
        ensures rows { IfOk result (λ tree. tree ≡ rows_of rows.now) }
        ensures faultless { IfOk result (λ tree. tree_fault_of (rows_of rows.now) ≡ None) }
        ensures fault { IfErr result (λ fault. fault ≢ TreeFault.Memory → tree_fault_of (rows_of rows.now)
            ≡ Some fault) }
        ensures refused { IfErr result (λ fault. fault ≢ TreeFault.Memory → ¬ AreTreeRows (rows_of rows.now)) }
        ensures memory { IsErrOf result TreeFault.Memory → tree_fault_of (rows_of rows.now) ≡ None }
    {
        match fault_of(rows) {
            Some(fault) => Err(fault),
            None => {
                let guesses = Guesses::new(alloc, rows)?;
                let depths = depths_of(alloc, rows)?;
                let rows = copy_of_rows(alloc, rows)?;
                Ok(Tree {
                    rows,
                    depths,
                    guesses,
                })
            }
        }
    }

    /// The node with the path, if there is one: a slash, or names joined by slashes with one in front.
    pub fn find(&self, path: &str) -> Option<Node>
        ensures node { result ≡ node_at self.now path.now }
        ensures found { IfSome result (λ node. path_of self.now node ≡ path.now) }
        ensures within { IfSome result (λ node. node < length self.now) }
        ensures only { (node : ℕ) → node < length self.now → path_of self.now node ≡ path.now → result ≡ Some node }
    {
        match path {
            "" => None,
            "/" => self.find_names(b""),
            _ => self.find_names(path.as_bytes()),
        }
    }

    /// The node to which the names lead down from the root, each after a slash. No names lead to the root.
    fn find_names(&self, names: &[u8]) -> Option<Node>
        ensures tree { IsTree self.now }
        ensures limits { IsWithinLimits self.now }
        ensures found { IfSome result (λ node. (node < length self.now)
            × (names_within self.now (length self.now) node ≡ names.now)) }
        ensures only { (node : ℕ) → node < length self.now → names_within self.now (length self.now) node ≡ names.now
            → result ≡ Some node }
    {
        let mut at = 0;
        let mut rest = names;
        while !rest.is_empty() {
            let (child, below) = child_on(&self.rows, &self.guesses, at, rest)?;
            at = child;
            rest = below;
        }
        Some(Node::new(at))
    }

    pub fn parent(&self, node: Node) -> Option<Node>
        requires { node < length self.now }
        ensures { result ≡ parent_of self.now node }
    {
        parent_of_row(&self.rows, node.number()).map(Node::new)
    }

    /// How many parents are above the node.
    pub fn depth(&self, node: Node) -> u32
        requires { node < length self.now }
        ensures { result ≡ depth_of self.now node }
    {
        self.depths[node.number() as usize]
    }

    /// Is `high` the node `low` or one above it?
    pub fn is_above(&self, high: Node, low: Node) -> bool
        requires high { high < length self.now }
        requires low { low < length self.now }
        ensures { IsTrue result ↔ IsAbove self.now high low }
    {
        is_on_way(&self.rows, high.number(), low.number())
    }

    pub fn weight(&self, node: Node) -> u32
        requires { node < length self.now }
        ensures { result ≡ weight_of self.now node }
    {
        let row = &self.rows[node.number() as usize];
        row.weight
    }

    /// The number of nodes. What holds of every tree is told here.
    pub fn len(&self) -> u32
        ensures number { result ≡ length self.now }
        ensures tree { IsTree self.now }
        ensures limits { IsWithinLimits self.now }
    {
        self.rows.len() as u32
    }

    pub fn root(&self) -> Node
        ensures root { result ≡ 0 }
        ensures within { 0 < length self.now }
    {
        let _ = &self.rows;
        Node::new(0)
    }

    /// The path of the node: `/`, or the names from the root down, each after a slash.
    pub fn path_of(&self, alloc: Global, node: Node) -> Result<String, NoMemory>
        requires { node < length self.now }
        ensures path { IfOk result (λ path. string_bytes path ≡ path_of self.now node) }
        ensures found { OnOk result (node_at self.now (path_of self.now node) ≡ Some node) }
    {
        let mut path = self.names_to(alloc, node)?;
        if path.is_empty() {
            path.push_str("/")?;
        }
        Ok(path)
    }

    /// The names from the root down to the node, each after a slash.
    fn names_to(&self, alloc: Global, node: Node) -> Result<String, NoMemory>
        requires { node < length self.now }
        ensures names { IfOk result (λ names. string_bytes names ≡ names_within self.now (length self.now) node) }
        ensures tree { AreTreeRows self.now }
    {
        let row = &self.rows[node.number() as usize];
        let Some(parent) = self.parent(node) else {
            return Ok(String::with_capacity(alloc, USUAL_PATH)?);
        };
        let mut names = self.names_to(alloc, parent)?;
        names.push_str("/")?;
        names.push_str(row.name.as_str())?;
        Ok(names)
    }
}
