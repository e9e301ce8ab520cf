ghost use Rattle.std.specs.Prelude.{◌≡◌, ◌<◌, IfOk, IfSome, Some};
ghost use Rattle.grove_tree.specs.Paths.{node_at};
ghost use Rattle.grove_wire.specs.Reading.{node_on};

use crate::paths::node_on;
use crate::{Place, WireFault};
use grove_tree::{Node, Tree};
use std::alloc::{AllocError, Global};
use std::marker::Model;

/// How many bytes at the end of a path its mark is made of.
const MARKED: usize = 4;

/// A path that was looked up, and its node's number.
#[derive(Clone, Copy, Drop)]
pub(crate) struct Found<'v> {
    path: &'v str,
    number: u32,
}

/// The nodes of paths. A path that was looked up not long before is known, and not looked up again.
#[derive(Drop)]
pub struct Finder<'t, 'v> {
    tree: &'t Tree,
    /// By the mark of its path, what was looked up last.
    found: Vec<Option<Found<'v>>>,
}

impl<'t, 'v> Model for Finder<'t, 'v> {
    ghost use Rattle.grove_tree.specs.Trees.{Rows};
    ghost use Rattle.grove_wire.specs.FoundPaths.{AreFound};

    ghost Value = { Rows };

    ghost view = { λ finder. finder.tree.now };

    ghost invariant = { λ finder. AreFound finder.tree.now finder.found.items };
}

impl<'t, 'v> Finder<'t, 'v> {
    /// One that knows about so many paths at once.
    #[tactic(auto, using(grove_base::proofs::Lists::replicate_got))]
    pub fn new(alloc: Global, tree: &'t Tree, room: usize) -> Result<Finder<'t, 'v>, AllocError>
        ensures { IfOk result (λ finder. finder ≡ tree.now) }
    {
        let found = vec![in alloc; None; room]?;
        Ok(Finder { tree, found })
    }

    /// The tree whose nodes it finds.
    pub fn tree(&self) -> &'t Tree
        ensures { result.now ≡ self.now }
    {
        self.tree
    }

    /// The node with a path, or `NoPath` at the place.
    pub(crate) fn node_on(&mut self, place: Place, path: &'v str) -> Result<Node, WireFault>
        ensures node { result ≡ node_on self.old place path.now }
        ensures tree { self.new ≡ self.old }
    {
        let slot = mark_of(path.as_bytes()) as usize % self.found.len().max(1);
        if let Some(node) = self.known(slot, path) {
            return Ok(node);
        }
        let node = node_on(self.tree, place, path)?;
        if slot < self.found.len() {
            let number = node.number();
            self.found[slot] = Some(Found { path, number });
        }
        Ok(node)
    }

    fn known(&self, slot: usize, path: &str) -> Option<Node>
        ensures { IfSome result (λ node. node_at self.now path.now ≡ Some node) }
    {
        match self.found.get(slot)? {
            Some(found) if found.path == path => Some(Node::new(found.number)),
            _ => None,
        }
    }
}

/// A mark of a path's end, where paths differ most.
fn mark_of(path: &[u8]) -> u32 {
    let mut mark = 0u32;
    for byte in path.iter().rev().take(MARKED) {
        mark = mark.wrapping_mul(31).wrapping_add(u32::from(*byte));
    }
    mark
}
