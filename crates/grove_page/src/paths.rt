ghost use Rattle.std.specs.Prelude.{◌≡◌, ◌↔◌, ◌<◌, length, map, IfOk, IsTrue};
ghost use Rattle.grove_tree.specs.Weights.{unweighed};
ghost use Rattle.grove_page.specs.NodeTexts.{entry_start, AreStarts};

use grove_tree::{NoMemory, Node, Tree};
use json::Writer;
use std::alloc::Global;
use std::marker::Model;

/// The paths of a tree's nodes as what is told of nodes has them: made once, for many looks at trees with those names.
#[derive(Drop)]
pub struct Paths {
    tree: Tree,
    /// What each node's entry begins with.
    starts: Vec<Vec<u8>>,
}

impl Model for Paths {
    ghost use Rattle.std.specs.Prelude.{length, map};
    ghost use Rattle.grove_tree.specs.Trees.{Rows};
    ghost use Rattle.grove_page.specs.NodeTexts.{AreStarts};

    ghost Value = { Rows };

    ghost view = { λ paths. paths.tree };

    ghost invariant = { λ paths. AreStarts paths.tree (length paths.tree)
        (map (λ start. start.items) paths.starts.items) };
}

impl Paths {
    /// Those of the tree.
    pub fn new(alloc: Global, tree: Tree) -> Result<Paths, NoMemory>
        ensures { IfOk result (λ paths. paths ≡ tree) }
    {
        let starts = starts_of(alloc, &tree)?;
        Ok(Paths { tree, starts })
    }

    pub fn tree(&self) -> &Tree
        ensures { result.now ≡ self.now }
    {
        &self.tree
    }

    /// Have the tree's nodes these paths?
    pub(crate) fn are_of(&self, tree: &Tree) -> bool
        ensures { IsTrue result ↔ (unweighed self.now ≡ unweighed tree.now) }
    {
        self.tree.same_names(tree)
    }

    /// What the node's entry begins with.
    pub(crate) fn start(&self, node: Node) -> &[u8]
        requires { node < length self.now }
        ensures { result.now ≡ entry_start self.now node }
    {
        self.starts[node.number() as usize].as_slice()
    }
}

/// About how many bytes stand around a path.
const AROUND: usize = 24;

/// What each node's entry begins with.
fn starts_of(alloc: Global, tree: &Tree) -> Result<Vec<Vec<u8>>, NoMemory>
    ensures { IfOk result (λ starts. AreStarts tree.now (length tree.now) (map (λ start. start.items) starts.items)) }
{
    let mut starts = Vec::with_capacity(alloc, tree.len() as usize)?;
    for number in 0..tree.len() {
        let start = start_of(alloc, tree, Node::new(number))?;
        starts.push(start)?;
    }
    Ok(starts)
}

/// What the node's entry begins with, up to its record.
pub(crate) fn start_of(alloc: Global, tree: &Tree, node: Node) -> Result<Vec<u8>, NoMemory>
    requires { node < length tree.now }
    ensures { IfOk result (λ start. start.items ≡ entry_start tree.now node) }
{
    let path = tree.path_of(alloc, node)?;
    let mut front = Vec::with_capacity(alloc, path.len() + AROUND)?;
    front.extend_from_slice(b"{\"path\":")?;
    let mut writer = Writer::new(front);
    writer.string(&path)?;
    let mut start = writer.into_inner();
    start.extend_from_slice(b",\"record\":")?;
    Ok(start)
}
