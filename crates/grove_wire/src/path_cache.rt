ghost use Rattle.std.specs.Prelude.{◌≡◌, ◌<◌, ◌∷◌, [], ◌++◌, IfOk, OnOk, length};
ghost use Rattle.json.specs.Token.{string};
ghost use Rattle.grove_tree.specs.Paths.{path_of};

use grove_tree::{NoMemory, Node, Tree};
use json::Writer;
use std::alloc::Global;
use std::marker::Model;

/// The paths of a tree's nodes, each made when it is first written.
#[derive(Drop)]
pub struct PathCache<'a> {
    tree: &'a Tree,
    /// By node number.
    made: Vec<Option<String>>,
}

impl<'a> Model for PathCache<'a> {
    ghost use Rattle.grove_tree.specs.Trees.{Rows};
    ghost use Rattle.grove_wire.specs.CachedPaths.{AreMade};

    ghost Value = { Rows };

    ghost view = { λ paths. paths.tree.now };

    ghost invariant = { λ paths. AreMade paths.tree.now paths.made.items };
}

impl<'a> PathCache<'a> {
    pub fn new(alloc: Global, tree: &'a Tree) -> Result<PathCache<'a>, NoMemory>
        ensures { IfOk result (λ paths. paths ≡ tree.now) }
    {
        let mut made = Vec::with_capacity(alloc, tree.len() as usize)?;
        for _ in 0..tree.len() {
            made.push(None)?;
        }
        Ok(PathCache { tree, made })
    }

    /// Writes the node's path.
    pub(crate) fn write(
        &mut self,
        alloc: Global,
        writer: &mut Writer,
        node: Node,
    ) -> Result<(), NoMemory>
        requires { node < length self.old }
        ensures tokens { OnOk result
            (writer.new.tokens ≡ writer.old.tokens ++ string (path_of self.old node) ∷ []) }
        ensures before { writer.new.before ≡ writer.old.before }
        ensures tree { self.new ≡ self.old }
    {
        let place = node.number() as usize;
        if let Some(path) = &self.made[place] {
            writer.string(path)?;
            return Ok(());
        }
        let path = self.tree.path_of(alloc, node)?;
        writer.string(&path)?;
        self.made[place] = Some(path);
        Ok(())
    }
}
