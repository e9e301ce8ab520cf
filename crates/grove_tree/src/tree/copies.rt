ghost use Rattle.std.specs.Prelude.{◌≡◌, ◌↔◌, IsTrue, IfOk};
ghost use Rattle.grove_tree.specs.Weights.{unweighed};

use crate::copying::copy_of_rows;
use crate::likeness::have_same_names;
use crate::{NoMemory, Tree};
use std::alloc::Global;

impl Tree {
    pub fn copy(&self, alloc: Global) -> Result<Tree, NoMemory>
        ensures { IfOk result (λ copy. copy ≡ self.now) }
    {
        let rows = copy_of_rows(alloc, &self.rows)?;
        let depths = Vec::from_slice(alloc, &self.depths)?;
        let guesses = self.guesses.copy(alloc)?;
        Ok(Tree {
            rows,
            depths,
            guesses,
        })
    }

    /// Are the rows of both trees equal save for their weights?
    pub fn same_names(&self, other: &Tree) -> bool
        ensures { IsTrue result ↔ (unweighed self.now ≡ unweighed other.now) }
    {
        have_same_names(&self.rows, &other.rows)
    }
}
