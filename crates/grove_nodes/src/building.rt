//! Trees by the parents and the weights of their nodes.
ghost use Rattle.std.specs.Prelude.{◌≡◌, ◌≢◌, length, IfOk, IfErr};
ghost use Rattle.grove_tree.specs.BuiltRows.{row_of, rows_of};
ghost use Rattle.grove_tree.specs.Rules.{AreTreeRows};
ghost use Rattle.grove_tree.specs.Trees.{Rows};
ghost use Rattle.grove_nodes.specs.Building.{row_at, AreNamedByNumber};
ghost use Rattle.grove_nodes.specs.Shapes.{HaveShape};

use grove_tree::{NoMemory, Row, Tree, TreeFault};
use std::alloc::Global;

/// No tree has more nodes.
const MOST_NODES: usize = 4096;

/// The tree of nodes with these parents and weights, in preorder. Nobody looks at the parent that is given for the
/// first one, which is the root. The name of each of the others is its number.
#[tactic(auto, using(crate::proofs::BuiltShapes::too_many, crate::proofs::BuiltShapes::uneven))]
pub fn build_tree(alloc: Global, parents: &[u32], weights: &[u32]) -> Result<Tree, TreeFault>
    ensures shape { IfOk result (HaveShape parents.now weights.now) }
    ensures refused { IfErr result (λ fault. fault ≢ TreeFault.Memory → (rows : Rows)
        → HaveShape parents.now weights.now rows → ¬ AreTreeRows rows) }
{
    if parents.len() > MOST_NODES || weights.len() > MOST_NODES {
        return Err(TreeFault::TooMany);
    }
    if parents.len() < weights.len() {
        return Err(TreeFault::BadParent(parents.len() as u32));
    }
    if weights.len() < parents.len() {
        return Err(TreeFault::BadWeight(weights.len() as u32));
    }
    match rows_from(alloc, parents, weights) {
        Ok(rows) => Tree::build(alloc, &rows),
        Err(NoMemory) => Err(TreeFault::Memory),
    }
}

/// Rows with these parents and weights.
fn rows_from(alloc: Global, parents: &[u32], weights: &[u32]) -> Result<Vec<Row>, NoMemory>
    requires { length parents.now ≡ length weights.now }
    ensures shape { IfOk result (λ rows. HaveShape parents.now weights.now (rows_of rows.items)) }
    ensures names { IfOk result (λ rows. AreNamedByNumber (rows_of rows.items)) }
{
    let mut rows = Vec::with_capacity(alloc, parents.len())?;
    for place in 0..parents.len() {
        rows.push(row_from(alloc, place, parents[place], weights[place])?)?;
    }
    Ok(rows)
}

fn row_from(alloc: Global, place: usize, parent: u32, weight: u32) -> Result<Row, NoMemory>
    ensures { IfOk result (λ row. row_of row ≡ row_at place parent weight) }
{
    if place == 0 {
        return Ok(Row {
            parent: None,
            name: String::new(alloc),
            weight,
        });
    }
    Ok(Row {
        parent: Some(parent),
        name: format!(in alloc; "{place}")?,
        weight,
    })
}
