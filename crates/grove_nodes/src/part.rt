//! A part of a tree that its caller keeps.
ghost use Rattle.std.specs.Prelude.{◌≡◌, length, map, IfOk};
ghost use Rattle.grove_cut.specs.CutTrees.{step_at_origin, plan_at_origin, flow_at_origin};
ghost use Rattle.grove_nodes.specs.PartPlans.{number_in};

use grove_plan::Step;
use grove_proof::FlowRow;
use grove_tree::{NoMemory, Node};
use std::alloc::Global;

/// A node of a part of a tree.
#[repr(C)]
#[derive(Clone, Copy)]
pub struct PartNode {
    /// Its number in the whole tree.
    pub number: u32,
    /// The place of its parent in the part; nobody looks at the first node's.
    pub parent: u32,
    pub weight: u32,
}

pub fn parents_of(alloc: Global, part: &[PartNode]) -> Result<Vec<u32>, NoMemory>
    ensures { IfOk result (λ parents. parents.items ≡ map (λ node. node.parent) part.now) }
{
    let mut parents = Vec::with_capacity(alloc, part.len())?;
    for node in part {
        parents.push(node.parent)?;
    }
    Ok(parents)
}

pub fn weights_of(alloc: Global, part: &[PartNode]) -> Result<Vec<u32>, NoMemory>
    ensures { IfOk result (λ weights. weights.items ≡ map (λ node. node.weight) part.now) }
{
    let mut weights = Vec::with_capacity(alloc, part.len())?;
    for node in part {
        weights.push(node.weight)?;
    }
    Ok(weights)
}

/// The number in the whole tree of the node at a place; a place beyond the part has its own.
fn numbered(part: &[PartNode], place: Node) -> Node
    ensures { result ≡ number_in part.now place }
{
    match part.get(place.number() as usize) {
        Some(node) => Node::new(node.number),
        None => place,
    }
}

fn step_numbered(part: &[PartNode], step: Step) -> Step
    ensures { result ≡ step_at_origin (number_in part.now) step }
{
    match step {
        Step::Lock(place) => Step::Lock(numbered(part, place)),
        Step::Unlock(place) => Step::Unlock(numbered(part, place)),
        Step::Access(number) => Step::Access(number),
    }
}

/// The steps with the numbers of their nodes in the whole tree.
pub fn steps_numbered(
    alloc: Global,
    part: &[PartNode],
    steps: &[Step],
) -> Result<Vec<Step>, NoMemory>
    ensures all { IfOk result (λ all. all.items ≡ plan_at_origin (number_in part.now) steps.now) }
    ensures many { IfOk result (λ all. length all.items ≡ length steps.now) }
{
    let mut all = Vec::with_capacity(alloc, steps.len())?;
    for step in steps {
        all.push(step_numbered(part, *step))?;
    }
    Ok(all)
}

/// The rows with the numbers of their nodes in the whole tree.
pub fn rows_numbered(
    alloc: Global,
    part: &[PartNode],
    rows: &[FlowRow],
) -> Result<Vec<FlowRow>, NoMemory>
    ensures all { IfOk result (λ all. all.items ≡ flow_at_origin (number_in part.now) rows.now) }
    ensures many { IfOk result (λ all. length all.items ≡ length rows.now) }
{
    let mut all = Vec::with_capacity(alloc, rows.len())?;
    for row in rows {
        all.push(FlowRow {
            node: numbered(part, row.node),
            ..*row
        })?;
    }
    Ok(all)
}
