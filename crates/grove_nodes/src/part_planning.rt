ghost use Rattle.std.specs.Prelude.{◌≡◌, IfOk, IfErr};
ghost use Rattle.grove_cut.specs.CutTrees.{plan_at_origin, flow_at_origin};
ghost use Rattle.grove_nodes.specs.Parts.{HaveShapeOf, IsPlannedWhole, PlansPart};
ghost use Rattle.grove_nodes.specs.PartPlans.{list_fault, tree_fault, number_in, IsNoPart, IsNoTree};

use crate::building::build_tree;
use crate::listing::place_of;
use crate::part::{parents_of, rows_numbered, steps_numbered, weights_of};
use crate::planning::planned;
use crate::putting::put;
use crate::{Counted, NumberedRow, NumberedStep, PartNode, Status};
use grove_access::ListFault;
use grove_build::Planned;
use grove_plan::Plan;
use grove_proof::Flow;
use grove_tree::{NoMemory, Tree, TreeFault};
use std::alloc::Global;

/// Why there is no plan over a part.
#[derive(Debug, Drop)]
pub enum PartFault {
    /// The part is no tree, or the accesses are no list over it, for the node or the access at this place.
    Refused(u32),
    /// A growth was refused.
    Memory,
}

/// Puts the settled plan, over the whole tree, of accesses of these places of the part, each of its length.
#[tactic(auto, using(crate::proofs::FilledBuffers::puts_part, crate::proofs::FilledBuffers::refuses_part))]
pub fn plan_part(
    alloc: Global,
    part: &[PartNode],
    nodes: &[u32],
    lengths: &[u32],
    steps: &mut [NumberedStep],
    rows: &mut [NumberedRow],
    counted: &mut Counted,
) -> Status
    ensures { PlansPart part.now nodes.now lengths.now
        (record { steps_before = steps.old; steps_after = steps.new; rows_before = rows.old; rows_after = rows.new })
        counted.new result }
{
    match planned_whole(alloc, part, nodes, lengths) {
        Ok(planned) => put(alloc, &planned, steps, rows, counted),
        Err(PartFault::Refused(place)) => {
            *counted = Counted::refused(place);
            Status::Refused
        }
        Err(PartFault::Memory) => {
            *counted = Counted::refused(0);
            Status::Memory
        }
    }
}

/// The settled plan with the numbers that the nodes have in the whole tree.
#[tactic(auto, using(crate::proofs::Parts::list_refused))]
fn planned_whole(
    alloc: Global,
    part: &[PartNode],
    nodes: &[u32],
    lengths: &[u32],
) -> Result<Planned, PartFault>
    ensures planned { IfOk result
        (λ planned. IsPlannedWhole part.now nodes.now lengths.now planned.plan planned.flow planned.cost) }
    ensures fault { IfErr result (IsNoPart part.now nodes.now lengths.now) }
{
    let tree = tree_of(alloc, part)?;
    match planned(alloc, &tree, nodes, lengths) {
        Ok(planned) => numbered(alloc, part, &planned),
        Err(fault) => Err(PartFault::of_list(fault)),
    }
}

/// The part as a tree of its own.
#[tactic(auto, using(crate::proofs::Parts::tree_refused))]
fn tree_of(alloc: Global, part: &[PartNode]) -> Result<Tree, PartFault>
    ensures shape { IfOk result (HaveShapeOf part.now) }
    ensures refused { IfErr result (IsNoTree part.now) }
{
    let Ok(parents) = parents_of(alloc, part) else {
        return Err(PartFault::Memory);
    };
    let Ok(weights) = weights_of(alloc, part) else {
        return Err(PartFault::Memory);
    };
    match build_tree(alloc, &parents, &weights) {
        Ok(tree) => Ok(tree),
        Err(fault) => Err(PartFault::of_tree(fault)),
    }
}

/// The same plan and flow with other numbers.
fn numbered(alloc: Global, part: &[PartNode], planned: &Planned) -> Result<Planned, PartFault>
    ensures plan { IfOk result (λ whole. whole.plan ≡ plan_at_origin (number_in part.now) planned.now.plan) }
    ensures flow { IfOk result (λ whole. whole.flow ≡ flow_at_origin (number_in part.now) planned.now.flow) }
    ensures cost { IfOk result (λ whole. whole.cost ≡ planned.now.cost) }
    ensures memory { IfErr result (λ fault. fault ≡ PartFault.Memory) }
{
    let Ok(steps) = steps_numbered(alloc, part, planned.plan.steps()) else {
        return Err(PartFault::Memory);
    };
    let Ok(rows) = rows_numbered(alloc, part, planned.flow.rows()) else {
        return Err(PartFault::Memory);
    };
    Ok(Planned {
        plan: Plan::new(steps),
        cost: planned.cost,
        flow: Flow::new(rows),
    })
}

impl PartFault {
    fn of_list(fault: ListFault) -> PartFault
        ensures { result ≡ list_fault fault }
    {
        match fault {
            ListFault::Memory => PartFault::Memory,
            other => PartFault::Refused(place_of(other)),
        }
    }

    /// A part of too many nodes is refused for the first one too many.
    fn of_tree(fault: TreeFault) -> PartFault
        ensures { result ≡ tree_fault fault }
    {
        match fault {
            TreeFault::Empty => PartFault::Refused(0),
            TreeFault::TooMany => PartFault::Refused(4096),
            TreeFault::BadParent(row)
            | TreeFault::TooDeep(row)
            | TreeFault::BadName(row)
            | TreeFault::TwiceNamed(row)
            | TreeFault::BadWeight(row) => PartFault::Refused(row),
            TreeFault::Memory => PartFault::Memory,
        }
    }
}
