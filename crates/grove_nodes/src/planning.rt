ghost use Rattle.std.specs.Prelude.{IfOk, IfErr};
ghost use Rattle.grove_access.specs.Lists.{AreNodes};
ghost use Rattle.grove_nodes.specs.Lists.{IsListFault};
ghost use Rattle.grove_nodes.specs.Planning.{IsPlannedBy, PlansNodes};

use crate::listing::{listed, place_of, status_of};
use crate::putting::put;
use crate::{Counted, NumberedRow, NumberedStep, Status};
use grove_access::ListFault;
use grove_build::{Planned, plan};
use grove_tree::{NoMemory, Tree};
use std::alloc::Global;

/// Puts the settled plan of accesses of these nodes, each of its length, into the buffers.
#[tactic(auto, using(crate::proofs::FilledBuffers::puts_nodes, crate::proofs::FilledBuffers::refuses_nodes))]
pub fn plan_nodes(
    alloc: Global,
    tree: &Tree,
    nodes: &[u32],
    lengths: &[u32],
    steps: &mut [NumberedStep],
    rows: &mut [NumberedRow],
    counted: &mut Counted,
) -> Status
    ensures { PlansNodes tree.now nodes.now lengths.now
        (record { steps_before = steps.old; steps_after = steps.new; rows_before = rows.old; rows_after = rows.new })
        counted.new result }
{
    match planned(alloc, tree, nodes, lengths) {
        Ok(planned) => put(alloc, &planned, steps, rows, counted),
        Err(fault) => {
            *counted = Counted::refused(place_of(fault));
            status_of(fault)
        }
    }
}

/// The settled plan of these accesses.
pub fn planned(
    alloc: Global,
    tree: &Tree,
    nodes: &[u32],
    lengths: &[u32],
) -> Result<Planned, ListFault>
    ensures planned { IfOk result
        (λ planned. IsPlannedBy tree.now nodes.now lengths.now planned.plan planned.flow planned.cost) }
    ensures fits { IfOk result (λ planned. AreNodes tree.now nodes.now) }
    ensures fault { IfErr result (IsListFault tree.now nodes.now lengths.now) }
{
    let list = listed(alloc, tree, nodes, lengths)?;
    match plan(alloc, tree, &list) {
        Ok(planned) => Ok(planned),
        Err(NoMemory) => Err(ListFault::Memory),
    }
}
