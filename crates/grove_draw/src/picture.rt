ghost use Rattle.std.specs.Prelude.{◌≡◌, ◌≢◌, length, IfOk, OnOk, IfErr, Some};
ghost use Rattle.grove_access.specs.Lists.{nodes_of, lengths_of, AreNodes};
ghost use Rattle.grove_plan.specs.Plans.{IsLegal, cost as plan_cost};
ghost use Rattle.grove_plan.specs.Faults.{plan_fault_of};
ghost use Rattle.grove_draw.specs.Pictures.{IsPictureOf};
ghost use Rattle.grove_draw.specs.Bars.{AreBarsBelow};

use crate::Bar;
use crate::bar::bar_of;
use grove_access::{Access, AccessList};
use grove_base::NoMemory;
use grove_plan::{Plan, PlanFault, judge};
use grove_tree::{Node, Tree};
use std::alloc::{AllocError, Global};

/// What is drawn of a plan: the nodes that it locks, in the tree's order, over the accesses of its list.
#[derive(Debug, Drop)]
pub struct Picture {
    pub bars: Vec<Bar>,
    pub accesses: Vec<Access>,
    /// What the plan costs: what the bars cost, added up.
    pub cost: u64,
}

/// The picture of a plan that is judged legal; else the fault that the judge finds.
pub fn picture_of(
    alloc: Global,
    tree: &Tree,
    list: &AccessList,
    plan: &Plan,
) -> Result<Picture, PlanFault>
    requires fits { AreNodes tree.now (nodes_of list.now) }
    ensures picture { IfOk result (IsPictureOf tree.now list.now plan.now) }
    ensures legal { OnOk result (IsLegal tree.now (nodes_of list.now) plan.now) }
    ensures fault { IfErr result (λ fault. fault ≢ PlanFault.Memory
        → plan_fault_of tree.now (nodes_of list.now) plan.now ≡ Some fault) }
{
    let cost = judge(alloc, tree, list, plan)?;
    match legal_picture(alloc, tree, list, plan, cost) {
        Ok(picture) => Ok(picture),
        Err(NoMemory) => Err(PlanFault::Memory),
    }
}

/// The picture of a legal plan of this cost.
pub fn legal_picture(
    alloc: Global,
    tree: &Tree,
    list: &AccessList,
    plan: &Plan,
    cost: u64,
) -> Result<Picture, NoMemory>
    requires legal { IsLegal tree.now (nodes_of list.now) plan.now }
    requires cost { cost ≡ plan_cost tree.now (lengths_of list.now) plan.now }
    ensures picture { IfOk result (IsPictureOf tree.now list.now plan.now) }
{
    let bars = bars_of(alloc, tree, list, plan)?;
    let accesses = accesses_of(alloc, list)?;
    Ok(Picture {
        bars,
        accesses,
        cost,
    })
}

/// The bars of the nodes that the plan locks.
fn bars_of(alloc: Global, tree: &Tree, list: &AccessList, plan: &Plan) -> Result<Vec<Bar>, NoMemory>
    requires { IsLegal tree.now (nodes_of list.now) plan.now }
    ensures { IfOk result (λ bars. AreBarsBelow tree.now (lengths_of list.now) plan.now (length tree.now) bars.items) }
{
    let mut bars = Vec::new(alloc);
    for number in 0..tree.len() {
        if let Some(bar) = bar_of(alloc, tree, list, plan, Node::new(number))? {
            bars.push(bar)?;
        }
    }
    Ok(bars)
}

fn accesses_of(alloc: Global, list: &AccessList) -> Result<Vec<Access>, AllocError>
    ensures { IfOk result (λ accesses. accesses.items ≡ list.now) }
{
    let mut accesses = Vec::new(alloc);
    for number in 0..list.len() {
        accesses.push(list.get(number))?;
    }
    Ok(accesses)
}
