ghost use Rattle.std.specs.Prelude.{◌≡◌, length, IfOk};
ghost use Rattle.grove_access.specs.Lists.{nodes_of, lengths_of, AreNodes};
ghost use Rattle.grove_plan.specs.Plans.{IsLeast, cost};
ghost use Rattle.grove_proof.specs.Flows.{IsCertificate};
ghost use Rattle.grove_span.specs.SpanRows.{HaveWeights};
ghost use Rattle.grove_build.specs.Batches.{IsPlanned};
ghost use Rattle.grove_build.specs.Settled.{IsSettled};
ghost use Rattle.grove_build.specs.Networks.{IsSpan, IsSolved, AreSlots, weights_of};

use crate::flow_rows::flow_rows;
use crate::network::weights_of;
use crate::places::slots_of;
use crate::solving::{Solved, solve_rows};
use crate::stays::{cost_of, needed_of, stays_of};
use crate::steps::lay_out;
use grove_access::AccessList;
use grove_plan::Plan;
use grove_proof::Flow;
use grove_span::{SpanRow, span};
use grove_tree::{NoMemory, Tree};
use std::alloc::Global;

/// What the planner answers for a list.
#[derive(Debug, Drop)]
pub struct Planned {
    pub plan: Plan,
    /// What the plan costs, in weight times slots.
    pub cost: u64,
    /// The certificate of the cost.
    pub flow: Flow,
}

impl Planned {
    pub(crate) fn copy(&self, alloc: Global) -> Result<Planned, NoMemory>
        ensures { IfOk result (λ copy. copy ≡ self.now) }
    {
        let plan = copy_of(alloc, &self.plan)?;
        let rows = Vec::from_slice(alloc, self.flow.rows())?;
        Ok(Planned {
            plan,
            cost: self.cost,
            flow: Flow::new(rows),
        })
    }
}

pub fn copy_of(alloc: Global, plan: &Plan) -> Result<Plan, NoMemory>
    ensures { IfOk result (λ copy. copy ≡ plan.now) }
{
    let steps = Vec::from_slice(alloc, plan.steps())?;
    Ok(Plan::new(steps))
}

/// The settled plan of the list. The only error is running out of memory.
pub fn plan(alloc: Global, tree: &Tree, list: &AccessList) -> Result<Planned, NoMemory>
    requires fits { AreNodes tree.now (nodes_of list.now) }
    ensures settled { IfOk result
        (λ planned. IsSettled tree.now (nodes_of list.now) (lengths_of list.now) planned.plan) }
    ensures least { IfOk result (λ planned. IsLeast tree.now (nodes_of list.now) (lengths_of list.now) planned.plan) }
    ensures cost { IfOk result (λ planned. planned.cost ≡ cost tree.now (lengths_of list.now) planned.plan) }
    ensures certificate { IfOk result
        (λ planned. IsCertificate tree.now (nodes_of list.now) (lengths_of list.now) planned.flow
        (cost tree.now (lengths_of list.now) planned.plan)) }
{
    // That the rows are a tree's is told with their number, and that the lengths are lengths with theirs.
    let _nodes = tree.len();
    let _accesses = list.len();
    let rows = span(alloc, tree, list)?;
    plan_rows(alloc, tree, list, &rows)
}

/// The settled plan from the rows of the list.
fn plan_rows(
    alloc: Global,
    tree: &Tree,
    list: &AccessList,
    rows: &[SpanRow],
) -> Result<Planned, NoMemory>
    requires span { IsSpan tree.now (nodes_of list.now) (lengths_of list.now) rows.now }
    requires weights { HaveWeights tree.now rows.now }
    ensures { IfOk result (IsPlanned tree.now list.now) }
{
    let weights = weights_of(alloc, rows)?;
    let slots = slots_of(alloc, list)?;
    let solved = solve_rows(alloc, tree, list, rows, &weights, &slots)?;
    settle(alloc, tree, list, rows, &weights, &slots, &solved)
}

/// The settled plan from the solved network.
fn settle(
    alloc: Global,
    tree: &Tree,
    list: &AccessList,
    rows: &[SpanRow],
    weights: &[u32],
    slots: &[u32],
    solved: &Solved,
) -> Result<Planned, NoMemory>
    requires span { IsSpan tree.now (nodes_of list.now) (lengths_of list.now) rows.now }
    requires weights { weights.now ≡ weights_of tree.now rows.now }
    requires slots { AreSlots (lengths_of list.now) (length (nodes_of list.now)) slots.now }
    requires solved { IsSolved tree.now (lengths_of list.now) (length (nodes_of list.now)) rows.now
        solved.now.amounts.items solved.now.gaps.items }
    ensures { IfOk result (IsPlanned tree.now list.now) }
{
    // The limits that hold of every tree and every list are told with their lengths.
    let _nodes = tree.len();
    let accesses = list.len();
    let needed = needed_of(alloc, rows, &solved.gaps)?;
    let stays = stays_of(alloc, rows, &solved.gaps, &needed)?;
    let steps = lay_out(alloc, &stays, accesses)?;
    let flow = flow_rows(alloc, rows, &solved.amounts)?;
    let cost = cost_of(weights, slots, &solved.gaps);
    Ok(Planned {
        plan: Plan::new(steps),
        cost,
        flow: Flow::new(flow),
    })
}
