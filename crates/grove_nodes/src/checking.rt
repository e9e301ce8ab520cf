//! Steps and rows by numbers, checked and judged.
ghost use Rattle.std.specs.Prelude.{◌≡◌, map, IfOk};
ghost use Rattle.grove_access.specs.Lists.{nodes_of, lengths_of, AreNodes};
ghost use Rattle.grove_nodes.specs.Checking.{ChecksNodes, JudgesNodes};
ghost use Rattle.grove_nodes.specs.Numbered.{step_of, row_of};
ghost use Rattle.grove_nodes.specs.Telling.{ChecksList, JudgesList, plan_status, proof_status};

use crate::listing::{listed, status_of};
use crate::row::rows_of;
use crate::step::steps_of;
use crate::{Checked, NumberedRow, NumberedStep, Status};
use grove_access::AccessList;
use grove_plan::{Plan, PlanFault, judge};
use grove_proof::{Flow, ProofFault, check};
use grove_tree::{NoMemory, Tree};
use std::alloc::Global;

/// No plan or flow has more steps or rows.
const MOST: usize = 4_294_967_295;

/// What the steps cost, if they are a legal plan for accesses of these nodes, each of its length, and the rows prove
/// that no legal plan costs less; or the first fault.
#[tactic(auto, using(crate::proofs::Verdicts::list_checked, crate::proofs::Verdicts::list_unchecked))]
pub fn check_nodes(
    alloc: Global,
    tree: &Tree,
    nodes: &[u32],
    lengths: &[u32],
    steps: &[NumberedStep],
    rows: &[NumberedRow],
    checked: &mut Checked,
) -> Status
    ensures { ChecksNodes tree.now nodes.now lengths.now steps.now rows.now checked.new result }
{
    match listed(alloc, tree, nodes, lengths) {
        Ok(list) => check_list(alloc, tree, &list, steps, rows, checked),
        Err(fault) => {
            *checked = Checked::of_list(fault);
            status_of(fault)
        }
    }
}

fn check_list(
    alloc: Global,
    tree: &Tree,
    list: &AccessList,
    steps: &[NumberedStep],
    rows: &[NumberedRow],
    checked: &mut Checked,
) -> Status
    requires { AreNodes tree.now (nodes_of list.now) }
    ensures { ChecksList tree.now (nodes_of list.now) (lengths_of list.now) (map step_of steps.now)
        (map row_of rows.now) checked.new result }
{
    let Ok((plan, flow)) = proposal_of(alloc, steps, rows) else {
        *checked = Checked::accepted(0);
        return Status::Memory;
    };
    match check(alloc, tree, list, &plan, &flow) {
        Ok(cost) => {
            *checked = Checked::accepted(cost);
            Status::Done
        }
        Err(fault) => {
            let status = status_of_proof(&fault);
            *checked = Checked::of_proof(fault);
            status
        }
    }
}

/// What the steps cost, if they are a legal plan for accesses of these nodes, each of its length; or the first fault.
#[tactic(auto, using(crate::proofs::Verdicts::list_judged, crate::proofs::Verdicts::list_unjudged))]
pub fn judge_nodes(
    alloc: Global,
    tree: &Tree,
    nodes: &[u32],
    lengths: &[u32],
    steps: &[NumberedStep],
    checked: &mut Checked,
) -> Status
    ensures { JudgesNodes tree.now nodes.now lengths.now steps.now checked.new result }
{
    match listed(alloc, tree, nodes, lengths) {
        Ok(list) => judge_list(alloc, tree, &list, steps, checked),
        Err(fault) => {
            *checked = Checked::of_list(fault);
            status_of(fault)
        }
    }
}

#[tactic(auto, using(crate::proofs::Verdicts::plan_unjudged))]
fn judge_list(
    alloc: Global,
    tree: &Tree,
    list: &AccessList,
    steps: &[NumberedStep],
    checked: &mut Checked,
) -> Status
    requires { AreNodes tree.now (nodes_of list.now) }
    ensures { JudgesList tree.now (nodes_of list.now) (lengths_of list.now) (map step_of steps.now) checked.new result }
{
    let Ok(plan) = plan_of(alloc, steps) else {
        *checked = Checked::accepted(0);
        return Status::Memory;
    };
    match judge(alloc, tree, list, &plan) {
        Ok(cost) => {
            *checked = Checked::accepted(cost);
            Status::Done
        }
        Err(fault) => {
            let status = status_of_plan(&fault);
            *checked = Checked::of_plan(fault);
            status
        }
    }
}

fn proposal_of(
    alloc: Global,
    steps: &[NumberedStep],
    rows: &[NumberedRow],
) -> Result<(Plan, Flow), NoMemory>
    ensures plan { IfOk result (λ both. both.0 ≡ map step_of steps.now) }
    ensures flow { IfOk result (λ both. both.1 ≡ map row_of rows.now) }
{
    let plan = plan_of(alloc, steps)?;
    if rows.len() > MOST {
        return Err(NoMemory);
    }
    Ok((plan, Flow::new(rows_of(alloc, rows)?)))
}

fn plan_of(alloc: Global, steps: &[NumberedStep]) -> Result<Plan, NoMemory>
    ensures { IfOk result (λ plan. plan ≡ map step_of steps.now) }
{
    if steps.len() > MOST {
        return Err(NoMemory);
    }
    Ok(Plan::new(steps_of(alloc, steps)?))
}

fn status_of_plan(fault: &PlanFault) -> Status
    ensures { result ≡ plan_status fault.now }
{
    match fault {
        PlanFault::Memory => Status::Memory,
        _ => Status::Refused,
    }
}

fn status_of_proof(fault: &ProofFault) -> Status
    ensures { result ≡ proof_status fault.now }
{
    match fault {
        ProofFault::Plan(fault) => status_of_plan(fault),
        ProofFault::Memory => Status::Memory,
        _ => Status::Refused,
    }
}
