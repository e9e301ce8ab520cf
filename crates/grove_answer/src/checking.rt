ghost use Rattle.serde_json.specs.View.{view};
ghost use Rattle.grove_access.specs.Lists.{nodes_of, AreNodes};
ghost use Rattle.grove_answer.specs.Says.{Says};
ghost use Rattle.grove_answer.specs.Outcomes.{ThenSays, claim_in, claim_over, IsChecked, IsCheckedOver};

use crate::reading::{read_claim, read_claim_over};
use crate::refusal::{Refusal, or_refuse};
use grove_access::AccessList;
use grove_plan::Plan;
use grove_proof::{Flow, check};
use grove_tree::Tree;
use grove_wire::Fault;
use serde_json::Value;
use std::alloc::Global;

/// The line that checks a document's plan by its flow: the cost, below which no legal plan for the list is.
pub fn check_document(alloc: Global, document: &Value) -> Result<String, Refusal>
    ensures { Says (ThenSays (claim_in (view document.now)) IsChecked) result }
{
    let (task, plan, flow) = or_refuse(alloc, read_claim(alloc, document))?;
    check_list(alloc, &task.tree, &task.list, &plan, &flow)
}

/// The same line for the list, the plan and the flow of a document, over a tree that is there.
pub fn check_over(alloc: Global, tree: &Tree, document: &Value) -> Result<String, Refusal>
    ensures { Says (ThenSays (claim_over tree.now (view document.now)) (IsCheckedOver tree.now)) result }
{
    let (list, plan, flow) = or_refuse(alloc, read_claim_over(alloc, tree, document))?;
    check_list(alloc, tree, &list, &plan, &flow)
}

#[tactic(auto, using(crate::proofs::Fitting::proof_fault_fits, crate::proofs::Saying::says_proof))]
fn check_list(
    alloc: Global,
    tree: &Tree,
    list: &AccessList,
    plan: &Plan,
    flow: &Flow,
) -> Result<String, Refusal>
    requires { AreNodes tree.now (nodes_of list.now) }
    ensures { Says (IsCheckedOver tree.now (list.now, plan.now, flow.now)) result }
{
    match check(alloc, tree, list, plan, flow) {
        Ok(cost) => Ok(format!(in alloc; "cost {cost}\n")?),
        Err(fault) => Err(Refusal::of(alloc, tree, Fault::Proof(fault))),
    }
}
