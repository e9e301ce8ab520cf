ghost use Rattle.std.specs.Prelude.{◌≡◌, ◌≢◌, IfOk, OnOk, IfErr};
ghost use Rattle.grove_access.specs.Lists.{nodes_of, lengths_of, AreNodes};
ghost use Rattle.grove_plan.specs.Plans.{IsLegal, IsLeast, cost};
ghost use Rattle.grove_proof.specs.Flows.{IsCertificate};
ghost use Rattle.grove_tree.specs.Trees.{IsTree};
ghost use Rattle.grove_proof.specs.Faults.{IsFault};
ghost use Rattle.grove_proof.specs.Tables.{IsVerdict};

use crate::row_sums::RowSums;
use crate::span::{first_stranger, forced_nodes};
use crate::{Flow, ProofFault};
use grove_access::AccessList;
use grove_plan::{Plan, judge};
use grove_tree::Tree;
use std::alloc::Global;

/// The cost of the plan, where it is legal and the flow shows that no legal plan costs less.
/// Else the first fault: the plan's own; then that of the rows' nodes; then over all rows signs, sizes, balances at the
/// locks, balances at the releases; last the value.
pub fn check(
    alloc: Global,
    tree: &Tree,
    list: &AccessList,
    plan: &Plan,
    flow: &Flow,
) -> Result<u64, ProofFault>
    requires fits { AreNodes tree.now (nodes_of list.now) }
    ensures cost { IfOk result (λ sum. sum ≡ cost tree.now (lengths_of list.now) plan.now) }
    ensures legal { OnOk result (IsLegal tree.now (nodes_of list.now) plan.now) }
    ensures certificate { OnOk result
        (IsCertificate tree.now (nodes_of list.now) (lengths_of list.now) flow.now
        (cost tree.now (lengths_of list.now) plan.now)) }
    ensures least { OnOk result (IsLeast tree.now (nodes_of list.now) (lengths_of list.now) plan.now) }
    ensures fault { IfErr result (λ fault. fault ≢ ProofFault.Memory
        → IsFault tree.now (nodes_of list.now) (lengths_of list.now) plan.now flow.now fault) }
    ensures refused { IfErr result (λ fault. fault ≢ ProofFault.Memory → IsLegal tree.now (nodes_of list.now) plan.now
        → ¬ IsCertificate tree.now (nodes_of list.now) (lengths_of list.now) flow.now
        (cost tree.now (lengths_of list.now) plan.now)) }
{
    examine(alloc, tree, list, plan, flow)
}

/// The same, with what it answers in one clause.
fn examine(
    alloc: Global,
    tree: &Tree,
    list: &AccessList,
    plan: &Plan,
    flow: &Flow,
) -> Result<u64, ProofFault>
    requires fits { AreNodes tree.now (nodes_of list.now) }
    ensures tree { IsTree tree.now }
    ensures verdict { IsVerdict tree.now (nodes_of list.now) (lengths_of list.now) plan.now flow.now result }
{
    let _size = tree.len();
    let cost = judge(alloc, tree, list, plan)?;
    let span = forced_nodes(alloc, tree, list)?;
    if let Some(place) = first_stranger(&span, flow.rows()) {
        return Err(ProofFault::Rows(place));
    }
    let row_sums = RowSums::new(alloc, tree, list, flow.rows())?;
    row_sums.weigh(cost)
}
