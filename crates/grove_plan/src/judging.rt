ghost use Rattle.std.specs.Prelude.{◌≡◌, ◌≢◌, ◌<◌, ◌^◌, length, IfOk, OnOk, IfErr, Some, None};
ghost use Rattle.grove_tree.specs.Rules.{IsWithinLimits};
ghost use Rattle.grove_access.specs.Lists.{nodes_of, lengths_of, AreNodes};
ghost use Rattle.grove_access.specs.ListFaults.{AreLengths};
ghost use Rattle.grove_plan.specs.Plans.{IsLegal, cost};
ghost use Rattle.grove_plan.specs.Faults.{steps_fault, plan_fault_of};
ghost use Rattle.grove_plan.specs.Tallies.{IsTally};

use crate::tally::Tally;
use crate::{Plan, PlanFault, Step};
use grove_access::AccessList;
use grove_tree::Tree;
use std::alloc::Global;

/// The cost of a legal plan, in weight times slots; else the first step that breaks a rule and the first rule that it
/// breaks.
pub fn judge(alloc: Global, tree: &Tree, list: &AccessList, plan: &Plan) -> Result<u64, PlanFault>
    requires fits { AreNodes tree.now (nodes_of list.now) }
    ensures cost { IfOk result (λ sum. sum ≡ cost tree.now (lengths_of list.now) plan.now) }
    ensures legal { OnOk result (IsLegal tree.now (nodes_of list.now) plan.now) }
    ensures faultless { OnOk result (plan_fault_of tree.now (nodes_of list.now) plan.now ≡ None) }
    ensures fault { IfErr result (λ fault. fault ≢ PlanFault.Memory
        → plan_fault_of tree.now (nodes_of list.now) plan.now ≡ Some fault) }
    ensures illegal { IfErr result (λ fault. fault ≢ PlanFault.Memory
        → ¬ IsLegal tree.now (nodes_of list.now) plan.now) }
{
    // The limits that hold of every list and every tree are told with their lengths.
    let _accesses = list.len();
    let _nodes = tree.len();
    let mut tally = Tally::new(alloc, tree)?;
    judge_by(&mut tally, tree, list, plan.steps())
}

// Judges a plan by a tally of none of its steps.
fn judge_by(
    tally: &mut Tally,
    tree: &Tree,
    list: &AccessList,
    plan: &[Step],
) -> Result<u64, PlanFault>
    requires fits { AreNodes tree.now (nodes_of list.now) }
    requires few { length plan.now < 2 ^ 32 }
    requires limits { IsWithinLimits tree.now }
    requires lengths { AreLengths (lengths_of list.now) }
    requires tallied { IsTally tree.now (lengths_of list.now) plan.now 0 tally.old }
    ensures cost { IfOk result (λ sum. sum ≡ cost tree.now (lengths_of list.now) plan.now) }
    ensures faultless { OnOk result (plan_fault_of tree.now (nodes_of list.now) plan.now ≡ None) }
    ensures fault { IfErr result (λ fault. plan_fault_of tree.now (nodes_of list.now) plan.now ≡ Some fault) }
{
    follow(tally, tree, list, plan)?;
    if tally.accesses < list.len() {
        return Err(PlanFault::AccessMissing(tally.accesses));
    }
    // Every node weighs something: where nothing does, none is held, and no table has to be searched.
    if tally.weight == 0 {
        return Ok(tally.cost);
    }
    if let Some(node) = tally.first_held() {
        return Err(PlanFault::StillHeld(node));
    }
    Ok(tally.cost)
}

// Follows a plan to its end, or to the first step that breaks a rule.
fn follow(tally: &mut Tally, tree: &Tree, list: &AccessList, plan: &[Step]) -> Result<(), PlanFault>
    requires fits { AreNodes tree.now (nodes_of list.now) }
    requires few { length plan.now < 2 ^ 32 }
    requires limits { IsWithinLimits tree.now }
    requires lengths { AreLengths (lengths_of list.now) }
    requires tallied { IsTally tree.now (lengths_of list.now) plan.now 0 tally.old }
    ensures tallied { OnOk result (IsTally tree.now (lengths_of list.now) plan.now (length plan.now) tally.new) }
    ensures faultless { OnOk result (steps_fault tree.now (nodes_of list.now) plan.now (length plan.now) ≡ None) }
    ensures fault { IfErr result (λ fault. steps_fault tree.now (nodes_of list.now) plan.now (length plan.now)
        ≡ Some fault) }
{
    for position in 0..plan.len() {
        if let Some(fault) = tally.fault_at(tree, list, plan, position) {
            return Err(fault);
        }
        tally.take(tree, list, plan, position);
    }
    Ok(())
}
