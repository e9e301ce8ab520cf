ghost use Rattle.std.specs.Prelude.{◌≡◌, ◌<◌, IfOk, ◌++◌, codes, decimal, length, string_bytes};
ghost use Rattle.std.specs.Fmt.{signed_decimal};
ghost use Rattle.grove_tree.specs.Paths.{path_of};
ghost use Rattle.grove_wire.specs.Texts.{place_text, tree_said, wire_said, plan_said, FaultFits, proof_said};
ghost use Rattle.grove_wire.specs.Texts.{ProofFaultFits, run_said, RunFaultFits};

use crate::fault_names::{plan_fault_name, proof_fault_name, tree_fault_name, wire_fault_name};
use crate::{Place, WireFault};
use grove_core::RunFault;
use grove_plan::PlanFault;
use grove_proof::ProofFault;
use grove_tree::{NoMemory, Node, Tree, TreeFault};
use std::alloc::Global;

/// The text of a fault of reading: `bad-json`, `shape list 3`, `no-path plan 0`, `bad-length list 1`, `limit whole`,
/// `tree empty`, `row 3 bad-name`, or `memory`.
pub fn wire_fault_text(alloc: Global, fault: &WireFault) -> Result<String, NoMemory>
    ensures { IfOk result (λ text. string_bytes text ≡ (wire_said fault.now).1) }
{
    let name = wire_fault_name(fault);
    match *fault {
        WireFault::Shape(place)
        | WireFault::NoPath(place)
        | WireFault::BadLength(place)
        | WireFault::Limit(place) => placed_text(alloc, name, place),
        WireFault::Tree(fault) => tree_text(alloc, fault),
        WireFault::BadJson | WireFault::Memory => word_text(alloc, name),
    }
}

fn tree_text(alloc: Global, fault: TreeFault) -> Result<String, NoMemory>
    ensures { IfOk result (λ text. string_bytes text ≡ (tree_said fault).1) }
{
    let name = tree_fault_name(fault);
    match fault {
        TreeFault::Empty => word_text(alloc, "tree empty"),
        TreeFault::TooMany => word_text(alloc, "tree too-many"),
        TreeFault::BadParent(row)
        | TreeFault::TooDeep(row)
        | TreeFault::BadName(row)
        | TreeFault::TwiceNamed(row)
        | TreeFault::BadWeight(row) => said_text(alloc, "row", row, name),
        TreeFault::Memory => word_text(alloc, name),
    }
}

/// The text of a plan's fault, as `step 2 relock`, `access 1 missing` or, with the node by its path, `node /a
/// still-held`.
pub fn plan_fault_text(alloc: Global, tree: &Tree, fault: &PlanFault) -> Result<String, NoMemory>
    requires { FaultFits tree.now fault.now }
    ensures { IfOk result (λ text. string_bytes text ≡ (plan_said tree.now fault.now).1) }
{
    let name = plan_fault_name(fault);
    match *fault {
        PlanFault::Strange(step)
        | PlanFault::Relock(step)
        | PlanFault::ParentNotHeld(step)
        | PlanFault::NotHeld(step)
        | PlanFault::WrongAccess(step)
        | PlanFault::AccessNotHeld(step) => said_text(alloc, "step", step, name),
        PlanFault::AccessMissing(access) => said_text(alloc, "access", access, "missing"),
        PlanFault::StillHeld(node) => still_held_text(alloc, tree, node),
        PlanFault::Memory => word_text(alloc, name),
    }
}

fn still_held_text(alloc: Global, tree: &Tree, node: Node) -> Result<String, NoMemory>
    requires { node < length tree.now }
    ensures { IfOk result (λ text. string_bytes text ≡ codes "node " ++ path_of tree.now node ++ codes " still-held") }
{
    let path = tree.path_of(alloc, node)?;
    Ok(format!(in alloc; "node {path} still-held")?)
}

/// The text of a proof's fault, as `rows 0`, `lock-balance 2` or `value 14 3`; a plan's fault within has its own text.
pub fn proof_fault_text(alloc: Global, tree: &Tree, fault: &ProofFault) -> Result<String, NoMemory>
    requires { ProofFaultFits tree.now fault.now }
    ensures { IfOk result (λ text. string_bytes text ≡ (proof_said tree.now fault.now).1) }
{
    let name = proof_fault_name(fault);
    match *fault {
        ProofFault::Plan(fault) => plan_fault_text(alloc, tree, &fault),
        ProofFault::Rows(row)
        | ProofFault::Sign(row)
        | ProofFault::TooBig(row)
        | ProofFault::LockBalance(row)
        | ProofFault::ReleaseBalance(row) => numbered_text(alloc, name, row),
        ProofFault::Value { cost, bound } => value_text(alloc, cost, bound),
        ProofFault::Memory => word_text(alloc, name),
    }
}

fn value_text(alloc: Global, cost: u64, bound: i128) -> Result<String, NoMemory>
    ensures { IfOk result
        (λ text. string_bytes text ≡ codes "value " ++ decimal cost ++ (codes " " ++ signed_decimal bound)) }
{
    let bound = format!(in alloc; " {bound}")?;
    Ok(format!(in alloc; "value {cost}{bound}")?)
}

/// The text of a run's fault, `foreign` or `unfinished`; a bad plan has the text of its fault.
pub fn run_fault_text(alloc: Global, tree: &Tree, fault: &RunFault) -> Result<String, NoMemory>
    requires { RunFaultFits tree.now fault.now }
    ensures { IfOk result (λ text. string_bytes text ≡ (run_said tree.now fault.now).1) }
{
    match *fault {
        RunFault::BadPlan(_, fault) => plan_fault_text(alloc, tree, &fault),
        RunFault::Memory => word_text(alloc, "memory"),
        RunFault::Foreign => word_text(alloc, "foreign"),
        RunFault::Unfinished => word_text(alloc, "unfinished"),
    }
}

pub(crate) fn word_text(alloc: Global, word: &str) -> Result<String, NoMemory>
    ensures { IfOk result (λ text. string_bytes text ≡ word.now) }
{
    Ok(String::from_str(alloc, word)?)
}

fn placed_text(alloc: Global, word: &str, place: Place) -> Result<String, NoMemory>
    ensures { IfOk result (λ text. string_bytes text ≡ word.now ++ codes " " ++ place_text place) }
{
    Ok(format!(in alloc; "{word} {place}")?)
}

/// A word and a number.
pub(crate) fn numbered_text(alloc: Global, word: &str, number: u32) -> Result<String, NoMemory>
    ensures { IfOk result (λ text. string_bytes text ≡ word.now ++ codes " " ++ decimal number) }
{
    Ok(format!(in alloc; "{word} {number}")?)
}

/// A word and a number, and what is said of it after a space.
pub(crate) fn said_text(
    alloc: Global,
    word: &str,
    number: u32,
    said: &str,
) -> Result<String, NoMemory>
    ensures { IfOk result
        (λ text. string_bytes text ≡ word.now ++ codes " " ++ decimal number ++ (codes " " ++ said.now)) }
{
    Ok(format!(in alloc; "{word} {number} {said}")?)
}
