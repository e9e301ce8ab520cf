//! The replies to lines.
ghost use Rattle.std.specs.Prelude.{◌≡◌, ◌≢◌, ◌≤◌, [], ◌∷◌, length, map, replicate, sum, All, IfOk, MatchResult};
ghost use Rattle.serde_json.specs.Written.{compact_text};
ghost use Rattle.grove_access.specs.Lists.{nodes_of, AreNodes};
ghost use Rattle.grove_build.specs.KeptPlans.{AreSettledFor};
ghost use Rattle.grove_wire.specs.Names.{wire_name, proof_name, run_name};
ghost use Rattle.grove_wire.specs.Replies.{error_text, weights_in_rows, weights_data, changed_data};
ghost use Rattle.grove_store.specs.Alone.{TellsPlan, TellsCheck};
ghost use Rattle.grove_store.specs.KeptTexts.{RepliesFor};
ghost use Rattle.grove_store.specs.Parts.{IsTextOfReply};
ghost use Rattle.grove_store.specs.Refusals.{refusal_name};
ghost use Rattle.grove_store.specs.Rounds.{round_texts};

use crate::kept_texts::KeptTexts;
use crate::{LineReply, Refusal};
use grove_access::{AccessList, Reply};
use grove_build::{KeptPlans, targets_of};
use grove_plan::Plan;
use grove_proof::{Flow, ProofFault, check};
use grove_run::RunFault;
use grove_tree::{NoMemory, Tree};
use grove_wire::{
    Fault, WireFault, changed_value, cost_value, planned_text, round_text, weights_value,
};
use std::alloc::Global;

/// The reply of a line that is answered alone, where there was memory for it.
pub fn alone(alloc: Global, reply: Result<LineReply, NoMemory>) -> Result<Vec<LineReply>, NoMemory>
    ensures { IfOk result (λ replies. MatchResult reply (λ reply. replies.items ≡ reply ∷ []) (λ _. ⊥)) }
{
    let reply = reply?;
    let mut replies = Vec::with_capacity(alloc, 1)?;
    replies.push(reply)?;
    Ok(replies)
}

/// The same refusal for each of so many lines.
pub fn refusals(alloc: Global, refusal: Refusal, lines: usize) -> Result<Vec<LineReply>, NoMemory>
    ensures { IfOk result (λ replies. replies.items ≡ replicate lines (error_text (refusal_name refusal))) }
{
    let mut replies = Vec::new(alloc);
    for _line in 0..lines {
        replies.push(LineReply::refused(alloc, refusal)?)?;
    }
    Ok(replies)
}

/// The settled plan of the list, with its cost and its flow: a copy of the text that is kept for it. Where none is
/// kept, it is written, and a copy is kept.
pub fn plan_text(
    alloc: Global,
    tree: &Tree,
    plans: &mut KeptPlans,
    texts: &mut KeptTexts,
    list: &AccessList,
) -> Result<LineReply, NoMemory>
    requires fits { AreNodes tree.now (nodes_of list.now) }
    requires plans { AreSettledFor tree.now plans.old }
    requires texts { All (RepliesFor tree.now) texts.old }
    ensures text { IfOk result (IsTextOfReply (TellsPlan tree.now list.now)) }
    ensures plans { AreSettledFor tree.now plans.new }
    ensures texts { All (RepliesFor tree.now) texts.new }
{
    let targets = targets_of(alloc, list)?;
    if let Some(text) = texts.get(&targets) {
        plans.note_given();
        return Ok(LineReply::accepted(Vec::from_slice(alloc, text)?));
    }
    let planned = plans.plan(alloc, tree, list)?;
    let text = planned_text(alloc, tree, planned.cost, &planned.plan, &planned.flow)?;
    let copy = Vec::from_slice(alloc, &text)?;
    texts.keep(targets, copy)?;
    Ok(LineReply::accepted(text))
}

/// The cost of a plan that the flow certifies, else the first fault.
pub fn check_text(
    alloc: Global,
    tree: &Tree,
    list: &AccessList,
    plan: &Plan,
    flow: &Flow,
) -> Result<LineReply, NoMemory>
    requires { AreNodes tree.now (nodes_of list.now) }
    ensures { IfOk result (IsTextOfReply (TellsCheck tree.now list.now plan.now flow.now)) }
{
    match check(alloc, tree, list, plan, flow) {
        Ok(cost) => LineReply::new(alloc, &cost_value(alloc, cost)?),
        Err(fault) => proof_refusal(alloc, fault),
    }
}

/// The refusal by the fault of a proof, out of memory aside.
fn proof_refusal(alloc: Global, fault: ProofFault) -> Result<LineReply, NoMemory>
    ensures { IfOk result (λ reply. (fault ≢ ProofFault.Memory) × (reply ≡ error_text (proof_name fault))) }
{
    match fault {
        ProofFault::Memory => Err(NoMemory),
        other => LineReply::refused(alloc, Refusal::Fault(Fault::Proof(other))),
    }
}

/// The refusal of a line by the fault of its reading, out of memory aside.
pub fn wire_refusal(alloc: Global, fault: WireFault) -> Result<LineReply, NoMemory>
    ensures { IfOk result (λ reply. (fault ≢ WireFault.Memory) × (reply ≡ error_text (wire_name fault))) }
{
    match fault {
        WireFault::Memory => Err(NoMemory),
        other => LineReply::refused(alloc, Refusal::Fault(Fault::Wire(other))),
    }
}

/// The refusal of each of so many lines by the fault of their run, out of memory aside.
pub fn run_refusals(
    alloc: Global,
    fault: RunFault,
    lines: usize,
) -> Result<Vec<LineReply>, NoMemory>
    ensures { IfOk result
        (λ replies. (fault ≢ RunFault.Memory) × (replies.items ≡ replicate lines (error_text (run_name fault)))) }
{
    match fault {
        RunFault::Memory => Err(NoMemory),
        other => refusals(alloc, Refusal::Fault(Fault::Run(other)), lines),
    }
}

/// The waits and the weights.
pub fn weights_text(alloc: Global, tree: &Tree, waits: &[u32]) -> Result<LineReply, NoMemory>
    ensures { IfOk result (λ reply. reply ≡ compact_text (weights_data waits.now (weights_in_rows tree.now))) }
{
    LineReply::new(alloc, &weights_value(alloc, tree, waits)?)
}

/// The number of weights that were changed.
pub fn changed_text(alloc: Global, changed: u32) -> Result<LineReply, NoMemory>
    ensures { IfOk result (λ reply. reply ≡ compact_text (changed_data changed)) }
{
    LineReply::new(alloc, &changed_value(alloc, changed)?)
}

/// What the lines of a round are answered: each has the next places and replies, as many as are its own.
pub fn round_texts(
    alloc: Global,
    round: u64,
    counts: &[usize],
    places: &[u32],
    replies: &[&[Reply]],
) -> Result<Vec<LineReply>, NoMemory>
    requires places { sum counts.now ≤ length places.now }
    requires replies { sum counts.now ≤ length replies.now }
    ensures { IfOk result
        (λ texts. texts.items ≡ round_texts round counts.now places.now (map (λ list. list.now) replies.now)) }
{
    let mut texts = Vec::new(alloc);
    let mut at = 0;
    for count in counts {
        let end = at + *count;
        let text = round_text(alloc, round, &places[at..end], &replies[at..end])?;
        texts.push(LineReply::accepted(text))?;
        at = end;
    }
    Ok(texts)
}
