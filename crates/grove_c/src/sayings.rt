ghost use Rattle.std.specs.Prelude.{◌≤◌, IfOk};
ghost use Rattle.serde_json.specs.Data.{depth};
ghost use Rattle.serde_json.specs.View.{view};
ghost use Rattle.grove_wire.specs.Outcomes.{Gives};
ghost use Rattle.grove_wire.specs.Reading.{document_of, history_of, list_in};
ghost use Rattle.grove_answer.specs.Outcomes.{ThenSays, task_in, trial_in, claim_in, claim_over, sketch_in, history_in};
ghost use Rattle.grove_answer.specs.Outcomes.{IsAudited, IsChecked, IsCheckedOver, IsDrawn, IsJudged};
ghost use Rattle.grove_answer.specs.Outcomes.{IsPlannedDocument, IsPlannedOver, IsPlannedTask};
ghost use Rattle.grove_answer.specs.Says.{Says};

use grove_answer::{
    Refusal, audit_document, check_document, check_over, draw_document, judge_document, or_refuse,
    plan_document, plan_over, planned_document,
};
use grove_draw::Form;
use grove_tree::Tree;
use grove_wire::{WireFault, read_document, read_history};
use serde_json::Value;
use std::alloc::Global;

/// What `plan` says of a document's bytes.
pub fn planned(alloc: Global, bytes: &[u8]) -> Result<String, Refusal>
    ensures { Says (ThenSays (document_of bytes.now) (λ d. ThenSays (task_in d) IsPlannedTask)) result }
{
    let document = or_refuse(alloc, read_document(alloc, bytes))?;
    plan_document(alloc, &document)
}

/// What `plan --document` says of them.
pub fn planned_in_document(alloc: Global, bytes: &[u8]) -> Result<String, Refusal>
    ensures { Says (ThenSays (document_of bytes.now) (λ d. ThenSays (task_in d) IsPlannedDocument)) result }
{
    let document = or_refuse(alloc, read_shallow(alloc, bytes))?;
    planned_document(alloc, &document)
}

/// The document that the bytes are. It nests no deeper than what can be read again.
#[tactic(auto, using(grove_wire::proofs::Levels::shallow_document))]
fn read_shallow(alloc: Global, bytes: &[u8]) -> Result<Value, WireFault>
    ensures read { Gives (λ document. view document) result (document_of bytes.now) }
    ensures shallow { IfOk result (λ document. depth (view document) ≤ 127) }
{
    read_document(alloc, bytes)
}

/// What `check` says of them.
pub fn checked(alloc: Global, bytes: &[u8]) -> Result<String, Refusal>
    ensures { Says (ThenSays (document_of bytes.now) (λ d. ThenSays (claim_in d) IsChecked)) result }
{
    let document = or_refuse(alloc, read_document(alloc, bytes))?;
    check_document(alloc, &document)
}

/// What `judge` says of them.
pub fn judged(alloc: Global, bytes: &[u8]) -> Result<String, Refusal>
    ensures { Says (ThenSays (document_of bytes.now) (λ d. ThenSays (trial_in d) IsJudged)) result }
{
    let document = or_refuse(alloc, read_document(alloc, bytes))?;
    judge_document(alloc, &document)
}

/// What `draw` says of them, in a form.
pub fn drawn(alloc: Global, bytes: &[u8], form: Form) -> Result<String, Refusal>
    ensures { Says (ThenSays (document_of bytes.now) (λ d. ThenSays (sketch_in d) IsDrawn)) result }
{
    let document = or_refuse(alloc, read_document(alloc, bytes))?;
    draw_document(alloc, &document, form)
}

/// What `audit` says of them.
pub fn audited(alloc: Global, bytes: &[u8]) -> Result<String, Refusal>
    ensures { Says (ThenSays (history_of bytes.now) (λ d. ThenSays (history_in d) IsAudited)) result }
{
    let document = or_refuse(alloc, read_history(alloc, bytes))?;
    audit_document(alloc, &document)
}

/// What `plan` says of a document over a tree that is there.
pub fn planned_over(alloc: Global, tree: &Tree, bytes: &[u8]) -> Result<String, Refusal>
    ensures { Says (ThenSays (document_of bytes.now)
        (λ d. ThenSays (list_in tree.now d) (IsPlannedOver tree.now))) result }
{
    let document = or_refuse(alloc, read_document(alloc, bytes))?;
    plan_over(alloc, tree, &document)
}

/// What `check` says of it.
pub fn checked_over(alloc: Global, tree: &Tree, bytes: &[u8]) -> Result<String, Refusal>
    ensures { Says (ThenSays (document_of bytes.now)
        (λ d. ThenSays (claim_over tree.now d) (IsCheckedOver tree.now))) result }
{
    let document = or_refuse(alloc, read_document(alloc, bytes))?;
    check_over(alloc, tree, &document)
}
