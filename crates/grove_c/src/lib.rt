//! What a command says of a document's bytes, in a caller's buffer: a static library for programs in other languages.
//!
//! Each export takes the bytes of a document and a buffer. The header include/grove.h says what a caller owes.
#![tactic(auto, using(crate::proofs::Tellings::tells))]

ghost use Rattle.std.specs.Prelude.{◌≡◌, None};
ghost use Rattle.grove_wire.specs.Reading.{document_of, history_of, list_in};
ghost use Rattle.grove_answer.specs.Outcomes.{ThenSays, task_in, trial_in, claim_in, claim_over, sketch_in, history_in};
ghost use Rattle.grove_answer.specs.Outcomes.{IsAudited, IsChecked, IsCheckedOver, IsDrawn, IsJudged};
ghost use Rattle.grove_answer.specs.Outcomes.{IsPlannedDocument, IsPlannedOver, IsPlannedTask};
ghost use Rattle.grove_c.specs.Handles.{Answers, Asks, IsStoreOf, IsTreeOf, OfStore, OfTree, Opens};
ghost use Rattle.grove_c.specs.Tellings.{Tells};

use grove_draw::Form;
pub use handle::Handle;
pub use numbers::{
    grove_c_plan_part, grove_c_tree_build, grove_c_tree_check_nodes, grove_c_tree_find,
    grove_c_tree_judge_nodes, grove_c_tree_plan_nodes, grove_c_tree_reweigh, grove_c_version,
};
use opening::{open, store_opened, tree_opened};
use sayings::{audited, checked, drawn, judged, planned, planned_in_document};
use std::alloc::Global;
pub use telling::Told;
use telling::{tell, told_closed};

mod handle;
mod kept;
mod kept_store;
mod loose;
mod numbers;
mod opening;
mod sayings;
mod telling;

/// The cost of the settled plan of the document's list, the plan, and the flow that proves it.
#[unsafe(no_mangle)]
pub extern "C" fn grove_c_plan(alloc: Global, document: &[u8], text: &mut [u8]) -> Told
    ensures { Tells (ThenSays (document_of document.now) (λ d. ThenSays (task_in d) IsPlannedTask))
        text.old text.new result }
{
    tell(&planned(alloc, document), text)
}

/// The document with that plan and that flow in it, as a line.
#[unsafe(no_mangle)]
pub extern "C" fn grove_c_plan_document(alloc: Global, document: &[u8], text: &mut [u8]) -> Told
    ensures { Tells (ThenSays (document_of document.now) (λ d. ThenSays (task_in d) IsPlannedDocument))
        text.old text.new result }
{
    tell(&planned_in_document(alloc, document), text)
}

/// The cost of the document's plan, where its flow proves the plan least.
#[unsafe(no_mangle)]
pub extern "C" fn grove_c_check(alloc: Global, document: &[u8], text: &mut [u8]) -> Told
    ensures { Tells (ThenSays (document_of document.now) (λ d. ThenSays (claim_in d) IsChecked))
        text.old text.new result }
{
    tell(&checked(alloc, document), text)
}

/// The cost of the document's plan, and what its list replies and leaves.
#[unsafe(no_mangle)]
pub extern "C" fn grove_c_judge(alloc: Global, document: &[u8], text: &mut [u8]) -> Told
    ensures { Tells (ThenSays (document_of document.now) (λ d. ThenSays (trial_in d) IsJudged))
        text.old text.new result }
{
    tell(&judged(alloc, document), text)
}

/// The drawing of the document's plans, as SVG.
#[unsafe(no_mangle)]
pub extern "C" fn grove_c_draw_svg(alloc: Global, document: &[u8], text: &mut [u8]) -> Told
    ensures { Tells (ThenSays (document_of document.now) (λ d. ThenSays (sketch_in d) IsDrawn))
        text.old text.new result }
{
    tell(&drawn(alloc, document, Form::Svg), text)
}

/// The drawing of the document's plans, as lines for a terminal.
#[unsafe(no_mangle)]
pub extern "C" fn grove_c_draw_text(alloc: Global, document: &[u8], text: &mut [u8]) -> Told
    ensures { Tells (ThenSays (document_of document.now) (λ d. ThenSays (sketch_in d) IsDrawn))
        text.old text.new result }
{
    tell(&drawn(alloc, document, Form::Text), text)
}

/// What the run replies and leaves that the document's events are, where it is a finished one.
#[unsafe(no_mangle)]
pub extern "C" fn grove_c_audit(alloc: Global, document: &[u8], text: &mut [u8]) -> Told
    ensures { Tells (ThenSays (history_of document.now) (λ d. ThenSays (history_in d) IsAudited))
        text.old text.new result }
{
    tell(&audited(alloc, document), text)
}

/// Reads a document, and has the handle hold the tree of its nodes.
#[unsafe(no_mangle)]
pub extern "C" fn grove_c_tree_open(
    alloc: Global,
    tree: &mut Handle,
    document: &[u8],
    text: &mut [u8],
) -> Told
    ensures { Opens IsTreeOf document.now tree.old.value tree.new.value text.old text.new result }
{
    open(alloc, tree_opened(alloc, document), tree, text)
}

/// The cost of the settled plan of a document's list over the tree that is held, the plan, and the flow that proves it.
#[unsafe(no_mangle)]
pub extern "C" fn grove_c_tree_plan(
    alloc: Global,
    tree: &mut Handle,
    document: &[u8],
    text: &mut [u8],
) -> Told
    ensures { Asks (OfTree (λ rows. ThenSays (document_of document.now)
        (λ d. ThenSays (list_in rows d) (IsPlannedOver rows))))
        tree.old.value tree.new.value text.old text.new result }
{
    match tree.take(alloc) {
        Some(kept) => {
            let told = kept.plan(alloc, document, text);
            tree.hold(kept);
            told
        }
        None => told_closed(),
    }
}

/// The cost of a document's plan over the tree that is held, where its flow proves the plan least.
#[unsafe(no_mangle)]
pub extern "C" fn grove_c_tree_check(
    alloc: Global,
    tree: &mut Handle,
    document: &[u8],
    text: &mut [u8],
) -> Told
    ensures { Asks (OfTree (λ rows. ThenSays (document_of document.now)
        (λ d. ThenSays (claim_over rows d) (IsCheckedOver rows))))
        tree.old.value tree.new.value text.old text.new result }
{
    match tree.take(alloc) {
        Some(kept) => {
            let told = kept.check(alloc, document, text);
            tree.hold(kept);
            told
        }
        None => told_closed(),
    }
}

/// Lets go what the handle holds.
#[unsafe(no_mangle)]
pub extern "C" fn grove_c_tree_close(alloc: Global, tree: &mut Handle)
    ensures { tree.new.value ≡ None }
{
    *tree = Handle::empty(alloc);
}

/// Reads a document, and has the handle hold a store of its tree and records, as `serve --workers 1` opens it.
#[unsafe(no_mangle)]
pub extern "C" fn grove_c_store_open(
    alloc: Global,
    store: &mut Handle,
    document: &[u8],
    text: &mut [u8],
) -> Told
    ensures { Opens IsStoreOf document.now store.old.value store.new.value text.old text.new result }
{
    open(alloc, store_opened(alloc, document), store, text)
}

/// The reply to a line by the store that is held, without a line feed. The line has its effect even if the reply has no
/// room.
#[unsafe(no_mangle)]
pub extern "C" fn grove_c_store_answer(
    alloc: Global,
    store: &mut Handle,
    line: &[u8],
    text: &mut [u8],
) -> Told
    ensures { Answers line.now store.old.value store.new.value text.old text.new result }
{
    match store.take(alloc) {
        Some(mut kept) => {
            let told = kept.answer(alloc, line, text);
            store.hold(kept);
            told
        }
        None => told_closed(),
    }
}

/// The last reply of the store that is held, once more.
#[unsafe(no_mangle)]
pub extern "C" fn grove_c_store_reply(alloc: Global, store: &mut Handle, text: &mut [u8]) -> Told
    ensures { Asks OfStore store.old.value store.new.value text.old text.new result }
{
    match store.take(alloc) {
        Some(kept) => {
            let told = kept.reply(text);
            store.hold(kept);
            told
        }
        None => told_closed(),
    }
}

/// Lets go what the handle holds.
#[unsafe(no_mangle)]
pub extern "C" fn grove_c_store_close(alloc: Global, store: &mut Handle)
    ensures { store.new.value ≡ None }
{
    *store = Handle::empty(alloc);
}
