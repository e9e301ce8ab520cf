ghost use Rattle.std.specs.Prelude.{◌≡◌, ◌++◌, codes, IfOk};
ghost use Rattle.serde_json.specs.View.{view};
ghost use Rattle.serde_json.specs.Written.{compact_text};
ghost use Rattle.grove_base.specs.Hints.{IsHint};
ghost use Rattle.grove_wire.specs.Replies.{error_text};
ghost use Rattle.grove_store.specs.Refusals.{refusal_name};
ghost use Rattle.grove_desk.specs.Hints.{hinted_data, IsHinted, MayHint};

use grove_base::{Hint, NoMemory};
use grove_hint::{hint_of_path, hint_of_request};
use grove_store::Refusal;
use grove_tree::Tree;
use serde_json::{Value, json};
use std::alloc::Global;

/// What is said of a refusal that is about no part of its line.
const NO_MORE_ROUNDS: &str =
    "the store has counted 18446744073709551615 rounds, and takes no more batches";

/// How the line of a hint begins.
const BEGINS: &str = "hint: ";

/// What is wrong with a line that is refused, and where, by the names of the store's tree if it is known.
pub fn hint_of_refusal(
    alloc: Global,
    tree: Option<&Tree>,
    line: &[u8],
    refusal: &Refusal,
) -> Result<Hint, NoMemory> {
    match refusal {
        Refusal::Fault(fault) => hint_of_request(alloc, tree, line, *fault),
        Refusal::Rounds => Hint::new(alloc, NO_MORE_ROUNDS),
    }
}

/// The reply to a line that is refused so, and its hint: the reply that was made if no hint is asked for, or there is no
/// memory for one.
pub fn with_hint(
    alloc: Global,
    hints: bool,
    tree: Option<&Tree>,
    line: &[u8],
    refusal: Refusal,
    reply: Vec<u8>,
) -> (Vec<u8>, Option<Hint>)
    requires { reply.items ≡ error_text (refusal_name refusal) }
    ensures { MayHint hints reply.items result.0.items }
{
    if !hints {
        return (reply, None);
    }
    let Ok(hint) = hint_of_refusal(alloc, tree, line, &refusal) else {
        return (reply, None);
    };
    match hinted_reply(alloc, refusal.name(), &hint) {
        Ok(hinted) => (hinted, Some(hint)),
        Err(NoMemory) => (reply, None),
    }
}

/// The line that refuses the path beside `below`, with a hint.
pub(crate) fn hinted_no_path(alloc: Global, tree: &Tree, path: &str) -> Result<Vec<u8>, NoMemory>
    ensures { IfOk result (λ line. IsHinted (error_text (codes "no-path")) line.items) }
{
    let hint = hint_of_path(alloc, tree, path)?;
    hinted_reply(alloc, "no-path", &hint)
}

/// The reply that refuses a line by this name, with a hint: `{"error":"shape","hint":"the line is empty"}`.
pub(crate) fn hinted_reply(alloc: Global, name: &str, hint: &Hint) -> Result<Vec<u8>, NoMemory>
    ensures { IfOk result (λ reply. IsHinted (error_text name.now) reply.items) }
{
    hinted_text(alloc, name, text_of(hint))
}

/// The text of a refusal by this name with a hint that says this.
fn hinted_text(alloc: Global, name: &str, hint: &str) -> Result<Vec<u8>, NoMemory>
    ensures { IfOk result (λ text. text.items ≡ compact_text (hinted_data name.now hint.now)) }
{
    Ok(hinted_value(alloc, name, hint)?.to_vec(alloc)?)
}

fn hinted_value(alloc: Global, name: &str, hint: &str) -> Result<Value, NoMemory>
    ensures { IfOk result (λ value. view value ≡ hinted_data name.now hint.now) }
{
    Ok(json!(in alloc; {"error": name, "hint": hint})?)
}

/// What a hint says, without the word before it.
fn text_of(hint: &Hint) -> &str
    ensures { IsHint (codes "hint: " ++ result.now) }
{
    match hint.as_str().strip_prefix(BEGINS) {
        Some(text) => text,
        None => unreachable!(),
    }
}
