ghost use Rattle.std.specs.Prelude.{◌≡◌, false, IfOk};
ghost use Rattle.serde_json.specs.View.{view};
ghost use Rattle.serde_json.specs.Written.{compact_text, has_float};
ghost use Rattle.grove_wire.specs.Replies.{error_text};
ghost use Rattle.grove_store.specs.Refusals.{refusal_name, is_refusal, TellsRefusal};

use crate::Refusal;
use grove_tree::NoMemory;
use grove_wire::error_value;
use serde_json::Value;
use std::alloc::Global;
use std::marker::Model;

/// What a line is answered: a text, and why the line is refused, if it is.
#[derive(Debug, Drop)]
pub struct LineReply {
    text: Vec<u8>,
    refusal: Option<Refusal>,
}

impl Model for LineReply {
    ghost use Rattle.std.specs.Prelude.{ℕ, List};
    ghost use Rattle.grove_store.specs.Refusals.{TellsRefusal};

    ghost Value = { List ℕ };

    ghost view = { λ reply. reply.text.items };

    ghost invariant = { λ reply. TellsRefusal reply.refusal reply.text.items };
}

impl LineReply {
    /// The reply to a line that isn't refused.
    pub(crate) fn new(alloc: Global, value: &Value) -> Result<LineReply, NoMemory>
        requires floatless { has_float (view value.now) ≡ false }
        requires accepted { is_refusal (compact_text (view value.now)) ≡ false }
        ensures { IfOk result (λ reply. reply ≡ compact_text (view value.now)) }
    {
        Ok(LineReply {
            text: value.to_vec(alloc)?,
            refusal: None,
        })
    }

    /// The reply to a line that isn't refused, with this text.
    pub(crate) fn accepted(text: Vec<u8>) -> LineReply
        requires { is_refusal text.items ≡ false }
        ensures { result ≡ text.items }
    {
        LineReply {
            text,
            refusal: None,
        }
    }

    /// The reply to a line that is refused.
    pub(crate) fn refused(alloc: Global, refusal: Refusal) -> Result<LineReply, NoMemory>
        ensures { IfOk result (λ reply. reply ≡ error_text (refusal_name refusal)) }
    {
        Ok(LineReply {
            text: error_value(alloc, refusal.name())?.to_vec(alloc)?,
            refusal: Some(refusal),
        })
    }

    /// Why the line is refused, if it is.
    pub fn refusal(&self) -> Option<Refusal>
        ensures tells { TellsRefusal result self.now }
    {
        self.refusal
    }

    /// The text, without a line feed.
    pub fn into_text(self) -> Vec<u8>
        ensures { result.items ≡ self }
    {
        let LineReply { text, .. } = self;
        text
    }
}
