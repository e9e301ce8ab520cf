ghost use Rattle.std.specs.Prelude.{◌≡◌};
ghost use Rattle.grove_wire.specs.Replies.{error_text};
ghost use Rattle.grove_store.specs.Refusals.{refusal_name};
ghost use Rattle.grove_desk.specs.Hints.{MayHint};

use crate::Receipt;
use grove_store::Refusal;
use std::time::Instant;

/// What learns of the rounds that a caller of a desk runs itself.
pub trait RoundWatch<R> {
    /// A round begins. What is given comes back once it has ended.
    fn begin(&self, rt: &R) -> Option<Instant>;

    /// The round that began then has these receipts. What it left isn't kept yet.
    fn end(&self, rt: &R, began: Option<Instant>, receipts: &[Receipt]);
}

/// What learns of the lines of a visitor, one after the other, and words its refusals.
pub trait LineWatch<R> {
    /// The line is refused so. Gives the reply: the one that was made, or the same with a hint if hints are asked for.
    fn refuse(&self, rt: &R, line: &[u8], refusal: Refusal, hints: bool, reply: Vec<u8>) -> Vec<u8>
        requires { reply.items ≡ error_text (refusal_name refusal) }
        ensures { MayHint hints reply.items result.items };

    /// A line that is too long is refused unread.
    fn note_long_line(&self, rt: &R);

    /// The line is answered.
    fn count_line(&self, rt: &R);
}

/// What learns of nothing, and gives no hints.
#[derive(Clone, Copy, Debug)]
pub struct Unwatched;

impl<R> RoundWatch<R> for Unwatched {
    fn begin(&self, _rt: &R) -> Option<Instant> {
        None
    }

    fn end(&self, _rt: &R, _began: Option<Instant>, _receipts: &[Receipt]) {}
}

impl<R> LineWatch<R> for Unwatched {
    fn refuse(
        &self,
        _rt: &R,
        _line: &[u8],
        _refusal: Refusal,
        _hints: bool,
        reply: Vec<u8>,
    ) -> Vec<u8> {
        reply
    }

    fn note_long_line(&self, _rt: &R) {}

    fn count_line(&self, _rt: &R) {}
}
