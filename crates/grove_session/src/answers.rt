ghost use Rattle.std.specs.Prelude.{◌≡◌, ℕ, ◌≤◌, Bool, true, List, length, Err, IsTrue, IfOk, OnErr};
ghost use Rattle.grove_session.specs.declared.answers.AnswerFault.TheVariants as fault;

use thiserror::Error;

/// The longest line that is looked into, without its line feed.
pub const LINE_LIMIT: usize = 1_048_576;

/// Why a line has no answer.
#[derive(Clone, Copy, Debug, PartialEq, Eq, Error)]
pub enum AnswerFault {
    /// A growth was refused.
    #[error("memory")]
    Memory,
    /// What was to be answered isn't what was put: of shared answers alone.
    #[error("foreign")]
    Foreign,
    /// What it may have left isn't kept: of shared answers alone.
    #[error("unkept")]
    Unkept,
}

/// What answers the lines of a session, one after the other.
pub trait Answers<R> {
    /// Which replies there may be, and what they make of the state: old, line, reply, new.
    ghost lawful: { Self → List ℕ → List ℕ → Self → Type 0 };

    /// Are the answers shared with others, so that a line may be lost among theirs?
    ghost is_shared: { Bool };

    /// What an answer asks of the runtime, beyond the bounds of `R`: that threads may share it, or nothing.
    ghost asks: { Type 0 };

    /// The reply to a line, without a line feed.
    fn answer(&mut self, rt: &R, line: &[u8]) -> Result<Vec<u8>, AnswerFault>
        requires asks { asks }
        requires short { length line.now ≤ LINE_LIMIT }
        ensures ok { IfOk result (λ reply. lawful self.old line.now reply.items self.new) }
        ensures err { OnErr result (self.new ≡ self.old) }
        ensures foreign { result ≡ Err fault.Foreign → is_shared ≡ true }
        ensures unkept { result ≡ Err fault.Unkept → is_shared ≡ true };

    /// May replies be held back, to go out together once no whole line is left of what was read? So it is where nothing
    /// is owed to a cut write: of shared answers alone.
    fn may_hold(&self) -> bool
        ensures { IsTrue result → is_shared ≡ true }
    {
        false
    }

    /// Learns that the next line was too long, which is replied so without asking for an answer.
    fn pass_over(&self, _rt: &R) {}

    /// Learns that the next lines are the whole ones at the front of these bytes, each of which is asked for in turn.
    /// They may be begun: of shared answers alone.
    fn look_ahead(&mut self, _rt: &R, _bytes: &[u8])
        ensures { self.new ≡ self.old }
    {}

    /// Learns that no further line is asked for.
    fn leave(&mut self, _rt: &R)
        ensures { self.new ≡ self.old }
    {}
}
