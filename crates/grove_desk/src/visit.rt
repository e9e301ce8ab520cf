ghost use Rattle.std.specs.Prelude.{◌≡◌, ℕ, ◌+◌, ◌^◌, ◌<◌, ◌≤◌, true, false, List, Err};
ghost use Rattle.std.specs.Io.KnownBytes.{Appends, Consumes};
ghost use Rattle.grove_session.specs.declared.session_fault.SessionFault.TheVariants.{Turns};
ghost use Rattle.grove_session.specs.Sessions.{SessionEnds, is_read, is_write};
ghost use Rattle.grove_tree.specs.Weights.{unweighed};
ghost use Rattle.grove_desk.specs.Desks.{VisitState, IsShared, Tells};
ghost use Rattle.grove_desk.specs.Hints.{caller, MayHint};

use crate::errand::Errand;
use crate::fault::answer_fault;
use crate::turn::Leading;
use crate::{Desk, LineWatch, Opening, Receipt, RoundWatch, Told, Unwatched};
use grove_session::{AnswerFault, Answers, SessionFault, Sink, Source, session};
use grove_store::{InMemory, Keeper};
use grove_tree::OpenGate;
use std::alloc::AllocGlobal;
use std::marker::Model;
use std::sync::Wait;
use std::thread::Threads;

/// A visitor of a desk, whose lines are answered there one after the other. Its refusals have hints if it asks for them.
#[derive(Drop)]
pub struct Visit<'a, B: Opening, K: Keeper = InMemory, W = Unwatched> {
    desk: &'a Desk<B, K>,
    /// What learns of its lines and of the rounds that it runs, and words its refusals.
    watch: &'a W,
    hints: bool,
    /// What the last line was answered.
    seen: Option<Receipt>,
    told: Told,
    errand: Errand<B, K>,
}

impl<'a, B: Opening, K: Keeper, W> Model for Visit<'a, B, K, W> {
    ghost use Rattle.grove_tree.specs.Weights.{unweighed};
    ghost use Rattle.grove_desk.specs.Desks.{rounds_seen};
    ghost use Rattle.grove_desk.specs.Hints.{CallerState};

    ghost Value = { CallerState };

    ghost view = { λ visit. record {
      visit = record {
        names = unweighed visit.desk.now.opening.rows;
        rounds = rounds_seen visit.seen;
        told = visit.told;
      };
      hints = visit.hints;
    } };
}

impl<'a, B: Opening, K: Keeper> Visit<'a, B, K> {
    /// A visitor who has seen nothing yet, and asks for no hints.
    pub fn new(desk: &'a Desk<B, K>) -> Self
        ensures { result ≡ caller false desk.entry.now.opening }
    {
        Visit::watched(desk, &Unwatched, false)
    }
}

impl<'a, B: Opening, K: Keeper, W> Visit<'a, B, K, W> {
    /// A visitor who has seen nothing yet, and of whose lines and rounds is learned.
    pub fn watched(desk: &'a Desk<B, K>, watch: &'a W, hints: bool) -> Self
        ensures { result ≡ caller hints desk.entry.now.opening }
    {
        Visit {
            desk,
            watch,
            hints,
            seen: None,
            told: Told::Nothing,
            errand: Errand::new(Leading::Once),
        }
    }

    /// The same visitor, whose lines that are read together are answered together, also with nobody else at the desk:
    /// then lines may have had their effects when the reply to one before them finds no memory.
    pub fn together(self) -> Self
        ensures { result ≡ self.entry }
    {
        Visit {
            errand: Errand::new(Leading::Through),
            ..self
        }
    }

    /// What the visitor was told last.
    pub fn told(&self) -> Told
        ensures { result ≡ self.now.visit.told }
    {
        self.told
    }
}

impl<
    'a,
    B: Opening,
    K: Keeper + Drop,
    R: Threads + Wait + Sync + AllocGlobal,
    W: RoundWatch<R> + LineWatch<R>,
> Answers<R> for Visit<'a, B, K, W> {
    ghost use Rattle.std.specs.Prelude.{true};
    ghost use Rattle.std.specs.Thread.{IsSync};
    ghost use Rattle.grove_desk.specs.Hints.{IsCallerReply};

    ghost lawful = { λ old line reply new. IsCallerReply old line reply new };

    ghost is_shared = { true };

    ghost asks = { IsSync R.row };

    fn answer(&mut self, rt: &R, line: &[u8]) -> Result<Vec<u8>, AnswerFault> {
        let alloc = rt.alloc();
        let answered = self.desk.answer_next(
            rt,
            alloc,
            &mut self.errand,
            self.seen.as_ref(),
            line,
            &OpenGate,
            self.watch,
        );
        match answered {
            Ok(receipt) => {
                self.told = Told::of(receipt.refusal());
                self.seen = Some(receipt.seen(alloc));
                let reply = receipt.into_reply();
                Ok(watched_reply(rt, self.watch, line, self.told, self.hints, reply))
            }
            Err(fault) => {
                self.errand.lines = None;
                Err(answer_fault(fault))
            }
        }
    }

    fn may_hold(&self) -> bool {
        true
    }

    fn pass_over(&self, rt: &R) {
        self.watch.note_long_line(rt);
        self.watch.count_line(rt);
    }

    fn look_ahead(&mut self, rt: &R, bytes: &[u8]) {
        self.desk.look_ahead(rt.alloc(), &mut self.errand, bytes);
    }

    fn leave(&mut self, _rt: &R) {
        self.errand.lines = None;
    }
}

/// The reply to a line that tells this, as it goes to who visits. The watch learns of the line.
fn watched_reply<R, W: LineWatch<R>>(
    rt: &R,
    watch: &W,
    line: &[u8],
    told: Told,
    hints: bool,
    reply: Vec<u8>,
) -> Vec<u8>
    requires { Tells told reply.items }
    ensures { MayHint hints reply.items result.items }
{
    let reply = match told {
        Told::Refused(refusal) => watch.refuse(rt, line, refusal, hints, reply),
        Told::Nothing | Told::Accepted => reply,
    };
    watch.count_line(rt);
    reply
}

/// Answers the lines of the source at the desk, one after the other, each with its reply and a line feed, and gives
/// their number. Between two of them others may have changed the store. Replies to lines that came together go out
/// together, so after a write that fails more lines may have had their effects than have their replies. After `Foreign`
/// and `Unkept` the replies of the lines before went out whole, and the line may have had its effect.
pub fn desk_session<
    B: Opening,
    K: Keeper + Drop,
    R: Threads + Wait + Sync + AllocGlobal,
    I: Source,
    O: Sink,
>(rt: &R, desk: &Desk<B, K>, source: &mut I, sink: &mut O) -> Result<u64, SessionFault>
    requires sound_source { I.has_failed source.old ≡ false }
    requires sound_sink { O.has_failed sink.old ≡ false }
    requires reads { I.read_count source.old < 2 ^ 63 }
    ensures text { (input out : List ℕ) × (new : VisitState)
        × Consumes (I.remaining source.old) (I.remaining source.new) input
        × Appends (O.contents sink.old) (O.contents sink.new) out
        × SessionEnds true IsShared
        (record { names = unweighed desk.now.opening.rows; rounds = 0; told = Told.Nothing })
        result (I.remaining source.new) input out new }
    ensures source { I.has_failed source.new ≡ is_read result }
    ensures sink { O.has_failed sink.new ≡ is_write result }
    ensures turns { result ≡ Err Turns → I.read_count source.new ≡ I.read_count source.old + 2 ^ 32 }
    ensures few { I.read_count source.new ≤ I.read_count source.old + 2 ^ 32 }
{
    let mut visit = Visit::new(desk).together();
    session(rt, &mut visit, source, sink)
}
