ghost use Rattle.std.specs.Prelude.{◌≡◌, ℕ, ◌+◌, ◌^◌, ◌<◌, ◌≤◌, true, false, List, Err};
ghost use Rattle.std.specs.Io.KnownBytes.{Appends, Consumes};
ghost use Rattle.grove_session.specs.declared.session_fault.SessionFault.TheVariants.{Turns, Foreign, Unkept};
ghost use Rattle.grove_session.specs.Sessions.{SessionEnds, is_read, is_write};

use crate::intake::Intake;
use crate::{Answers, SessionFault, Sink, Source};
use std::alloc::AllocGlobal;

/// How often a session reads at most.
pub const MOST_READS: u64 = 1 << 32;

/// So many bytes of replies go out together at most.
const MOST_HELD: usize = 64 * 1024;

/// Answers the lines of the source, one after the other, each with its reply and a line feed, and gives their number.
pub fn session<R: AllocGlobal, A: Answers<R>, I: Source, O: Sink>(
    rt: &R,
    answers: &mut A,
    source: &mut I,
    sink: &mut O,
) -> Result<u64, SessionFault>
    requires asks { A.asks }
    requires sound_source { I.has_failed source.old ≡ false }
    requires sound_sink { O.has_failed sink.old ≡ false }
    requires reads { I.read_count source.old < 2 ^ 63 }
    ensures text { (input out : List ℕ) × Consumes (I.remaining source.old) (I.remaining source.new) input
        × Appends (O.contents sink.old) (O.contents sink.new) out
        × SessionEnds A.is_shared A.lawful answers.old result (I.remaining source.new) input out answers.new }
    ensures source { I.has_failed source.new ≡ is_read result }
    ensures sink { O.has_failed sink.new ≡ is_write result }
    ensures turns { result ≡ Err Turns → I.read_count source.new ≡ I.read_count source.old + 2 ^ 32 }
    ensures few { I.read_count source.new ≤ I.read_count source.old + 2 ^ 32 }
    ensures foreign { result ≡ Err Foreign → A.is_shared ≡ true }
    ensures unkept { result ≡ Err Unkept → A.is_shared ≡ true }
{
    let ended = answer_lines(rt, answers, source, sink);
    answers.leave(rt);
    ended
}

/// The same, but that nobody learns of the end.
fn answer_lines<R: AllocGlobal, A: Answers<R>, I: Source, O: Sink>(
    rt: &R,
    answers: &mut A,
    source: &mut I,
    sink: &mut O,
) -> Result<u64, SessionFault>
    requires asks { A.asks }
    requires sound { (I.has_failed source.old ≡ false) × (I.read_count source.old < 2 ^ 63)
        × (O.has_failed sink.old ≡ false) }
    ensures text { (input out : List ℕ) × Consumes (I.remaining source.old) (I.remaining source.new) input
        × Appends (O.contents sink.old) (O.contents sink.new) out
        × SessionEnds A.is_shared A.lawful answers.old result (I.remaining source.new) input out answers.new }
    ensures source { I.has_failed source.new ≡ is_read result }
    ensures sink { O.has_failed sink.new ≡ is_write result }
    ensures turns { result ≡ Err Turns → I.read_count source.new ≡ I.read_count source.old + 2 ^ 32 }
    ensures few { I.read_count source.new ≤ I.read_count source.old + 2 ^ 32 }
    ensures foreign { result ≡ Err Foreign → A.is_shared ≡ true }
    ensures unkept { result ≡ Err Unkept → A.is_shared ≡ true }
{
    let most_held = if answers.may_hold() && sink.has_costly_writes() {
        MOST_HELD
    } else {
        0
    };
    let mut intake = Intake::new(rt.alloc(), most_held);
    let mut buffer = [0u8; 16_384];
    for _ in 0..MOST_READS {
        let count = source.read(&mut buffer)?;
        if count == 0 {
            return intake.finish(rt, answers, sink);
        }
        let taken = intake.take_lines(rt, answers, sink, &buffer[..count]);
        intake.settle(sink, taken)?;
    }
    Err(SessionFault::Turns)
}
