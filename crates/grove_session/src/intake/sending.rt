//! Replies on their way to a sink: held back, to go out together, or sent at once.
ghost use Rattle.std.specs.Prelude.{◌≡◌, ℕ, ◌+◌, ◌^◌, ◌<◌, ◌≤◌, ◌||◌, ◌++◌, true, [], List, length, take, IsTrue};
ghost use Rattle.std.specs.Prelude.{IsFalse, OnOk, OnErr, IfErr, is_err};
ghost use Rattle.std.specs.Io.KnownBytes.{Appends};
ghost use Rattle.grove_session.specs.Sessions.{is_write};

use super::Intake;
use crate::whole::{Cut, write_until_cut};
use crate::{SessionFault, Sink};

impl Intake {
    ghost use Rattle.grove_session.specs.Intakes.{IsApart, Passes, Sends};

    /// Holds a reply with its line feed, or sends it behind those that are held, and begins the next line. The line
    /// feed stands in `end` where there was no room for it behind the reply: its line has had its effect by then, so
    /// this is no fault.
    pub(super) fn send<O: Sink>(
        &mut self,
        sink: &mut O,
        front: &[u8],
        end: &[u8],
    ) -> Result<(), SessionFault>
        requires room { self.old.answered + 1 < 2 ^ 63 }
        requires some { 0 < length (front.now ++ end.now) }
        ensures sent { (more : List ℕ) × Passes (O.contents sink.old) (O.contents sink.new) self.old more self.new
            × Sends self.old.answered (front.now ++ end.now) result more self.new }
        ensures failed { O.has_failed sink.new ≡ (O.has_failed sink.old || is_write result) }
        ensures apart { IsApart result self.new }
        ensures most_held { self.new.most_held ≡ self.old.most_held }
    {
        self.answered += 1;
        self.line.clear();
        if hold(&mut self.held, self.most_held, front, end) {
            return Ok(());
        }
        self.send_held(sink)?;
        match send_both(sink, front, end) {
            Ok(()) => {
                self.written += front.len() as u128 + end.len() as u128;
                Ok(())
            }
            Err(cut) => {
                self.written += cut.written as u128;
                Err(SessionFault::Write(self.written))
            }
        }
    }

    /// Sends the replies that are held. What the sink didn't take of them stays held.
    pub(super) fn send_held<O: Sink>(&mut self, sink: &mut O) -> Result<(), SessionFault>
        ensures passes { Passes (O.contents sink.old) (O.contents sink.new) self.old [] self.new }
        ensures ok { OnOk result (self.new.held.items ≡ []) }
        ensures err { OnErr result ((is_write result ≡ true) × (0 < length self.new.held.items)) }
        ensures failed { O.has_failed sink.new ≡ (O.has_failed sink.old || is_err result) }
        ensures apart { IsApart result self.new }
        ensures kept { (self.new.line ≡ self.old.line) × (self.new.answered ≡ self.old.answered)
            × (self.new.most_held ≡ self.old.most_held) }
    {
        match write_until_cut(sink, &self.held) {
            Ok(()) => {
                self.written += self.held.len() as u128;
                self.held.clear();
                Ok(())
            }
            Err(cut) => {
                self.written += cut.written as u128;
                self.held.drain(..cut.written);
                Err(SessionFault::Write(self.written))
            }
        }
    }
}

/// Puts bytes and their end behind what is held, where there is room for them among so many bytes.
fn hold(held: &mut Vec<u8>, most: usize, front: &[u8], end: &[u8]) -> bool
    requires { length held.old.items ≤ most }
    ensures held { IsTrue result → held.new.items ≡ held.old.items ++ (front.now ++ end.now) }
    ensures few { length held.new.items ≤ most }
    ensures unheld { IsFalse result → held.new.items ≡ held.old.items }
{
    let count = front.len() + end.len();
    if count > most - held.len() || held.reserve(count).is_err() {
        return false;
    }
    match (held.extend_from_slice(front), held.extend_from_slice(end)) {
        (Ok(()), Ok(())) => true,
        _ => unreachable!(),
    }
}

/// Writes bytes and then their end, and where the sink fails tells how many of all these it took. An empty end costs no
/// write.
fn send_both<O: Sink>(sink: &mut O, front: &[u8], end: &[u8]) -> Result<(), Cut>
    ensures bytes { OnOk result (Appends (O.contents sink.old) (O.contents sink.new) (front.now ++ end.now)) }
    ensures unfinished { IfErr result (λ cut. cut.written < length (front.now ++ end.now)) }
    ensures cut { IfErr result (λ cut. Appends (O.contents sink.old) (O.contents sink.new)
        (take cut.written (front.now ++ end.now))) }
    ensures failed { O.has_failed sink.new ≡ (O.has_failed sink.old || is_err result) }
{
    write_until_cut(sink, front)?;
    match write_until_cut(sink, end) {
        Ok(()) => Ok(()),
        Err(cut) => Err(Cut {
            written: front.len() + cut.written,
        }),
    }
}
