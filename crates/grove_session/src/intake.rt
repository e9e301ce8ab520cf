ghost use Rattle.std.specs.Prelude.{◌≡◌, ℕ, ◌+◌, ◌*◌, ◌^◌, ◌<◌, ◌≤◌, ◌||◌, true, [], List, Some, Err, length};
ghost use Rattle.std.specs.Prelude.{OnOk};
ghost use Rattle.std.specs.Io.KnownBytes.{Appends};
ghost use Rattle.grove_session.specs.declared.session_fault.SessionFault.TheVariants.{Foreign, Unkept};
ghost use Rattle.grove_session.specs.Sessions.{is_write};

use crate::open_line::OpenLine;
use crate::{Answers, SessionFault, Sink};
use memchr::memchr;
use std::alloc::Global;

mod sending;

/// The reply to a line that is too long, with its line feed.
const LONG_LINE: &[u8] = b"{\"error\":\"long-line\"}\n";

/// What a session has between two reads: the line that is being read, how many lines are answered, and how many bytes
/// of answers went out.
#[derive(Debug, Drop)]
pub(crate) struct Intake {
    line: OpenLine,
    answered: u64,
    written: u128,
    /// Replies with their line feeds that are to go out together, before more is read.
    held: Vec<u8>,
    /// So many bytes of them at most.
    most_held: usize,
    ghost in_limit: { written + length held.items ≤ answered * 2 ^ 64 },
    ghost few_held: { length held.items ≤ most_held },
}

impl Intake {
    ghost use Rattle.grove_session.specs.Intakes.{held_line, IsApart, Passes, Settles};
    ghost use Rattle.grove_session.specs.Intakes.{with_bytes, AnswersNext, TakesBytes, Finishes};

    /// A session that has read nothing. It holds up to so many bytes of replies back, to send them together.
    pub(crate) fn new(alloc: Global, most_held: usize) -> Intake
        ensures line { held_line result.line ≡ Some [] }
        ensures answered { result.answered ≡ 0 }
        ensures written { result.written ≡ 0 }
        ensures held { result.held.items ≡ [] }
        ensures most_held { result.most_held ≡ most_held }
    {
        Intake {
            line: OpenLine::new(alloc),
            answered: 0,
            written: 0,
            held: Vec::new(alloc),
            most_held,
        }
    }

    /// Answers each line that ends in the bytes. Its reply went out, or is held. Lines may be begun before their turn
    /// once none is open from before these bytes.
    pub(crate) fn take_lines<R, A: Answers<R>, O: Sink>(
        &mut self,
        rt: &R,
        answers: &mut A,
        sink: &mut O,
        bytes: &[u8],
    ) -> Result<(), SessionFault>
        requires asks { A.asks }
        requires room { self.old.answered + length bytes.now < 2 ^ 63 }
        ensures taken { (more : List ℕ) × Passes (O.contents sink.old) (O.contents sink.new) self.old more self.new
            × TakesBytes A.is_shared A.lawful answers.old self.old bytes.now result more answers.new self.new }
        ensures few { OnOk result (self.new.answered ≤ self.old.answered + length bytes.now) }
        ensures failed { O.has_failed sink.new ≡ (O.has_failed sink.old || is_write result) }
        ensures foreign { result ≡ Err Foreign → A.is_shared ≡ true }
        ensures unkept { result ≡ Err Unkept → A.is_shared ≡ true }
        ensures apart { IsApart result self.new }
        ensures most_held { self.new.most_held ≡ self.old.most_held }
    {
        let mut rest = bytes;
        while let Some(length) = memchr(b'\n', rest) {
            self.look_ahead(rt, answers, rest);
            self.answer(rt, answers, sink, &rest[..length])?;
            rest = &rest[length + 1..];
        }
        self.line.extend(rest)?;
        Ok(())
    }

    /// Sends the replies that are held once bytes were taken so, also before a fault that isn't the sink's. Gives that
    /// fault, or the sink's if it fails now.
    pub(crate) fn settle<O: Sink>(
        &mut self,
        sink: &mut O,
        taken: Result<(), SessionFault>,
    ) -> Result<(), SessionFault>
        requires failed { O.has_failed sink.old ≡ is_write taken }
        requires apart { IsApart taken self.old }
        ensures passes { Passes (O.contents sink.old) (O.contents sink.new) self.old [] self.new }
        ensures settles { Settles taken self.new.held.items result }
        ensures failed { O.has_failed sink.new ≡ is_write result }
        ensures apart { IsApart result self.new }
        ensures kept { (self.new.line ≡ self.old.line) × (self.new.answered ≡ self.old.answered)
            × (self.new.most_held ≡ self.old.most_held) }
    {
        if !is_cut(&taken) {
            self.send_held(sink)?;
        }
        taken
    }

    /// Lets the lines of these bytes be begun, unless a line is open from before them.
    fn look_ahead<R, A: Answers<R>>(&self, rt: &R, answers: &mut A, bytes: &[u8])
        ensures { answers.new ≡ answers.old }
    {
        if !self.line.is_empty() {
            return;
        }
        answers.look_ahead(rt, bytes);
    }

    /// Answers a last line, where there is one, and gives the number of lines that are answered.
    pub(crate) fn finish<R, A: Answers<R>, O: Sink>(
        &mut self,
        rt: &R,
        answers: &mut A,
        sink: &mut O,
    ) -> Result<u64, SessionFault>
        requires asks { A.asks }
        requires room { self.old.answered + 1 < 2 ^ 63 }
        requires none_held { self.old.held.items ≡ [] }
        ensures ends { (more : List ℕ) × Appends (O.contents sink.old) (O.contents sink.new) more
            × (self.new.written ≡ self.old.written + length more)
            × Finishes A.is_shared A.lawful answers.old self.old result more answers.new self.new }
        ensures failed { O.has_failed sink.new ≡ (O.has_failed sink.old || is_write result) }
        ensures foreign { result ≡ Err Foreign → A.is_shared ≡ true }
        ensures unkept { result ≡ Err Unkept → A.is_shared ≡ true }
        ensures apart { IsApart result self.new }
    {
        if self.line.is_empty() {
            return Ok(self.answered);
        }
        // Nothing is to go out with its reply.
        self.most_held = 0;
        self.answer(rt, answers, sink, b"")?;
        Ok(self.answered)
    }

    /// Answers the line that ends with these bytes, and begins the next.
    fn answer<R, A: Answers<R>, O: Sink>(
        &mut self,
        rt: &R,
        answers: &mut A,
        sink: &mut O,
        end: &[u8],
    ) -> Result<(), SessionFault>
        requires asks { A.asks }
        requires room { self.old.answered + 1 < 2 ^ 63 }
        ensures answered { (more : List ℕ) × Passes (O.contents sink.old) (O.contents sink.new) self.old more self.new
            × AnswersNext A.lawful answers.old self.old.answered (with_bytes (held_line self.old.line) end.now) result
            more answers.new self.new }
        ensures failed { O.has_failed sink.new ≡ (O.has_failed sink.old || is_write result) }
        ensures foreign { result ≡ Err Foreign → A.is_shared ≡ true }
        ensures unkept { result ≡ Err Unkept → A.is_shared ≡ true }
        ensures apart { IsApart result self.new }
        ensures most_held { self.new.most_held ≡ self.old.most_held }
    {
        match self.line.ended_by(end)? {
            Some(line) => {
                let mut reply = answers.answer(rt, line)?;
                match reply.push(b'\n') {
                    Ok(()) => self.send(sink, &reply, b""),
                    Err(_) => self.send(sink, &reply, b"\n"),
                }
            }
            None => {
                answers.pass_over(rt);
                self.send(sink, LONG_LINE, b"")
            }
        }
    }
}

/// Has the sink failed?
fn is_cut(taken: &Result<(), SessionFault>) -> bool
    ensures { result ≡ is_write taken.now }
{
    matches!(taken, Err(SessionFault::Write(_)))
}
