ghost use Rattle.std.specs.Prelude.{◌≡◌, ◌<◌, ◌≤◌, [], ◌∷◌, length, map, take, All, IfOk, OnErr};
ghost use Rattle.grove_store.specs.Rounds.{round_length, IsLawfulRound, IsLawfulAnswer, RunsBatches};

use crate::begun::Begun;
use crate::crew::Workers;
use crate::worth::are_worth_threads;
use crate::{LineReply, Store};
use grove_line::{AnyTree, Asked, Line, Trees};
use grove_tree::{Gate, NoMemory, OpenGate};
use std::alloc::Global;
use std::sync::Wait;
use std::thread::Threads;

impl Store {
    /// Answers a line: its reply, without a line feed. Where memory is refused, the store is as it was.
    pub fn answer<R: Threads + Wait + Sync>(
        &mut self,
        rt: &R,
        alloc: Global,
        line: &[u8],
    ) -> Result<Vec<u8>, NoMemory>
        requires { length line.now ≤ 1048576 }
        ensures lawful { IfOk result (λ reply. IsLawfulAnswer self.old line.now reply.items self.new) }
        ensures err { OnErr result (self.new ≡ self.old) }
    {
        let mut lines = [asked_by_none(alloc, line)?];
        let mut replies = self.reply_round(rt, alloc, &mut lines, &OpenGate)?;
        match replies.pop() {
            Some(reply) => Ok(reply.into_text()),
            None => unreachable!(),
        }
    }

    /// The same by the caller alone, who starts no thread, takes no lock and never waits.
    pub fn answer_alone(&mut self, alloc: Global, line: &[u8]) -> Result<Vec<u8>, NoMemory>
        requires { length line.now ≤ 1048576 }
        ensures lawful { IfOk result (λ reply. IsLawfulAnswer self.old line.now reply.items self.new) }
        ensures whole { IfOk result (λ reply. RunsBatches self.old (line.now ∷ []) (reply.items ∷ []) self.new) }
        ensures err { OnErr result (self.new ≡ self.old) }
    {
        let mut lines = [asked_by_none(alloc, line)?];
        let mut replies = self.reply_round_alone(alloc, &mut lines)?;
        match replies.pop() {
            Some(reply) => Ok(reply.into_text()),
            None => unreachable!(),
        }
    }

    /// Answers the first of the lines: where it is a batch without fault, then together with the batches that follow
    /// it, as long as they have at most 256 lists together, and otherwise alone. Where such a round is worth a thread,
    /// the gate is called in its run.
    pub fn answer_round<R: Threads + Wait + Sync, G: Gate + Sync>(
        &mut self,
        rt: &R,
        alloc: Global,
        lines: &[&[u8]],
        gate: &G,
    ) -> Result<Vec<Vec<u8>>, NoMemory>
        requires count { (0 < length lines.now) × (length lines.now ≤ 16) }
        requires limit { All (λ line. length line.now ≤ 1048576) lines.now }
        ensures length { IfOk result
            (λ replies. length replies.items ≡ round_length self.old.rows (map (λ line. line.now) lines.now)) }
        ensures round { IfOk result
            (λ replies. IsLawfulRound self.old (take (length replies.items) (map (λ line. line.now) lines.now))
            (map (λ reply. reply.items) replies.items) self.new) }
        ensures err { OnErr result (self.new ≡ self.old) }
    {
        let mut texts = Vec::with_capacity(alloc, lines.len())?;
        let mut copies = copies_of(alloc, lines)?;
        let replies = self.reply_round(rt, alloc, &mut copies, gate)?;
        for reply in replies {
            texts.push_reserved(reply.into_text());
        }
        Ok(texts)
    }

    /// As `answer_round`, of lines that may have been read before, for trees with the store's names. Each reply tells why
    /// its line is refused, if it is.
    pub fn reply_round<R: Threads + Wait + Sync, G: Gate + Sync, T: Trees>(
        &mut self,
        rt: &R,
        alloc: Global,
        lines: &mut [Asked<T>],
        gate: &G,
    ) -> Result<Vec<LineReply>, NoMemory>
        requires count { (0 < length lines.old) × (length lines.old ≤ 16) }
        requires trees { T.includes self.old.rows }
        ensures length { IfOk result
            (λ replies. length replies.items ≡ round_length self.old.rows (map (λ asked. asked.line) lines.old)) }
        ensures round { IfOk result
            (λ replies. IsLawfulRound self.old
            (take (length replies.items) (map (λ asked. asked.line) lines.old)) replies.items self.new) }
        ensures same { lines.new ≡ lines.old }
        ensures err { OnErr result (self.new ≡ self.old) }
    {
        match self.begin_round(&Workers { rt }, alloc, lines)? {
            Begun::Answered(replies) => Ok(replies),
            Begun::Jobs(jobs, counts) => {
                if are_worth_threads(&jobs, gate) {
                    self.run_together(rt, alloc, &jobs, &counts, gate)
                } else {
                    self.run_alone(alloc, &jobs, &counts)
                }
            }
        }
    }
}

/// A copy of a line of which nothing is read yet.
fn asked_by_none(alloc: Global, line: &[u8]) -> Result<Asked<AnyTree>, NoMemory>
    requires { length line.now ≤ 1048576 }
    ensures { IfOk result (λ asked. asked.line ≡ line.now) }
{
    Ok(Asked {
        ticket: 0,
        line: Line::copied(alloc, line)?,
    })
}

/// Copies of the lines.
fn copies_of(alloc: Global, lines: &[&[u8]]) -> Result<Vec<Asked<AnyTree>>, NoMemory>
    requires { All (λ line. length line.now ≤ 1048576) lines.now }
    ensures { IfOk result (λ copies. map (λ asked. asked.line) copies.items ≡ map (λ line. line.now) lines.now) }
{
    let mut copies = Vec::with_capacity(alloc, lines.len())?;
    for line in lines {
        copies.push(asked_by_none(alloc, line)?)?;
    }
    Ok(copies)
}
