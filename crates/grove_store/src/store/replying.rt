ghost use Rattle.std.specs.Prelude.{◌≡◌, ◌<◌, ◌≤◌, length, map, IfOk, OnErr};
ghost use Rattle.grove_store.specs.Parts.{AnswersFirst, RunsFirst, Begins, BeginsRun};

use crate::begun::Begun;
use crate::crew::{Alone, Crew};
use crate::round::{first_request, round_of};
use crate::texts::{alone, check_text, plan_text, weights_text, wire_refusal};
use crate::{LineReply, Store};
use grove_line::{Asked, Trees};
use grove_tree::NoMemory;
use grove_wire::Request;
use std::alloc::Global;

impl Store {
    /// Answers the first of the lines, or makes the jobs of its batch and of those that follow it.
    pub(crate) fn begin_round<C: Crew, T: Trees>(
        &mut self,
        crew: &C,
        alloc: Global,
        lines: &mut [Asked<T>],
    ) -> Result<Begun, NoMemory>
        requires asks { C.asks }
        requires count { (0 < length lines.old) × (length lines.old ≤ 16) }
        requires trees { T.includes self.old.rows }
        ensures begun { IfOk result
            (λ begun. Begins (AnswersFirst self.old (map (λ asked. asked.line) lines.old)) self.old begun self.new) }
        ensures runs { IfOk result
            (λ begun. BeginsRun (RunsFirst self.old (map (λ asked. asked.line) lines.old)) self.old begun self.new) }
        ensures same { lines.new ≡ lines.old }
        ensures err { OnErr result (self.new ≡ self.old) }
    {
        match first_request(alloc, &mut self.reader, &self.tree, lines) {
            Ok(Request::Batch(lists)) => {
                let others = &mut lines[1..];
                let round = round_of(alloc, &mut self.reader, &self.tree, lists, others)?;
                self.begin_batch(crew, alloc, round)
            }
            Ok(Request::Plan(list)) => {
                let text = plan_text(alloc, &self.tree, &mut self.plans, &mut self.texts, &list);
                let replies = alone(alloc, text)?;
                Ok(Begun::Answered(replies))
            }
            Ok(Request::Check(list, plan, flow)) => {
                let text = check_text(alloc, &self.tree, &list, &plan, &flow);
                let replies = alone(alloc, text)?;
                Ok(Begun::Answered(replies))
            }
            Ok(Request::Weights) => {
                let text = weights_text(alloc, &self.tree, &self.waits);
                let replies = alone(alloc, text)?;
                Ok(Begun::Answered(replies))
            }
            Ok(Request::Reweigh) => {
                let replies = self.reweigh(crew, alloc)?;
                Ok(Begun::Answered(replies))
            }
            Err(fault) => {
                let text = wire_refusal(alloc, fault);
                let replies = alone(alloc, text)?;
                Ok(Begun::Answered(replies))
            }
        }
    }

    /// Answers the first of the lines by the caller alone.
    pub(crate) fn reply_round_alone<T: Trees>(
        &mut self,
        alloc: Global,
        lines: &mut [Asked<T>],
    ) -> Result<Vec<LineReply>, NoMemory>
        requires count { (0 < length lines.old) × (length lines.old ≤ 16) }
        requires trees { T.includes self.old.rows }
        ensures answers { IfOk result
            (λ replies. AnswersFirst self.old (map (λ asked. asked.line) lines.old) replies.items self.new) }
        ensures runs { IfOk result
            (λ replies. RunsFirst self.old (map (λ asked. asked.line) lines.old) replies.items self.new) }
        ensures same { lines.new ≡ lines.old }
        ensures err { OnErr result (self.new ≡ self.old) }
    {
        match self.begin_round(&Alone, alloc, lines)? {
            Begun::Answered(replies) => Ok(replies),
            Begun::Jobs(jobs, counts) => self.run_alone(alloc, &jobs, &counts),
        }
    }
}
