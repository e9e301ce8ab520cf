ghost use Rattle.std.specs.Prelude.{◌≡◌, ◌-◌, ◌^◌, ◌<◌, ◌≤◌, length, sum, All, IfOk, OnErr};
ghost use Rattle.grove_access.specs.Lists.{nodes_of, AreNodes};
ghost use Rattle.grove_core.specs.Runs.{AllLegal};
ghost use Rattle.grove_store.specs.Parts.{AnswersJobs, AnswersRound, RunsJobs, RunsLists, Begins, BeginsRun};

use crate::begun::Begun;
use crate::crew::Crew;
use crate::round::Round;
use crate::running::{RoundOutcome, alone_texts, outcome_of};
use crate::texts::{refusals, run_refusals};
use crate::{LineReply, Refusal, Store};
use grove_core::{Job, do_alone};
use grove_run::run_legal;
use grove_tree::{Gate, NoMemory};
use std::alloc::Global;
use std::sync::Wait;
use std::thread::Threads;

impl Store {
    /// Makes the jobs of a round. If no further round can be counted, each line is told so.
    pub(crate) fn begin_batch<C: Crew>(
        &mut self,
        crew: &C,
        alloc: Global,
        round: Round,
    ) -> Result<Begun, NoMemory>
        requires asks { C.asks }
        requires counts { sum round.counts.items ≡ length round.lists.items }
        requires few { length round.lists.items ≤ 256 }
        requires fit { All (λ list. AreNodes self.old.rows (nodes_of list)) round.lists.items }
        ensures begun { IfOk result
            (λ begun. Begins (AnswersRound self.old round.lists.items round.counts.items) self.old begun self.new) }
        ensures runs { IfOk result
            (λ begun. BeginsRun (λ replies after. self.old.rounds < 2 ^ 64 - 1
            → RunsLists self.old round.lists.items round.counts.items replies after) self.old begun self.new) }
        ensures err { OnErr result (self.new ≡ self.old) }
    {
        let Round { counts, lists } = round;
        if self.rounds == u64::MAX {
            let replies = refusals(alloc, Refusal::Rounds, counts.len())?;
            return Ok(Begun::Answered(replies));
        }
        let jobs = crew.jobs(alloc, &self.tree, &mut self.plans, lists, self.workers)?;
        Ok(Begun::Jobs(jobs, counts))
    }

    /// Has workers do the jobs over copies of the records, and puts what they leave in place once the replies are made.
    /// A run that fails is told to each line.
    pub(crate) fn run_together<R: Threads + Wait + Sync, G: Gate + Sync>(
        &mut self,
        rt: &R,
        alloc: Global,
        jobs: &[Job],
        counts: &[usize],
        gate: &G,
    ) -> Result<Vec<LineReply>, NoMemory>
        requires room { self.old.rounds < 2 ^ 64 - 1 }
        requires counts { sum counts.now ≡ length jobs.now }
        requires few { length jobs.now ≤ 256 }
        requires legal { AllLegal self.old.rows jobs.now }
        ensures round { IfOk result (λ replies. AnswersJobs self.old jobs.now counts.now replies.items self.new) }
        ensures err { OnErr result (self.new ≡ self.old) }
    {
        let workers = self.workers as usize;
        let run = run_legal(rt, alloc, &self.tree, &self.records, jobs, workers, gate);
        let finished = match run {
            Ok(finished) => finished,
            Err(fault) => return run_refusals(alloc, fault, counts.len()),
        };
        let outcome = outcome_of(alloc, finished, self.rounds + 1, counts, &self.waits)?;
        let RoundOutcome {
            replies,
            records,
            waits,
        } = outcome;
        self.records = records;
        self.waits = waits;
        self.rounds += 1;
        Ok(replies)
    }

    /// Does the jobs in place, one after the other. Where the replies find no memory, the old records are put back.
    pub(crate) fn run_alone(
        &mut self,
        alloc: Global,
        jobs: &[Job],
        counts: &[usize],
    ) -> Result<Vec<LineReply>, NoMemory>
        requires room { self.old.rounds < 2 ^ 64 - 1 }
        requires counts { sum counts.now ≡ length jobs.now }
        requires few { length jobs.now ≤ 256 }
        requires legal { AllLegal self.old.rows jobs.now }
        ensures round { IfOk result (λ replies. AnswersJobs self.old jobs.now counts.now replies.items self.new) }
        ensures runs { IfOk result (λ replies. RunsJobs self.old jobs.now counts.now replies.items self.new) }
        ensures err { OnErr result (self.new ≡ self.old) }
    {
        let done = do_alone(alloc, &self.tree, &mut self.records, jobs)?;
        match alone_texts(alloc, &done, jobs, self.rounds + 1, counts) {
            Ok(replies) => {
                self.rounds += 1;
                Ok(replies)
            }
            Err(_) => {
                done.undo(&mut self.records);
                Err(NoMemory)
            }
        }
    }
}
