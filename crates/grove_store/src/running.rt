//! What the run of a round leaves.
ghost use Rattle.std.specs.Prelude.{◌≡◌, ◌≤◌, length, sum, All, IfOk};
ghost use Rattle.grove_core.specs.Kept.{past_of};
ghost use Rattle.grove_core.specs.Runs.{replies_of, run_records};
ghost use Rattle.grove_core.specs.DoneAlone.{start_of, own_replies};
ghost use Rattle.grove_core.specs.Laws.{IsEachOnce};
ghost use Rattle.grove_run.specs.Runs.{places_of};
ghost use Rattle.grove_store.specs.Rounds.{round_texts, waits_after};

use crate::LineReply;
use crate::texts::round_texts;
use crate::waiting::waits_after;
use grove_access::Records;
use grove_core::{DoneAlone, Job, replies_of};
use grove_run::{Finished, places_in};
use grove_tree::NoMemory;
use std::alloc::Global;

/// What a finished round leaves: the reply of each line, and what the store then has.
#[derive(Drop)]
pub struct RoundOutcome {
    pub replies: Vec<LineReply>,
    pub records: Records,
    pub waits: Vec<u32>,
}

/// What the run leaves of a round of this number, of which each line has so many jobs.
pub fn outcome_of(
    alloc: Global,
    finished: Finished<'_>,
    round: u64,
    counts: &[usize],
    waits: &[u32],
) -> Result<RoundOutcome, NoMemory>
    requires jobs { sum counts.now ≡ length finished.core.jobs }
    requires waits { length waits.now ≡ length finished.core.tree }
    requires few { All (λ waits. waits ≤ 1000) waits.now }
    ensures replies { IfOk result (λ outcome. outcome.replies.items ≡ round_texts round counts.now
        (places_of finished.entry.order (length finished.entry.core.jobs))
        (replies_of finished.entry.core.jobs finished.entry.core.opening (past_of finished.entry.core))) }
    ensures records { IfOk result
        (λ outcome. outcome.records ≡ run_records finished.entry.core.jobs finished.entry.core.opening
        (past_of finished.entry.core)) }
    ensures waits { IfOk result
        (λ outcome. outcome.waits.items ≡ waits_after finished.entry.core.jobs (past_of finished.entry.core)
        waits.now) }
{
    let replies = {
        let places = finished.places(alloc)?;
        let replies = replies_of(alloc, finished.core())?;
        round_texts(alloc, round, counts, &places, &replies)?
    };
    let waits = waits_after(alloc, finished.core(), waits)?;
    Ok(RoundOutcome {
        replies,
        records: finished.into_records(),
        waits,
    })
}

/// The replies to the lines of a round of this number whose jobs were done alone, so many of them each line's.
pub fn alone_texts(
    alloc: Global,
    done: &DoneAlone,
    jobs: &[Job],
    round: u64,
    counts: &[usize],
) -> Result<Vec<LineReply>, NoMemory>
    requires jobs { sum counts.now ≡ length jobs.now }
    requires few { length jobs.now ≤ 256 }
    requires once { IsEachOnce done.now.order.items (length jobs.now) }
    requires short { length done.now.order.items ≤ 256 }
    requires replies { start_of jobs.now (length jobs.now) ≤ length done.now.replies.items }
    ensures { IfOk result (λ replies. replies.items ≡ round_texts round counts.now
        (places_of done.now.order.items (length jobs.now)) (own_replies jobs.now done.now.replies.items)) }
{
    let places = places_in(alloc, &done.order, jobs.len())?;
    let replies = done.replies_of(alloc, jobs)?;
    round_texts(alloc, round, counts, &places, &replies)
}
