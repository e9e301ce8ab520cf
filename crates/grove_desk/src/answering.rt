ghost use Rattle.std.specs.Prelude.{◌≡◌, ◌<◌, ◌≤◌, length, map, IfOk, OnErr};
ghost use Rattle.grove_tree.specs.Weights.{unweighed};
ghost use Rattle.grove_desk.specs.Receipts.{AreNumberedFrom, number_at};
ghost use Rattle.grove_desk.specs.Ledgers.{AreAnswered};

use crate::door::NamesOf;
use crate::{Opening, Receipt};
use grove_line::Asked;
use grove_store::Store;
use grove_tree::{Gate, NoMemory};
use std::alloc::Global;
use std::sync::Wait;
use std::thread::Threads;

/// Answers the first of the lines in one round, and gives a receipt for each, numbered from the first number on. The
/// receipts take these lines; the others stay. All memory is asked for before the store changes.
pub(crate) fn answer_taken<B: Opening, R: Threads + Wait + Sync, G: Gate + Sync>(
    rt: &R,
    alloc: Global,
    store: &mut Store,
    first: Option<u64>,
    taken: &mut [Asked<NamesOf<B>>],
    gate: &G,
) -> Result<Vec<Receipt>, NoMemory>
    requires few { (0 < length taken.old) × (length taken.old ≤ 16) }
    requires names { unweighed store.old.rows ≡ unweighed B.store.rows }
    ensures answered { IfOk result
        (λ receipts. AreAnswered store.old store.new taken.old taken.new receipts.items) }
    ensures numbered { IfOk result (λ receipts. AreNumberedFrom first receipts.items) }
    ensures tickets { map (λ asked. asked.ticket) taken.new ≡ map (λ asked. asked.ticket) taken.old }
    ensures err { OnErr result ((store.new ≡ store.old) × (taken.new ≡ taken.old)) }
{
    let mut receipts = Vec::with_capacity(alloc, taken.len())?;
    let replies = store.reply_round(rt, alloc, taken, gate)?;
    for reply in replies {
        let place = receipts.len();
        receipts.push_reserved(Receipt {
            number: number_of(first, place),
            line: taken[place].line.take(alloc),
            refusal: reply.refusal(),
            reply: reply.into_text(),
            rounds: store.rounds(),
        });
    }
    Ok(receipts)
}

/// The number of a line at a place of its round.
fn number_of(first: Option<u64>, place: usize) -> u64
    ensures { result ≡ number_at first place }
{
    match first {
        Some(first) => first.saturating_add(place as u64),
        None => 0,
    }
}
