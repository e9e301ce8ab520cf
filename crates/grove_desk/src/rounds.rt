//! Rounds that follow one another over lines that left together.
ghost use Rattle.std.specs.Prelude.{◌≡◌, ◌<◌, ◌≤◌, None, length, map, IfOk, OnErr};
ghost use Rattle.std.specs.Option.{option_map};
ghost use Rattle.grove_tree.specs.Weights.{unweighed};
ghost use Rattle.grove_desk.specs.Receipts.{AreNumberedFrom};
ghost use Rattle.grove_desk.specs.Ledgers.{noted_in, next_number, AreAnswered, AreAnsweredInTurn};

use crate::answering::answer_taken;
use crate::board::MOST_LINES;
use crate::door::NamesOf;
use crate::journal::Journal;
use crate::{Opening, Receipt, RoundWatch};
use grove_line::Asked;
use grove_store::Store;
use grove_tree::{Gate, NoMemory};
use std::alloc::Global;
use std::sync::Wait;
use std::thread::Threads;

/// Answers the lines by rounds, one after the other, and gives all receipts, in the order of the lines. Where memory is
/// refused in a later round, the lines from there on stay. Where it is in the first one, nothing has changed. Where a
/// journal is kept there is only one round: the lines of one that can't be noted are gone.
pub(crate) fn answer_rounds<B: Opening, R: Threads + Wait + Sync, G: Gate + Sync, W: RoundWatch<R>>(
    rt: &R,
    alloc: Global,
    store: &mut Store,
    journal: &mut Option<Journal>,
    taken: &mut [Asked<NamesOf<B>>],
    gate: &G,
    watch: &W,
) -> Result<Vec<Receipt>, NoMemory>
    requires some { 0 < length taken.old }
    requires names { unweighed store.old.rows ≡ unweighed B.store.rows }
    ensures answered { IfOk result
        (λ receipts. AreAnsweredInTurn store.old store.new journal.old journal.new taken.old taken.new receipts.items) }
    ensures numbered { IfOk result (λ receipts. AreNumberedFrom (next_number journal.old) receipts.items) }
    ensures tickets { map (λ asked. asked.ticket) taken.new ≡ map (λ asked. asked.ticket) taken.old }
    ensures err { OnErr result ((journal.new ≡ journal.old) × (store.new ≡ store.old)) }
{
    let mut receipts = answer_first(rt, alloc, store, journal, taken, gate, watch)?;
    if journal.is_some() {
        return Ok(receipts);
    }
    while receipts.len() < taken.len() {
        let done = receipts.len();
        if receipts.reserve(MOST_LINES).is_err() {
            break;
        }
        let rest = &mut taken[done..];
        let Ok(mut more) = answer_first(rt, alloc, store, journal, rest, gate, watch) else {
            break;
        };
        let _has_room = receipts.append(&mut more);
    }
    Ok(receipts)
}

/// Answers the first of the lines in one round, each of another caller, and notes it where a journal is kept. Where
/// memory is refused, both are as they were.
fn answer_first<B: Opening, R: Threads + Wait + Sync, G: Gate + Sync, W: RoundWatch<R>>(
    rt: &R,
    alloc: Global,
    store: &mut Store,
    journal: &mut Option<Journal>,
    lines: &mut [Asked<NamesOf<B>>],
    gate: &G,
    watch: &W,
) -> Result<Vec<Receipt>, NoMemory>
    requires some { 0 < length lines.old }
    requires names { unweighed store.old.rows ≡ unweighed B.store.rows }
    ensures answered { IfOk result
        (λ receipts. AreAnswered store.old store.new lines.old lines.new receipts.items) }
    ensures few { IfOk result (λ receipts. length receipts.items ≤ 16) }
    ensures numbered { IfOk result (λ receipts. AreNumberedFrom (next_number journal.old) receipts.items) }
    ensures journal { IfOk result
        (λ receipts. journal.new
        ≡ option_map (noted_in (record { before = store.old; receipts = receipts.items })) journal.old) }
    ensures tickets { map (λ asked. asked.ticket) lines.new ≡ map (λ asked. asked.ticket) lines.old }
    ensures err { OnErr result ((journal.new ≡ journal.old) × (store.new ≡ store.old)) }
    ensures stay { OnErr result (journal.old ≡ None → lines.new ≡ lines.old) }
{
    let count = round_length(lines);
    let began = watch.begin(rt);
    let taken = &mut lines[..count];
    let receipts = match journal {
        Some(journal) => journal.answer(rt, alloc, store, taken, gate)?,
        None => answer_taken(rt, alloc, store, None, taken, gate)?,
    };
    watch.end(rt, began, &receipts);
    Ok(receipts)
}

/// Over how many of the lines a round is: those before the first whose caller has one among them.
fn round_length<B: Opening>(lines: &[Asked<NamesOf<B>>]) -> usize
    requires { 0 < length lines.now }
    ensures { (0 < result) × (result ≤ length lines.now) × (result ≤ 16) }
{
    let most = lines.len().min(MOST_LINES);
    for place in 1..most {
        if has_line(&lines[..place], lines[place].ticket) {
            return place;
        }
    }
    most
}

/// Is there a line of the caller with this ticket?
fn has_line<B: Opening>(lines: &[Asked<NamesOf<B>>], ticket: u64) -> bool {
    lines.iter().any(|asked| asked.ticket == ticket)
}
