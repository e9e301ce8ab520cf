ghost use Rattle.std.specs.Prelude.{◌≡◌, [], Some, ◌<◌, ◌≤◌, ◌↔◌, length, map, All, IsTrue, IfOk, IfErr};
ghost use Rattle.std.specs.Prelude.{OnErr};
ghost use Rattle.grove_tree.specs.Weights.{unweighed};
ghost use Rattle.grove_desk.specs.Receipts.{AreNumberedFrom};
ghost use Rattle.grove_desk.specs.Histories.{StandsIn, Ascend};
ghost use Rattle.grove_desk.specs.Ledgers.{noted_in, AreAnswered};

use crate::answering::answer_taken;
use crate::door::NamesOf;
use crate::standing::{ascend, stand};
use crate::{Opening, Receipt};
use grove_line::Asked;
use grove_store::Store;
use grove_tree::{Gate, NoMemory};
use std::alloc::Global;
use std::marker::Model;
use std::sync::Wait;
use std::thread::Threads;

/// A round that was answered: the store before it, and the receipts of its lines.
#[derive(Debug, Drop)]
pub struct JournalEntry {
    pub before: Store,
    pub receipts: Vec<Receipt>,
}

impl Model for JournalEntry {
    ghost use Rattle.grove_desk.specs.Histories.{RoundState};

    ghost Value = { RoundState };

    ghost view = { λ entry. record { before = entry.before; receipts = entry.receipts.items } };
}

/// Every round since a desk was opened, and how many lines they had.
#[derive(Drop)]
pub(crate) struct Journal {
    entries: Vec<JournalEntry>,
    lines: u64,
}

impl Model for Journal {
    ghost use Rattle.grove_desk.specs.Ledgers.{JournalState};

    ghost Value = { JournalState };

    ghost view = { λ journal. record { rounds = journal.entries.items; lines = journal.lines } };
}

impl Journal {
    pub(crate) fn new(alloc: Global) -> Journal
        ensures { result ≡ record { rounds = []; lines = 0 } }
    {
        Journal {
            entries: Vec::new(alloc),
            lines: 0,
        }
    }

    /// Do the receipts stand in the journal, each once?
    pub(crate) fn has(&self, receipts: &[Receipt]) -> bool
        ensures { IsTrue result ↔ (Ascend receipts.now × All (StandsIn self.now.rounds) receipts.now) }
    {
        ascend(receipts) && stand(&self.entries, receipts)
    }

    /// The rounds.
    pub(crate) fn into_entries(self) -> Vec<JournalEntry>
        ensures { result.items ≡ self.rounds }
    {
        let Journal { entries, .. } = self;
        entries
    }

    /// Answers the first of the lines in one round of the store, and notes it. Where memory is refused, both are as
    /// they were: a copy of the store is made first, and comes back.
    pub(crate) fn answer<B: Opening, R: Threads + Wait + Sync, G: Gate + Sync>(
        &mut self,
        rt: &R,
        alloc: Global,
        store: &mut Store,
        taken: &mut [Asked<NamesOf<B>>],
        gate: &G,
    ) -> Result<Vec<Receipt>, NoMemory>
        requires few { (0 < length taken.old) × (length taken.old ≤ 16) }
        requires names { unweighed store.old.rows ≡ unweighed B.store.rows }
        ensures answered { IfOk result
            (λ receipts. AreAnswered store.old store.new taken.old taken.new receipts.items) }
        ensures numbered { IfOk result (λ receipts. AreNumberedFrom (Some self.old.lines) receipts.items) }
        ensures tickets { map (λ asked. asked.ticket) taken.new ≡ map (λ asked. asked.ticket) taken.old }
        ensures journal { IfOk result
            (λ receipts. self.new ≡ noted_in (record { before = store.old; receipts = receipts.items }) self.old) }
        ensures err { OnErr result ((self.new ≡ self.old) × (store.new ≡ store.old)) }
    {
        let before = store.copy(alloc)?;
        let receipts = answer_taken(rt, alloc, store, Some(self.lines), taken, gate)?;
        match self.note(alloc, before, &receipts) {
            Ok(()) => Ok(receipts),
            Err(before) => {
                *store = before;
                Err(NoMemory)
            }
        }
    }

    /// Notes a round with the store before it, which comes back where memory is refused.
    fn note(&mut self, alloc: Global, before: Store, receipts: &[Receipt]) -> Result<(), Store>
        ensures journal { IfOk result
            (λ _. self.new ≡ noted_in (record { before = before; receipts = receipts.now }) self.old) }
        ensures back { IfErr result (λ back. back ≡ before) }
        ensures err { OnErr result (self.new ≡ self.old) }
    {
        let Ok(receipts) = copies_of(alloc, receipts) else {
            return Err(before);
        };
        if self.entries.reserve(1).is_err() {
            return Err(before);
        }
        self.lines = self.lines.saturating_add(receipts.len() as u64);
        self.entries
            .push_reserved(JournalEntry { before, receipts });
        Ok(())
    }
}

fn copies_of(alloc: Global, receipts: &[Receipt]) -> Result<Vec<Receipt>, NoMemory>
    ensures { IfOk result (λ copies. copies.items ≡ receipts.now) }
{
    let mut copies = Vec::with_capacity(alloc, receipts.len())?;
    for receipt in receipts {
        copies.push(receipt.copy(alloc)?)?;
    }
    Ok(copies)
}
