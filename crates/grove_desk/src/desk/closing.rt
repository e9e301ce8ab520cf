ghost use Rattle.std.specs.Prelude.{◌≡◌, true, false, [], None, IfOk, IfErr, IfSome, IsSome, IsNone};
ghost use Rattle.grove_store.specs.StoreStates.{StoreState};
ghost use Rattle.grove_desk.specs.Histories.{IsHistory, Led};
ghost use Rattle.grove_desk.specs.Ledgers.{IsJournalOf};

use crate::journal::{Journal, JournalEntry};
use crate::ledger::LedgerParts;
use crate::{Desk, Opening, Receipt};
use grove_store::{InMemory, Keeper, Store};
use std::alloc::Global;

/// What a desk has left: its store, what kept it and, where one was kept, the journal of every round. Else the journal
/// is empty.
#[derive(Drop)]
pub struct Closed<K = InMemory> {
    pub store: Store,
    pub keeper: K,
    pub journal: Vec<JournalEntry>,
    /// Had it failed to keep a round? Then what is kept may be another store.
    pub failed: bool,
}

impl<B: Opening, K: Keeper + Drop> Desk<B, K> {
    /// Closes the desk. Where a journal was kept, it is refused, with the store, unless the receipts stand in the
    /// journal: their numbers rise, and each is the journal's of its number. `None` is answered where the store isn't
    /// there, which never comes: a call that takes it out puts it back. It takes no memory.
    pub fn close(self, alloc: Global, receipts: &[Receipt]) -> Result<Closed<K>, Option<Store>>
        ensures stands { IfOk result (λ closed. closed.failed ≡ false → K.stands_for closed.keeper closed.store) }
        ensures kept { IfOk result (λ closed. self.kept ≡ true
            → IsHistory self.opening receipts.now closed.journal.items closed.store) }
        ensures plain { IfOk result (λ closed. self.kept ≡ false → closed.journal.items ≡ []) }
        ensures led { IfOk result (λ closed. Led self.opening closed.store) }
        ensures back { IfErr result (λ back. IfSome back (Led self.opening)) }
        ensures gone { IfErr result (λ back. self.kept ≡ false → back ≡ None) }
    {
        let Desk { board, .. } = self;
        let Some(ledger) = board.into_inner().into_ledger() else {
            return Err(None);
        };
        let LedgerParts {
            store,
            keeper,
            journal,
            failed,
        } = ledger.into_parts();
        match entries_of(alloc, journal, receipts) {
            Some(journal) => Ok(Closed {
                store,
                keeper,
                journal,
                failed,
            }),
            None => Err(Some(store)),
        }
    }
}

/// The rounds of the journal, where the receipts stand in it, each once. Without a journal there are none.
fn entries_of(
    alloc: Global,
    journal: Option<Journal>,
    receipts: &[Receipt],
) -> Option<Vec<JournalEntry>>
    ensures history { (opening last : StoreState) → IsJournalOf opening journal last → IsSome journal
        → IfSome result (λ entries. IsHistory opening receipts.now entries.items last) }
    ensures refused { (opening last : StoreState) → IfSome journal (λ journal.
        IsHistory opening receipts.now journal.rounds last → IsSome result) }
    ensures plain { IsNone journal → IsSome result × IfSome result (λ entries. entries.items ≡ []) }
{
    let Some(journal) = journal else {
        return Some(Vec::new(alloc));
    };
    if !journal.has(receipts) {
        return None;
    }
    Some(journal.into_entries())
}
