ghost use Rattle.std.specs.Prelude.{◌≡◌, true, false, Err, ◌<◌, ◌↔◌, ◌⊎◌, length, map, All, IfOk, OnOk, IsSome};
ghost use Rattle.std.specs.Vec.{vec_capacity};
ghost use Rattle.grove_desk.specs.Histories.{Led, IsKept, IsDeskReceipt};
ghost use Rattle.grove_desk.specs.Ledgers.{IsJournalOf, AreAnsweredInTurn};

use crate::door::NamesOf;
use crate::fault::NoReceipt;
use crate::journal::Journal;
use crate::rounds::answer_rounds;
use crate::{DeskFault, Opening, Receipt, RoundWatch};
use grove_build::PlanCounts;
use grove_line::Asked;
use grove_store::{Keeper, Store, Unkept};
use grove_tree::Gate;
use std::alloc::Global;
use std::marker::{Model, PhantomData};
use std::sync::Wait;
use std::thread::Threads;

/// The store of a desk, what keeps it and, where one is kept, the journal of all that it answered. They change
/// together, until a round can't be kept: then nothing is answered any more, and nothing told of the store.
#[derive(Drop)]
pub(crate) struct Ledger<B: Opening, K: Keeper> {
    store: Store,
    keeper: K,
    journal: Option<Journal>,
    failed: bool,
    of: PhantomData<B>,
}

impl<B: Opening, K: Keeper> Model for Ledger<B, K> {
    ghost use Rattle.grove_desk.specs.Ledgers.{LedgerState, IsLedger};

    ghost Value = { LedgerState K };

    ghost view = { λ ledger. record {
      store = ledger.store;
      keeper = ledger.keeper;
      journal = ledger.journal;
      failed = ledger.failed;
    } };

    ghost invariant = { λ ledger. IsLedger K.stands_for B.store B.kept record {
      store = ledger.store;
      keeper = ledger.keeper;
      journal = ledger.journal;
      failed = ledger.failed;
    } };
}

/// What a ledger was.
pub(crate) struct LedgerParts<K> {
    pub store: Store,
    pub keeper: K,
    pub journal: Option<Journal>,
    pub failed: bool,
}

impl<B: Opening, K: Keeper> Ledger<B, K> {
    /// A ledger that has answered nothing.
    pub(crate) fn new(alloc: Global, store: Store, keeper: K, kept: bool) -> Self
        requires store { store ≡ B.store }
        requires kept { kept ≡ B.kept }
        requires stands { K.stands_for keeper store }
    {
        Ledger {
            store,
            keeper,
            journal: kept.then(|| Journal::new(alloc)),
            failed: false,
            of: PhantomData,
        }
    }

    pub(crate) fn into_parts(self) -> LedgerParts<K>
        ensures led { Led B.store result.store }
        ensures kept { IsJournalOf B.store result.journal result.store }
        ensures journal { IsSome result.journal ↔ (B.kept ≡ true) }
        ensures stands { result.failed ≡ false → K.stands_for result.keeper result.store }
    {
        let Ledger {
            store,
            keeper,
            journal,
            failed,
            of: _,
        } = self;
        LedgerParts {
            store,
            keeper,
            journal,
            failed,
        }
    }

    /// How many rounds the store has run.
    pub(crate) fn rounds(&self) -> u64 {
        self.store.rounds()
    }

    /// What the store has counted of plans.
    pub(crate) fn plan_counts(&self) -> PlanCounts {
        self.store.plan_counts()
    }

    /// Has it failed to keep a round?
    pub(crate) fn has_failed(&self) -> bool
        ensures { result ≡ self.now.failed }
    {
        self.failed
    }

    /// A copy of the store, as it is kept.
    pub(crate) fn store_copy(&self, alloc: Global) -> Result<Store, DeskFault>
        ensures led { IfOk result (Led B.store) }
        ensures kept { IfOk result (IsKept K.stands_for) }
    {
        if self.failed {
            return Err(DeskFault::Unkept);
        }
        Ok(self.store.copy(alloc)?)
    }

    /// Answers the lines by rounds, notes these where a journal is kept, and keeps what the last one left. Each line
    /// has a receipt, which takes it; where memory is refused in a later round, the others stay. Where it is in the
    /// first one, nothing has changed. Where the store can't be kept, or couldn't before, there are no receipts.
    pub(crate) fn answer<R: Threads + Wait + Sync, G: Gate + Sync, W: RoundWatch<R>>(
        &mut self,
        rt: &R,
        alloc: Global,
        taken: &mut Vec<Asked<NamesOf<B>>>,
        gate: &G,
        watch: &W,
    ) -> Result<Vec<Receipt>, NoReceipt>
        requires { 0 < length taken.old.items }
        ensures answered { IfOk result
            (λ receipts. AreAnsweredInTurn self.old.store self.new.store self.old.journal self.new.journal
            taken.old.items taken.new.items receipts.items) }
        ensures receipts { IfOk result (λ receipts. All (IsDeskReceipt K.stands_for B.store B.kept) receipts.items) }
        ensures tickets { map (λ asked. asked.ticket) taken.new.items ≡ map (λ asked. asked.ticket) taken.old.items }
        ensures room { vec_capacity taken.new ≡ vec_capacity taken.old }
        ensures kept { OnOk result (K.stands_for self.new.keeper self.new.store) }
        ensures any_moment { self.old.failed ≡ false → (result ≡ Err NoReceipt.Memory → ⊥)
            → K.leaves_only self.old.keeper self.new.keeper
            (λ left. (left ≡ self.old.store) ⊎ (left ≡ self.new.store)) }
        ensures memory { result ≡ Err NoReceipt.Memory → self.new ≡ self.old }
        ensures failed { result ≡ Err NoReceipt.Unkept ↔ (self.new.failed ≡ true) }
        ensures refused { self.old.failed ≡ true → self.new ≡ self.old }
    {
        if self.failed {
            return Err(NoReceipt::Unkept);
        }
        let (store, journal) = (&mut self.store, &mut self.journal);
        let receipts = answer_rounds(rt, alloc, store, journal, taken, gate, watch)?;
        match self.keeper.keep(alloc, &self.store) {
            Ok(()) => Ok(receipts),
            Err(Unkept) => {
                self.failed = true;
                Err(NoReceipt::Unkept)
            }
        }
    }
}
