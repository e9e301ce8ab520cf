//! Copies of a desk's store, each kept in place of the one before, while the desk goes on.
ghost use Rattle.std.specs.Prelude.{◌≡◌, ◌⊎◌, ◌↔◌, true, false, IsErr, OnOk};
ghost use Rattle.grove_desk.specs.Histories.{Led};
ghost use Rattle.grove_data.specs.Copies.{KeepsLed};

use grove_desk::Opening;
use grove_store::{Keeper, Store, Unkept};
use std::alloc::Global;
use std::marker::{Model, PhantomData};
use std::sync::atomic::{AtomicBool, Ordering};

/// What keeps copies of the store of a desk, which was opened with the one that the type says. Once a copy couldn't be
/// kept, no other is.
#[derive(Drop)]
pub struct KeptCopies<'a, B: Opening, K: Keeper> {
    keeper: K,
    failed: bool,
    /// Where the desk's own keeper looks.
    has_failed: &'a AtomicBool,
    of: PhantomData<B>,
}

impl<'a, B: Opening, K: Keeper> Model for KeptCopies<'a, B, K> {
    ghost use Rattle.std.specs.Prelude.{◌≡◌, false};
    ghost use Rattle.grove_data.specs.Copies.{CopiesState, KeepsLed};

    ghost Value = { CopiesState K };

    ghost view = { λ copies. record { keeper = copies.keeper; failed = copies.failed } };

    ghost invariant = { λ copies. copies.failed ≡ false → KeepsLed K.stands_for B.store copies.keeper };
}

impl<'a, B: Opening, K: Keeper> KeptCopies<'a, B, K> {
    /// The store that the desk is opened with is kept, and no copy yet.
    pub fn new(keeper: K, store: &Store, has_failed: &'a AtomicBool) -> Self
        requires store { store.now ≡ B.store }
        requires stands { K.stands_for keeper store.now }
        ensures { result ≡ record { keeper = keeper; failed = false } }
    {
        // What holds of every store is told there.
        let _ = store.tree();
        KeptCopies {
            keeper,
            failed: false,
            has_failed,
            of: PhantomData,
        }
    }

    /// Keeps a copy of the desk's store in place of what was kept last. At `Ok` each crash from then on leaves that. If
    /// it can't be kept, the desk's own keeper refuses every round from then on.
    pub fn keep_copy(&mut self, alloc: Global, copy: &Store) -> Result<(), Unkept>
        requires led { Led B.store copy.now }
        ensures kept { OnOk result (K.stands_for self.new.keeper copy.now) }
        ensures any_moment { self.old.failed ≡ false → (before : KeepsLed K.stands_for B.store self.old.keeper)
            × K.leaves_only self.old.keeper self.new.keeper
            (λ left. (left ≡ before.last) ⊎ (left ≡ copy.now)) }
        ensures failed { IsErr result ↔ (self.new.failed ≡ true) }
        ensures refused { self.old.failed ≡ true → self.new ≡ self.old }
    {
        if self.failed {
            return Err(Unkept);
        }
        // What holds of every store is told there.
        let _ = copy.tree();
        match self.keeper.keep(alloc, copy) {
            Ok(()) => Ok(()),
            Err(Unkept) => {
                self.failed = true;
                self.has_failed.store(true, Ordering::SeqCst);
                Err(Unkept)
            }
        }
    }

    /// What kept the copies.
    pub fn into_keeper(self) -> K
        ensures { result ≡ self.entry.keeper }
    {
        let KeptCopies { keeper, .. } = self;
        keeper
    }
}
