use grove_store::{Keeper, Store, Unkept};
use std::alloc::Global;
use std::sync::atomic::{AtomicBool, Ordering};

/// What keeps no round of a desk, since copies of its store are kept beside it. Once one of these couldn't be kept, it
/// refuses every round.
#[derive(Drop)]
pub struct KeptBeside<'a> {
    has_failed: &'a AtomicBool,
}

impl<'a> KeptBeside<'a> {
    /// Beside copies by which it is said there whether one couldn't be kept.
    pub fn new(has_failed: &'a AtomicBool) -> KeptBeside<'a> {
        KeptBeside { has_failed }
    }
}

impl<'a> Keeper for KeptBeside<'a> {
    ghost stands_for = { λ _ _. Unit {0} };

    ghost leaves_only = { λ _ _ _. Unit {0} };

    fn keep(&mut self, _alloc: Global, _store: &Store) -> Result<(), Unkept> {
        if self.has_failed.load(Ordering::SeqCst) {
            Err(Unkept)
        } else {
            Ok(())
        }
    }
}
