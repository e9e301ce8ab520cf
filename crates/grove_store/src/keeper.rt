//! What keeps a store's rounds where they outlive the process.
ghost use Rattle.std.specs.Prelude.{◌≡◌, ◌⊎◌, OnOk};
ghost use Rattle.grove_store.specs.StoreStates.{StoreState, IsSuccessor};

use crate::Store;
use std::alloc::Global;
use thiserror::Error;

/// What a round left isn't kept, and nothing is from then on.
#[derive(Clone, Copy, Debug, PartialEq, Eq, Error)]
#[error("unkept")]
pub struct Unkept;

/// What keeps each round of a store before its lines have replies.
pub trait Keeper {
    /// A crash now leaves what opens as this store, and nothing else.
    ghost stands_for: { Self → StoreState → Type 0 };

    /// A crash at any moment from old to new leaves what opens as a store with this property.
    ghost leaves_only: { Self → Self → (StoreState → Type 0) → Type 0 };

    /// Keeps what a round left of the store that is kept. At `Ok` each crash from then on leaves that.
    fn keep(&mut self, alloc: Global, store: &Store) -> Result<(), Unkept>
        requires { (before : StoreState) × stands_for self.old before × IsSuccessor before store.now }
        ensures kept { OnOk result (stands_for self.new store.now) }
        ensures any_moment { (before : StoreState) → stands_for self.old before
            → leaves_only self.old self.new (λ left. (left ≡ before) ⊎ (left ≡ store.now)) };
}

/// What keeps nothing: a store that ends with its process.
#[derive(Clone, Copy, Debug)]
pub struct InMemory;

impl Keeper for InMemory {
    ghost stands_for = { λ _ _. Unit {0} };

    ghost leaves_only = { λ _ _ _. Unit {0} };

    fn keep(&mut self, _alloc: Global, _store: &Store) -> Result<(), Unkept> {
        Ok(())
    }
}
