//! What keeps the rounds of a served store.
ghost use Rattle.std.specs.Prelude.{◌≡◌, ◌⊎◌, OnOk};
ghost use Rattle.grove_store.specs.StoreStates.{StoreState};
ghost use Rattle.grove.specs.Keepers.{of_file};

use crate::failure::{DataFailure, Failure};
use grove_data::Data;
use grove_disk::LogFile;
use grove_log::{DeviceError, LogError};
use grove_serve::FileCounts;
use grove_store::{Keeper, Store, Unkept};
use std::alloc::Global;
use std::io::{self, ErrorKind};
use std::sync::Arc;
use std::time::Instant;

/// Nothing, or what keeps them in a file.
#[derive(Drop)]
pub enum RoundKeeper<K> {
    InMemory,
    InFile(K),
}

/// A file of the system in which rounds are kept, whose syncs are counted.
#[derive(Drop)]
pub struct KeptFile<'d> {
    pub data: Data<LogFile<'d, HostRuntime>>,
    pub counts: Arc<FileCounts>,
    pub clock: &'d HostRuntime,
}

impl<K: Keeper> Keeper for RoundKeeper<K> {
    ghost use Rattle.grove.specs.Keepers.{of_file};

    ghost stands_for = { λ keeper store. of_file keeper (λ kept. K.stands_for kept store) };

    ghost leaves_only = { λ old new P. of_file old (λ before. of_file new (λ after. K.leaves_only before after P)) };

    fn keep(&mut self, alloc: Global, store: &Store) -> Result<(), Unkept> {
        match self {
            RoundKeeper::InMemory => Ok(()),
            RoundKeeper::InFile(kept) => kept.keep(alloc, store),
        }
    }
}

impl<'d> Keeper for KeptFile<'d> {
    ghost stands_for = { λ file store. ⟦<Data<LogFile<'d, HostRuntime>> as Keeper>⟧.stands_for file.data store };

    ghost leaves_only = { λ old new P. ⟦<Data<LogFile<'d, HostRuntime>> as Keeper>⟧.leaves_only old.data new.data P };

    /// Counts the sync that this takes, if it takes one.
    fn keep(&mut self, alloc: Global, store: &Store) -> Result<(), Unkept> {
        let began = Instant::now(self.clock).ok();
        let before = self.data.bytes();
        self.data.keep(alloc, store)?;
        if self.data.bytes() != before {
            let time = began.and_then(|began| began.elapsed(self.clock).ok());
            self.counts
                .note_sync(self.data.rounds(), self.data.bytes(), time);
        }
        Ok(())
    }
}

impl<'d> RoundKeeper<KeptFile<'d>> {
    /// Why a round couldn't be kept, if one couldn't.
    pub fn failure(&self) -> Option<Failure> {
        match self {
            RoundKeeper::InMemory => None,
            RoundKeeper::InFile(file) => Some(failure_of(file.data.failure()?)),
        }
    }
}

/// What the keeping of a round failed for.
fn failure_of(error: &LogError) -> Failure {
    match error {
        LogError::Failed(DeviceError::Failed(error)) => Failure::Data(DataFailure::Keep(*error)),
        LogError::Memory | LogError::Failed(DeviceError::Memory) | LogError::Refused => {
            Failure::Data(DataFailure::Keep(io::Error::from(ErrorKind::OutOfMemory)))
        }
    }
}
