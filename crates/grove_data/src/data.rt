//! A store's file while it is open: each round is in it before the round's lines have replies.
ghost use Rattle.std.specs.Prelude.{◌≡◌, ℕ, List, [], ◌<◌, ◌+◌, ◌*◌, ◌^◌, ◌⊎◌, ◌++◌, IsTrue, IfOk, OnOk, length};
ghost use Rattle.std.specs.Prelude.{All, FitsSigned};
ghost use Rattle.std.specs.Int.{w64};
ghost use Rattle.std.specs.List.{flat_map};
ghost use Rattle.grove_log.specs.Devices.{Only, LeavesOnly};
ghost use Rattle.grove_log.specs.Files.{recovered};
ghost use Rattle.grove_log.specs.Logs.{IsSettled};
ghost use Rattle.grove_tree.specs.Weights.{unweighed};
ghost use Rattle.grove_effects.specs.Effects.{word};
ghost use Rattle.grove_effects.specs.Snapshots.{snapshot};
ghost use Rattle.grove_store.specs.StoreStates.{StoreState, IsStore, IsSuccessor};
ghost use Rattle.grove_data.specs.Numbers.{numbers_of};
ghost use Rattle.grove_data.specs.Files.{OpensAs, OpensWith, IsOldOrOpens};
ghost use Rattle.grove_data.specs.Parts.{AreNext, IsOldOrNext};

use crate::naming::names_of;
use crate::numbers::keep_store;
use grove_base::NoMemory;
use grove_effects::{push_names, push_numbers};
use grove_log::{Folder, Log, LogError, Seal};
use grove_store::{Keeper, Store, Unkept};
use std::alloc::Global;

/// Effects may always take so many bytes before a new snapshot takes their place.
const FEW_BYTES: u64 = 4 * 1024 * 1024;

/// And so many times what the snapshot before them takes.
const SNAPSHOTS: u64 = 4;

/// How many bytes a log's file has before its first payload's frame, and how many a frame has besides its payload.
const HEAD: u64 = 44;

const FRAME: u64 = 40;

/// A store's file that is open. A round's effect is in it before the round's lines have replies. Once it has failed,
/// it keeps nothing more.
#[derive(Drop)]
pub struct Data<F: Folder> {
    log: Log<F>,
    /// The names of the nodes, as a snapshot begins with them. They never change.
    names: Vec<u8>,
    /// The numbers of the store that is kept. Once it has failed, nothing is known of them.
    kept: Vec<u64>,
    /// Nothing is known of it between two calls.
    payload: Vec<u8>,
    /// How many bytes the snapshot's payload takes, and the frames behind it.
    snapshot: u64,
    behind: u64,
    failure: Option<LogError>,
}

/// What a file begins with: a snapshot, with its names and its numbers.
#[derive(Drop)]
struct Opening {
    names: Vec<u8>,
    numbers: Vec<u64>,
    payload: Vec<u8>,
}

/// A snapshot of names, which are bytes already, and numbers.
fn put_snapshot(out: &mut Vec<u8>, names: &[u8], numbers: &[u64]) -> Result<(), NoMemory>
    ensures { OnOk result (out.new.items ≡ names.now ++ flat_map word numbers.now) }
{
    out.clear();
    out.extend_from_slice(names)?;
    push_numbers(out, numbers)
}

/// What a file that stands for this store begins with.
fn opening_of(alloc: Global, store: &Store) -> Result<Opening, NoMemory>
    ensures store { IfOk result (λ _. IsStore store.now × All (FitsSigned w64) store.now.records) }
    ensures names { IfOk result (λ made. made.names.items ≡ snapshot (unweighed store.now.rows) []) }
    ensures numbers { IfOk result (λ made. made.numbers.items ≡ numbers_of store.now) }
    ensures payload { IfOk result (λ made. made.payload.items
        ≡ made.names.items ++ flat_map word made.numbers.items) }
{
    let mut names = Vec::new(alloc);
    push_names(&mut names, &names_of(alloc, store.tree())?)?;
    let mut numbers = vec![in alloc; 0; 3 * store.tree().len() as usize + 1]?;
    let mut payload = Vec::new(alloc);
    keep_store(&mut payload, &mut numbers, store)?;
    put_snapshot(&mut payload, &names, &numbers)?;
    Ok(Opening {
        names,
        numbers,
        payload,
    })
}

impl<F: Folder> Data<F> {
    ghost use Rattle.grove_data.specs.Keeping.{device_of, Keeps};

    /// The count of rounds of the store that is kept. What holds while one is kept is told here.
    pub fn rounds(&self) -> u64
        ensures rounds { (store : StoreState) → Keeps F.seen F.may_leave F.faults self.now store
            → result ≡ store.rounds }
        ensures there { (store : StoreState) (file : List ℕ) → Keeps F.seen F.may_leave F.faults self.now store
            → F.may_leave (device_of self.now) file → OpensAs file store }
    {
        self.kept.last().copied().unwrap_or(0)
    }

    /// How many bytes the file has.
    pub fn bytes(&self) -> u64 {
        self.snapshot
            .saturating_add(self.behind)
            .saturating_add(HEAD + FRAME)
    }

    /// Why nothing more is kept, if it has failed.
    pub fn failure(&self) -> Option<&LogError> {
        self.failure.as_ref()
    }

    /// Is it time for a new snapshot?
    fn is_long(&self) -> bool {
        self.behind > FEW_BYTES && self.behind > self.snapshot.saturating_mul(SNAPSHOTS)
    }

    /// Puts the payload behind those in the log, or the snapshot of the kept numbers in their place.
    fn write(&mut self, alloc: Global) -> Result<(), LogError>
        requires settled { IsTrue self.old.log.accepts × IsSettled F.seen F.may_leave F.faults self.old.log }
        requires short { length self.old.payload.items < 2 ^ 32 }
        requires whole { length self.old.names.items + 8 * length self.old.kept.items < 2 ^ 32 }
        ensures acknowledged { OnOk result (IsTrue self.new.log.accepts
            × IsSettled F.seen F.may_leave F.faults self.new.log
            × AreNext (recovered (F.seen self.old.log.device)) self.old.payload.items
            (self.old.names.items ++ flat_map word self.old.kept.items) (recovered (F.seen self.new.log.device))) }
        ensures any_moment { LeavesOnly F.moment F.left_since self.old.log.device self.new.log.device
            (IsOldOrNext (recovered (F.seen self.old.log.device)) self.old.payload.items
            (self.old.names.items ++ flat_map word self.old.kept.items)) }
        ensures same { (self.new.names ≡ self.old.names) × (self.new.kept ≡ self.old.kept) }
    {
        if self.is_long() {
            put_snapshot(&mut self.payload, &self.names, &self.kept)?;
            let number = self.log.seal;
            self.log.restart(alloc, &number, &self.payload)?;
            self.snapshot = self.payload.len() as u64;
            self.behind = 0;
        } else {
            self.log.append(alloc, &self.payload)?;
            self.behind = self
                .behind
                .saturating_add(self.payload.len() as u64)
                .saturating_add(FRAME);
        }
        Ok(())
    }

    /// Keeps what changed, if anything did.
    fn keep_change(&mut self, alloc: Global, store: &Store) -> Result<(), LogError>
        requires { (before : StoreState) × Keeps F.seen F.may_leave F.faults self.old before
            × IsSuccessor before store.now }
        ensures kept { OnOk result (Keeps F.seen F.may_leave F.faults self.new store.now) }
        ensures any_moment { (before : StoreState) → Keeps F.seen F.may_leave F.faults self.old before
            → LeavesOnly F.moment F.left_since (device_of self.old) (device_of self.new)
            (OpensWith (λ left. (left ≡ before) ⊎ (left ≡ store.now))) }
    {
        self.payload.clear();
        keep_store(&mut self.payload, &mut self.kept, store)?;
        if self.payload.is_empty() {
            return Ok(());
        }
        self.write(alloc)
    }
}

impl<F: Folder + Drop> Data<F> {
    ghost use Rattle.grove_data.specs.Keeping.{device_of, Keeps};

    /// Begins a file that stands for this store, in place of the one that is there. The number is to be a fresh one.
    pub fn begin(
        alloc: Global,
        device: F,
        number: &Seal,
        store: &Store,
    ) -> Result<Data<F>, LogError>
        requires durable { Only (F.seen device) (F.may_leave device) }
        requires unfailed { F.faults device ≡ 0 }
        ensures stands { IfOk result (λ made. Keeps F.seen F.may_leave F.faults made store.now) }

        // A crash at any moment of the call leaves the old file, or one that opens as this store.
        ensures any_moment { IfOk result (λ made. LeavesOnly F.moment F.left_since device (device_of made)
            (IsOldOrOpens (F.seen device) store.now)) }
    {
        let Opening {
            names,
            numbers,
            payload,
        } = opening_of(alloc, store)?;
        let mut log = Log {
            device,
            seal: *number,
            accepts: true,
        };
        log.restart(alloc, number, &payload)?;
        let snapshot = payload.len() as u64;
        Ok(Data {
            log,
            names,
            kept: numbers,
            payload,
            snapshot,
            behind: 0,
            failure: None,
        })
    }
}

impl<F: Folder> Keeper for Data<F> {
    ghost use Rattle.grove_data.specs.Keeping.{device_of, Keeps};

    ghost stands_for = { λ held store. Keeps F.seen F.may_leave F.faults held store };

    ghost leaves_only = { λ old new P.
        LeavesOnly F.moment F.left_since (device_of old) (device_of new) (OpensWith P) };

    fn keep(&mut self, alloc: Global, store: &Store) -> Result<(), Unkept> {
        match self.keep_change(alloc, store) {
            Ok(()) => Ok(()),
            Err(error) => {
                self.log.accepts = false;
                self.failure = Some(error);
                Err(Unkept)
            }
        }
    }
}
