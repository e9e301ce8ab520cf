//! Reading the store that a file stands for.
ghost use Rattle.std.specs.Prelude.{◌≡◌, ℕ, ◌<◌, ◌≤◌, ◌^◌, ◌↔◌, List, length, IsTrue, IfOk, IfErr, IsOk, OnOk};
ghost use Rattle.grove_tree.specs.Weights.{unweighed};
ghost use Rattle.grove_effects.specs.Effects.{LeadsTo};
ghost use Rattle.grove_effects.specs.Snapshots.{Names, names_of};
ghost use Rattle.grove_store.specs.StoreStates.{StoreState, IsStore};
ghost use Rattle.grove_data.specs.Numbers.{numbers_of, Hold};
ghost use Rattle.grove_data.specs.Files.{OpensAs};
ghost use Rattle.grove_data.specs.Refusals.{IsRefused};
ghost use Rattle.grove_data.specs.Parts.{AreNames, HasForm, IsStoreOf, IsFor};

use crate::rows::{records_of, tree_of, waits_of};
use grove_base::NoMemory;
use grove_effects::{Snapshot, SnapshotFault, Unfit, apply_effect, read_snapshot};
use grove_log::{Payloads, Unreadable};
use grove_store::Store;
use grove_tree::TreeFault;
use std::alloc::{AllocError, AllocFailed, Global};
use thiserror::Error;

/// No tree has more nodes.
const MOST_NODES: usize = 4096;

/// Why no store was read from a file.
#[derive(Clone, Copy, Debug, PartialEq, Eq, Error)]
pub enum NoStoreThere {
    /// A growth was refused.
    #[error("memory")]
    Memory,
    /// The file is no log, or a damaged one.
    #[error("unreadable")]
    Unreadable(Unreadable),
    /// It is a log, and what stands in it is no store.
    #[error("unfit")]
    Unfit,
}

impl From<NoMemory> for NoStoreThere {
    ghost use Rattle.grove_data.specs.declared.reading.NoStoreThere.TheVariants.{Memory};

    ghost from_gives = { λ _ made. made ≡ Memory };

    fn from(_error: NoMemory) -> NoStoreThere {
        NoStoreThere::Memory
    }
}

impl From<AllocError> for NoStoreThere {
    ghost use Rattle.grove_data.specs.declared.reading.NoStoreThere.TheVariants.{Memory};

    ghost from_gives = { λ _ made. made ≡ Memory };

    fn from(_error: AllocError) -> NoStoreThere {
        NoStoreThere::Memory
    }
}

impl<T: Drop> From<AllocFailed<T>> for NoStoreThere {
    ghost use Rattle.grove_data.specs.declared.reading.NoStoreThere.TheVariants.{Memory};

    ghost from_gives = { λ _ made. made ≡ Memory };

    fn from(_error: AllocFailed<T>) -> NoStoreThere {
        NoStoreThere::Memory
    }
}

impl From<Unreadable> for NoStoreThere {
    ghost use Rattle.grove_data.specs.declared.reading.NoStoreThere.TheVariants.{Unreadable as unreadable};

    ghost from_gives = { λ fault made. made ≡ unreadable fault };

    fn from(fault: Unreadable) -> NoStoreThere {
        NoStoreThere::Unreadable(fault)
    }
}

impl From<Unfit> for NoStoreThere {
    ghost use Rattle.grove_data.specs.declared.reading.NoStoreThere.TheVariants.{Unfit as unfit};

    ghost from_gives = { λ _ made. made ≡ unfit };

    fn from(_error: Unfit) -> NoStoreThere {
        NoStoreThere::Unfit
    }
}

impl From<TreeFault> for NoStoreThere {
    ghost use Rattle.grove_data.specs.Parts.{tree_fault_said};

    ghost from_gives = { λ fault made. made ≡ tree_fault_said fault };

    fn from(fault: TreeFault) -> NoStoreThere {
        match fault {
            TreeFault::Memory => NoStoreThere::Memory,
            _ => NoStoreThere::Unfit,
        }
    }
}

impl From<SnapshotFault> for NoStoreThere {
    ghost use Rattle.grove_data.specs.Parts.{fault_said};

    ghost from_gives = { λ fault made. made ≡ fault_said fault };

    fn from(fault: SnapshotFault) -> NoStoreThere {
        match fault {
            SnapshotFault::Memory => NoStoreThere::Memory,
            SnapshotFault::Unfit => NoStoreThere::Unfit,
        }
    }
}

/// Are there no more names than a tree has nodes, and as many numbers as a store of these has?
fn has_form(snapshot: &Snapshot) -> bool
    ensures { IsTrue result ↔ HasForm (length snapshot.now.names.items) (length snapshot.now.numbers.items) }
{
    snapshot.names.len() <= MOST_NODES && snapshot.numbers.len() == 3 * snapshot.names.len() + 1
}

/// Makes the numbers those that all the effects lead to, one after the other.
fn apply_all(numbers: &mut [u64], mut effects: Payloads<'_>) -> Result<(), Unfit>
    requires { length numbers.old < 2 ^ 32 }
    ensures led { OnOk result (LeadsTo numbers.old effects.entry numbers.new) }
    ensures only { (last : List ℕ) → LeadsTo numbers.old effects.entry last → IsOk result × (numbers.new ≡ last) }
    ensures length { length numbers.new ≡ length numbers.old }
{
    while let Some(effect) = effects.next_payload() {
        apply_effect(numbers, effect)?;
    }
    Ok(())
}

/// The names and the last numbers that payloads stand for.
fn read_numbers(alloc: Global, mut payloads: Payloads<'_>) -> Result<Snapshot, NoStoreThere>
    ensures read { IfOk result (λ s. Hold payloads.entry (names_of s.names.items) s.numbers.items) }
    ensures form { IfOk result (λ s. HasForm (length s.names.items) (length s.numbers.items)) }
    ensures only { (names : Names) (numbers : List ℕ) → Hold payloads.entry names numbers → AreNames names
        → HasForm (length names) (length numbers)
        → IfOk result (λ s. (names_of s.names.items ≡ names) × (s.numbers.items ≡ numbers)) }
    ensures unfit { IfErr result (IsFor ((names : Names) (numbers : List ℕ) → Hold payloads.entry names numbers
        → AreNames names → ¬ HasForm (length names) (length numbers))) }
{
    let Some(first) = payloads.next_payload() else {
        return Err(NoStoreThere::Unfit);
    };
    let mut snapshot = read_snapshot(alloc, first)?;
    if !has_form(&snapshot) {
        return Err(NoStoreThere::Unfit);
    }
    apply_all(&mut snapshot.numbers, payloads)?;
    Ok(snapshot)
}

/// The store of these names and numbers.
fn store_of(alloc: Global, snapshot: &Snapshot, workers: u32) -> Result<Store, NoStoreThere>
    requires form { HasForm (length snapshot.now.names.items) (length snapshot.now.numbers.items) }
    requires workers { (1 ≤ workers) × (workers ≤ 16) }
    ensures store { IfOk result (IsStoreOf (names_of snapshot.now.names.items) snapshot.now.numbers.items workers) }
    ensures unfit { IfErr result (IsFor ((other : StoreState) → IsStore other
        → unweighed other.rows ≡ names_of snapshot.now.names.items
        → ¬ (numbers_of other ≡ snapshot.now.numbers.items))) }
{
    let nodes = snapshot.names.len();
    let (weights, behind) = snapshot.numbers.split_at(nodes);
    let (bits, behind) = behind.split_at(nodes);
    let (waits, rounds) = behind.split_at(nodes);
    let tree = tree_of(alloc, &snapshot.names, weights)?;
    let records = records_of(alloc, bits)?;
    let waits = waits_of(alloc, waits)?;
    let store = Store::resume(alloc, tree, records, waits, workers, rounds[0]);
    // What holds of every store is told there.
    let _ = store.tree();
    Ok(store)
}

/// The store that a file stands for, whatever a crash made of its end.
pub fn read_store(alloc: Global, file: &[u8], workers: u32) -> Result<Store, NoStoreThere>
    requires { (1 ≤ workers) × (workers ≤ 16) }

    ensures read { IfOk result (OpensAs file.now) }
    ensures workers { IfOk result (λ store. store.workers ≡ workers) }

    // It opens as no other store with as many workers.
    ensures only { IfOk result (λ store. (other : StoreState) → OpensAs file.now other
        → other.workers ≡ store.workers → other ≡ store) }

    ensures refused { IfErr result (IsRefused file.now) }
{
    let payloads = grove_log::read(file)?;
    let snapshot = read_numbers(alloc, payloads)?;
    store_of(alloc, &snapshot, workers)
}
