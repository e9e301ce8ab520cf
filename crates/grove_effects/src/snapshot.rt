//! Snapshots: the names of a tree's nodes, and a store's numbers.
ghost use Rattle.std.specs.Prelude.{◌≡◌, ℕ, ◌<◌, ◌^◌, List, ◌++◌, length, All, Option, OnOk, IfOk, IfErr, MatchResult};
ghost use Rattle.std.specs.List.{flat_map};
ghost use Rattle.grove_effects.specs.Effects.{word, half, AreWords};
ghost use Rattle.grove_effects.specs.Snapshots.{Names, IsNamed, IsSnapshot, named_of, names_of, named_bytes};

use crate::number::{Unfit, split_half, split_word};
use grove_base::NoMemory;
use std::alloc::{AllocError, AllocFailed, Global};
use thiserror::Error;

/// A node's parent, which is an earlier node's number, and its name.
#[derive(Debug, Drop)]
pub struct NodeName {
    pub parent: Option<u32>,
    pub name: Vec<u8>,
}

/// What a snapshot holds.
#[derive(Debug, Drop)]
pub struct Snapshot {
    pub names: Vec<NodeName>,
    pub numbers: Vec<u64>,
}

/// Why a snapshot can't be read.
#[derive(Clone, Copy, Debug, PartialEq, Eq, Error)]
pub enum SnapshotFault {
    /// A growth was refused.
    #[error("memory")]
    Memory,
    /// The bytes aren't a snapshot.
    #[error("unfit bytes")]
    Unfit,
}

impl From<AllocError> for SnapshotFault {
    ghost use Rattle.std.specs.Prelude.{◌≡◌};
    ghost use Rattle.grove_effects.specs.declared.snapshot.SnapshotFault.TheVariants.{Memory};

    ghost from_gives = { λ _ fault. fault ≡ Memory };

    fn from(_error: AllocError) -> SnapshotFault {
        SnapshotFault::Memory
    }
}

impl<T: Drop> From<AllocFailed<T>> for SnapshotFault {
    ghost use Rattle.std.specs.Prelude.{◌≡◌};
    ghost use Rattle.grove_effects.specs.declared.snapshot.SnapshotFault.TheVariants.{Memory};

    ghost from_gives = { λ _ fault. fault ≡ Memory };

    fn from(_error: AllocFailed<T>) -> SnapshotFault {
        SnapshotFault::Memory
    }
}

impl From<Unfit> for SnapshotFault {
    ghost use Rattle.std.specs.Prelude.{◌≡◌};
    ghost use Rattle.grove_effects.specs.declared.snapshot.SnapshotFault.TheVariants.{Unfit as is_unfit};

    ghost from_gives = { λ _ fault. fault ≡ is_unfit };

    fn from(_error: Unfit) -> SnapshotFault {
        SnapshotFault::Unfit
    }
}

/// Puts the names, behind their count.
pub fn push_names(out: &mut Vec<u8>, names: &[NodeName]) -> Result<(), NoMemory>
    requires few { length names.now < 2 ^ 32 }
    requires named { All IsNamed (names_of names.now) }
    ensures { OnOk result (out.new.items
        ≡ out.old.items ++ half (length names.now) ++ flat_map named_bytes (names_of names.now)) }
{
    out.extend_from_slice(&(names.len() as u32).to_le_bytes())?;
    for node in names {
        push_name(out, node)?;
    }
    Ok(())
}

/// Puts a name.
fn push_name(out: &mut Vec<u8>, node: &NodeName) -> Result<(), NoMemory>
    requires { IsNamed (named_of node.now) }
    ensures { OnOk result (out.new.items ≡ out.old.items ++ named_bytes (named_of node.now)) }
{
    let parent = node.parent.map_or(0, |parent| parent + 1);
    out.extend_from_slice(&parent.to_le_bytes())?;
    out.push(node.name.len() as u8)?;
    out.extend_from_slice(&node.name)?;
    Ok(())
}

/// Reads a snapshot: its names, and numbers up to the end.
pub fn read_snapshot(alloc: Global, bytes: &[u8]) -> Result<Snapshot, SnapshotFault>
    ensures read { IfOk result (λ s. IsSnapshot (names_of s.names.items) s.numbers.items bytes.now) }
    ensures only { (names : Names) (numbers : List ℕ) → IsSnapshot names numbers bytes.now
        → MatchResult result (λ s. (names_of s.names.items ≡ names) × (s.numbers.items ≡ numbers))
        (λ fault. fault ≡ SnapshotFault.Memory) }
{
    let (count, rest) = split_half(bytes)?;
    let (names, rest) = read_names(alloc, count, rest)?;
    let numbers = read_numbers(alloc, rest)?;
    Ok(Snapshot { names, numbers })
}

/// Reads so many names. Returns the bytes behind them too.
fn read_names(
    alloc: Global,
    count: u32,
    bytes: &[u8],
) -> Result<(Vec<NodeName>, &[u8]), SnapshotFault>
    ensures count { IfOk result (λ read. length read.0.items ≡ count) }
    ensures named { IfOk result (λ read. All IsNamed (names_of read.0.items)) }
    ensures names { IfOk result (λ read. bytes.now ≡ flat_map named_bytes (names_of read.0.items) ++ read.1.now) }
    ensures refused { IfErr result (λ fault. (names : Names) (tail : List ℕ) → length names ≡ count
        → All IsNamed names → bytes.now ≡ flat_map named_bytes names ++ tail → fault ≡ SnapshotFault.Memory) }
{
    let mut names = Vec::new(alloc);
    let mut rest = bytes;
    while names.len() < count as usize {
        let (name, behind) = split_name(alloc, rest)?;
        names.push(name)?;
        rest = behind;
    }
    Ok((names, rest))
}

/// The name at the front of the bytes, and the bytes behind it.
fn split_name(alloc: Global, bytes: &[u8]) -> Result<(NodeName, &[u8]), SnapshotFault>
    ensures named { IfOk result (λ split. IsNamed (named_of split.0)) }
    ensures name { IfOk result (λ split. bytes.now ≡ named_bytes (named_of split.0) ++ split.1.now) }
    ensures refused { IfErr result (λ fault. (named : Option ℕ × List ℕ) (tail : List ℕ) → IsNamed named
        → bytes.now ≡ named_bytes named ++ tail → fault ≡ SnapshotFault.Memory) }
{
    let (number, rest) = split_half(bytes)?;
    let Some((len, rest)) = rest.split_first() else {
        return Err(SnapshotFault::Unfit);
    };
    let len = *len as usize;
    if rest.len() < len {
        return Err(SnapshotFault::Unfit);
    }
    let (name, behind) = rest.split_at(len);
    let node = NodeName {
        parent: number.checked_sub(1),
        name: name.to_vec(alloc)?,
    };
    Ok((node, behind))
}

/// Reads numbers up to the end.
fn read_numbers(alloc: Global, bytes: &[u8]) -> Result<Vec<u64>, SnapshotFault>
    ensures words { IfOk result (λ numbers. AreWords numbers.items) }
    ensures numbers { IfOk result (λ numbers. bytes.now ≡ flat_map word numbers.items) }
    ensures refused { IfErr result (λ fault. (numbers : List ℕ) → bytes.now ≡ flat_map word numbers
        → fault ≡ SnapshotFault.Memory) }
{
    let mut numbers = Vec::new(alloc);
    let mut rest = bytes;
    while !rest.is_empty() {
        let (number, behind) = split_word(rest)?;
        numbers.push(number)?;
        rest = behind;
    }
    Ok(numbers)
}
