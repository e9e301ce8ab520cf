ghost use Rattle.std.specs.Prelude.{◌≡◌, ◌*◌, ◌<◌, ◌≤◌, ◌++◌, ◌∷◌, [], length, map, Some, IfOk, OnOk};
ghost use Rattle.grove_build.specs.Networks.{bound, arc_to, part, row_arcs, arcs_from, needs_from, start_of};
ghost use Rattle.grove_build.specs.Networks.{IsBounded, AreBounded};

use crate::kinds::Kind;
use grove_flow::{Arc, Network};
use grove_span::SpanRow;
use grove_tree::NoMemory;
use std::alloc::Global;

/// The network of the rows: arcs in the rows' order, and each node's weight as a need. The base comes after the locks
/// and releases of all rows.
pub fn network_of(alloc: Global, rows: &[SpanRow], weights: &[u32]) -> Result<Network, NoMemory>
    requires few { length rows.now ≤ 4096 }
    requires bounds { AreBounded rows.now }
    ensures arcs { IfOk result (λ network. network.arcs.items ≡ arcs_from (2 * length rows.now) 0 rows.now) }
    ensures needs { IfOk result (λ network. network.needs.items ≡ needs_from weights.now) }
{
    let base = 2 * rows.len() as u32;
    let mut arcs = Vec::with_capacity(alloc, 5 * rows.len())?;
    for (k, row) in rows.iter().enumerate() {
        push_row(&mut arcs, base, k as u32, row)?;
    }
    let needs = needs_of(alloc, weights)?;
    Ok(Network { arcs, needs })
}

fn push_row(arcs: &mut Vec<Arc>, base: u32, k: u32, row: &SpanRow) -> Result<(), NoMemory>
    requires place { k < 4096 }
    requires bounds { IsBounded row.now }
    ensures { OnOk result (arcs.new.items ≡ arcs.old.items ++ row_arcs base k row.now) }
{
    push_arc(arcs, Kind::Above, base, k, row)?;
    push_arc(arcs, Kind::Held, base, k, row)?;
    push_arc(arcs, Kind::First, base, k, row)?;
    push_arc(arcs, Kind::Last, base, k, row)?;
    push_arc(arcs, Kind::Own, base, k, row)?;
    Ok(())
}

/// Pushes the arc, where the row has it.
fn push_arc(
    arcs: &mut Vec<Arc>,
    kind: Kind,
    base: u32,
    k: u32,
    row: &SpanRow,
) -> Result<(), NoMemory>
    requires place { k < 4096 }
    requires bounds { IsBounded row.now }
    ensures { OnOk result (arcs.new.items ≡ arcs.old.items ++ part (bound row.now kind) (arc_to base k kind)) }
{
    if let Some(bound) = kind.bound(row) {
        arcs.push(kind.arc(base, k, bound))?;
    }
    Ok(())
}

/// The weight of each row.
pub fn weights_of(alloc: Global, rows: &[SpanRow]) -> Result<Vec<u32>, NoMemory>
    ensures { IfOk result (λ weights. weights.items ≡ map (λ row. row.weight) rows.now) }
{
    Ok(rows.iter().map(|row| row.weight).collect(alloc)?)
}

fn needs_of(alloc: Global, weights: &[u32]) -> Result<Vec<i64>, NoMemory>
    ensures { IfOk result (λ needs. needs.items ≡ needs_from weights.now) }
{
    let mut needs = Vec::with_capacity(alloc, weights.len().saturating_mul(2).saturating_add(1))?;
    for weight in weights {
        let weight = i64::from(*weight);
        push_pair(&mut needs, -weight, weight)?;
    }
    needs.push(0)?;
    Ok(needs)
}

/// The places to begin from: every lock before the first access, every release after all `slots`.
pub fn start_of(alloc: Global, rows: &[SpanRow], slots: u32) -> Result<Vec<i64>, NoMemory>
    ensures { IfOk result (λ start. start.items ≡ start_of slots rows.now) }
{
    let end = i64::from(slots);
    let mut start = Vec::new(alloc);
    for _row in rows {
        push_pair(&mut start, 0, end)?;
    }
    start.push(0)?;
    Ok(start)
}

/// Pushes what a row's lock has, and what its release has.
fn push_pair(numbers: &mut Vec<i64>, lock: i64, release: i64) -> Result<(), NoMemory>
    ensures { OnOk result (numbers.new.items ≡ numbers.old.items ++ (lock ∷ (release ∷ []))) }
{
    numbers.push(lock)?;
    numbers.push(release)?;
    Ok(())
}
