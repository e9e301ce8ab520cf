ghost use Rattle.std.specs.Prelude.{◌≡◌, ◌<◌, ◌↔◌, ◌-◌, ◌+ℤ◌, pos, length, replicate, true, false, IfOk, IsTrue};
ghost use Rattle.grove_base.specs.Numbers.{sum_below};
ghost use Rattle.grove_flow.specs.Networks.{AreArcsOf, AreLawful, IsArcOf, IsLawful, place};
ghost use Rattle.grove_flow.specs.Flows.{IsSolution, takes};
ghost use Rattle.grove_flow.specs.Checks.{AreAmountsUpTo, AreMet, AreTotals, IsBalanced};

use crate::{Arc, Network};
use grove_base::NoMemory;
use std::alloc::Global;

/// Whether amounts and places are a solution of a network, as `solve` gives one. They may be any numbers. It takes one
/// pass over the arcs.
///
/// The only error is running out of memory: a table keeps what enters and what leaves each variable.
pub fn is_solution(
    alloc: Global,
    network: &Network,
    amounts: &[u64],
    places: &[i64],
) -> Result<bool, NoMemory>
    requires arcs { AreArcsOf network.now.arcs.items (length network.now.needs.items) }
    ensures exact { IfOk result
        (λ holds. IsTrue holds ↔ IsSolution network.now.needs.items network.now.arcs.items amounts.now places.now) }
{
    let count = network.needs.len();
    if amounts.len() != network.arcs.len() || places.len() != count {
        return Ok(false);
    }
    let mut into = vec![in alloc; 0u128; count]?;
    let mut out = vec![in alloc; 0u128; count]?;
    Ok(holds(network, amounts, places, &mut into, &mut out))
}

// The test itself, over two tables of zeros.
fn holds(
    network: &Network,
    amounts: &[u64],
    places: &[i64],
    into: &mut [u128],
    out: &mut [u128],
) -> bool
    requires arcs { AreArcsOf network.now.arcs.items (length network.now.needs.items) }
    requires amounts { length amounts.now ≡ length network.now.arcs.items }
    requires places { length places.now ≡ length network.now.needs.items }
    requires into { into.old ≡ replicate (length places.now) 0 }
    requires out { out.old ≡ replicate (length places.now) 0 }
    ensures { IsTrue result ↔ IsSolution network.now.needs.items network.now.arcs.items amounts.now places.now }
{
    let most = all_taken(&network.needs);
    if !is_based(places) || !are_lawful(&network.arcs, amounts, places, most, into, out) {
        return false;
    }
    are_met(&network.needs, into, out)
}

// The base, the last variable, is at 0.
fn is_based(places: &[i64]) -> bool
    ensures { IsTrue result ↔ (place places.now (length places.now - 1) ≡ pos 0) }
{
    match places.last() {
        Some(base) => *base == 0,
        None => true,
    }
}

// What all variables together are to take.
fn all_taken(needs: &[i64]) -> u128
    ensures { result ≡ sum_below (length needs.now) (takes needs.now) }
{
    let mut taken = 0;
    for need in needs {
        if *need > 0 {
            taken += u128::from(need.unsigned_abs());
        }
    }
    taken
}

// Each amount is at most so much, and each arc is met, tightly where an amount is sent along it. Adds up what enters
// and what leaves each variable.
fn are_lawful(
    arcs: &[Arc],
    amounts: &[u64],
    places: &[i64],
    most: u128,
    into: &mut [u128],
    out: &mut [u128],
) -> bool
    requires arcs { AreArcsOf arcs.now (length places.now) }
    requires amounts { length amounts.now ≡ length arcs.now }
    requires into { into.old ≡ replicate (length places.now) 0 }
    requires out { out.old ≡ replicate (length places.now) 0 }
    ensures lawful { result ≡ true → AreLawful arcs.now amounts.now places.now }
    ensures bounded { result ≡ true → AreAmountsUpTo amounts.now most }
    ensures totals { result ≡ true → AreTotals arcs.now amounts.now into.new out.new }
    ensures refused { result ≡ false → AreLawful arcs.now amounts.now places.now → AreAmountsUpTo amounts.now most → ⊥ }
{
    for (i, arc) in arcs.iter().enumerate() {
        let amount = u128::from(amounts[i]);
        if amount > most || !is_lawful(*arc, amounts[i], places) {
            return false;
        }
        out[arc.from as usize] += amount;
        into[arc.to as usize] += amount;
    }
    true
}

fn is_lawful(arc: Arc, amount: u64, places: &[i64]) -> bool
    requires { IsArcOf (length places.now) arc }
    ensures { IsTrue result ↔ IsLawful arc amount places.now }
{
    let slack = wide_slack(arc, places);
    slack >= 0 && (amount == 0 || slack <= 0)
}

// How far an arc is from being tight, for any places.
fn wide_slack(arc: Arc, places: &[i64]) -> i128
    requires { IsArcOf (length places.now) arc }
    ensures { place places.now arc.from +ℤ arc.least +ℤ result ≡ place places.now arc.to }
{
    let apart = i128::from(places[arc.to as usize]) - i128::from(places[arc.from as usize]);
    apart - i128::from(arc.least)
}

// At each variable what comes in is what goes out and what the variable needs.
fn are_met(needs: &[i64], into: &[u128], out: &[u128]) -> bool
    requires into { length into.now ≡ length needs.now }
    requires out { length out.now ≡ length needs.now }
    ensures { IsTrue result ↔ AreMet needs.now into.now out.now (length needs.now) }
{
    for (v, need) in needs.iter().enumerate() {
        if !is_met(*need, into[v], out[v]) {
            return false;
        }
    }
    true
}

fn is_met(need: i64, into: u128, out: u128) -> bool
    ensures { IsTrue result ↔ IsBalanced need into out }
{
    let missing = u128::from(need.unsigned_abs());
    if need < 0 {
        into.checked_add(missing) == Some(out)
    } else {
        out.checked_add(missing) == Some(into)
    }
}
