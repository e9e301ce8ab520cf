ghost use Rattle.std.specs.Prelude.{◌≡◌, ℕ, ◌+◌, ◌*◌, ◌<◌, length, pos, negsuc, true};
ghost use Rattle.std.specs.Prelude.{◌≤ℤ◌};
ghost use Rattle.grove_flow.specs.Networks.{AreArcsOf, HasOwnArcs, IsArcOf, IsMet, IsModest, IsNetwork, IsStart};
ghost use Rattle.grove_flow.specs.Networks.{arc_at, place};

use grove_flow::Arc;

/// Whether these are the needs and the arcs of a network that can be solved.
pub fn is_network(needs: &[i64], arcs: &[Arc]) -> bool
    ensures { result ≡ true → IsNetwork needs.now arcs.now }
{
    let count = needs.len();
    if count % 2 == 0 {
        return false;
    }
    let rows = count / 2;
    if needs[2 * rows] != 0 || !have_weights(needs, rows) || !are_arcs(arcs, count) {
        return false;
    }
    have_own_arcs(arcs, rows)
}

// Each row's lock gives away its weight, and its release takes it in.
fn have_weights(needs: &[i64], rows: usize) -> bool
    requires { length needs.now ≡ 2 * rows + 1 }
    ensures { result ≡ true → (k : ℕ) → k < rows → (w : ℕ) × (w < 1000) × (place needs.now (2 * k) ≡ negsuc w)
        × (place needs.now (2 * k + 1) ≡ pos (w + 1)) }
{
    for k in 0..rows {
        if !are_of_weight(needs[2 * k], needs[2 * k + 1]) {
            return false;
        }
    }
    true
}

fn are_of_weight(lock: i64, release: i64) -> bool
    ensures { result ≡ true → (w : ℕ) × (w < 1000) × (lock ≡ negsuc w) × (release ≡ pos (w + 1)) }
{
    0 < release && release <= 1000 && lock == -release
}

fn are_arcs(arcs: &[Arc], count: usize) -> bool
    ensures { result ≡ true → AreArcsOf arcs.now count }
{
    for arc in arcs {
        if !is_arc(*arc, count) {
            return false;
        }
    }
    true
}

fn is_arc(arc: Arc, count: usize) -> bool
    ensures { result ≡ true → IsArcOf count arc }
{
    (arc.from as usize) < count && (arc.to as usize) < count && is_modest(arc.least)
}

/// Whether a number is near enough to 0 for a place.
pub fn is_modest(number: i64) -> bool
    ensures { result ≡ true → IsModest number }
{
    -1_048_576 <= number && number <= 1_048_576
}

fn have_own_arcs(arcs: &[Arc], rows: usize) -> bool
    requires { rows < 9223372036854775808 }
    ensures { result ≡ true → HasOwnArcs rows arcs.now }
{
    for k in 0..rows {
        if !has_arc(arcs, 2 * k, 2 * k + 1) {
            return false;
        }
    }
    true
}

fn has_arc(arcs: &[Arc], from: usize, to: usize) -> bool
    ensures { result ≡ true → (i : ℕ) × (i < length arcs.now) × ((arc_at arcs.now i).from ≡ from)
        × ((arc_at arcs.now i).to ≡ to) }
{
    for arc in arcs {
        if arc.from as usize == from && arc.to as usize == to {
            return true;
        }
    }
    false
}

/// Whether these are places from which the network can be solved.
pub fn is_start(needs: &[i64], arcs: &[Arc], places: &[i64]) -> bool
    requires { AreArcsOf arcs.now (length needs.now) }
    ensures { result ≡ true → IsStart needs.now arcs.now places.now }
{
    places.len() == needs.len() && are_modest(places) && are_met(arcs, places)
}

fn are_modest(places: &[i64]) -> bool
    ensures { result ≡ true → (v : ℕ) → v < length places.now → IsModest (place places.now v) }
{
    for place in places {
        if !is_modest(*place) {
            return false;
        }
    }
    true
}

/// Whether no place is above the highest one.
pub fn are_at_most(places: &[i64], top: i64) -> bool
    ensures { result ≡ true → (v : ℕ) → v < length places.now → place places.now v ≤ℤ top }
{
    for place in places {
        if *place > top {
            return false;
        }
    }
    true
}

fn are_met(arcs: &[Arc], places: &[i64]) -> bool
    requires arcs { AreArcsOf arcs.now (length places.now) }
    requires modest { (v : ℕ) → v < length places.now → IsModest (place places.now v) }
    ensures { result ≡ true → (i : ℕ) → i < length arcs.now → IsMet (arc_at arcs.now i) places.now }
{
    for arc in arcs {
        if !is_met(*arc, places) {
            return false;
        }
    }
    true
}

fn is_met(arc: Arc, places: &[i64]) -> bool
    requires arc { IsArcOf (length places.now) arc }
    requires modest { IsModest (place places.now arc.from) }
    ensures { result ≡ true → IsMet arc places.now }
{
    places[arc.from as usize] + arc.least <= places[arc.to as usize]
}
