ghost use Rattle.std.specs.Prelude.{◌≡◌, ◌<◌, ℕ, ◌-◌, ◌+ℤ◌, ◌-ℤ◌, ◌≤ℤ◌, pos, negsuc, length, slice_set, true, false};
ghost use Rattle.std.specs.Prelude.{IfOk};
ghost use Rattle.grove_flow.specs.Networks.{AreArcsOf, AreLawful, IsArcOf, IsCandidate, IsLatest, IsLawful, IsModest};
ghost use Rattle.grove_flow.specs.Networks.{place};
ghost use Rattle.grove_flow.specs.Floors.{AreCapped, AreHeld, AreHighest, AreKept, HasFloor, HaveFloor, IsKept};
ghost use Rattle.grove_flow.specs.Floors.{IsLoweredAt, heights};
ghost use Rattle.grove_flow.specs.Ways.{arc_on};

use crate::{Arc, Network, Solution};
use grove_base::NoMemory;
use std::alloc::Global;

/// The latest places that meet every arc, are tight on every arc with an amount, and are nowhere above `top`.
/// The base stays at 0.
///
/// The only error is running out of memory.
pub fn latest(
    alloc: Global,
    network: &Network,
    solution: &Solution,
    top: i64,
) -> Result<Vec<i64>, NoMemory>
    requires arcs { AreArcsOf network.now.arcs.items (length network.now.needs.items) }
    requires amounts { length solution.now.amounts.items ≡ length network.now.arcs.items }
    requires solved { IsCandidate (length network.now.needs.items) network.now.arcs.items solution.now.amounts.items top
        solution.now.places.items }
    requires modest { IsModest top }
    ensures latest { IfOk result
        (λ places. IsLatest (length network.now.needs.items) network.now.arcs.items solution.now.amounts.items top
        places.items) }
{
    let mut places = highest(alloc, &solution.places, top)?;
    settle(
        &network.arcs,
        &solution.amounts,
        &solution.places,
        &mut places,
    );
    Ok(places)
}

// Every place raised to the top, but for that of the base.
fn highest(alloc: Global, places: &[i64], top: i64) -> Result<Vec<i64>, NoMemory>
    requires capped { (v : ℕ) → v < length places.now → place places.now v ≤ℤ top }
    ensures highest { IfOk result (λ highest. AreHighest (length places.now) top highest.items) }
    ensures held { IfOk result (λ highest. AreHeld places.now) }
{
    let mut highest = Vec::from_slice(alloc, places)?;
    raise_to(top, &mut highest);
    put_base(&mut highest);
    Ok(highest)
}

fn raise_to(top: i64, places: &mut [i64])
    requires capped { (v : ℕ) → v < length places.old → place places.old v ≤ℤ top }
    ensures top { (v : ℕ) → v < length places.old → place places.new v ≡ top }
    ensures held { AreHeld places.old }
{
    for place in places.iter_mut() {
        if *place < top {
            *place = top;
        }
    }
}

fn put_base(places: &mut [i64])
    ensures { places.new ≡ slice_set places.old (length places.old - 1) (pos 0) }
{
    let count = places.len();
    if count > 0 {
        places[count - 1] = 0;
    }
}

// The order in which a sweep looks at the arcs.
#[derive(Clone, Copy)]
enum Way {
    Forward,
    Backward,
}

impl Way {
    fn turned(self) -> Self {
        match self {
            Way::Forward => Way::Backward,
            Way::Backward => Way::Forward,
        }
    }

    // Which of so many arcs comes after `step` others.
    fn arc_at(self, step: usize, count: usize) -> usize
        requires { step < count }
        ensures is { result ≡ arc_on self step count }
        ensures within { result < count }
    {
        match self {
            Way::Forward => step,
            Way::Backward => count - 1 - step,
        }
    }
}

// Lowers the places until every arc is lawful, by sweeps backward and forward in turn. The known places are so already.
fn settle(arcs: &[Arc], amounts: &[u64], known: &[i64], places: &mut [i64])
    requires arcs { AreArcsOf arcs.now (length places.old) }
    requires amounts { length amounts.now ≡ length arcs.now }
    requires floor { HaveFloor arcs.now amounts.now places.old }
    requires capped { AreCapped places.old }
    requires known { AreLawful arcs.now amounts.now known.now }
    ensures lawful { AreLawful arcs.now amounts.now places.new }
    ensures kept { AreKept arcs.now amounts.now places.old places.new }
{
    let mut way = Way::Backward;
    while !are_equal(places, known) && sweep(arcs, amounts, places, way) {
        way = way.turned();
    }
}

fn are_equal(places: &[i64], others: &[i64]) -> bool
    ensures { result ≡ true → places.now ≡ others.now }
{
    places == others
}

// Lowers what a look at each arc in turn lowers, and says whether that was anything.
fn sweep(arcs: &[Arc], amounts: &[u64], places: &mut [i64], way: Way) -> bool
    requires arcs { AreArcsOf arcs.now (length places.old) }
    requires amounts { length amounts.now ≡ length arcs.now }
    requires floor { HaveFloor arcs.now amounts.now places.old }
    requires capped { AreCapped places.old }
    ensures kept { AreKept arcs.now amounts.now places.old places.new }
    ensures lowered { result ≡ true → heights places.new < heights places.old }
    ensures lawful { result ≡ false → AreLawful arcs.now amounts.now places.new }
{
    let mut lowered = false;
    for step in 0..arcs.len() {
        let i = way.arc_at(step, arcs.len());
        if lower(arcs[i], amounts[i], places) {
            lowered = true;
        }
    }
    lowered
}

// Lowers one end of an arc that isn't lawful.
fn lower(arc: Arc, amount: u64, places: &mut [i64]) -> bool
    requires arc { IsArcOf (length places.old) arc }
    requires floor { HasFloor arc amount places.old }
    requires capped { AreCapped places.old }
    ensures kept { IsKept arc amount places.old places.new }
    ensures lowered { result ≡ true → heights places.new < heights places.old }
    ensures still { result ≡ false → places.new ≡ places.old }
    ensures lawful { result ≡ false → IsLawful arc amount places.old }
{
    lower_from(arc, places) || (amount > 0 && lower_to(arc, places))
}

// Lowers the place that an arc begins at, where the arc isn't met.
fn lower_from(arc: Arc, places: &mut [i64]) -> bool
    requires arc { IsArcOf (length places.old) arc }
    requires held { negsuc 9223372036854775807 ≤ℤ (place places.old arc.to -ℤ arc.least) }
    requires capped { place places.old arc.to ≤ℤ pos 1048576 }
    ensures lowered { result ≡ true
        → IsLoweredAt arc.from (place places.old arc.to -ℤ arc.least) places.old places.new }
    ensures still { result ≡ false → places.new ≡ places.old }
    ensures met { result ≡ false → place places.old arc.from ≤ℤ (place places.old arc.to -ℤ arc.least) }
{
    let most = places[arc.to as usize] - arc.least;
    let lowers = most < places[arc.from as usize];
    if lowers {
        places[arc.from as usize] = most;
    }
    lowers
}

// Lowers the place that an arc ends at, where the arc isn't tight.
fn lower_to(arc: Arc, places: &mut [i64]) -> bool
    requires arc { IsArcOf (length places.old) arc }
    requires held { negsuc 9223372036854775807 ≤ℤ (place places.old arc.from +ℤ arc.least) }
    requires capped { place places.old arc.from ≤ℤ pos 1048576 }
    ensures lowered { result ≡ true
        → IsLoweredAt arc.to (place places.old arc.from +ℤ arc.least) places.old places.new }
    ensures still { result ≡ false → places.new ≡ places.old }
    ensures met { result ≡ false → place places.old arc.to ≤ℤ (place places.old arc.from +ℤ arc.least) }
{
    let most = places[arc.from as usize] + arc.least;
    let lowers = most < places[arc.to as usize];
    if lowers {
        places[arc.to as usize] = most;
    }
    lowers
}
