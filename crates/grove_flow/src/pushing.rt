ghost use Rattle.std.specs.Prelude.{◌≡◌, ◌≢◌, ℕ, ◌+◌, ◌<◌, ◌≤◌, ◌^◌, ◌⊎◌, length, slice_index};
ghost use Rattle.grove_flow.specs.Networks.{arc_at};
ghost use Rattle.grove_flow.specs.Reaches.{AreWays, IsPushed, IsSentBack, IsSentOn};
ghost use Rattle.grove_flow.specs.Trees.{IsTreeOf};

use crate::Arc;
use crate::tree::Tree;

// Sends more from the source to a reached variable, as much as the way there has room for and at most `most`, and
// returns how much that is.
pub fn push(
    arcs: &[Arc],
    amounts: &mut [u64],
    tree: &Tree,
    source: usize,
    target: usize,
    most: u64,
) -> u64
    requires amounts { length amounts.old ≡ length arcs.now }
    requires tree { IsTreeOf (length tree.now.ranks.items) tree.now }
    requires ways { AreWays arcs.now amounts.old tree.now.ranks.items tree.now.vias.items tree.now.rooms.items source }
    requires reached { 0 < slice_index tree.now.ranks.items target }
    requires some { 0 < most }
    requires small { (i : ℕ) → slice_index amounts.old i + most < 2 ^ 64 }
    ensures { IsPushed arcs.now tree.now source target most amounts.old amounts.new result }
{
    let by = tree.rooms[target].min(most);
    let mut v = target;
    while v != source {
        v = step_back(arcs, amounts, tree, v, by);
    }
    by
}

// Sends more along the arc by which a variable was reached, and returns the variable that it was reached from.
fn step_back(arcs: &[Arc], amounts: &mut [u64], tree: &Tree, v: usize, by: u64) -> usize
    requires amounts { length amounts.old ≡ length arcs.now }
    requires v { v < length tree.now.vias.items }
    requires via { slice_index tree.now.vias.items v < length arcs.now }
    requires on { (arc_at arcs.now (slice_index tree.now.vias.items v)).to ≡ v
        → slice_index amounts.old (slice_index tree.now.vias.items v) + by < 2 ^ 64 }
    requires back { (arc_at arcs.now (slice_index tree.now.vias.items v)).to ≢ v
        → by ≤ slice_index amounts.old (slice_index tree.now.vias.items v) }
    ensures { IsSentOn (arc_at arcs.now (slice_index tree.now.vias.items v)) (slice_index tree.now.vias.items v) v by
        result amounts.old amounts.new
        ⊎ IsSentBack (arc_at arcs.now (slice_index tree.now.vias.items v)) (slice_index tree.now.vias.items v) v by
        result amounts.old amounts.new }
{
    let via = tree.vias[v];
    let arc = arcs[via];
    if arc.to as usize == v {
        amounts[via] += by;
        arc.from as usize
    } else {
        amounts[via] -= by;
        arc.to as usize
    }
}
