ghost use Rattle.std.specs.Prelude.{◌≡◌, ℕ, ◌+◌, ◌≤◌, length};
ghost use Rattle.std.specs.Thread.{IsSync};
ghost use Rattle.grove_tree.specs.BuiltRows.{rows_of};
ghost use Rattle.grove_tree.specs.Weights.{weighed_from};
ghost use Rattle.grove_tree.specs.WeighedRows.{changes_from, AreTaken};

use crate::{Gate, Row};
use std::thread::{Threads, join_mut};

/// A rule by which nodes get new weights.
pub trait Rule {
    ghost takes: { Self → ℕ → ℕ → Type 0 };

    ghost gives: { Self → ℕ → ℕ → ℕ };

    /// The new weight of a node that had the old one. A rule need not take every node with every weight.
    fn weight(&self, node: u32, old: u32) -> u32
        requires { takes self.now node old }
        ensures { result ≡ gives self.now node old };
}

/// Gives the first of the rows its new weight. The result is 1 if that is another one.
fn weigh_first<U: Rule, G: Gate>(rule: &U, gate: &G, node: u32, rows: &mut [Row]) -> u32
    requires one { length rows.old ≡ 1 }
    requires taken { AreTaken (U.takes rule.now) node (rows_of rows.old) }
    ensures rows { rows_of rows.new ≡ weighed_from (U.gives rule.now) node (rows_of rows.old) }
    ensures count { result ≡ changes_from (U.gives rule.now) node (rows_of rows.old) }
{
    gate.at(node, 0);
    let old = rows[0].weight;
    let new = rule.weight(node, old);
    rows[0].weight = new;
    u32::from(new != old)
}

/// Gives each of the rows its new weight, of which the first is this node's. The result is the number of weights
/// changed.
pub fn weigh_alone<U: Rule, G: Gate>(rule: &U, gate: &G, first: u32, rows: &mut [Row]) -> u32
    requires room { first + length rows.old ≤ 4096 }
    requires taken { AreTaken (U.takes rule.now) first (rows_of rows.old) }
    ensures rows { rows_of rows.new ≡ weighed_from (U.gives rule.now) first (rows_of rows.old) }
    ensures count { result ≡ changes_from (U.gives rule.now) first (rows_of rows.old) }
{
    let count = rows.len();
    if count == 0 {
        return 0;
    }
    if count == 1 {
        return weigh_first(rule, gate, first, rows);
    }
    let half = count / 2;
    let (front, back) = rows.split_at_mut(half);
    let early = weigh_alone(rule, gate, first, front);
    early + weigh_alone(rule, gate, first + half as u32, back)
}

/// The same, with two workers or more for both halves at once, the first by half of the workers; if no thread can be
/// started, the first half is done first.
pub fn weigh<R: Threads + Sync, U: Rule + Sync, G: Gate + Sync>(
    rt: &R,
    rule: &U,
    gate: &G,
    workers: u32,
    first: u32,
    rows: &mut [Row],
) -> u32
    requires room { first + length rows.old ≤ 4096 }
    requires taken { AreTaken (U.takes rule.now) first (rows_of rows.old) }
    ensures rows { rows_of rows.new ≡ weighed_from (U.gives rule.now) first (rows_of rows.old) }
    ensures count { result ≡ changes_from (U.gives rule.now) first (rows_of rows.old) }
{
    if workers < 2 || rows.len() < 2 {
        return weigh_alone(rule, gate, first, rows);
    }
    let half = rows.len() / 2;
    let middle = first + half as u32;
    let (front, back) = rows.split_at_mut(half);
    let (late, early) = join_mut(
        rt,
        &mut || -> u32
            requires { IsSync R.row × IsSync U.row × IsSync G.row × (middle + length back.now ≤ 4096)
                × AreTaken (U.takes rule.now) middle (rows_of back.now) }
            ensures rows { rows_of back.exit.now
                ≡ weighed_from (U.gives rule.entry.now) middle (rows_of back.entry.now) }
            ensures count { result ≡ changes_from (U.gives rule.entry.now) middle (rows_of back.entry.now) }
        { weigh(rt, rule, gate, workers - workers / 2, middle, back) },
        &mut || -> u32
            requires { IsSync R.row × IsSync U.row × IsSync G.row × (first + length front.now ≤ 4096)
                × AreTaken (U.takes rule.now) first (rows_of front.now) }
            ensures rows { rows_of front.exit.now
                ≡ weighed_from (U.gives rule.entry.now) first (rows_of front.entry.now) }
            ensures count { result ≡ changes_from (U.gives rule.entry.now) first (rows_of front.entry.now) }
        { weigh(rt, rule, gate, workers / 2, first, front) },
    );
    early + late
}
