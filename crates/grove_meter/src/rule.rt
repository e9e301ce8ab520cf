ghost use Rattle.std.specs.Prelude.{◌≡◌};

use crate::new_weight;
use grove_tree::Rule;
use std::marker::Model;

/// The rule by which the waits at a node give it its new weight.
#[derive(Debug, Drop)]
pub struct WaitRule<'a> {
    waits: &'a [u32],
}

impl<'a> Model for WaitRule<'a> {
    ghost use Rattle.std.specs.Prelude.{ℕ, List};

    ghost Value = { List ℕ };

    ghost view = { λ rule. rule.waits.now };
}

impl<'a> WaitRule<'a> {
    /// The rule by these waits, one entry for each node.
    pub fn new(waits: &'a [u32]) -> Self
        ensures { result ≡ waits.now }
    {
        WaitRule { waits }
    }
}

impl Rule for WaitRule<'_> {
    ghost use Rattle.std.specs.Prelude.{ℕ, ◌<◌, ◌≤◌, length, slice_index};
    ghost use Rattle.grove_meter.specs.Waits.{new_weight_of};

    ghost takes = { λ waits node old. (node < length waits) × (1 ≤ old) × (old ≤ 1000) };

    ghost gives = { λ waits node old. new_weight_of old (slice_index waits node) };

    fn weight(&self, node: u32, old: u32) -> u32 {
        new_weight(old, self.waits[node as usize])
    }
}
