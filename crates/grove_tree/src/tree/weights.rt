ghost use Rattle.std.specs.Prelude.{◌≡◌, ℕ, ◌<◌, ◌≤◌, ◌==◌, not, length};
ghost use Rattle.grove_base.specs.Numbers.{count_below};
ghost use Rattle.grove_tree.specs.Trees.{weight_of};
ghost use Rattle.grove_tree.specs.Weights.{with_weights};

use crate::weighing::{weigh, weigh_alone};
use crate::{Gate, OpenGate, Rule, Tree};
use std::thread::Threads;

impl Tree {
    /// Gives each node the weight that the rule answers for it and the weight that it had. The result is the number of
    /// weights changed. Up to `workers` threads work at once. The gate is called with each node's number, and 0, just
    /// before that node is written, by the worker that writes it.
    pub fn map_weights<R: Threads + Sync, U: Rule + Sync, G: Gate + Sync>(
        &mut self,
        rt: &R,
        rule: &U,
        workers: u32,
        gate: &G,
    ) -> u32
        requires workers { (1 ≤ workers) × (workers ≤ 16) }
        requires taken { (node : ℕ) → node < length self.old → U.takes rule.now node (weight_of self.old node) }
        requires weights { (node : ℕ) → node < length self.old → (1 ≤ U.gives rule.now node (weight_of self.old node))
            × (U.gives rule.now node (weight_of self.old node) ≤ 1000) }
        ensures rows { self.new ≡ with_weights (U.gives rule.now) self.old }
        ensures count { result
            ≡ count_below (length self.old) (λ node. not (weight_of self.new node == weight_of self.old node)) }
    {
        weigh(rt, rule, gate, workers, 0, &mut self.rows)
    }

    /// The same by the caller alone, who starts no thread.
    pub fn map_weights_alone<U: Rule>(&mut self, rule: &U) -> u32
        requires taken { (node : ℕ) → node < length self.old → U.takes rule.now node (weight_of self.old node) }
        requires weights { (node : ℕ) → node < length self.old → (1 ≤ U.gives rule.now node (weight_of self.old node))
            × (U.gives rule.now node (weight_of self.old node) ≤ 1000) }
        ensures rows { self.new ≡ with_weights (U.gives rule.now) self.old }
        ensures count { result
            ≡ count_below (length self.old) (λ node. not (weight_of self.new node == weight_of self.old node)) }
    {
        weigh_alone(rule, &OpenGate, 0, &mut self.rows)
    }
}
