ghost use Rattle.std.specs.Prelude.{◌≡◌, ℕ, ◌<◌, ◌≤◌, Bool, length, true, false, slice_index};

use crate::Core;
use crate::locking::is_earlier;

/// Jobs of which it is known which comes after which.
pub(crate) trait Precedence {
    /// How many they are.
    ghost number: { Self → ℕ };

    /// Does the second job come after the first?
    ghost after: { Self → ℕ → ℕ → Bool };

    /// The place of the first job in the order that comes after this one, or the end.
    fn first_after(&self, txn: u32, order: &[u32]) -> usize
        requires { txn < number self.now }
        ensures within { result ≤ length order.now }
        ensures before { (k : ℕ) → k < result → after self.now txn (slice_index order.now k) ≡ false }
        ensures found { result < length order.now → after self.now txn (slice_index order.now result) ≡ true };
}

/// A job comes after another where it locked the other's first node after that one did.
impl Precedence for Core<'_> {
    ghost use Rattle.std.specs.Prelude.{length};
    ghost use Rattle.grove_core.specs.Orders.{locked_after};
    ghost use Rattle.grove_core.specs.Kept.{past_of};

    ghost number = { λ core. length core.jobs };

    ghost after = { λ core. locked_after core.jobs (past_of core) };

    fn first_after(&self, txn: u32, order: &[u32]) -> usize {
        let Some(node) = self.first_lock(txn) else {
            return order.len();
        };
        if self.locked_last(txn, node) {
            return order.len();
        }
        let time = self.lock_time(txn, node);
        for (index, placed) in order.iter().enumerate() {
            if is_earlier(time, self.lock_time(*placed, node)) {
                return index;
            }
        }
        order.len()
    }
}
