ghost use Rattle.std.specs.Prelude.{◌≡◌, ℕ, ◌<◌, ◌≤◌, ◌||◌, Bool, List, length, IfOk, is_err};
ghost use Rattle.std.specs.Io.KnownBytes.{WriteAppends};
ghost use Rattle.std.specs.declared.option.Option.{Option};

use crate::DeviceFault;

/// What bytes are written to.
pub trait Sink {
    /// The bytes that were written, where they are known.
    ghost contents: { Self → Option (List ℕ) };

    ghost has_failed: { Self → Bool };

    /// Writes bytes from the front of `bytes`, at least one where there is one, and gives their number.
    fn write(&mut self, bytes: &[u8]) -> Result<usize, DeviceFault>
        ensures bound { IfOk result (λ count. count ≤ length bytes.now) }
        ensures some { IfOk result (λ count. 0 < length bytes.now → 0 < count) }
        ensures bytes { WriteAppends (contents self.old) (contents self.new) result bytes.now }
        ensures failed { has_failed self.new ≡ (has_failed self.old || is_err result) };

    /// Does a write cost much, however few bytes it has? So it is with the system's; memory takes each reply as it
    /// comes.
    fn has_costly_writes(&self) -> bool {
        true
    }

    /// Has a write failed? Once it has, this stays so.
    fn failed(&self) -> bool
        ensures { result ≡ has_failed self.now };
}
