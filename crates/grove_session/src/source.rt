ghost use Rattle.std.specs.Prelude.{◌≡◌, ℕ, ◌+◌, ◌-◌, ◌^◌, ◌≤◌, ◌||◌, Bool, List, length, min, IfOk, is_err};
ghost use Rattle.std.specs.Io.KnownBytes.{ReadConsumes};
ghost use Rattle.std.specs.declared.option.Option.{Option};

use crate::DeviceFault;

/// What bytes are read from.
pub trait Source {
    /// The bytes that are left to read, where they are known.
    ghost remaining: { Self → Option (List ℕ) };

    ghost has_failed: { Self → Bool };

    ghost read_count: { Self → ℕ };

    /// Puts bytes at the front of `buffer` and gives their number. Where the buffer has room, 0 is the end.
    fn read(&mut self, buffer: &mut [u8]) -> Result<usize, DeviceFault>
        ensures bound { IfOk result (λ count. count ≤ length buffer.new) }
        ensures bytes { ReadConsumes (remaining self.old) (remaining self.new) result buffer.new }
        ensures failed { has_failed self.new ≡ (has_failed self.old || is_err result) }
        ensures count { read_count self.new ≡ min (read_count self.old + 1) (2 ^ 64 - 1) };

    /// Has a read failed? Once it has, this stays so.
    fn failed(&self) -> bool
        ensures { result ≡ has_failed self.now };

    /// How many times `read` was called; it stays at the greatest number.
    fn reads(&self) -> u64
        ensures { result ≡ read_count self.now };
}
