//! A file as a log sees it: what stands in it, and what a crash may leave.
ghost use Rattle.std.specs.Prelude.{◌≡◌, ◌≤◌, ◌⊎◌, ◌++◌, List, ℕ, OnOk, IsSome, Option, Some};
ghost use Rattle.grove_log.specs.declared.device.DeviceError.TheVariants.{Memory};
ghost use Rattle.grove_log.specs.Files.{IsNextFrame};
ghost use Rattle.grove_log.specs.Devices.{Only, Follows, Torn, Elapses, HasCause};

use std::alloc::{AllocError, AllocFailed};
use std::io;

/// Why a device didn't do what it was asked.
#[derive(Debug, Drop)]
pub enum DeviceError {
    /// It got no memory.
    Memory,
    /// It failed, and the system says how.
    Failed(io::Error),
}

impl From<AllocError> for DeviceError {
    ghost from_gives = { λ _ made. made ≡ Memory };

    fn from(_error: AllocError) -> DeviceError {
        DeviceError::Memory
    }
}

impl<T: Drop> From<AllocFailed<T>> for DeviceError {
    ghost from_gives = { λ _ made. made ≡ Memory };

    fn from(_error: AllocFailed<T>) -> DeviceError {
        DeviceError::Memory
    }
}

/// A file that grows at its end.
pub trait Device {
    /// The bytes that stand in the file.
    ghost seen: { Self → List ℕ };

    /// What a crash at this moment may leave.
    ghost may_leave: { Self → List ℕ → Type 0 };

    /// The moment, as a number that doesn't fall.
    ghost moment: { Self → ℕ };

    /// What a crash at some moment from that one on might have left, during a call or between two.
    ghost left_since: { Self → ℕ → List ℕ → Type 0 };

    /// How often the device has failed.
    ghost faults: { Self → ℕ };

    /// Puts the file's next frame behind its end. Until a sync, a crash may leave any bytes in its place, but no whole
    /// frame other than the one that was put.
    fn append(&mut self, bytes: &[u8]) -> Result<(), DeviceError>
        requires { IsNextFrame (seen self.old) bytes.now }
        ensures written { OnOk result (seen self.new ≡ seen self.old ++ bytes.now) }
        ensures crash { Follows (Torn bytes.now) (may_leave self.old) (may_leave self.new) }
        ensures time { Elapses (moment self.old) (moment self.new) (left_since self.old) (left_since self.new)
            (may_leave self.new) }
        ensures cause { HasCause (faults self.old) (faults self.new) result };

    /// After it, a crash leaves what stands in the file. What a sync has failed for may be gone from the system's
    /// memory, so none follows a failure.
    fn sync(&mut self) -> Result<(), DeviceError>
        requires { faults self.old ≡ 0 }
        ensures durable { OnOk result (Only (seen self.old) (may_leave self.new)) }
        ensures seen { seen self.new ≡ seen self.old }
        ensures crash { (c : List ℕ) → may_leave self.new c → may_leave self.old c }
        ensures time { Elapses (moment self.old) (moment self.new) (left_since self.old) (left_since self.new)
            (may_leave self.new) }
        ensures cause { HasCause (faults self.old) (faults self.new) result };

    /// This moment is one of those since an earlier one.
    ghost counts_now: { (file : Self) (t : ℕ) (c : List ℕ) → t ≤ moment file → may_leave file c → left_since file t c };

    /// Since this moment there is no other.
    ghost only_now: { (file : Self) (c : List ℕ) → left_since file (moment file) c → may_leave file c };
}

/// A file with another beside it, which can take its place.
pub trait Folder: Device {
    /// The file beside it, once it is whole and on the disk.
    ghost next: { Self → Option (List ℕ) };

    /// Writes the file beside it anew, and syncs it.
    fn write_next(&mut self, bytes: &[u8]) -> Result<(), DeviceError>
        ensures next { OnOk result (next self.new ≡ Some bytes.now) }
        ensures seen { Self.seen self.new ≡ Self.seen self.old }
        ensures crash { (c : List ℕ) → Self.may_leave self.new c → Self.may_leave self.old c }
        ensures time { Elapses (Self.moment self.old) (Self.moment self.new) (Self.left_since self.old)
            (Self.left_since self.new) (Self.may_leave self.new) }
        ensures cause { HasCause (Self.faults self.old) (Self.faults self.new) result };

    /// Gives the file beside it this file's name, and syncs the folder. A crash leaves the old file or the new one.
    fn rename_next(&mut self) -> Result<(), DeviceError>
        requires { IsSome (next self.old) }
        ensures renamed { OnOk result (next self.old ≡ Some (Self.seen self.new)) }
        ensures durable { OnOk result (Only (Self.seen self.new) (Self.may_leave self.new)) }
        ensures crash { (c : List ℕ) → Self.may_leave self.new c
            → Self.may_leave self.old c ⊎ (next self.old ≡ Some c) }
        ensures time { Elapses (Self.moment self.old) (Self.moment self.new) (Self.left_since self.old)
            (Self.left_since self.new) (Self.may_leave self.new) }
        ensures cause { HasCause (Self.faults self.old) (Self.faults self.new) result };
}
