//! Payloads behind one another in a file, each acknowledged after one sync.
ghost use Rattle.std.specs.Prelude.{◌≡◌, ◌<◌, ◌^◌, ◌++◌, [], ◌∷◌, length, false, IsTrue, OnOk, IfOk, IfErr, IsErrOf};
ghost use Rattle.grove_log.specs.Devices.{Only, LeavesOnly};
ghost use Rattle.grove_log.specs.Files.{head, recovered};
ghost use Rattle.grove_log.specs.Frames.{size};
ghost use Rattle.grove_log.specs.Logs.{IsSettled, IsBeforeOrAfter, IsOldOrNew, IsTold};

use crate::frame::{Seal, push_frame};
use crate::reading::push_head;
use crate::{Device, DeviceError, Folder};
use grove_base::NoMemory;
use std::alloc::Global;

/// Why a log didn't take a payload.
#[derive(Debug, Drop)]
pub enum LogError {
    /// There was no memory for the frame. Nothing was written, and the log is as it was.
    Memory,
    /// The device failed. The log refuses from then on.
    Failed(DeviceError),
    /// The log had failed before. Open the file again.
    Refused,
}

impl From<NoMemory> for LogError {
    ghost use Rattle.grove_log.specs.declared.log.LogError.TheVariants.{Memory};

    ghost from_gives = { λ _ made. made ≡ Memory };

    fn from(_error: NoMemory) -> LogError {
        LogError::Memory
    }
}

impl From<DeviceError> for LogError {
    ghost use Rattle.grove_log.specs.declared.log.LogError.TheVariants.{Failed};

    ghost from_gives = { λ error made. made ≡ Failed error };

    fn from(error: DeviceError) -> LogError {
        LogError::Failed(error)
    }
}

/// A log over a file.
#[derive(Drop)]
pub struct Log<D: Device> {
    pub device: D,
    pub seal: Seal,
    /// Not once the device has failed.
    pub accepts: bool,
}

/// A frame alone.
fn frame_of(alloc: Global, payload: &[u8], seal: &Seal) -> Result<Vec<u8>, NoMemory>
    requires { length payload.now < 2 ^ 32 }
    ensures { IfOk result (λ bytes. bytes.items ≡ size (length payload.now) ++ payload.now ++ seal.now.bytes) }
{
    let mut bytes = Vec::new(alloc);
    push_frame(&mut bytes, payload, seal)?;
    Ok(bytes)
}

/// A file of one frame.
fn file_of(alloc: Global, number: &Seal, payload: &[u8], seal: &Seal) -> Result<Vec<u8>, NoMemory>
    requires { length payload.now < 2 ^ 32 }
    ensures { IfOk result (λ bytes. bytes.items
        ≡ head number.now.bytes ++ size (length payload.now) ++ payload.now ++ seal.now.bytes) }
{
    let mut bytes = Vec::new(alloc);
    push_head(&mut bytes, number)?;
    push_frame(&mut bytes, payload, seal)?;
    Ok(bytes)
}

impl<D: Device> Log<D> {
    /// Adds a payload, with one sync. At `Ok` it is acknowledged: from then on each crash leaves a file that has it.
    #[tactic(auto, using(crate::proofs::Crash::caused_later))]
    pub fn append(&mut self, alloc: Global, payload: &[u8]) -> Result<(), LogError>
        requires ready { IsTrue self.old.accepts → IsSettled D.seen D.may_leave D.faults self.old }
        requires short { length payload.now < 2 ^ 32 }

        ensures acknowledged { OnOk result (IsTrue self.new.accepts × IsSettled D.seen D.may_leave D.faults self.new
            × (recovered (D.seen self.new.device) ≡ recovered (D.seen self.old.device) ++ payload.now ∷ [])) }

        // A crash at any moment of the call leaves a file that can be read, with the payloads from before the call, and
        // with the new one or without.
        ensures any_moment { IsTrue self.old.accepts → LeavesOnly D.moment D.left_since self.old.device self.new.device
            (IsBeforeOrAfter (recovered (D.seen self.old.device)) payload.now) }

        ensures told { IfErr result (IsTold D.faults self.old self.new) }
        ensures refused { self.old.accepts ≡ false → IsErrOf result LogError.Refused }
    {
        if !self.accepts {
            return Err(LogError::Refused);
        }
        let seal = Seal::of(&self.seal.bytes, payload);
        let bytes = frame_of(alloc, payload, &seal)?;
        self.accepts = false;
        self.device.append(&bytes)?;
        self.device.sync()?;
        self.seal = seal;
        self.accepts = true;
        Ok(())
    }
}

impl<F: Folder> Log<F> {
    /// Begins the log anew with this payload alone, in a file with a number of its own that takes the old one's place.
    /// At `Ok` it is acknowledged.
    #[tactic(auto, using(crate::proofs::Crash::caused_later))]
    pub fn restart(&mut self, alloc: Global, number: &Seal, payload: &[u8]) -> Result<(), LogError>
        requires ready { IsTrue self.old.accepts → Only (F.seen self.old.device) (F.may_leave self.old.device)
            × (F.faults self.old.device ≡ 0) }
        requires short { length payload.now < 2 ^ 32 }

        ensures acknowledged { OnOk result (IsTrue self.new.accepts × IsSettled F.seen F.may_leave F.faults self.new
            × (recovered (F.seen self.new.device) ≡ payload.now ∷ [])) }

        // A crash at any moment of the call leaves the old file, or one that stands for this payload alone.
        ensures any_moment { IsTrue self.old.accepts → LeavesOnly F.moment F.left_since self.old.device self.new.device
            (IsOldOrNew (F.seen self.old.device) payload.now) }

        ensures told { IfErr result (IsTold F.faults self.old self.new) }
        ensures refused { self.old.accepts ≡ false → IsErrOf result LogError.Refused }
    {
        if !self.accepts {
            return Err(LogError::Refused);
        }
        let seal = Seal::of(&number.bytes, payload);
        let bytes = file_of(alloc, number, payload, &seal)?;
        self.accepts = false;
        self.device.write_next(&bytes)?;
        self.device.rename_next()?;
        self.seal = seal;
        self.accepts = true;
        Ok(())
    }
}
