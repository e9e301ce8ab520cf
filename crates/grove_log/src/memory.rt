//! A file in memory. Each call is done at once, so a crash leaves what is there. It keeps each past content.
ghost use Rattle.std.specs.Prelude.{◌≡◌, ◌⊎◌, [], ◌∷◌, ◌++◌, length, drop, OnOk, OnErr};
ghost use Rattle.std.proofs.Common.{inl};
ghost use Rattle.grove_log.specs.PastBytes.{HadBeen, only_bytes};

use crate::{Device, DeviceError, Folder};
use std::alloc::{AllocError, Global};

/// A file in memory, and the one beside it.
#[derive(Drop)]
pub struct MemoryFile {
    alloc: Global,
    bytes: Vec<u8>,
    past: Vec<Vec<u8>>,
    next: Option<Vec<u8>>,
}

impl MemoryFile {
    ghost use Rattle.grove_log.specs.MemoryFiles.{memory_bytes};

    /// A file with these bytes.
    pub fn new(alloc: Global, bytes: Vec<u8>) -> Self
        ensures { memory_bytes result ≡ bytes.items }
    {
        MemoryFile {
            alloc,
            bytes,
            past: Vec::new(alloc),
            next: None,
        }
    }

    /// What stands in it.
    pub fn bytes(&self) -> &[u8]
        ensures { result.now ≡ memory_bytes self.now }
    {
        &self.bytes
    }
}

/// Puts other bytes in the place of those that are there, which it keeps.
fn replace(
    alloc: Global,
    bytes: &mut Vec<u8>,
    past: &mut Vec<Vec<u8>>,
    next: Vec<u8>,
) -> Result<(), AllocError>
    ensures ok { OnOk result (bytes.new.items ≡ next.items) }
    ensures err { OnErr result (bytes.new.items ≡ bytes.old.items) }
    ensures past { OnOk result ((v : _) × (v.items ≡ bytes.old.items) × (past.new.items ≡ past.old.items ++ v ∷ [])) }
    ensures past_err { OnErr result (past.new.items ≡ past.old.items) }
{
    past.push(bytes.to_vec(alloc)?)?;
    *bytes = next;
    Ok(())
}

impl Device for MemoryFile {
    ghost seen = { λ m. m.bytes.items };

    ghost may_leave = { λ m c. c ≡ m.bytes.items };

    ghost moment = { λ m. length m.past.items };

    ghost left_since = { λ m t c. (c ≡ m.bytes.items) ⊎ HadBeen (drop t m.past.items) c };

    ghost faults = { λ m. 0 };

    ghost counts_now = { λ m t c le now. inl now };

    ghost only_now = { λ m c left. only_bytes m.past.items m.bytes.items c left };

    fn append(&mut self, bytes: &[u8]) -> Result<(), DeviceError> {
        let mut next = self.bytes.to_vec(self.alloc)?;
        next.extend_from_slice(bytes)?;
        Ok(replace(self.alloc, &mut self.bytes, &mut self.past, next)?)
    }

    fn sync(&mut self) -> Result<(), DeviceError> {
        Ok(())
    }
}

impl Folder for MemoryFile {
    ghost use Rattle.std.specs.Prelude.{option_map};

    ghost next = { λ m. option_map (λ v. v.items) m.next };

    fn write_next(&mut self, bytes: &[u8]) -> Result<(), DeviceError> {
        self.next = Some(bytes.to_vec(self.alloc)?);
        Ok(())
    }

    fn rename_next(&mut self) -> Result<(), DeviceError> {
        match self.next.take() {
            Some(next) => Ok(replace(self.alloc, &mut self.bytes, &mut self.past, next)?),
            None => Err(DeviceError::Memory),
        }
    }
}
