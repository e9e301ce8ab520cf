ghost use Rattle.std.specs.Prelude.{◌≡◌, ◌≤◌, [], Some, true, false, length, vec_len, vec_capacity, IfOk};

use grove_session::{DeviceFault, Sink};
use grove_tree::NoMemory;
use std::alloc::Global;

/// So many bytes of replies go into one response.
pub const MOST_REPLIES: usize = 16 * 1024 * 1024;

/// A sink for the replies of one response. Its memory is set aside before the first of them, so it takes as many bytes
/// as there may be, and fails then.
#[derive(Debug, Drop)]
pub struct RepliesSink {
    bytes: Vec<u8>,
    failed: bool,
    ghost few: { vec_len bytes ≤ 16777216 },
    ghost room: { 16777216 ≤ vec_capacity bytes },
    ghost full: { failed ≡ true → length bytes.items ≡ 16777216 },
}

impl RepliesSink {
    pub fn new(alloc: Global) -> Result<RepliesSink, NoMemory>
        ensures contents { IfOk result (λ sink. ⟦<RepliesSink as Sink>⟧.contents sink ≡ Some []) }
        ensures failed { IfOk result (λ sink. ⟦<RepliesSink as Sink>⟧.has_failed sink ≡ false) }
    {
        Ok(RepliesSink {
            bytes: Vec::with_capacity(alloc, MOST_REPLIES)?,
            failed: false,
        })
    }

    /// All that was written.
    pub fn bytes(&self) -> &[u8]
        ensures contents { ⟦<RepliesSink as Sink>⟧.contents self.now ≡ Some result.now }
        ensures full { ⟦<RepliesSink as Sink>⟧.has_failed self.now ≡ true → length result.now ≡ 16777216 }
    {
        &self.bytes
    }
}

impl Sink for RepliesSink {
    ghost use Rattle.std.specs.Prelude.{Some};

    ghost contents = { λ sink. Some sink.bytes.items };

    ghost has_failed = { λ sink. sink.failed };

    fn write(&mut self, bytes: &[u8]) -> Result<usize, DeviceFault> {
        let count = bytes.len().min(MOST_REPLIES - self.bytes.len());
        if count == 0 && !bytes.is_empty() {
            self.failed = true;
            return Err(DeviceFault);
        }
        match self.bytes.extend_from_slice(&bytes[..count]) {
            Ok(()) => Ok(count),
            Err(_) => unreachable!(),
        }
    }

    fn has_costly_writes(&self) -> bool {
        false
    }

    fn failed(&self) -> bool {
        self.failed
    }
}
