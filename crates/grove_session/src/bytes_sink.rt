ghost use Rattle.std.specs.Prelude.{◌≡◌, [], Some, false};

use crate::{DeviceFault, Sink};
use std::alloc::Global;

/// A sink that keeps what is written in memory. It fails where there is no room for all of it.
#[derive(Debug, Drop)]
pub struct BytesSink {
    bytes: Vec<u8>,
    failed: bool,
}

impl BytesSink {
    pub fn new(alloc: Global) -> BytesSink
        ensures contents { ⟦<BytesSink as Sink>⟧.contents result ≡ Some [] }
        ensures failed { ⟦<BytesSink as Sink>⟧.has_failed result ≡ false }
    {
        BytesSink {
            bytes: Vec::new(alloc),
            failed: false,
        }
    }

    /// All that was written.
    pub fn bytes(&self) -> &[u8]
        ensures { ⟦<BytesSink as Sink>⟧.contents self.now ≡ Some result.now }
    {
        &self.bytes
    }
}

impl Sink for BytesSink {
    ghost use Rattle.std.specs.Prelude.{Some};

    ghost contents = { λ sink. Some sink.bytes.items };

    ghost has_failed = { λ sink. sink.failed };

    fn write(&mut self, bytes: &[u8]) -> Result<usize, DeviceFault> {
        match self.bytes.extend_from_slice(bytes) {
            Ok(()) => Ok(bytes.len()),
            Err(_) => {
                self.failed = true;
                Err(DeviceFault)
            }
        }
    }

    fn failed(&self) -> bool {
        self.failed
    }
}
