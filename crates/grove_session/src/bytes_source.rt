ghost use Rattle.std.specs.Prelude.{◌≡◌, Some, false};

use crate::{DeviceFault, Source};

/// A source over bytes in memory. It never fails.
#[derive(Debug, Drop)]
pub struct BytesSource<'a> {
    rest: &'a [u8],
    reads: u64,
}

impl<'a> BytesSource<'a> {
    pub fn new(bytes: &'a [u8]) -> BytesSource<'a>
        ensures remaining { ⟦<BytesSource<'a> as Source>⟧.remaining result ≡ Some bytes.entry.now }
        ensures failed { ⟦<BytesSource<'a> as Source>⟧.has_failed result ≡ false }
        ensures reads { ⟦<BytesSource<'a> as Source>⟧.read_count result ≡ 0 }
    {
        BytesSource {
            rest: bytes,
            reads: 0,
        }
    }
}

impl Source for BytesSource<'_> {
    ghost use Rattle.std.specs.Prelude.{Some, false};

    ghost remaining = { λ source. Some source.rest.now };

    ghost has_failed = { λ source. false };

    ghost read_count = { λ source. source.reads };

    fn read(&mut self, buffer: &mut [u8]) -> Result<usize, DeviceFault> {
        self.reads = self.reads.saturating_add(1);
        let count = buffer.len().min(self.rest.len());
        let (front, rest) = self.rest.split_at(count);
        buffer[..count].copy_from_slice(front);
        self.rest = rest;
        Ok(count)
    }

    fn failed(&self) -> bool {
        false
    }

    fn reads(&self) -> u64 {
        self.reads
    }
}
