ghost use Rattle.std.specs.Prelude.{◌≡◌, false};

use crate::{DeviceFault, Source};
use std::io::{self, ErrorKind, Read};

/// A source over a reader of std, which keeps the error of the read that failed. An interrupted read is tried again.
#[derive(Debug, Drop)]
pub struct ReaderSource<R> {
    reader: R,
    error: Option<io::Error>,
    reads: u64,
}

impl<R: Read> ReaderSource<R> {
    pub fn new(reader: R) -> ReaderSource<R>
        ensures remaining { ⟦<ReaderSource<R> as Source>⟧.remaining result ≡ R.remaining reader }
        ensures failed { ⟦<ReaderSource<R> as Source>⟧.has_failed result ≡ false }
        ensures reads { ⟦<ReaderSource<R> as Source>⟧.read_count result ≡ 0 }
    {
        ReaderSource {
            reader,
            error: None,
            reads: 0,
        }
    }

    /// The error of the latest read that failed.
    pub fn error(&self) -> Option<io::Error> {
        self.error
    }
}

impl<R: Read> Source for ReaderSource<R> {
    ghost use Rattle.std.specs.Prelude.{is_some};

    ghost remaining = { λ source. R.remaining source.reader };

    ghost has_failed = { λ source. is_some source.error };

    ghost read_count = { λ source. source.reads };

    fn read(&mut self, buffer: &mut [u8]) -> Result<usize, DeviceFault> {
        self.reads = self.reads.saturating_add(1);
        for _ in 0..u64::MAX {
            match self.reader.read(buffer) {
                Ok(count) => return Ok(count),
                Err(error) if error.kind() == ErrorKind::Interrupted => {}
                Err(error) => {
                    self.error = Some(error);
                    return Err(DeviceFault);
                }
            }
        }
        self.error = Some(io::Error::from(ErrorKind::Interrupted));
        Err(DeviceFault)
    }

    fn failed(&self) -> bool {
        self.error.is_some()
    }

    fn reads(&self) -> u64 {
        self.reads
    }
}
