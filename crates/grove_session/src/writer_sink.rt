ghost use Rattle.std.specs.Prelude.{◌≡◌, ◌<◌, ◌≤◌, false, length, IfOk};
ghost use Rattle.std.specs.Io.KnownBytes.{WriteAppends};

use crate::{DeviceFault, Sink};
use std::io::{self, ErrorKind, Write};

/// A sink over a writer of std, which keeps the error of the write that failed. An interrupted write is tried again;
/// one that takes nothing is a fault.
#[derive(Debug, Drop)]
pub struct WriterSink<W> {
    writer: W,
    error: Option<io::Error>,
}

impl<W: Write> WriterSink<W> {
    pub fn new(writer: W) -> WriterSink<W>
        ensures contents { ⟦<WriterSink<W> as Sink>⟧.contents result ≡ W.contents writer }
        ensures failed { ⟦<WriterSink<W> as Sink>⟧.has_failed result ≡ false }
    {
        WriterSink {
            writer,
            error: None,
        }
    }

    /// The error of the latest write that failed.
    pub fn error(&self) -> Option<io::Error> {
        self.error
    }
}

impl<W: Write> Sink for WriterSink<W> {
    ghost use Rattle.std.specs.Prelude.{is_some};

    ghost contents = { λ sink. W.contents sink.writer };

    ghost has_failed = { λ sink. is_some sink.error };

    fn write(&mut self, bytes: &[u8]) -> Result<usize, DeviceFault> {
        match write_through(&mut self.writer, bytes) {
            Ok(count) => Ok(count),
            Err(error) => {
                self.error = Some(error);
                Err(DeviceFault)
            }
        }
    }

    fn failed(&self) -> bool {
        self.error.is_some()
    }
}

fn write_through<W: Write>(writer: &mut W, bytes: &[u8]) -> io::Result<usize>
    ensures bound { IfOk result (λ count. count ≤ length bytes.now) }
    ensures some { IfOk result (λ count. 0 < length bytes.now → 0 < count) }
    ensures bytes { WriteAppends (W.contents writer.old) (W.contents writer.new) result bytes.now }
{
    for _ in 0..u64::MAX {
        match writer.write(bytes) {
            Ok(0) if !bytes.is_empty() => return Err(io::Error::from(ErrorKind::WriteZero)),
            Err(error) if error.kind() == ErrorKind::Interrupted => {}
            result => return result,
        }
    }
    Err(io::Error::from(ErrorKind::Interrupted))
}
