//! Whole devices: all that a source has, and all of some bytes into a sink.
ghost use Rattle.std.specs.Prelude.{◌≡◌, ℕ, ◌+◌, ◌<◌, ◌≤◌, ◌||◌, true, length, take, IfOk, IfErr, OnOk, OnErr, is_err};
ghost use Rattle.std.specs.Io.KnownBytes.{Appends, Consumes, IsAtEnd};

use crate::{DeviceFault, ReadFault, Sink, Source};
use std::alloc::Global;

/// All the bytes that the source has, where they are at most `most`, and otherwise the first of them, one too many.
pub fn read_whole<S: Source>(
    alloc: Global,
    source: &mut S,
    most: usize,
) -> Result<Vec<u8>, ReadFault>
    requires { most < usize.MAX }
    ensures bytes { IfOk result (λ bytes. Consumes (S.remaining source.old) (S.remaining source.new) bytes.items) }
    ensures few { IfOk result (λ bytes. length bytes.items ≤ most + 1) }
    ensures end { IfOk result (λ bytes. length bytes.items ≤ most → IsAtEnd (S.remaining source.new)) }
    ensures sound { OnOk result (S.has_failed source.new ≡ S.has_failed source.old) }
    ensures device { IfErr result (λ fault. fault ≡ ReadFault.Device → S.has_failed source.new ≡ true) }
    ensures memory { IfErr result (λ fault. fault ≡ ReadFault.Memory
        → S.has_failed source.new ≡ S.has_failed source.old) }
{
    let mut bytes = Vec::new(alloc);
    let mut buffer = [0u8; 8192];
    while bytes.len() <= most {
        let room = buffer.len().min(most + 1 - bytes.len());
        let count = source.read(&mut buffer[..room])?;
        if count == 0 {
            break;
        }
        bytes.extend_from_slice(&buffer[..count])?;
    }
    Ok(bytes)
}

/// Writes all of the bytes, and nothing more once the sink has failed.
pub fn write_whole<S: Sink>(sink: &mut S, bytes: &[u8]) -> Result<(), DeviceFault>
    ensures bytes { OnOk result (Appends (S.contents sink.old) (S.contents sink.new) bytes.now) }
    ensures cut { OnErr result ((count : ℕ) × (count < length bytes.now)
        × Appends (S.contents sink.old) (S.contents sink.new) (take count bytes.now)) }
    ensures failed { S.has_failed sink.new ≡ (S.has_failed sink.old || is_err result) }
{
    match write_until_cut(sink, bytes) {
        Ok(()) => Ok(()),
        Err(_) => Err(DeviceFault),
    }
}

/// A sink failed when so many bytes of a text had gone out.
#[derive(Clone, Copy)]
pub(crate) struct Cut {
    pub(crate) written: usize,
}

/// Writes the bytes, and where the sink fails tells how many it took.
pub(crate) fn write_until_cut<S: Sink>(sink: &mut S, bytes: &[u8]) -> Result<(), Cut>
    ensures bytes { OnOk result (Appends (S.contents sink.old) (S.contents sink.new) bytes.now) }
    ensures unfinished { IfErr result (λ cut. cut.written < length bytes.now) }
    ensures cut { IfErr result
        (λ cut. Appends (S.contents sink.old) (S.contents sink.new) (take cut.written bytes.now)) }
    ensures failed { S.has_failed sink.new ≡ (S.has_failed sink.old || is_err result) }
{
    let mut written = 0;
    while written < bytes.len() {
        match sink.write(&bytes[written..]) {
            Ok(count) => written += count,
            Err(_) => return Err(Cut { written }),
        }
    }
    Ok(())
}
