use std::fs::File;
use std::os::unix::fs::FileExt;
use std::rt::Files;

/// Seven numbers of this process, as Linux writes them: its memory of all kinds, in pages.
const PATH: &str = "/proc/self/statm";

/// The bytes of a page on x86-64.
const PAGE: u64 = 4_096;

/// More than the file has.
const MOST_BYTES: usize = 256;

/// The file in which the system says how much memory the process has. Reading it takes no runtime, so threads may.
#[derive(Drop)]
pub struct MemoryFile {
    statm: File,
}

impl MemoryFile {
    /// The file, open; nothing, if the system has none.
    pub fn open<R: Files<File = File>>(rt: &R) -> Option<MemoryFile> {
        let statm = File::open(rt, PATH).ok()?;
        Some(MemoryFile { statm })
    }

    /// How many bytes of memory the process has now, if the system says it.
    pub fn resident_bytes(&self) -> Option<u64> {
        let mut bytes = [0u8; MOST_BYTES];
        let count = self.statm.read_at(&mut bytes, 0).ok()?;
        resident_in(bytes.get(..count)?)
    }
}

/// The bytes of memory by such a file, whose second number is that of the pages in memory.
fn resident_in(bytes: &[u8]) -> Option<u64> {
    let text = str::from_utf8(bytes).ok()?;
    let pages = text.split_ascii_whitespace().nth(1)?.parse::<u64>().ok()?;
    pages.checked_mul(PAGE)
}
