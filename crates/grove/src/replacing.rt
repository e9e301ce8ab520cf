use crate::answer::Stop;
use crate::explained::Explained;
use crate::failure::Failure;
use crate::file_sink::FileSink;
use grove_serve::Host;
use grove_session::write_whole;
use std::alloc::Global;
use std::fs::{self, OpenFile};
use std::io;
use std::rt::Files;

/// Puts the bytes in the file of a name, which has its old bytes or all the new ones whenever the machine stops. They
/// go to a new file beside it first, which is synced and then given the name. Where that fails, the new file is taken
/// away.
pub fn replace<R: Host + Files>(
    rt: &R,
    alloc: Global,
    name: &str,
    bytes: &[u8],
) -> Result<(), Stop> {
    let beside = format!(in alloc; "{name}.new")?;
    match put(rt, name, &beside, bytes) {
        Ok(()) => Ok(()),
        Err(error) => {
            let _taken = fs::remove_file(rt, beside.as_str());
            Err(Failure::Save(error).stop())
        }
    }
}

fn put<R: Files>(rt: &R, name: &str, beside: &str, bytes: &[u8]) -> io::Result<()> {
    write_synced(rt, beside, bytes)?;
    fs::rename(rt, beside, name)?;
    fs::open(rt, folder_of(name))?.sync_all()
}

/// Writes a file, and has the system bring it to its device.
fn write_synced<R: Files>(rt: &R, name: &str, bytes: &[u8]) -> io::Result<()> {
    let mut file = fs::create(rt, name)?;
    let mut sink = FileSink::new(&mut file);
    if write_whole(&mut sink, bytes).is_err() {
        let error = sink.error();
        return Err(error.unwrap_or(io::Error::from(io::ErrorKind::WriteZero)));
    }
    file.sync_all()
}

/// The folder of a file.
pub fn folder_of(name: &str) -> &str {
    match name.rsplit_once('/') {
        Some(("", _file)) => "/",
        Some((folder, _file)) => folder,
        None => ".",
    }
}
