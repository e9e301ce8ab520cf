//! Each method makes one call of the system, and then notes it with its answer.
ghost use Rattle.std.specs.Prelude.{◌≡◌, length, IfOk};
ghost use Rattle.grove_log.specs.Devices.{Only};
ghost use Rattle.grove_disk.specs.Told.{seen_of, left_of, left_since_of, faults_of, next_of};
ghost use Rattle.grove_disk.specs.Files.{events_of};

use crate::record::Record;
use grove_log::{Device, DeviceError, Folder};
use std::alloc::Global;
use std::fs::{File, OpenOptions};
use std::io::{Read, Write};
use std::rt::Files;
use std::{fs, io, mem};

const FOUND: u64 = 0;

const APPENDED: u64 = 1;

const SYNCED: u64 = 2;

const NEXT_WRITTEN: u64 = 3;

const RENAMED: u64 = 4;

/// The names of a log's files, and the folder that all of them lie in.
#[derive(Clone, Copy, Debug)]
pub struct FileNames<'a> {
    pub folder: &'a str,
    /// The log.
    pub log: &'a str,
    /// The file that is written to take its place.
    pub next: &'a str,
    /// The file that is locked while the log is open. It stays, and nothing stands in it.
    pub lock: &'a str,
}

/// A log's file that was opened to read and append. While it is open, no other can be opened by these names.
#[derive(Drop)]
pub struct LogFile<'a, R: Files<File = File>> {
    rt: &'a R,
    names: FileNames<'a>,
    folder: File,
    lock: File,
    file: File,
    /// The file whose place that one has taken, until bytes are to be put behind it. The system may be slow to free
    /// what no name leads to, and whoever waits for a new file needn't wait for that too.
    replaced: Option<File>,
    asked: Record,
}

/// A log's file, and the bytes that stand in it.
#[derive(Drop)]
pub struct Opened<'a, R: Files<File = File>> {
    pub file: LogFile<'a, R>,
    pub bytes: Vec<u8>,
}

/// Locks a file, which it makes if it isn't there. The error `WouldBlock` says that another has locked it.
fn locked<R: Files<File = File>>(rt: &R, name: &str) -> io::Result<File> {
    let lock = OpenOptions::new()
        .read(true)
        .append(true)
        .create(true)
        .open(rt, name)?;
    lock.try_lock()?;
    Ok(lock)
}

fn open_log<R: Files<File = File>>(rt: &R, name: &str) -> io::Result<File> {
    OpenOptions::new()
        .read(true)
        .append(true)
        .create(true)
        .open(rt, name)
}

/// Writes a file anew, and syncs it.
fn write_whole<R: Files<File = File>>(rt: &R, name: &str, bytes: &[u8]) -> io::Result<()> {
    let mut file = fs::create(rt, name)?;
    file.write_all(bytes)?;
    file.sync_all()
}

/// Gives a file another's name, and opens it.
fn take_place<R: Files<File = File>>(
    rt: &R,
    names: &FileNames<'_>,
    folder: &File,
) -> io::Result<File> {
    fs::rename(rt, names.next, names.log)?;
    folder.sync_all()?;
    open_log(rt, names.log)
}

impl<'a, R: Files<File = File>> LogFile<'a, R> {
    /// Opens a log's file, or makes an empty one, and reads it. All that stands in it is on the disk then. The error
    /// `WouldBlock` says that another has it open.
    pub fn open(alloc: Global, rt: &'a R, names: FileNames<'a>) -> io::Result<Opened<'a, R>>
        ensures bytes { IfOk result (λ opened. seen_of (events_of opened.file) ≡ opened.bytes.items) }
        ensures durable { IfOk result (λ opened. Only opened.bytes.items (left_of (events_of opened.file))) }
        ensures unfailed { IfOk result (λ opened. faults_of (events_of opened.file) ≡ 0) }
    {
        let folder = File::open(rt, names.folder)?;
        let lock = locked(rt, names.lock)?;
        let file = open_log(rt, names.log)?;
        file.sync_all()?;
        folder.sync_all()?;
        let mut bytes = Vec::new(alloc);
        let mut source = &file;
        source.read_to_end(&mut bytes)?;
        let mut asked = Record::new();
        asked.note(&[FOUND], &bytes);
        let file = LogFile {
            rt,
            names,
            folder,
            lock,
            file,
            replaced: None,
            asked,
        };
        Ok(Opened { file, bytes })
    }
}

impl<'a, R: Files<File = File>> Device for LogFile<'a, R> {
    ghost use Rattle.grove_disk.specs.Laws.{counts_now, only_now};

    ghost seen = { λ d. seen_of d.asked.events };

    ghost may_leave = { λ d c. left_of d.asked.events c };

    ghost moment = { λ d. length d.asked.events };

    ghost left_since = { λ d t c. left_since_of d.asked.events t c };

    ghost faults = { λ d. faults_of d.asked.events };

    ghost counts_now = { λ d t c le now. counts_now d.asked.events t c now };

    ghost only_now = { λ d c left. only_now d.asked.events c left };

    fn append(&mut self, bytes: &[u8]) -> Result<(), DeviceError> {
        self.replaced = None;
        let mut out = &self.file;
        match out.write_all(bytes) {
            Ok(()) => {
                self.asked.note(&[APPENDED, 1], bytes);
                Ok(())
            }
            Err(error) => {
                self.asked.note(&[APPENDED, 0], bytes);
                Err(DeviceError::Failed(error))
            }
        }
    }

    fn sync(&mut self) -> Result<(), DeviceError> {
        match self.file.sync_data() {
            Ok(()) => {
                self.asked.note(&[SYNCED, 1], &[]);
                Ok(())
            }
            Err(error) => {
                self.asked.note(&[SYNCED, 0], &[]);
                Err(DeviceError::Failed(error))
            }
        }
    }
}

impl<'a, R: Files<File = File>> Folder for LogFile<'a, R> {
    ghost next = { λ d. next_of d.asked.events };

    fn write_next(&mut self, bytes: &[u8]) -> Result<(), DeviceError> {
        match write_whole(self.rt, self.names.next, bytes) {
            Ok(()) => {
                self.asked.note(&[NEXT_WRITTEN, 1], bytes);
                Ok(())
            }
            Err(error) => {
                self.asked.note(&[NEXT_WRITTEN, 0], bytes);
                Err(DeviceError::Failed(error))
            }
        }
    }

    fn rename_next(&mut self) -> Result<(), DeviceError> {
        match take_place(self.rt, &self.names, &self.folder) {
            Ok(file) => {
                self.replaced = Some(mem::replace(&mut self.file, file));
                self.asked.note(&[RENAMED, 1], &[]);
                Ok(())
            }
            Err(error) => {
                self.asked.note(&[RENAMED, 0], &[]);
                Err(DeviceError::Failed(error))
            }
        }
    }
}
