use crate::replacing::folder_of;
use grove_disk::FileNames;
use std::alloc::{AllocError, Global};

/// The name of a file that rounds are kept in, and those of the files beside it.
#[derive(Drop)]
pub struct DataFile<'a> {
    name: &'a str,
    next: String,
    lock: String,
}

impl<'a> DataFile<'a> {
    pub fn new(alloc: Global, name: &'a str) -> Result<DataFile<'a>, AllocError> {
        Ok(DataFile {
            name,
            next: format!(in alloc; "{name}.next")?,
            lock: format!(in alloc; "{name}.lock")?,
        })
    }

    pub fn names(&self) -> FileNames<'_> {
        FileNames {
            folder: folder_of(self.name),
            log: self.name,
            next: &self.next,
            lock: &self.lock,
        }
    }
}
