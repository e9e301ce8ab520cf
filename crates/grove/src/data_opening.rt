//! Opening the file that a store's rounds are kept in.
ghost use Rattle.std.specs.Prelude.{◌≡◌, ◌≤◌, IfOk};
ghost use Rattle.grove_log.specs.Devices.{Only};
ghost use Rattle.grove_disk.specs.Told.{seen_of, left_of, faults_of};
ghost use Rattle.grove_disk.specs.Files.{events_of};
ghost use Rattle.grove_data.specs.Files.{OpensAs};
ghost use Rattle.grove.specs.Opening.{IsOpened, IsToKeep};

use crate::answer::Stop;
use crate::data_file::DataFile;
use crate::data_refusal::{DataRefusal, other_node};
use crate::failure::DataFailure;
use crate::round_keeper::{KeptFile, RoundKeeper};
use grove_base::NoMemory;
use grove_data::{Data, NoStoreThere, read_store};
use grove_disk::{LogFile, Opened, fresh_number};
use grove_log::{DeviceError, LogError, Unreadable};
use grove_serve::{FileCounts, KeptStore};
use grove_store::{Keeper, Store};
use grove_words::Workers;
use std::alloc::{AllocError, Global};
use std::fs;
use std::io::ErrorKind;
use std::sync::Arc;

/// Where rounds are kept, if they are and there was memory for the names of the files, and by which means.
#[derive(Clone, Copy)]
pub struct Keeping<'d> {
    pub disk: &'d HostRuntime,
    pub file: Option<&'d DataFile<'d>>,
}

/// The store of a server with what keeps its rounds.
#[derive(Drop)]
pub struct ServedStore<'d> {
    pub kept: KeptStore<RoundKeeper<KeptFile<'d>>>,
    /// What is counted of the file of the rounds, if there is one.
    pub counts: Option<Arc<FileCounts>>,
}

/// Why a store isn't served over the file of its rounds.
#[derive(Drop)]
pub enum NoData {
    /// What the file has is refused.
    Refused(DataRefusal),
    Stopped(Stop),
}

impl From<Stop> for NoData {
    fn from(why: Stop) -> NoData {
        NoData::Stopped(why)
    }
}

impl From<DataFailure> for NoData {
    fn from(failure: DataFailure) -> NoData {
        NoData::Stopped(Stop::from(failure))
    }
}

impl From<NoMemory> for NoData {
    fn from(_error: NoMemory) -> NoData {
        NoData::Stopped(Stop::Memory)
    }
}

impl From<AllocError> for NoData {
    fn from(_error: AllocError) -> NoData {
        NoData::Stopped(Stop::Memory)
    }
}

/// A store whose rounds aren't kept.
pub fn in_memory<'d>(store: Store) -> ServedStore<'d> {
    ServedStore {
        kept: KeptStore {
            store,
            keeper: RoundKeeper::InMemory,
        },
        counts: None,
    }
}

/// The store that the file has, or a document's where it has none, over a file that is begun anew. Of a file that has a
/// store the document's is to have the names.
pub fn in_file<'d>(
    alloc: Global,
    keeping: Keeping<'d>,
    document: Option<Store>,
    workers: Workers,
) -> Result<ServedStore<'d>, NoData> {
    let disk = keeping.disk;
    let Some(file) = keeping.file else {
        return Err(NoData::Stopped(Stop::Memory));
    };
    let opened = open_file(alloc, disk, file, document.is_some())?;
    over_file(alloc, disk, file, opened, document, workers)
}

/// The store that the opened file has, or the document's, over the file that is begun anew.
fn over_file<'d>(
    alloc: Global,
    disk: &'d HostRuntime,
    file: &'d DataFile<'d>,
    opened: Opened<'d, HostRuntime>,
    document: Option<Store>,
    workers: Workers,
) -> Result<ServedStore<'d>, NoData>
    requires { IsOpened opened.file opened.bytes.items }
    ensures { IfOk result (λ served. IsToKeep (seen_of (events_of opened.entry.file)) document served.kept) }
{
    let Opened {
        file: device,
        bytes,
    } = opened;
    let store = store_to_keep(alloc, &bytes, document, workers)?;
    begin(alloc, disk, file, device, store)
}

/// The store over the file, which is begun with it in place of what it has.
fn begin<'d>(
    alloc: Global,
    disk: &'d HostRuntime,
    file: &'d DataFile<'d>,
    device: LogFile<'d, HostRuntime>,
    store: Store,
) -> Result<ServedStore<'d>, NoData>
    requires durable { Only (seen_of (events_of device)) (left_of (events_of device)) }
    requires unfailed { faults_of (events_of device) ≡ 0 }
    ensures { IfOk result (λ served. served.kept ≡ store) }
{
    let number = match fresh_number(disk) {
        Ok(number) => number,
        Err(error) => return Err(NoData::from(DataFailure::Begin(error))),
    };
    match Data::begin(alloc, device, &number, &store) {
        Ok(data) => keep(alloc, disk, store, data),
        Err(error) => {
            let _taken = fs::remove_file(disk, file.names().next);
            Err(not_begun(error))
        }
    }
}

/// A store whose rounds are kept in the file that was begun with it.
fn keep<'d>(
    alloc: Global,
    disk: &'d HostRuntime,
    store: Store,
    data: Data<LogFile<'d, HostRuntime>>,
) -> Result<ServedStore<'d>, NoData>
    requires { ⟦<Data<LogFile<'d, HostRuntime>> as Keeper>⟧.stands_for «data» store }
    ensures { IfOk result (λ served. served.kept ≡ store) }
{
    let counts = match Arc::new(alloc, FileCounts::new(data.rounds(), data.bytes())) {
        Ok(counts) => counts,
        Err(_) => return Err(NoData::Stopped(Stop::Memory)),
    };
    let file = KeptFile {
        data,
        counts: Arc::try_clone(&counts)?,
        clock: disk,
    };
    Ok(ServedStore {
        kept: KeptStore {
            store,
            keeper: RoundKeeper::InFile(file),
        },
        counts: Some(counts),
    })
}

/// Opens the file. Where it isn't there it is made, if it may be.
fn open_file<'d>(
    alloc: Global,
    disk: &'d HostRuntime,
    file: &'d DataFile<'d>,
    may_make: bool,
) -> Result<Opened<'d, HostRuntime>, DataFailure>
    ensures { IfOk result (λ opened. IsOpened opened.file opened.bytes.items) }
{
    let names = file.names();
    match fs::metadata(disk, names.log) {
        Ok(found) if !found.is_file() => return Err(DataFailure::NotAFile),
        Err(error) if !(may_make && error.kind() == ErrorKind::NotFound) => {
            return Err(DataFailure::Open(error));
        }
        _ => {}
    }
    match LogFile::open(alloc, disk, names) {
        Ok(opened) => Ok(opened),
        Err(error) if error.kind() == ErrorKind::WouldBlock => Err(DataFailure::Taken),
        Err(error) => Err(DataFailure::Open(error)),
    }
}

/// The store that the file has, or the document's where the file is empty.
fn store_to_keep(
    alloc: Global,
    bytes: &[u8],
    document: Option<Store>,
    workers: Workers,
) -> Result<Store, NoData>
    ensures { IfOk result (IsToKeep bytes.now document) }
{
    if bytes.is_empty() {
        return match document {
            Some(store) => Ok(store),
            None => Err(NoData::from(DataFailure::Empty)),
        };
    }
    let store = store_in(alloc, bytes, workers.number)?;
    if let Some(document) = document {
        if !store.tree().same_names(document.tree()) {
            return Err(NoData::Refused(other_node(alloc, document.tree(), store.tree())?));
        }
    }
    Ok(store)
}

/// The store that the bytes of a file stand for.
pub fn store_in(alloc: Global, bytes: &[u8], workers: u32) -> Result<Store, NoData>
    requires { (1 ≤ workers) × (workers ≤ 16) }
    ensures { IfOk result (OpensAs bytes.now) }
{
    match read_store(alloc, bytes, workers) {
        Ok(store) => Ok(store),
        Err(NoStoreThere::Memory) => Err(NoData::Stopped(Stop::Memory)),
        Err(NoStoreThere::Unfit) => Err(NoData::from(DataFailure::NoStore)),
        Err(NoStoreThere::Unreadable(fault)) => Err(unreadable(fault)),
    }
}

/// Why a file can't be read.
pub fn unreadable(fault: Unreadable) -> NoData {
    match fault {
        Unreadable::NotALog => NoData::from(DataFailure::Foreign),
        Unreadable::OtherVersion(version) => NoData::from(DataFailure::OtherVersion(version)),
        Unreadable::Damaged(offset) => NoData::Refused(DataRefusal::Damaged { offset }),
    }
}

/// Why a file can't be begun.
fn not_begun(error: LogError) -> NoData {
    match error {
        LogError::Failed(DeviceError::Failed(error)) => NoData::from(DataFailure::Begin(error)),
        LogError::Memory | LogError::Failed(DeviceError::Memory) | LogError::Refused => {
            NoData::Stopped(Stop::Memory)
        }
    }
}
