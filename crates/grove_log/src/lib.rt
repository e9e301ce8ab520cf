//! A log of payloads in a file, with one sync for each: a frame is its payload's length, the payload, and a digest that
//! chains it to the frame before. Reading takes frames while they pass.
#![tactic(auto)]

mod damage;
mod device;
mod frame;
mod laws;
mod log;
mod memory;
mod reading;

pub use device::{Device, DeviceError, Folder};
pub use frame::Seal;
pub use laws::{crash_laws, damage_laws};
pub use log::{Log, LogError};
pub use memory::MemoryFile;
pub use reading::{Payloads, Unreadable, read};
