//! The connections of a store's server: who has a slot, what is talked there and for how long, and what is counted and
//! logged of it.
#![tactic(auto)]

pub use connections::serve;
pub use file_counts::FileCounts;
pub use host::{Host, NetHost};
pub use memory_file::MemoryFile;
pub use service::{Door, KeptStore, Manner, Service, Talk};

mod busy;
mod closing;
mod connections;
mod counted_stream;
mod counter;
mod ending;
mod event;
mod event_line;
mod fields;
mod file_counts;
mod guest;
mod histogram;
mod host;
mod leaving;
mod log;
mod memory_file;
mod metrics;
mod metrics_text;
mod minutes;
mod pool;
mod remedy;
mod room;
mod seconds;
mod service;
mod slots;
mod streams;
mod talking;
mod timed_stream;
mod timed_writer;
mod watching;
