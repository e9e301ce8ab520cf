//! A log's file over `std::fs`: the file itself, the one beside it that can take its place, and a lock that keeps
//! others out.
#![tactic(auto)]

mod fresh;
mod log_file;
mod record;

pub use fresh::fresh_number;
pub use log_file::{FileNames, LogFile, Opened};
