//! A store's file: a snapshot, and the effect of each round that changed something.
#![tactic(auto)]

mod beside;
mod copies;
mod data;
mod naming;
mod numbers;
mod reading;
mod rows;

pub use beside::KeptBeside;
pub use copies::KeptCopies;
pub use data::Data;
pub use reading::{NoStoreThere, read_store};
