//! The minimum-cost flow of a network of difference constraints, and the latest places along it.
#![tactic(auto)]

pub use checking::is_solution;
pub use network::{Arc, Network, Solution};
pub use settling::latest;
pub use solving::solve;

mod checking;
mod fan;
mod network;
mod pushing;
mod queue;
mod search;
mod settling;
mod solving;
mod state;
mod tree;
