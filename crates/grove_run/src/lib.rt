//! Jobs brought to a finished run by worker threads: the book of what happens, under which records travel with locks.
#![tactic(auto)]

pub use batch::{run_batch, run_legal};
pub use book::Book;
pub use finished::Finished;
pub use grove_core::RunFault;
pub use placing::places_in;
pub use steps::{BookStep, CarryStep};
pub use worth::are_worth_a_thread;

mod batch;
mod bells;
mod book;
mod carries;
mod finished;
mod placing;
mod register;
mod sleepers;
mod steps;
mod working;
mod worth;
