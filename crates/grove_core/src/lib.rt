//! The core: a pure state machine that runs transactions over their lock plans, and the serial order of a finished run.
#![tactic(auto)]

pub use alone::{DoneAlone, do_alone};
pub use event::Event;
pub use fault::{OpenFault, ReplayFault, StepFault};
pub use fitting::all_fit;
pub use job::Job;
pub use laws::run_laws;
pub use machine::Core;
pub use opening::judge_all;
pub use ordering::{serial_order, serial_order_into};
pub use replies::replies_of;
pub use run_fault::RunFault;

mod alone;
mod event;
mod fault;
mod fitting;
mod following;
mod job;
mod laws;
mod locking;
mod machine;
mod opening;
mod ordering;
mod owner;
mod preceding;
mod progress;
mod replies;
mod run_fault;
