//! The checker: a plan with a flow beside it is accepted only if no legal plan for the list is cheaper.
#![tactic(auto)]

pub use checking::check;
pub use fault::ProofFault;
pub use flow::{Flow, FlowRow};
pub use theory::laws;

mod checking;
mod fault;
mod flow;
mod row_sums;
mod span;
mod tables;
mod theory;
