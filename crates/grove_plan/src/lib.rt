//! Lock plans, and the judge that says whether one is legal and what it costs.
#![tactic(auto)]

pub use fault::PlanFault;
pub use judging::judge;
pub use laws::plan_laws;
pub use plan::Plan;
pub use step::Step;

mod fault;
mod judging;
mod laws;
mod plan;
mod step;
mod tally;
