//! The planner: the settled plan of a list, with the flow that certifies its cost.
#![tactic(auto)]

pub use batch::plan_batch;
pub use jobs::{kept_jobs, kept_jobs_alone, settled_jobs};
pub use kept_plans::{KeptPlans, PlanCounts};
pub use laws::settled_laws;
pub use planning::{Planned, plan};
pub use targets::{Target, targets_of};

mod batch;
mod costs;
mod flow_rows;
mod jobs;
mod kept_plans;
mod kinds;
mod laws;
mod network;
mod parts;
mod places;
mod planning;
mod proposing;
mod solving;
mod stays;
mod steps;
mod targets;
