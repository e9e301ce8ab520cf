//! Weights that learn from waits: a node that transactions waited for gets heavier, and one that nobody waited for
//! lighter.
#![tactic(auto)]

pub use rule::WaitRule;
pub use weights::{new_weight, reweigh, reweigh_alone};

mod rule;
mod weights;
