//! The nodes that a list forces, with what the planner asks of each.
#![tactic(auto)]

pub use row::SpanRow;
pub use spanning::span;

mod lowest;
mod row;
mod rows;
mod spanning;
mod targets;
mod visit;
