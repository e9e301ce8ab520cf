//! Trees of named, weighted nodes: built from rows, found by path.
#![tactic(auto)]

pub use fault::TreeFault;
pub use gate::{Gate, OpenGate};
pub use grove_base::NoMemory;
pub use node::Node;
pub use row::Row;
pub use rules::{DEEPEST, HEAVIEST};
pub use tree::Tree;
pub use weighing::Rule;

mod copying;
mod depth;
mod fault;
mod finding;
mod gate;
mod guesses;
mod likeness;
mod marks;
mod node;
mod row;
mod rules;
mod tree;
mod weighing;
