//! Trees that are cut down to some of their nodes: what is planned over a cut holds over the whole tree.
#![tactic(auto)]

pub use laws::cut_laws;

mod laws;
