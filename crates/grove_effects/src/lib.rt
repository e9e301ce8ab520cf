//! Lists of numbers and names as bytes, and back: a snapshot of all of them, and effects, each of which has the numbers
//! that changed.
#![tactic(auto)]

mod effect;
mod number;
mod snapshot;

pub use effect::{apply_effect, keep_numbers};
pub use number::{Unfit, push_numbers};
pub use snapshot::{NodeName, Snapshot, SnapshotFault, push_names, read_snapshot};
