//! Plans, checks and weights over trees whose nodes are numbers, in a caller's arrays: what crosses to programs in
//! other languages without any text.
#![tactic(auto)]

pub use building::build_tree;
pub use checked::Checked;
pub use checking::{check_nodes, judge_nodes};
pub use counted::Counted;
pub use finding::find_node;
pub use part::PartNode;
pub use part_planning::plan_part;
pub use planning::plan_nodes;
pub use row::NumberedRow;
pub use status::Status;
pub use step::NumberedStep;
pub use weighing::reweigh_nodes;

mod building;
mod checked;
mod checking;
mod counted;
mod fault;
mod finding;
mod listing;
mod part;
mod part_planning;
mod planning;
mod putting;
mod row;
mod status;
mod step;
mod weighing;
