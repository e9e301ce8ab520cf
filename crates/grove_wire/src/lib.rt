//! JSON documents and requests, read and written, and the texts of faults.
#![tactic(auto)]

pub use accesses::AccessForm;
pub use document::{MOST_BYTES, MOST_HISTORY_BYTES, MOST_ITEMS, read_document, read_history};
pub use events::{MOST_EVENTS, read_events};
pub use fault::WireFault;
pub use fault_names::{plan_fault_name, proof_fault_name, run_fault_name, wire_fault_name};
pub use fault_texts::{plan_fault_text, proof_fault_text, run_fault_text, wire_fault_text};
pub use faults::{Fault, StandingFault};
pub use finder::Finder;
pub use flows::{RowMembers, read_flow, read_plan_and_flow, row_on};
pub use jobs::{MOST_JOBS, read_jobs};
pub use lists::{MOST_LISTS, read_list, read_lists};
pub use nodes::read_tree;
pub use numbers::number_of;
pub use path_cache::PathCache;
pub use place::{Part, Place};
pub use plan_values::{flow_value, plan_value};
pub use planned_texts::{flow_text, plan_text, planned_text};
pub use plans::{read_plan, step_on};
pub use replay_texts::replay_fault_text;
pub use replies::{numbers_value, replies_value};
pub use reply_values::{
    changed_value, cost_value, counts_value, error_value, lists_value, round_value, weights_value,
};
pub use request::{Request, request_laws};
pub use round_texts::round_text;
pub use scalars::{Few, Scalar};
pub use standing::{Standing, read_standing};
pub use tree_values::{document_text, document_value};
pub use versions::Version;

mod accesses;
mod arrays;
mod document;
mod events;
mod fault;
mod fault_names;
mod fault_texts;
mod faults;
mod finder;
mod flow_texts;
mod flows;
mod forms;
mod jobs;
mod lists;
mod nodes;
mod numbers;
mod path_cache;
mod paths;
mod place;
mod plan_texts;
mod plan_values;
mod planned_texts;
mod plans;
mod replay_texts;
mod replies;
mod reply_values;
mod request;
mod round_texts;
mod scalars;
mod standing;
mod tree_values;
mod versions;
