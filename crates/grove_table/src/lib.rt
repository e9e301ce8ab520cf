//! Trees as tables: lines of a path, a weight and a value, read from CSV and written as it.
#![tactic(auto)]

pub use fault::{LineFault, Reason, TableFault};
pub use hinting::hint;
pub use line::Line;
pub use reading::read_table;
pub use texts::fault_text;
pub use tree_making::{Absent, tree_of};
pub use writing::table_text;

mod confirming;
mod fault;
mod fields;
mod hinting;
mod line;
mod line_numbers;
mod paths;
mod planting;
mod reading;
mod rows;
mod texts;
mod tree_making;
mod writing;
