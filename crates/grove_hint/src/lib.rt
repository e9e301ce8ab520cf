//! What a person is told beside the refusal of a document or of a session's line: one line on what is wrong, and where.
#![tactic(auto)]

pub use asked::Asked;
pub use hinting::{awaited, hint, oversight};
pub use kinds::hint_of_no_table;
pub use paths::hint_of_path;
pub use session::hint_of_request;

mod asked;
mod differences;
mod forms;
mod hinting;
mod kinds;
mod likeness;
mod paths;
mod places;
mod repeats;
mod rules;
mod sayings;
mod session;
mod shown;
mod stops;
mod syntax;
mod trees;
