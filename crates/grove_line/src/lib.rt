//! What a session line asks for, read from its text.
#![tactic(auto)]

pub use asked::Asked;
pub use line::{AnyTree, Line, Trees};
pub use line_reader::LineReader;

mod accesses;
mod asked;
mod check;
mod items;
mod line;
mod line_reader;
mod list_read;
mod members;
mod only;
mod parts;
mod reading;
mod scalars;
mod unread;
mod values;
