//! What every crate stands on: the error of a growth refused; a line for a person; numbers below a bound, counted and
//! added up.
#![tactic(auto)]

pub use hint::Hint;
pub use line::said;
pub use memory::NoMemory;

mod hint;
mod line;
mod memory;
