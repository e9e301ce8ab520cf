//! Solves networks, and tests the answers.

mod checking;
mod solving;

pub use solving::solve_each;
