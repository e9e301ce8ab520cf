//! A store that answers lines, alone or in a round of batches.
#![tactic(auto)]

pub use keeper::{InMemory, Keeper, Unkept};
pub use laws::round_laws;
pub use line_reply::LineReply;
pub use refusal::Refusal;
pub use refused::NoStore;
pub use store::Store;

mod begun;
mod crew;
mod keeper;
mod kept_texts;
mod laws;
mod line_reply;
mod refusal;
mod refused;
mod round;
mod running;
mod same;
mod store;
mod texts;
mod waiting;
mod worth;
