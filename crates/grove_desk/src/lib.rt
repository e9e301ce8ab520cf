//! A desk, at which many callers share one store: batches that wait together are answered as one round, and each line
//! has a receipt.
#![tactic(auto)]

pub use awaited::Awaited;
pub use desk::{Closed, Desk};
pub use fault::DeskFault;
pub use journal::JournalEntry;
pub use opening::Opening;
pub use receipt::Receipt;
pub use told::Told;
pub use visit::{Visit, desk_session};
pub use watch::{LineWatch, RoundWatch, Unwatched};

mod answering;
mod awaited;
mod bells;
mod board;
mod desk;
mod desk_receipt;
mod door;
mod errand;
mod fault;
mod journal;
mod ledger;
mod opening;
mod pipeline;
mod receipt;
mod rounds;
mod slot;
mod standing;
mod state;
mod told;
mod turn;
mod visit;
mod watch;
