//! What a command says of a document: just what the definitions say, or the refusal.
#![tactic(auto)]

pub use auditing::audit_document;
pub use checking::{check_document, check_over};
pub use documents::planned_document;
pub use drawing::{draw_document, drawing_of};
pub use judging::judge_document;
pub use line::Line;
pub use planning::{plan_document, plan_over};
pub use refusal::{Refusal, or_refuse};
pub use running::run_document;

mod auditing;
mod checking;
mod documents;
mod drawing;
mod judging;
mod line;
mod planning;
mod reading;
mod refusal;
mod running;
mod standing;
mod texts;
