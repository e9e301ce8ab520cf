use crate::Opening;
use crate::desk_receipt::DeskReceipt;
use crate::door::NamesOf;
use crate::fault::NoReceipt;
use grove_line::Line;
use grove_store::Keeper;

/// Where a line that was put has got to.
#[derive(Drop)]
pub(crate) enum State<B: Opening, K: Keeper> {
    Waiting(Line<NamesOf<B>>),
    /// The line left with the store.
    Running,
    /// What the caller of the line is to take.
    Done(Result<DeskReceipt<B, K>, NoReceipt>),
    /// The caller of the line has taken it.
    Taken,
}

impl<B: Opening, K: Keeper> State<B, K> {
    pub(crate) fn is_waiting(&self) -> bool {
        matches!(self, State::Waiting(_))
    }

    pub(crate) fn is_running(&self) -> bool {
        matches!(self, State::Running)
    }

    pub(crate) fn is_done(&self) -> bool {
        matches!(self, State::Done(_))
    }

    /// Has the line no receipt, for good?
    pub(crate) fn is_refused(&self) -> bool {
        matches!(self, State::Done(Err(_)))
    }
}
