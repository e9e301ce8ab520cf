use crate::board::{MOST_LINES, MOST_TAKEN};
use crate::pipeline::MOST_TOGETHER;

/// What a caller with lines on the board does next.
#[derive(Drop)]
pub(crate) enum Turn<P, L> {
    /// It takes these lines off the board, and goes.
    Leave(P),
    /// It leads, with this ledger.
    Lead(L),
    /// It waits.
    Wait,
}

/// How long a caller leads that has begun to.
#[derive(Clone, Copy, Debug, PartialEq, Eq)]
pub(crate) enum Leading {
    /// Until one of its lines is settled. So with nobody else at the desk no line has its effect before its turn.
    Once,
    /// Until all of its lines are settled.
    Through,
}

impl Leading {
    /// How many lines of each caller leave with the store at most.
    pub(crate) fn most_of_each(self) -> usize {
        match self {
            Leading::Once => 1,
            Leading::Through => MOST_TOGETHER,
        }
    }

    /// How many lines leave with the store at most.
    pub(crate) fn most_taken(self) -> usize {
        match self {
            Leading::Once => MOST_LINES,
            Leading::Through => MOST_TAKEN,
        }
    }
}
