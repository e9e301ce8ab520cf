use crate::{Desk, Opening};
use grove_build::PlanCounts;
use grove_store::Keeper;
use std::sync::Wait;

impl<B: Opening, K: Keeper + Drop> Desk<B, K> {
    /// What the store has counted of plans and of lists, by the round that was last put back. It waits for none.
    pub fn plan_counts<R: Wait>(&self, rt: &R) -> PlanCounts {
        self.board.lock(rt).plan_counts()
    }
}
