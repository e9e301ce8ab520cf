/// How many lists were given their plans, by themselves and in batches, and how many lists were planned for that.
#[derive(Debug, Clone, Copy, Default)]
pub struct PlanCounts {
    given: u64,
    in_batches: u64,
    planned: u64,
}

impl PlanCounts {
    /// How many lists were given a plan that was kept already.
    pub fn hits(&self) -> u64 {
        let all = self.given.saturating_add(self.in_batches);
        all.saturating_sub(self.planned)
    }

    /// How many lists were planned, since nothing was kept for them.
    pub fn misses(&self) -> u64 {
        self.planned
    }

    /// How many lists the batches had.
    pub fn in_batches(&self) -> u64 {
        self.in_batches
    }

    pub(crate) fn note_given(&mut self) {
        self.given = self.given.saturating_add(1);
    }

    pub(crate) fn note_batch(&mut self, lists: usize) {
        self.in_batches = self.in_batches.saturating_add(lists as u64);
    }

    pub(crate) fn note_planned(&mut self) {
        self.planned = self.planned.saturating_add(1);
    }
}
