use super::Crew;
use grove_access::AccessList;
use grove_build::{KeptPlans, kept_jobs, kept_jobs_alone};
use grove_core::Job;
use grove_meter::reweigh;
use grove_tree::{NoMemory, OpenGate, Tree};
use std::alloc::Global;
use std::thread::Threads;

/// Worker threads beside the caller.
#[derive(Drop)]
pub struct Workers<'a, R> {
    pub rt: &'a R,
}

impl<R: Threads + Sync> Crew for Workers<'_, R> {
    ghost use Rattle.std.specs.Thread.{IsSync};

    ghost asks = { IsSync R.row };

    fn jobs(
        &self,
        alloc: Global,
        tree: &Tree,
        plans: &mut KeptPlans,
        lists: Vec<AccessList>,
        workers: u32,
    ) -> Result<Vec<Job>, NoMemory> {
        // A thread would have nothing to plan beside the caller.
        if workers < 2 || lists.len() < 2 {
            return kept_jobs_alone(alloc, tree, plans, lists);
        }
        kept_jobs(self.rt, alloc, tree, plans, lists, workers)
    }

    fn reweigh(&self, tree: &mut Tree, waits: &[u32], workers: u32) -> u32 {
        reweigh(self.rt, tree, waits, workers, &OpenGate)
    }
}
