use super::Crew;
use grove_access::AccessList;
use grove_build::{KeptPlans, kept_jobs_alone};
use grove_core::Job;
use grove_meter::reweigh_alone;
use grove_tree::{NoMemory, Tree};
use std::alloc::Global;

/// The caller alone, who starts no thread, takes no lock and never waits.
#[derive(Drop)]
pub struct Alone;

impl Crew for Alone {
    ghost use Rattle.std.specs.Prelude.{⊤};

    ghost asks = { ⊤ };

    fn jobs(
        &self,
        alloc: Global,
        tree: &Tree,
        plans: &mut KeptPlans,
        lists: Vec<AccessList>,
        _workers: u32,
    ) -> Result<Vec<Job>, NoMemory> {
        kept_jobs_alone(alloc, tree, plans, lists)
    }

    fn reweigh(&self, tree: &mut Tree, waits: &[u32], _workers: u32) -> u32 {
        reweigh_alone(tree, waits)
    }
}
