//! Who plans a store's lists and weighs its nodes.
ghost use Rattle.std.specs.Prelude.{◌≡◌, ◌≤◌, ◌==◌, not, length, All, IfOk};
ghost use Rattle.grove_base.specs.Numbers.{count_below};
ghost use Rattle.grove_tree.specs.Trees.{weight_of};
ghost use Rattle.grove_meter.specs.Waits.{reweighed};
ghost use Rattle.grove_access.specs.Lists.{nodes_of, AreNodes};
ghost use Rattle.grove_build.specs.KeptPlans.{AreSettledFor};
ghost use Rattle.grove_build.specs.SettledJobs.{AreSettledJobs};

pub use alone::Alone;
use grove_access::AccessList;
use grove_build::KeptPlans;
use grove_core::Job;
use grove_tree::{NoMemory, Tree};
use std::alloc::Global;
pub use workers::Workers;

mod alone;
mod workers;

/// Who plans the lists of a round and gives nodes their new weights.
pub trait Crew {
    /// What the work asks of a runtime: that threads may share it, or nothing.
    ghost asks: { Type 0 };

    /// A job for each list, with its settled plan. Only lists for which no plan is kept are planned, and their plans
    /// are kept.
    fn jobs(
        &self,
        alloc: Global,
        tree: &Tree,
        plans: &mut KeptPlans,
        lists: Vec<AccessList>,
        workers: u32,
    ) -> Result<Vec<Job>, NoMemory>
        requires asks { asks }
        requires few { length lists.items ≤ 256 }
        requires fit { All (λ list. AreNodes tree.now (nodes_of list)) lists.items }
        requires kept { AreSettledFor tree.now plans.old }
        ensures jobs { IfOk result (λ jobs. AreSettledJobs tree.now lists.items jobs.items) }
        ensures kept { AreSettledFor tree.now plans.new };

    /// Gives each node of the tree its new weight by the waits at its number. The result is the number of weights
    /// changed.
    fn reweigh(&self, tree: &mut Tree, waits: &[u32], workers: u32) -> u32
        requires asks { asks }
        requires workers { (1 ≤ workers) × (workers ≤ 16) }
        requires waits { length waits.now ≡ length tree.old }
        ensures rows { tree.new ≡ reweighed waits.now tree.old }
        ensures count { result
            ≡ count_below (length tree.old) (λ node. not (weight_of tree.new node == weight_of tree.old node)) };
}
