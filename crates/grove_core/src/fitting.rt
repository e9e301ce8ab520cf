ghost use Rattle.std.specs.Prelude.{IsTrue, ◌↔◌};
ghost use Rattle.grove_core.specs.Openings.{AllFit};

use crate::Job;
use grove_tree::Tree;

/// Does each job's list name nodes of the tree?
pub fn all_fit(tree: &Tree, jobs: &[Job]) -> bool
    ensures { IsTrue result ↔ AllFit tree.now jobs.now }
{
    for txn in 0..jobs.len() {
        if !jobs[txn].list.fits(tree) {
            return false;
        }
    }
    true
}
