ghost use Rattle.std.specs.Prelude.{◌≡◌, map, IfOk};
ghost use Rattle.grove_core.specs.Kept.{past_of};
ghost use Rattle.grove_core.specs.Runs.{replies_of};

use crate::machine::Core;
use grove_access::Reply;
use grove_tree::NoMemory;
use std::alloc::Global;

/// The replies of each job.
pub fn replies_of<'a>(alloc: Global, core: &'a Core) -> Result<Vec<&'a [Reply]>, NoMemory>
    ensures { IfOk result
        (λ replies. map (λ list. list.now) replies.items
        ≡ replies_of core.now.jobs core.now.opening (past_of core.now)) }
{
    let mut replies = Vec::new(alloc);
    let jobs = core.jobs().len() as u32;
    for txn in 0..jobs {
        replies.push(core.replies(txn))?;
    }
    Ok(replies)
}
