ghost use Rattle.std.specs.Prelude.{map, IfOk, length, ◌≤◌};
ghost use Rattle.serde_json.specs.View.{view};
ghost use Rattle.grove_core.specs.Openings.{AllFit};
ghost use Rattle.grove_wire.specs.Outcomes.{Gives};
ghost use Rattle.grove_wire.specs.Histories.{job_at, jobs_of, jobs_in};

use crate::arrays::read_few;
use crate::document::{items_at, items_in};
use crate::lists::list_of;
use crate::plans::plan_of;
use crate::versions::{Version, version_of};
use crate::{Part, Place, WireFault};
use grove_core::Job;
use grove_tree::Tree;
use serde_json::Value;
use std::alloc::Global;

/// No document has more jobs.
pub const MOST_JOBS: usize = 256;

/// The document's `jobs`, over the tree: more than 256 are `Limit`. Then they are read in order, each as an object,
/// then its
/// `list` as a list and last its `plan` as a plan, which may be any. Accesses tell lengths in version 2 alone; any
/// other version than 1 or 2 is `Shape` of the whole, before all this.
#[tactic(auto, unfolding(crate::specs::Histories::jobs_in))]
pub fn read_jobs(alloc: Global, tree: &Tree, document: &Value) -> Result<Vec<Job>, WireFault>
    ensures read { Gives (λ jobs. jobs.items) result (jobs_in tree.now (view document.now)) }
    ensures fitting { IfOk result (λ jobs. AllFit tree.now jobs.items) }
    ensures few { IfOk result (λ jobs. length jobs.items ≤ 256) }
{
    let version = version_of(document)?;
    let items = items_in(document, Part::Jobs)?;
    jobs_of(alloc, tree, version, items)
}

/// The values as the jobs of a history.
fn jobs_of(
    alloc: Global,
    tree: &Tree,
    version: Version,
    items: &[Value],
) -> Result<Vec<Job>, WireFault>
    ensures { Gives (λ jobs. jobs.items) result (jobs_of tree.now version (map view items.now)) }
{
    read_few(
        alloc,
        MOST_JOBS,
        Place::whole(Part::Jobs),
        items,
        |at, item| { job_at(alloc, tree, version, at, item) },
    )
}

/// A value as the job of this number.
#[tactic(auto, unfolding(crate::specs::Histories::job_at))]
fn job_at(
    alloc: Global,
    tree: &Tree,
    version: Version,
    at: u32,
    value: &Value,
) -> Result<Job, WireFault>
    ensures { Gives (λ job. job) result (job_at tree.now version at (view value.now)) }
{
    if !value.is_object() {
        return Err(WireFault::Shape(Place::item(Part::Jobs, at)));
    }
    let place = Place::item(Part::JobList, at);
    let accesses = items_at(place, "list", value)?;
    let list = list_of(alloc, tree, version, place, accesses)?;
    let place = Place::item(Part::JobPlan, at);
    let steps = items_at(place, "plan", value)?;
    let plan = plan_of(alloc, tree, place, steps)?;
    Ok(Job { list, plan })
}
