ghost use Rattle.std.specs.Prelude.{◌≡◌, ◌≤◌, codes, length, option_map, IfOk, All};
ghost use Rattle.serde_json.specs.Find.{get};
ghost use Rattle.serde_json.specs.View.{view};
ghost use Rattle.grove_access.specs.Lists.{nodes_of, AreNodes};
ghost use Rattle.grove_core.specs.Openings.{AllFit};
ghost use Rattle.grove_wire.specs.Histories.{said_standing};
ghost use Rattle.grove_wire.specs.Outcomes.{Gives, if_there};
ghost use Rattle.grove_wire.specs.Reading.{plan_in};
ghost use Rattle.grove_answer.specs.Says.{IsFitting};
ghost use Rattle.grove_answer.specs.Outcomes.{task_in, trial_in, claim_in, claim_over, sketch_in, batch_in, history_in};

use grove_access::{AccessList, Records};
use grove_core::{Event, Job};
use grove_plan::Plan;
use grove_proof::Flow;
use grove_tree::Tree;
use grove_wire::{
    Standing, WireFault, read_events, read_jobs, read_list, read_lists, read_plan,
    read_plan_and_flow, read_standing, read_tree,
};
use serde_json::Value;
use std::alloc::Global;

/// A tree with its records, and a list of accesses over it.
#[derive(Drop)]
pub struct Task {
    pub tree: Tree,
    pub records: Records,
    pub list: AccessList,
}

/// The document's tree and list.
#[tactic(auto, unfolding(crate::specs::Outcomes::task_in))]
pub fn read_task(alloc: Global, document: &Value) -> Result<Task, WireFault>
    ensures read { Gives (λ task. task) result (task_in (view document.now)) }
    ensures fits { IfOk result IsFitting }
{
    let (tree, records) = read_tree(alloc, document)?;
    let list = read_list(alloc, &tree, document)?;
    Ok(Task {
        tree,
        records,
        list,
    })
}

/// A tree with its records, and lists of accesses over it.
#[derive(Drop)]
pub struct Batch {
    pub tree: Tree,
    pub records: Records,
    pub lists: Vec<AccessList>,
}

/// The document's tree and list, and a plan for them.
#[tactic(auto, unfolding(crate::specs::Outcomes::trial_in))]
pub fn read_trial(alloc: Global, document: &Value) -> Result<(Task, Plan), WireFault>
    ensures read { Gives (λ trial. (trial.0, trial.1)) result (trial_in (view document.now)) }
    ensures fits { IfOk result (λ trial. IsFitting trial.0) }
{
    let task = read_task(alloc, document)?;
    let plan = read_plan(alloc, &task.tree, document)?;
    Ok((task, plan))
}

/// The document's tree, list and plan, and a flow that is to prove the plan least.
#[tactic(auto, unfolding(crate::specs::Outcomes::claim_in, crate::specs::Outcomes::trial_in))]
pub fn read_claim(alloc: Global, document: &Value) -> Result<(Task, Plan, Flow), WireFault>
    ensures read { Gives (λ claim. (claim.0, claim.1, claim.2)) result (claim_in (view document.now)) }
    ensures fits { IfOk result (λ claim. IsFitting claim.0) }
{
    let task = read_task(alloc, document)?;
    let (plan, flow) = read_plan_and_flow(alloc, &task.tree, document)?;
    Ok((task, plan, flow))
}

/// The document's list, plan and flow, over a tree that is there.
#[tactic(auto, unfolding(crate::specs::Outcomes::claim_over))]
pub fn read_claim_over(
    alloc: Global,
    tree: &Tree,
    document: &Value,
) -> Result<(AccessList, Plan, Flow), WireFault>
    ensures read { Gives (λ claim. (claim.0, claim.1, claim.2)) result (claim_over tree.now (view document.now)) }
    ensures fits { IfOk result (λ claim. AreNodes tree.now (nodes_of claim.0)) }
{
    let list = read_list(alloc, tree, document)?;
    let (plan, flow) = read_plan_and_flow(alloc, tree, document)?;
    Ok((list, plan, flow))
}

/// The document's tree and list, and a plan for them where it has one.
#[tactic(auto, unfolding(crate::specs::Outcomes::sketch_in))]
pub fn read_sketch(alloc: Global, document: &Value) -> Result<(Task, Option<Plan>), WireFault>
    ensures read { Gives (λ sketch. (sketch.0, sketch.1)) result (sketch_in (view document.now)) }
    ensures fits { IfOk result (λ sketch. IsFitting sketch.0) }
{
    let task = read_task(alloc, document)?;
    let own = read_own_plan(alloc, &task.tree, document)?;
    Ok((task, own))
}

fn read_own_plan(alloc: Global, tree: &Tree, document: &Value) -> Result<Option<Plan>, WireFault>
    ensures { Gives (λ own. own) result
        (if_there (λ plan. plan_in tree.now (view document.now)) (get (codes "plan") (view document.now))) }
{
    match document.get("plan") {
        Some(_) => Ok(Some(read_plan(alloc, tree, document)?)),
        None => Ok(None),
    }
}

/// The document's tree and lists.
#[tactic(auto, unfolding(crate::specs::Outcomes::batch_in))]
pub fn read_batch(alloc: Global, document: &Value) -> Result<Batch, WireFault>
    ensures read { Gives (λ batch. (batch.tree, batch.records, batch.lists.items)) result
        (batch_in (view document.now)) }
    ensures records { IfOk result (λ batch. length batch.records ≡ length batch.tree) }
    ensures fits { IfOk result (λ batch. All (λ list. AreNodes batch.tree (nodes_of list)) batch.lists.items) }
    ensures few { IfOk result (λ batch. length batch.lists.items ≤ 256) }
{
    let (tree, records) = read_tree(alloc, document)?;
    let lists = read_lists(alloc, &tree, document)?;
    Ok(Batch {
        tree,
        records,
        lists,
    })
}

/// Jobs over a tree with its records, the events of their run, and what is said to stand after them.
#[derive(Drop)]
pub struct History {
    pub tree: Tree,
    pub records: Records,
    pub jobs: Vec<Job>,
    pub events: Vec<Event>,
    pub standing: Option<Standing>,
}

/// The document's tree, jobs and events, and what is said to stand, if anything.
#[tactic(auto, unfolding(crate::specs::Outcomes::history_in))]
pub fn read_history(alloc: Global, document: &Value) -> Result<History, WireFault>
    ensures read { Gives (λ history. (
      history.tree,
      history.records,
      history.jobs.items,
      history.events.items,
      option_map said_standing history.standing,
    )) result (history_in (view document.now)) }
    ensures records { IfOk result (λ history. length history.records ≡ length history.tree) }
    ensures fits { IfOk result (λ history. AllFit history.tree history.jobs.items) }
    ensures few { IfOk result (λ history. length history.jobs.items ≤ 256) }
    ensures short { IfOk result (λ history. length history.events.items ≤ 1048576) }
{
    let (tree, records) = read_tree(alloc, document)?;
    let jobs = read_jobs(alloc, &tree, document)?;
    let events = read_events(alloc, document)?;
    let standing = read_standing(alloc, document)?;
    Ok(History {
        tree,
        records,
        jobs,
        events,
        standing,
    })
}
