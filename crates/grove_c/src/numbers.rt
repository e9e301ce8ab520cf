//! The calls over numbers in a caller's arrays: nothing that crosses is text, but a path.
ghost use Rattle.std.specs.Prelude.{◌≡◌};
ghost use Rattle.grove_nodes.specs.Checking.{ChecksNodes, JudgesNodes};
ghost use Rattle.grove_nodes.specs.Parts.{PlansPart};
ghost use Rattle.grove_nodes.specs.Planning.{AreUntouched, PlansNodes};
ghost use Rattle.grove_nodes.specs.Weighing.{FindsNode};
ghost use Rattle.grove_c.specs.Numbers.{AsksNodes, Builds, Ends, ReweighsHeld};

use crate::handle::Handle;
use crate::kept::Kept;
use grove_nodes::{
    Checked, Counted, NumberedRow, NumberedStep, PartNode, Status, build_tree, plan_part,
};
use grove_tree::TreeFault;
use std::alloc::Global;

/// Major, minor and patch of this library, a byte each.
const VERSION: u32 = 0x00_02_00;

/// The version of the library, for a caller that compares it with its header's.
#[unsafe(no_mangle)]
pub extern "C" fn grove_c_version() -> u32
    ensures { result ≡ 512 }
{
    VERSION
}

/// Has the handle hold the tree of these parents and weights.
#[unsafe(no_mangle)]
pub extern "C" fn grove_c_tree_build(
    alloc: Global,
    tree: &mut Handle,
    parents: &[u32],
    weights: &[u32],
) -> u32
    ensures { Ends (Builds parents.now weights.now tree.old.value tree.new.value) result }
{
    built(alloc, parents, weights, tree).number()
}

fn built(alloc: Global, parents: &[u32], weights: &[u32], handle: &mut Handle) -> Status
    ensures { Builds parents.now weights.now handle.old.value handle.new.value result }
{
    match build_tree(alloc, parents, weights) {
        Ok(tree) => match Box::new(alloc, Kept::Tree(tree)) {
            Ok(kept) => {
                handle.hold(kept);
                Status::Done
            }
            Err(_) => Status::Memory,
        },
        Err(TreeFault::Memory) => Status::Memory,
        Err(_) => Status::Refused,
    }
}

/// The number of the node of a path.
#[unsafe(no_mangle)]
pub extern "C" fn grove_c_tree_find(
    alloc: Global,
    tree: &mut Handle,
    path: &[u8],
    node: &mut u32,
) -> u32
    ensures { AsksNodes (λ rows. FindsNode rows path.now node.old node.new) (node.new ≡ node.old)
        tree.old.value tree.new.value result }
{
    match tree.take(alloc) {
        Some(kept) => {
            let status = kept.find_node(path, node);
            tree.hold(kept);
            status.number()
        }
        None => Status::Closed.number(),
    }
}

/// The settled plan, over the tree that is held, of accesses of these nodes, each of its length, and the flow that proves
/// it.
#[unsafe(no_mangle)]
pub extern "C" fn grove_c_tree_plan_nodes(
    alloc: Global,
    tree: &mut Handle,
    nodes: &[u32],
    lengths: &[u32],
    steps: &mut [NumberedStep],
    flow: &mut [NumberedRow],
    planned: &mut Counted,
) -> u32
    ensures { AsksNodes (λ rows. PlansNodes rows nodes.now lengths.now
        (record { steps_before = steps.old; steps_after = steps.new; rows_before = flow.old; rows_after = flow.new })
        planned.new)
        (AreUntouched (record {
          steps_before = steps.old;
          steps_after = steps.new;
          rows_before = flow.old;
          rows_after = flow.new;
        }))
        tree.old.value tree.new.value result }
{
    match tree.take(alloc) {
        Some(kept) => {
            let status = kept.plan_nodes(alloc, nodes, lengths, steps, flow, planned);
            tree.hold(kept);
            status.number()
        }
        None => Status::Closed.number(),
    }
}

/// What the steps cost over the tree that is held, where the rows prove that no legal plan costs less.
#[unsafe(no_mangle)]
pub extern "C" fn grove_c_tree_check_nodes(
    alloc: Global,
    tree: &mut Handle,
    nodes: &[u32],
    lengths: &[u32],
    steps: &[NumberedStep],
    flow: &[NumberedRow],
    checked: &mut Checked,
) -> u32
    ensures { AsksNodes (λ rows. ChecksNodes rows nodes.now lengths.now steps.now flow.now checked.new)
        (checked.new ≡ checked.old) tree.old.value tree.new.value result }
{
    match tree.take(alloc) {
        Some(kept) => {
            let status = kept.check_nodes(alloc, nodes, lengths, steps, flow, checked);
            tree.hold(kept);
            status.number()
        }
        None => Status::Closed.number(),
    }
}

/// What the steps cost over the tree that is held, where they are a legal plan.
#[unsafe(no_mangle)]
pub extern "C" fn grove_c_tree_judge_nodes(
    alloc: Global,
    tree: &mut Handle,
    nodes: &[u32],
    lengths: &[u32],
    steps: &[NumberedStep],
    checked: &mut Checked,
) -> u32
    ensures { AsksNodes (λ rows. JudgesNodes rows nodes.now lengths.now steps.now checked.new)
        (checked.new ≡ checked.old) tree.old.value tree.new.value result }
{
    match tree.take(alloc) {
        Some(kept) => {
            let status = kept.judge_nodes(alloc, nodes, lengths, steps, checked);
            tree.hold(kept);
            status.number()
        }
        None => Status::Closed.number(),
    }
}

/// Gives each node of the tree that is held its new weight by the waits at its number.
#[unsafe(no_mangle)]
pub extern "C" fn grove_c_tree_reweigh(
    alloc: Global,
    tree: &mut Handle,
    waits: &[u32],
    weights: &mut [u32],
    changed: &mut u32,
) -> u32
    ensures { ReweighsHeld waits.now
        (record { before = weights.old; after = weights.new; count_before = changed.old; count_after = changed.new })
        tree.old.value tree.new.value result }
{
    match tree.take(alloc) {
        Some(mut kept) => {
            let status = kept.reweigh(waits, weights, changed);
            tree.hold(kept);
            status.number()
        }
        None => Status::Closed.number(),
    }
}

/// The settled plan, over the whole tree, of accesses of these places of a part of it, each of its length, and the flow
/// that proves it.
#[unsafe(no_mangle)]
pub extern "C" fn grove_c_plan_part(
    alloc: Global,
    part: &[PartNode],
    nodes: &[u32],
    lengths: &[u32],
    steps: &mut [NumberedStep],
    flow: &mut [NumberedRow],
    planned: &mut Counted,
) -> u32
    ensures { Ends (PlansPart part.now nodes.now lengths.now
        (record { steps_before = steps.old; steps_after = steps.new; rows_before = flow.old; rows_after = flow.new })
        planned.new) result }
{
    plan_part(alloc, part, nodes, lengths, steps, flow, planned).number()
}
