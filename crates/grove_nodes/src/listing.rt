//! Lists of accesses by their nodes and lengths.
ghost use Rattle.std.specs.Prelude.{◌≡◌, ◌≤◌, length, IfOk, IfErr};
ghost use Rattle.grove_access.specs.Lists.{nodes_of, lengths_of, AreNodes};
ghost use Rattle.grove_nodes.specs.Lists.{IsListFault};
ghost use Rattle.grove_nodes.specs.Planning.{place_of};
ghost use Rattle.grove_nodes.specs.Telling.{list_status};

use crate::Status;
use grove_access::{Access, AccessList, ListFault, MOST_ACCESSES, Op};
use grove_tree::{NoMemory, Node, Tree};
use std::alloc::Global;

/// The list of these accesses over the tree. What they do is of no importance to a plan; here they read.
pub fn listed(
    alloc: Global,
    tree: &Tree,
    nodes: &[u32],
    lengths: &[u32],
) -> Result<AccessList, ListFault>
    ensures nodes { IfOk result (λ list. nodes_of list ≡ nodes.now) }
    ensures lengths { IfOk result (λ list. lengths_of list ≡ lengths.now) }
    ensures fits { IfOk result (λ list. AreNodes tree.now (nodes_of list)) }
    ensures fault { IfErr result (IsListFault tree.now nodes.now lengths.now) }
{
    if nodes.len() > MOST_ACCESSES || lengths.len() > MOST_ACCESSES {
        return Err(ListFault::TooLong);
    }
    if nodes.len() < lengths.len() {
        return Err(ListFault::NoNode(nodes.len() as u32));
    }
    if lengths.len() < nodes.len() {
        return Err(ListFault::BadLength(lengths.len() as u32));
    }
    list_over(alloc, tree, nodes, lengths)
}

fn list_over(
    alloc: Global,
    tree: &Tree,
    nodes: &[u32],
    lengths: &[u32],
) -> Result<AccessList, ListFault>
    requires many { length nodes.now ≡ length lengths.now }
    requires few { length nodes.now ≤ 64 }
    ensures nodes { IfOk result (λ list. nodes_of list ≡ nodes.now) }
    ensures lengths { IfOk result (λ list. lengths_of list ≡ lengths.now) }
    ensures fits { IfOk result (λ list. AreNodes tree.now (nodes_of list)) }
    ensures fault { IfErr result (IsListFault tree.now nodes.now lengths.now) }
{
    let Ok(accesses) = reads_of(alloc, nodes, lengths) else {
        return Err(ListFault::Memory);
    };
    AccessList::of(tree, accesses)
}

/// Accesses that read these nodes, each of its length.
fn reads_of(alloc: Global, nodes: &[u32], lengths: &[u32]) -> Result<Vec<Access>, NoMemory>
    requires { length nodes.now ≡ length lengths.now }
    ensures nodes { IfOk result (λ reads. nodes_of reads.items ≡ nodes.now) }
    ensures lengths { IfOk result (λ reads. lengths_of reads.items ≡ lengths.now) }
{
    let mut reads = Vec::with_capacity(alloc, nodes.len())?;
    for place in 0..nodes.len() {
        reads.push(Access {
            node: Node::new(nodes[place]),
            op: Op::Get,
            length: lengths[place],
        })?;
    }
    Ok(reads)
}

/// How a call ends for which there is no list.
pub fn status_of(fault: ListFault) -> Status
    ensures { result ≡ list_status fault }
{
    match fault {
        ListFault::Memory => Status::Memory,
        _ => Status::Refused,
    }
}

/// The access at fault.
pub fn place_of(fault: ListFault) -> u32
    ensures { result ≡ place_of fault }
{
    match fault {
        ListFault::TooLong => MOST_ACCESSES as u32,
        ListFault::NoNode(access) | ListFault::BadLength(access) => access,
        ListFault::Memory => 0,
    }
}
