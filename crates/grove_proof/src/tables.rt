ghost use Rattle.std.specs.Prelude.{◌≡◌, ◌<◌, ◌≤◌, ◌^◌, length, IfOk, OnOk};
ghost use Rattle.grove_tree.specs.Trees.{IsTree};
ghost use Rattle.grove_access.specs.Lists.{nodes_of, AreNodes};
ghost use Rattle.grove_proof.specs.Tables.{VisitsByNode, SumsByNode, AreInTree, AreBounded, amount_of};

use crate::FlowRow;
use grove_access::AccessList;
use grove_tree::Tree;
use std::alloc::{AllocError, Global};

/// The accesses of a node itself.
#[derive(Clone, Copy)]
pub struct Visits {
    /// The number of the first one.
    pub first: u32,
    /// One more than the number of the last one, and 0 where there is none.
    pub end: u32,
}

/// An amount that a row takes over from the rows of its children.
#[derive(Clone, Copy)]
pub enum Amount {
    Above,
    Held,
}

impl Amount {
    fn of(self, row: &FlowRow) -> u64
        ensures { result ≡ amount_of self row.now }
    {
        match self {
            Amount::Above => row.above,
            Amount::Held => row.held,
        }
    }
}

/// For each node of the tree, the accesses of its own.
pub fn visits_by_node(
    alloc: Global,
    tree: &Tree,
    list: &AccessList,
) -> Result<Vec<Visits>, AllocError>
    requires fits { AreNodes tree.now (nodes_of list.now) }
    ensures visits { IfOk result (λ table. VisitsByNode tree.now (nodes_of list.now) (length list.now) table.items) }
    ensures short { OnOk result (length list.now ≤ 64) }
{
    let mut table = vec![in alloc; Visits { first: 0, end: 0 }; tree.len() as usize]?;
    for access in 0..list.len() {
        let visits = &mut table[list.get(access).node.number() as usize];
        if visits.end == 0 {
            visits.first = access;
        }
        visits.end = access + 1;
    }
    Ok(table)
}

/// For each node of the tree, an amount added up over the rows of its children.
pub fn sums_by_node(
    alloc: Global,
    tree: &Tree,
    rows: &[FlowRow],
    amount: Amount,
) -> Result<Vec<u128>, AllocError>
    requires tree { IsTree tree.now }
    requires few { length rows.now < 2 ^ 32 }
    requires within { AreInTree tree.now rows.now }
    ensures sums { IfOk result (λ table. SumsByNode tree.now amount rows.now table.items) }
    ensures bounded { IfOk result (λ table. AreBounded table.items) }
{
    let mut table = vec![in alloc; 0u128; tree.len() as usize]?;
    for row in rows {
        if let Some(parent) = tree.parent(row.node) {
            table[parent.number() as usize] += amount.of(row) as u128;
        }
    }
    Ok(table)
}
