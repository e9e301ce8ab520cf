ghost use Rattle.std.specs.Prelude.{◌≡◌, ◌≢◌, ◌<◌, ◌≤◌, ◌↔◌, length, IsTrue, IfOk, IfErr, IsErrOf, IfSome, Some, None};
ghost use Rattle.std.specs.Prelude.{slice_get};
ghost use Rattle.grove_access.specs.Lists.{nodes_of, lengths_of, AreNodes};
ghost use Rattle.grove_access.specs.ListFaults.{AreLengths, AreListed, first_beyond as first_place_beyond};
ghost use Rattle.grove_access.specs.ListFaults.{first_bad_length as first_place_of_no_length, list_fault_of};
ghost use Rattle.grove_access.specs.Slots.{slots_before};

use crate::{Access, ListFault};
use grove_tree::Tree;
use std::alloc::Global;
use std::marker::Model;

/// No list has more accesses.
pub const MOST_ACCESSES: usize = 64;

/// No access of a list takes more slots.
pub const LONGEST_ACCESS: u32 = 1000;

/// The accesses of a transaction, at most 64, done in this order.
#[derive(Debug, Drop)]
pub struct AccessList {
    accesses: Vec<Access>,
}

impl Model for AccessList {
    ghost use Rattle.std.specs.Prelude.{List, ◌≤◌, length};
    ghost use Rattle.grove_access.specs.declared.access.Access.{Access};
    ghost use Rattle.grove_access.specs.Lists.{lengths_of};
    ghost use Rattle.grove_access.specs.ListFaults.{AreLengths};

    ghost Value = { List Access };

    ghost view = { λ list. list.accesses.items };

    ghost invariant = { λ list. (length list.accesses.items ≤ 64) × AreLengths (lengths_of list.accesses.items) };
}

impl AccessList {
    /// The accesses as a list over the tree. It is refused where they are too many; else for the first access that
    /// names no node; else for the first of a bad length; and last for running out of memory.
    pub fn new(alloc: Global, tree: &Tree, accesses: &[Access]) -> Result<AccessList, ListFault>
        ensures accesses { IfOk result (λ list. list ≡ accesses.now) }
        ensures faultless { IfOk result (λ list. list_fault_of tree.now accesses.now ≡ None) }
        ensures fitting { IfOk result (λ list. AreNodes tree.now (nodes_of list)) }
        ensures fault { IfErr result (λ fault. fault ≢ ListFault.Memory → list_fault_of tree.now accesses.now
            ≡ Some fault) }
        ensures refused { IfErr result (λ fault. fault ≢ ListFault.Memory → ¬ AreListed tree.now accesses.now) }
        ensures memory { IsErrOf result ListFault.Memory → list_fault_of tree.now accesses.now ≡ None }
    {
        match fault_of(tree, accesses) {
            Some(fault) => Err(fault),
            None => Ok(AccessList {
                accesses: Vec::from_slice(alloc, accesses)?,
            }),
        }
    }

    /// The accesses themselves as a list over the tree. They are refused as by `new`, but never for memory.
    pub fn of(tree: &Tree, accesses: Vec<Access>) -> Result<AccessList, ListFault>
        ensures accesses { IfOk result (λ list. list ≡ accesses.items) }
        ensures fitting { IfOk result (λ list. AreNodes tree.now (nodes_of list)) }
        ensures fault { IfErr result (λ fault. list_fault_of tree.now accesses.items ≡ Some fault) }
        ensures refused { IfErr result (λ _. ¬ AreListed tree.now accesses.items) }
    {
        match fault_of(tree, &accesses) {
            Some(fault) => Err(fault),
            None => Ok(AccessList { accesses }),
        }
    }

    /// The number of accesses.
    pub fn len(&self) -> u32
        ensures number { result ≡ length self.now }
        ensures few { length self.now ≤ 64 }
        ensures lengths { AreLengths (lengths_of self.now) }
    {
        self.accesses.len() as u32
    }

    pub fn get(&self, access: u32) -> Access
        requires { access < length self.now }
        ensures { slice_get self.now access ≡ Some result }
    {
        self.accesses[access as usize]
    }

    /// How many slots lie before the access: the lengths of those before it, added up.
    pub fn slots_before(&self, access: u32) -> u32
        requires { access ≤ length self.now }
        ensures slots { result ≡ slots_before (lengths_of self.now) access }
        ensures few { result ≤ 64000 }
    {
        // The limits that hold of every list are told with its length.
        let _accesses = self.len();
        let mut slots = 0;
        for earlier in 0..access {
            slots += self.get(earlier).length;
        }
        slots
    }

    /// Does each access name a node of the tree?
    pub fn fits(&self, tree: &Tree) -> bool
        ensures { IsTrue result ↔ AreNodes tree.now (nodes_of self.now) }
    {
        first_beyond(&self.accesses, tree.len()).is_none()
    }
}

// Why the accesses are no list over the tree.
fn fault_of(tree: &Tree, accesses: &[Access]) -> Option<ListFault>
    ensures fault { result ≡ list_fault_of tree.now accesses.now }
    ensures listed { result ≡ None → AreListed tree.now accesses.now }
    ensures refused { IfSome result (λ _. ¬ AreListed tree.now accesses.now) }
{
    if accesses.len() > MOST_ACCESSES {
        return Some(ListFault::TooLong);
    }
    if let Some(access) = first_beyond(accesses, tree.len()) {
        return Some(ListFault::NoNode(access));
    }
    let access = first_bad_length(accesses)?;
    Some(ListFault::BadLength(access))
}

// The first access whose node is not among the first so many.
fn first_beyond(accesses: &[Access], nodes: u32) -> Option<u32>
    requires { length accesses.now ≤ 64 }
    ensures { result ≡ first_place_beyond nodes 0 (nodes_of accesses.now) }
{
    for (place, access) in accesses.iter().enumerate() {
        if access.node.number() >= nodes {
            return Some(place as u32);
        }
    }
    None
}

// The first access that takes no slots, or too many.
fn first_bad_length(accesses: &[Access]) -> Option<u32>
    requires { length accesses.now ≤ 64 }
    ensures { result ≡ first_place_of_no_length 0 (lengths_of accesses.now) }
{
    for (place, access) in accesses.iter().enumerate() {
        if access.length == 0 || access.length > LONGEST_ACCESS {
            return Some(place as u32);
        }
    }
    None
}
