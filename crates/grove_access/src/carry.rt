ghost use Rattle.std.specs.Prelude.{◌≡◌, ◌<◌, ◌≤◌, ◌↔◌, [], ◌∷◌, ◌++◌, length, true, false, None, Some, IfOk, IfSome};
ghost use Rattle.std.specs.Prelude.{IfNone, IsTrue, is_some};
ghost use Rattle.grove_access.specs.Carries.{known_at, present_at, without, carry_settled, IsSound, CanApply};
ghost use Rattle.grove_access.specs.Carries.{IsApplied};

use crate::buckets::Buckets;
use crate::carrying::{hold, known_value, note, release, reply_on, settle_all, value_left};
use crate::{AccessList, Entry, Known, Reply};
use grove_tree::{NoMemory, Node};
use std::alloc::Global;
use std::marker::Model;

/// The records that a transaction has out: its nodes, with the values that were known when they were taken out or
/// settled last, and the accesses done since then.
#[derive(Debug, Drop)]
pub struct Carry {
    txn: u32,
    most_nodes: usize,
    most_entries: usize,
    known: Vec<Known>,
    entries: Vec<Entry>,
    /// How many of the nodes that are out are in each bucket, where many may be out.
    buckets: Buckets,
}

impl Model for Carry {
    ghost use Rattle.std.specs.Prelude.{◌≤◌, length, vec_capacity};
    ghost use Rattle.grove_access.specs.Carries.{Carried, IsSound};
    ghost use Rattle.grove_access.specs.KnownPlaces.{Counts};

    ghost Value = { Carried };

    ghost view = { λ carry. record {
      txn = carry.txn;
      most_nodes = carry.most_nodes;
      most_entries = carry.most_entries;
      known = carry.known.items;
      entries = carry.entries.items;
    } };

    ghost invariant = { λ carry. IsSound carry.known.items carry.entries.items
        × (length carry.known.items ≤ carry.most_nodes) × (carry.most_nodes ≤ vec_capacity carry.known)
        × (length carry.entries.items ≤ carry.most_entries) × (carry.most_entries ≤ vec_capacity carry.entries)
        × (carry.most_entries ≤ 64) × Counts carry.buckets.counts.items carry.known.items };
}

impl Carry {
    /// A carry of a transaction with nothing out. It has room for so many nodes, and for each access of the list.
    pub fn new(alloc: Global, txn: u32, list: &AccessList, locks: u32) -> Result<Carry, NoMemory>
        ensures { IfOk result
            (λ carry. carry ≡ record {
              txn = txn;
              most_nodes = locks;
              most_entries = length list.now;
              known = [];
              entries = [];
            }) }
    {
        let known = Vec::with_capacity(alloc, locks as usize)?;
        let entries = Vec::with_capacity(alloc, list.len() as usize)?;
        let buckets = Buckets::new(alloc, locks as usize)?;
        Ok(Carry {
            txn,
            most_nodes: locks as usize,
            most_entries: list.len() as usize,
            known,
            entries,
            buckets,
        })
    }

    /// The transaction. What holds of every carry is told here.
    pub fn txn(&self) -> u32
        ensures txn { result ≡ self.now.txn }
        ensures sound { IsSound self.now.known self.now.entries }
        ensures nodes { length self.now.known ≤ self.now.most_nodes }
        ensures entries { length self.now.entries ≤ self.now.most_entries }
        ensures few { self.now.most_entries ≤ 64 }
    {
        self.txn
    }

    /// A further transaction takes the carry over, once nothing is out.
    pub fn begin(&mut self, txn: u32)
        requires nothing { self.old.known ≡ [] }
        requires done { self.old.entries ≡ [] }
        ensures { self.new ≡ record self.old { txn = txn } }
    {
        self.txn = txn;
    }

    /// Is nothing out, and no entry left?
    pub fn is_empty(&self) -> bool
        ensures { IsTrue result ↔ ((self.now.known ≡ []) × (self.now.entries ≡ [])) }
    {
        self.known.is_empty() && self.entries.is_empty()
    }

    /// The nodes that are out, with their known values.
    pub fn known(&self) -> &[Known]
        ensures { result.now ≡ self.now.known }
    {
        &self.known
    }

    /// The accesses done since the values were known, the earliest first.
    pub fn entries(&self) -> &[Entry]
        ensures { result.now ≡ self.now.entries }
    {
        &self.entries
    }

    /// Is there no room for a further node?
    pub fn is_full(&self) -> bool
        ensures { IsTrue result ↔ (length self.now.known ≡ self.now.most_nodes) }
    {
        self.known.len() == self.most_nodes
    }

    /// The present value of a node.
    pub fn value(&self, node: Node) -> Option<i64>
        ensures { result ≡ present_at self.now node }
    {
        let value = known_value(&self.known, node)?;
        Some(value_left(&self.entries, node, value))
    }

    /// Does the access of this number of the transaction's list, where it may be done.
    pub fn apply(&mut self, list: &AccessList, access: u32) -> Option<Reply>
        ensures applied { IfSome result (λ reply. IsApplied list.now access reply self.old self.new) }
        ensures cannot { IfNone result (CanApply list.now access self.old → ⊥) }
        ensures unchanged { IfNone result (self.new ≡ self.old) }
    {
        if access >= list.len() || self.entries.len() == self.most_entries {
            return None;
        }
        let visit = list.get(access);
        let value = self.value(visit.node)?;
        let reply = reply_on(visit.op, value);
        note(&mut self.entries, access, visit, reply);
        Some(reply)
    }

    /// Takes a node in with its record, where it isn't out and there is room.
    pub fn put(&mut self, node: Node, value: i64) -> bool
        ensures may { IsTrue result
            ↔ ((known_at self.old.known node ≡ None) × (length self.old.known < self.old.most_nodes)) }
        ensures put { result ≡ true
            → self.new ≡ record self.old { known = self.old.known ++ record { node = node; value = value } ∷ [] } }
        ensures unchanged { result ≡ false → self.new ≡ self.old }
    {
        if self.known.len() == self.most_nodes || self.has(node) {
            return false;
        }
        self.buckets.add(node);
        hold(&mut self.known, node, value);
        true
    }

    /// Takes a node out of the carry, where it is there and no entries stand, and answers its record.
    pub fn give(&mut self, node: Node) -> Option<i64>
        ensures given { IfSome result (λ value. (self.old.entries ≡ []) × (known_at self.old.known node ≡ Some value)) }
        ensures without { IfSome result (λ _. self.new ≡ record self.old { known = without self.old.known node }) }
        ensures cannot { IfNone result (self.old.entries ≡ [] → known_at self.old.known node ≡ None) }
        ensures unchanged { IfNone result (self.new ≡ self.old) }
    {
        if !self.entries.is_empty() {
            return None;
        }
        let value = release(&mut self.known, node)?;
        self.buckets.remove(node);
        Some(value)
    }

    /// Makes the present values the known ones, and drops the entries.
    pub fn settle(&mut self)
        ensures { self.new ≡ carry_settled self.old }
    {
        settle_all(&mut self.known, &self.entries);
        self.entries.clear();
    }

    // Is the node out? Where its bucket is empty, none is looked at.
    fn has(&self, node: Node) -> bool
        ensures { result ≡ is_some (known_at self.now.known node) }
    {
        !self.buckets.rule_out(node) && known_value(&self.known, node).is_some()
    }
}
