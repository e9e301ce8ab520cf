ghost use Rattle.std.specs.Prelude.{◌≡◌, ◌<◌, ◌↔◌, length, IsTrue, IfOk};
ghost use Rattle.grove_access.specs.Effects.{stored, answer, record_at, changed_by, reply_to};

use crate::{Access, Op, Reply};
use grove_tree::{NoMemory, Node, Tree};
use std::alloc::Global;
use std::marker::Model;

/// The records of a tree's nodes, by the nodes' numbers.
#[derive(Debug, Drop)]
pub struct Records {
    values: Vec<i64>,
}

impl Model for Records {
    ghost use Rattle.std.specs.Prelude.{List, ℤ};

    ghost Value = { List ℤ };

    ghost view = { λ records. records.values.items };
}

impl Records {
    pub fn new(alloc: Global, values: &[i64]) -> Result<Records, NoMemory>
        ensures { IfOk result (λ records. records ≡ values.now) }
    {
        let values = Vec::from_slice(alloc, values)?;
        Ok(Records { values })
    }

    pub fn copy(&self, alloc: Global) -> Result<Records, NoMemory>
        ensures { IfOk result (λ copy. copy ≡ self.now) }
    {
        Records::new(alloc, &self.values)
    }

    /// The number of records.
    pub fn len(&self) -> usize
        ensures { result ≡ length self.now }
    {
        self.values.len()
    }

    /// The records, by the nodes' numbers.
    pub fn values(&self) -> &[i64]
        ensures { result.now ≡ self.now }
    {
        &self.values
    }

    pub fn get(&self, node: Node) -> i64
        requires { node < length self.now }
        ensures { result ≡ record_at self.now node }
    {
        self.values[node.number() as usize]
    }

    /// Is there a record for each node of the tree, and no other?
    pub fn fits(&self, tree: &Tree) -> bool
        ensures { IsTrue result ↔ (length self.now ≡ length tree.now) }
    {
        self.len() == tree.len() as usize
    }

    /// Does the access.
    pub fn apply(&mut self, access: &Access) -> Reply
        requires { access.now.node < length self.old }
        ensures records { self.new ≡ changed_by access.now self.old }
        ensures reply { result ≡ reply_to access.now self.old }
    {
        let place = access.node.number() as usize;
        let (value, reply) = done(access.op, self.values[place]);
        self.values[place] = value;
        reply
    }
}

/// What an operation leaves in a record, and its reply.
pub(crate) fn done(op: Op, old: i64) -> (i64, Reply)
    ensures left { result.0 ≡ stored op old }
    ensures reply { result.1 ≡ answer op old }
{
    match op {
        Op::Get => (old, Reply::Value(old)),
        Op::Set(number) => (number, Reply::Done),
        Op::Add(number) => match old.checked_add(number) {
            Some(sum) => (sum, Reply::Value(sum)),
            None => (old, Reply::Range),
        },
        Op::Take(number) if old < number => (old, Reply::Short),
        Op::Take(number) => match old.checked_sub(number) {
            Some(rest) => (rest, Reply::Value(rest)),
            None => (old, Reply::Range),
        },
    }
}
