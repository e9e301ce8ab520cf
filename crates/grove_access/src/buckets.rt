ghost use Rattle.std.specs.Prelude.{◌≡◌, ◌+◌, ◌-◌, ◌%◌, ◌<◌, ℤ, List, [], ◌∷◌, ◌++◌, Some, None, true, IfOk};
ghost use Rattle.grove_access.specs.declared.known.Known.{Known};
ghost use Rattle.grove_access.specs.Carries.{known_at, without};
ghost use Rattle.grove_access.specs.KnownPlaces.{Counts};

use grove_tree::Node;
use std::alloc::{AllocError, Global};

/// How many buckets there are: more than a plan mostly has out at once, so most of them are empty.
const BUCKETS: usize = 256;

/// So many nodes are looked at one by one, and not counted.
const FEW: usize = 16;

/// How many nodes fall into each of a few buckets, by their numbers, so that most nodes that aren't among them are
/// known not to be without a look at each. A count that reached 255 stays there.
#[derive(Debug, Drop)]
pub struct Buckets {
    /// Empty where there are never more than a few nodes.
    counts: Vec<u8>,
}

impl Buckets {
    /// For so many nodes at most, and none yet.
    pub fn new(alloc: Global, most_nodes: usize) -> Result<Buckets, AllocError>
        ensures { IfOk result (λ buckets. Counts buckets.counts.items []) }
    {
        let buckets = if most_nodes > FEW { BUCKETS } else { 0 };
        let counts = Vec::from_elem(alloc, 0, buckets)?;
        Ok(Buckets { counts })
    }

    /// Is it known that the node isn't among those counted?
    pub fn rule_out(&self, node: Node) -> bool
        ensures { result ≡ true → (known : List Known) → Counts self.now.counts.items known
            → known_at known node ≡ None }
    {
        let bucket = bucket_of(node);
        bucket < self.counts.len() && self.counts[bucket] == 0
    }

    /// Counts a node more.
    pub fn add(&mut self, node: Node)
        ensures { (known : List Known) (value : ℤ) → Counts self.old.counts.items known
            → Counts self.new.counts.items (known ++ record { node = node; value = value } ∷ []) }
    {
        let bucket = bucket_of(node);
        if bucket < self.counts.len() {
            self.counts[bucket] = one_more(self.counts[bucket]);
        }
    }

    /// Counts a node less.
    pub fn remove(&mut self, node: Node)
        ensures { (known : List Known) (value : ℤ) → known_at known node ≡ Some value
            → Counts self.old.counts.items known → Counts self.new.counts.items (without known node) }
    {
        let bucket = bucket_of(node);
        if bucket < self.counts.len() {
            self.counts[bucket] = one_less(self.counts[bucket]);
        }
    }
}

fn bucket_of(node: Node) -> usize
    ensures { result ≡ node % 256 }
{
    node.number() as usize % BUCKETS
}

fn one_more(count: u8) -> u8
    ensures { result < 255 → (count < 255) × (result ≡ count + 1) }
{
    count.saturating_add(1)
}

fn one_less(count: u8) -> u8
    ensures { result < 255 → (count < 255) × (result ≡ count - 1) }
{
    if count == u8::MAX {
        count
    } else {
        count.saturating_sub(1)
    }
}
