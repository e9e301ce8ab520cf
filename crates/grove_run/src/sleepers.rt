ghost use Rattle.std.specs.Prelude.{◌<◌};

use grove_tree::Node;

/// No more workers do a batch. Each has a slot, at which it sleeps.
pub const SLOTS: usize = 16;

/// How many counts of sleepers there are.
const COUNTS: usize = 64;

/// What a worker sleeps for, whose job is blocked.
#[derive(Clone, Copy, Debug)]
pub struct Sleep {
    /// The node that it waits for.
    pub node: Node,
    /// Its job.
    pub txn: u32,
    /// The place in the job's plan of the lock that is blocked.
    pub place: usize,
    /// The job holds some node.
    pub holds_some: bool,
}

/// The slots of those to wake.
#[derive(Clone, Copy, Debug)]
pub struct Woken {
    slots: [bool; SLOTS],
}

impl Woken {
    pub fn new() -> Woken {
        Woken {
            slots: [false; SLOTS],
        }
    }

    /// The worker of this slot is to be woken too.
    pub fn add(&mut self, slot: usize) {
        self.slots[slot % SLOTS] = true;
    }

    /// Is the worker of this slot to be woken?
    pub fn has(&self, slot: usize) -> bool {
        self.slots[slot % SLOTS]
    }
}

/// Who sleeps, as those know who have the register.
#[derive(Debug, Drop)]
pub struct Sleepers {
    slots: [Option<Sleep>; SLOTS],
    /// How many sleep for nodes of these numbers, so that mostly no slot is looked at.
    counts: [u8; COUNTS],
}

impl Sleepers {
    pub fn new() -> Sleepers {
        Sleepers {
            slots: [None; SLOTS],
            counts: [0; COUNTS],
        }
    }

    /// The worker of a slot falls asleep.
    pub fn enter(&mut self, slot: usize, sleep: Sleep) {
        let place = place_of(sleep.node);
        self.counts[place] = self.counts[place].saturating_add(1);
        self.slots[slot % SLOTS] = Some(sleep);
    }

    /// May somebody sleep for the node? Where nobody does for a node with such a number, no slot is looked at.
    pub fn may_wait_for(&self, node: Node) -> bool {
        self.counts[place_of(node)] != 0
    }

    /// Takes out the worker of a slot, where it sleeps for the node.
    pub fn leave(&mut self, slot: usize, node: Node) -> Option<Sleep> {
        let sleep = self.slots[slot % SLOTS]?;
        if sleep.node != node {
            return None;
        }
        let place = place_of(node);
        self.counts[place] = self.counts[place].saturating_sub(1);
        self.slots[slot % SLOTS] = None;
        Some(sleep)
    }
}

// Which count a node belongs to.
fn place_of(node: Node) -> usize
    ensures { result < 64 }
{
    node.number() as usize % COUNTS
}
