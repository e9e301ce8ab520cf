ghost use Rattle.std.specs.Prelude.{◌^◌, ◌<◌, ◌≤◌};
ghost use Rattle.smallvec.specs.SmallVec.{HasRoomFor};
ghost use Rattle.grove_core.specs.Cores.{IsLocked, IsUnlocked, IsAnswered, IsMarked};

use crate::locking::Locked;
use grove_access::Reply;
use smallvec::SmallVec;

/// So many locks and replies of a job take no memory of their own.
const FEW: usize = 2;

/// How far a job has come.
#[derive(Debug, Drop)]
pub struct Progress {
    /// The number of steps done.
    pub steps_done: usize,
    /// The next step, a lock, has a mark.
    pub marked: bool,
    /// The replies of the accesses done; there is room for those of the whole list.
    pub replies: SmallVec<Reply, FEW>,
    /// The job's locks of nodes that some job locks first, in order; there is room for as many as its plan has locks.
    pub locked: SmallVec<Locked, FEW>,
    /// How many nodes the job holds.
    pub held_nodes: usize,
}

impl Progress {
    /// A lock is done, which is kept where it is given.
    pub fn lock(&mut self, kept: Option<Locked>)
        requires few { self.old.steps_done < 2 ^ 32 }
        requires hold { self.old.held_nodes ≤ self.old.steps_done }
        requires room { HasRoomFor self.old.locked 1 }
        ensures { IsLocked kept self.old self.new }
    {
        self.steps_done += 1;
        self.marked = false;
        self.held_nodes += 1;
        if let Some(lock) = kept {
            self.locked.push_reserved(lock);
        }
    }

    /// An unlock is done.
    pub fn unlock(&mut self)
        requires few { self.old.steps_done < 2 ^ 32 }
        requires hold { 0 < self.old.held_nodes }
        ensures { IsUnlocked self.old self.new }
    {
        self.steps_done += 1;
        self.marked = false;
        self.held_nodes -= 1;
    }

    /// An access is done, with this reply.
    pub fn answer(&mut self, reply: Reply)
        requires few { self.old.steps_done < 2 ^ 32 }
        requires room { HasRoomFor self.old.replies 1 }
        ensures { IsAnswered reply self.old self.new }
    {
        self.steps_done += 1;
        self.marked = false;
        self.replies.push_reserved(reply);
    }

    /// The next step gets a mark.
    pub fn mark(&mut self)
        ensures { IsMarked self.old self.new }
    {
        self.marked = true;
    }
}
