ghost use Rattle.std.specs.Prelude.{◌≡◌, Some};
ghost use Rattle.grove_plan.specs.Plans.{locks, unlocks, is_access};

use grove_tree::Node;

/// A step of a plan.
#[derive(Clone, Copy, Debug, PartialEq, Eq)]
pub enum Step {
    Lock(Node),
    Unlock(Node),
    /// The access with this number, counted from 0, in the plan's list.
    Access(u32),
}

impl Step {
    pub(crate) fn locks(self, node: Node) -> bool
        ensures { result ≡ locks node (Some self) }
    {
        match self {
            Step::Lock(locked) => locked.number() == node.number(),
            _ => false,
        }
    }

    pub(crate) fn unlocks(self, node: Node) -> bool
        ensures { result ≡ unlocks node (Some self) }
    {
        match self {
            Step::Unlock(unlocked) => unlocked.number() == node.number(),
            _ => false,
        }
    }

    pub(crate) fn is_access(self) -> bool
        ensures { result ≡ is_access (Some self) }
    {
        matches!(self, Step::Access(_))
    }
}
