ghost use Rattle.std.specs.Prelude.{◌≡◌};
ghost use Rattle.grove_core.specs.Cores.{time_in};
ghost use Rattle.grove_core.specs.Orders.{first_lock, earlier};

use grove_plan::Step;
use grove_tree::Node;

/// That a job locked a node, after so many events.
#[derive(Clone, Copy, Debug, Default)]
pub struct Locked {
    pub node: Node,
    pub time: usize,
}

/// How many events came before the lock of a node.
pub fn time_in(locked: &[Locked], node: Node) -> Option<usize>
    ensures { result ≡ time_in locked.now node }
{
    for lock in locked {
        if lock.node == node {
            return Some(lock.time);
        }
    }
    None
}

/// The node that is locked first.
pub fn first_lock(steps: &[Step]) -> Option<Node>
    ensures { result ≡ first_lock steps.now }
{
    for step in steps {
        if let Step::Lock(node) = step {
            return Some(*node);
        }
    }
    None
}

/// Are both times there, and the first before the second?
pub fn is_earlier(first: Option<usize>, second: Option<usize>) -> bool
    ensures { result ≡ earlier first second }
{
    match (first, second) {
        (Some(first), Some(second)) => first < second,
        _ => false,
    }
}
