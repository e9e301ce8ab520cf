ghost use Rattle.std.specs.Prelude.{◌≡◌, Some, None, unwrap_or, length, IsFalse};
ghost use Rattle.grove_access.specs.Lists.{nodes_of, lengths_of};
ghost use Rattle.grove_span.specs.Ways.{HaveSlots, TellsOf, IsUnnamed};

use grove_access::AccessList;
use grove_tree::Node;

/// The first and the last access of a node itself.
#[derive(Clone, Copy)]
pub struct Visits {
    pub first: Option<u32>,
    pub last: Option<u32>,
    /// How many slots lie before the first one.
    pub from: Option<u32>,
    /// How many slots lie before the end of the last one.
    pub until: Option<u32>,
}

impl Visits {
    pub const NONE: Visits = Visits {
        first: None,
        last: None,
        from: None,
        until: None,
    };

    /// The same with one more access, which comes after the others: so many slots lie before it, and before its end.
    pub fn with(self, access: u32, before: u32, after: u32) -> Visits
        ensures first { result.first ≡ Some (unwrap_or self.first access) }
        ensures last { result.last ≡ Some access }
        ensures from { result.from ≡ Some (unwrap_or self.from before) }
        ensures until { result.until ≡ Some after }
    {
        Visits {
            first: Some(self.first.unwrap_or(access)),
            last: Some(access),
            from: Some(self.from.unwrap_or(before)),
            until: Some(after),
        }
    }
}

/// The first and the last access of a node that is accessed, and none of another.
pub fn visits_at(list: &AccessList, node: Node, accessed: bool) -> Visits
    requires { IsFalse accessed → IsUnnamed (nodes_of list.now) node }
    ensures tells { TellsOf (nodes_of list.now) (length (nodes_of list.now)) node result }
    ensures slots { HaveSlots (lengths_of list.now) result }
{
    if accessed {
        visits_of(list, node)
    } else {
        Visits::NONE
    }
}

/// The first and the last access of the node.
pub fn visits_of(list: &AccessList, node: Node) -> Visits
    ensures tells { TellsOf (nodes_of list.now) (length (nodes_of list.now)) node result }
    ensures slots { HaveSlots (lengths_of list.now) result }
{
    let mut visits = Visits::NONE;
    let mut before = 0;
    for number in 0..list.len() {
        let access = list.get(number);
        let after = before + access.length;
        if access.node == node {
            visits = visits.with(number, before, after);
        }
        before = after;
    }
    visits
}
